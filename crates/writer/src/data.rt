// The data call: bytes, or samples that are packed on the way. They go to the end of the file.
ghost use Rattle.std.specs.Prelude.{length};
ghost use Rattle.writer.specs.Outcome.{Gives, GivesFirst};
ghost use Rattle.writer.specs.Data.{data_call, samples_call};
ghost use Rattle.writer.specs.Shapes.{wrote_of, counted_of};

use crate::budget::{ALL, with_stores};
use crate::{CAFWriter, Counted, RefusedCall};
use answers::Refusal;
use byte_order::store::store;
use pcm::packing::pack_first;
use pcm::sample::SAMPLE_SIZE;

impl CAFWriter {
    // Does the first n stores of the call.
    pub fn write_data_counted(
        self,
        buf: &mut [u8],
        data: &[u8],
        n: usize,
    ) -> Result<Counted, Refusal>
        ensures { GivesFirst n (data_call self (length buf.old) «data».now) self (counted_of self.file_len result) buf.old buf.new }
    {
        let len = self.file_len;
        self.standing(buf.len())
            .check_data(len, buf.len(), data.len())?;
        let stores = store(buf, len, data, n);
        Ok(with_stores(len, len, stores))
    }

    pub fn write_data(mut self, buf: &mut [u8], data: &[u8]) -> Result<CAFWriter, RefusedCall>
        ensures { Gives (data_call self (length buf.old) «data».now) (wrote_of result) buf.old buf.new }
    {
        let counted = self.write_data_counted(buf, data, ALL);
        match counted {
            Ok(done) => {
                self.file_len += done.stores;
                self.data_count += done.stores;
                Ok(self)
            }
            Err(refusal) => Err(RefusedCall {
                writer: self,
                refusal,
            }),
        }
    }

    // The bytes of the samples, packed in the record's byte order. n counts bytes.
    pub fn write_pcm_24bit_as_packed_counted(
        self,
        buf: &mut [u8],
        samples: &[i32],
        n: usize,
    ) -> Result<Counted, Refusal>
        ensures { GivesFirst n (samples_call self (length buf.old) samples.now) self (counted_of self.file_len result) buf.old buf.new }
    {
        let len = self.file_len;
        let absent = self.format.is_none();
        self.standing(buf.len())
            .check_samples(absent, len, buf.len(), SAMPLE_SIZE * samples.len())?;
        let stores = pack_first(samples, self.endianness, buf, len, n);
        Ok(with_stores(len, len, stores))
    }

    pub fn write_pcm_24bit_as_packed(
        mut self,
        buf: &mut [u8],
        samples: &[i32],
    ) -> Result<CAFWriter, RefusedCall>
        ensures { Gives (samples_call self (length buf.old) samples.now) (wrote_of result) buf.old buf.new }
    {
        let counted = self.write_pcm_24bit_as_packed_counted(buf, samples, ALL);
        match counted {
            Ok(done) => {
                self.file_len += done.stores;
                self.data_count += done.stores;
                Ok(self)
            }
            Err(refusal) => Err(RefusedCall {
                writer: self,
                refusal,
            }),
        }
    }
}
