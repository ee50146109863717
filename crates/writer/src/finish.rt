// The finish call: the size of the data goes into its field, most significant byte first.
ghost use Rattle.std.specs.Prelude.{◌≡◌, ◌≤◌, length};
ghost use Rattle.answers.specs.Numbers.{file_max};
ghost use Rattle.writer.specs.Outcome.{Gives, GivesFirst};
ghost use Rattle.writer.specs.Finish.{final_size, finish_call};
ghost use Rattle.writer.specs.Shapes.{wrote_of, counted_of};

use crate::budget::{ALL, with_stores};
use crate::{CAFWriter, Counted, RefusedCall};
use answers::Refusal;
use byte_order::store::store;
use reading::sizes::EDIT_COUNT;

impl CAFWriter {
    // The edit count and the payload, which is what stands from the data start to the end of the file.
    fn final_size(self) -> [u8; 8]
        requires { (self.data_start ≤ self.file_len) × (self.file_len ≤ file_max) }
        ensures { result ≡ final_size self }
    {
        ((self.file_len - self.data_start + EDIT_COUNT) as u64).to_be_bytes()
    }

    // Does the first n stores of the call.
    pub fn finish_counted(self, buf: &mut [u8], n: usize) -> Result<Counted, Refusal>
        ensures { GivesFirst n (finish_call self (length buf.old)) self (counted_of self.file_len result) buf.old buf.new }
    {
        let len = self.file_len;
        self.standing(buf.len()).check_finish()?;
        // a second finish stores nothing
        if self.finished {
            return Ok(Counted {
                stores: 0,
                file_len: len,
            });
        }
        let at = self.size_position;
        let stores = store(buf, at, &self.final_size(), n);
        Ok(with_stores(len, at, stores))
    }

    pub fn finish(mut self, buf: &mut [u8]) -> Result<CAFWriter, RefusedCall>
        ensures { Gives (finish_call self (length buf.old)) (wrote_of result) buf.old buf.new }
    {
        let counted = self.finish_counted(buf, ALL);
        match counted {
            Ok(_) => {
                self.finished = true;
                Ok(self)
            }
            Err(refusal) => Err(RefusedCall {
                writer: self,
                refusal,
            }),
        }
    }
}
