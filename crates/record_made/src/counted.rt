// The counted forms: the first n stores of a call. The record in `held` is only read; how many stores were done and the length of
// the file go to `out`.
ghost use Rattle.std.specs.Prelude.{◌≡◌, ◌≤◌, length};
ghost use Rattle.byte_order.specs.Splice.{splice};
ghost use Rattle.writer.specs.Header.{header_call};
ghost use Rattle.writer.specs.Data.{data_call, samples_call};
ghost use Rattle.writer.specs.Finish.{finish_call};
ghost use Rattle.writer.specs.Shapes.{counted_of};
ghost use Rattle.record_calls.specs.RecordCalls.{counted_places, counted_numbers, CountedCall};

use answers::Refusal;
use answers::refusal::DONE;
use numbers::lent_numbers::put;
use record_numbers::record_from_numbers::record_in;
use writer::Counted;
use writer::budget::counts_of;

const COUNTED_PLACES: usize = 2;

fn tell(out: &mut [u64], file_len: usize, outcome: Result<Counted, Refusal>) -> u32
    requires { counted_places ≤ length out.old }
    ensures { (result ≡ (counted_of file_len outcome).number) × (out.new ≡ splice out.old 0 (counted_numbers (counted_of file_len outcome))) }
{
    let counts = counts_of(outcome, file_len);
    put(out, 0, &[counts.stores as u64, counts.file_len as u64]);
    match outcome {
        Ok(_) => DONE,
        Err(refusal) => refusal.number(),
    }
}

pub fn write_header_counted(held: &[u64], buf: &mut [u8], n: u64, out: &mut [u64]) -> u32
    ensures { CountedCall n held.now buf.old out.old (λ w. header_call w (length buf.old)) result buf.new out.new }
{
    if out.len() < COUNTED_PLACES {
        return Refusal::NoRoom.number();
    }
    let Some(writer) = record_in(held) else {
        return tell(out, 0, Err(Refusal::BadWriter));
    };
    tell(
        out,
        writer.file_len,
        writer.write_header_counted(buf, n as usize),
    )
}

pub fn write_data_counted(
    held: &[u64],
    buf: &mut [u8],
    bytes: &[u8],
    n: u64,
    out: &mut [u64],
) -> u32
    ensures { CountedCall n held.now buf.old out.old (λ w. data_call w (length buf.old) bytes.now) result buf.new out.new }
{
    if out.len() < COUNTED_PLACES {
        return Refusal::NoRoom.number();
    }
    let Some(writer) = record_in(held) else {
        return tell(out, 0, Err(Refusal::BadWriter));
    };
    tell(
        out,
        writer.file_len,
        writer.write_data_counted(buf, bytes, n as usize),
    )
}

pub fn write_samples_counted(
    held: &[u64],
    buf: &mut [u8],
    samples: &[i32],
    n: u64,
    out: &mut [u64],
) -> u32
    ensures { CountedCall n held.now buf.old out.old (λ w. samples_call w (length buf.old) samples.now) result buf.new out.new }
{
    if out.len() < COUNTED_PLACES {
        return Refusal::NoRoom.number();
    }
    let Some(writer) = record_in(held) else {
        return tell(out, 0, Err(Refusal::BadWriter));
    };
    tell(
        out,
        writer.file_len,
        writer.write_pcm_24bit_as_packed_counted(buf, samples, n as usize),
    )
}

pub fn finish_counted(held: &[u64], buf: &mut [u8], n: u64, out: &mut [u64]) -> u32
    ensures { CountedCall n held.now buf.old out.old (λ w. finish_call w (length buf.old)) result buf.new out.new }
{
    if out.len() < COUNTED_PLACES {
        return Refusal::NoRoom.number();
    }
    let Some(writer) = record_in(held) else {
        return tell(out, 0, Err(Refusal::BadWriter));
    };
    tell(out, writer.file_len, writer.finish_counted(buf, n as usize))
}
