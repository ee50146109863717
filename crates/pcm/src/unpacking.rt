// Samples unpacked from bytes into a lent slice.
ghost use Rattle.std.specs.Prelude.{◌≡◌, ◌+◌, ◌*◌, ◌≤◌, ◌<◌, length, take, drop};
ghost use Rattle.answers.specs.Refused.{outcome_number};
ghost use Rattle.pcm.specs.Packing.{sample_size};
ghost use Rattle.pcm.specs.Unpacking.{unpacked, unpack_number, unpack_into};

use crate::sample::{SAMPLE_SIZE, sample_of};
use answers::Refusal;
use format::Endianness;

// Four bytes that are all there, as an array: a compiler then loads them at once.
fn word_at(bytes: &[u8], p: usize) -> [u8; 4]
    requires { p + 4 ≤ length bytes.now }
    ensures { result ≡ take 4 (drop p bytes.now) }
{
    *bytes[p..].first_chunk().unwrap()
}

// A sample for each place, where a byte more is there.
fn take_wide(bytes: &[u8], endianness: Endianness, out: &mut [i32])
    requires { sample_size * length out.old < length bytes.now }
    ensures { out.new ≡ unpacked endianness (take (sample_size * length out.old) bytes.now) }
{
    for (i, sample) in out.iter_mut().enumerate() {
        *sample = sample_of(word_at(bytes, SAMPLE_SIZE * i), endianness);
    }
}

// A sample for each place. The last of them may have no fourth byte after it.
fn take_samples(bytes: &[u8], endianness: Endianness, out: &mut [i32])
    requires { sample_size * length out.old ≤ length bytes.now }
    ensures { out.new ≡ unpacked endianness (take (sample_size * length out.old) bytes.now) }
{
    let Some(last) = out.len().checked_sub(1) else {
        return;
    };
    take_wide(bytes, endianness, &mut out[..last]);
    let p = SAMPLE_SIZE * last;
    out[last] = sample_of([bytes[p], bytes[p + 1], bytes[p + 2], 0], endianness);
}

// A refusal stores nothing.
pub fn unpack(bytes: &[u8], endianness: Endianness, out: &mut [i32]) -> Result<(), Refusal>
    ensures number { outcome_number result ≡ unpack_number bytes.now (length out.old) }
    ensures stored { out.new ≡ unpack_into endianness bytes.now out.old }
{
    if bytes.len() % SAMPLE_SIZE != 0 {
        return Err(Refusal::OddLength);
    }
    let many = bytes.len() / SAMPLE_SIZE;
    if out.len() < many {
        return Err(Refusal::NoRoom);
    }
    take_samples(bytes, endianness, &mut out[..many]);
    Ok(())
}
