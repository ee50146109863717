// Samples packed into a lent buffer.
ghost use Rattle.std.specs.Prelude.{◌≡◌, ◌+◌, ◌*◌, ◌/◌, ◌≤◌, min, length, take};
ghost use Rattle.answers.specs.Refused.{outcome_number};
ghost use Rattle.byte_order.specs.Splice.{splice, store_count, store_first};
ghost use Rattle.pcm.specs.Sample.{low24, bytes24};
ghost use Rattle.pcm.specs.Packing.{sample_size, packed, pack_number, pack_into};

use crate::put::put_bytes;
use crate::sample::{SAMPLE_SIZE, low_bits, sample_bytes};
use crate::twelve::put_twelve;
use answers::Refusal;
use format::Endianness;

// The first four samples.
fn put_four(samples: &[i32], endianness: Endianness, buf: &mut [u8], at: usize)
    requires { (4 ≤ length samples.now) × (at + 12 ≤ length buf.old) }
    ensures { buf.new ≡ splice buf.old at (packed endianness (take 4 samples.now)) }
{
    let a = low_bits(samples[0]);
    let b = low_bits(samples[1]);
    let c = low_bits(samples[2]);
    let d = low_bits(samples[3]);
    put_twelve(buf, at, a, b, c, d, endianness);
}

// The first eight samples. The order is asked once for all of them: of the loop below a compiler then makes two, one for each order.
fn put_eight(samples: &[i32], endianness: Endianness, buf: &mut [u8], at: usize)
    requires { (8 ≤ length samples.now) × (at + 24 ≤ length buf.old) }
    ensures { buf.new ≡ splice buf.old at (packed endianness (take 8 samples.now)) }
{
    match endianness {
        Endianness::BigEndian => {
            put_four(samples, Endianness::BigEndian, buf, at);
            put_four(&samples[4..], Endianness::BigEndian, buf, at + 12);
        }
        Endianness::LittleEndian => {
            put_four(samples, Endianness::LittleEndian, buf, at);
            put_four(&samples[4..], Endianness::LittleEndian, buf, at + 12);
        }
    }
}

// Whole samples, eight a turn, as long as there are eight.
fn put_eights(samples: &[i32], endianness: Endianness, buf: &mut [u8], at: usize)
    requires { at + sample_size * length samples.now ≤ length buf.old }
    ensures { buf.new ≡ splice buf.old at (packed endianness (take (length samples.now / 8 * 8) samples.now)) }
{
    for i in 0..samples.len() / 8 {
        let from = 8 * i;
        put_eight(&samples[from..], endianness, buf, at + SAMPLE_SIZE * from);
    }
}

// Whole samples, one at a time.
fn put_each(samples: &[i32], endianness: Endianness, buf: &mut [u8], at: usize)
    requires { at + sample_size * length samples.now ≤ length buf.old }
    ensures { buf.new ≡ splice buf.old at (packed endianness samples.now) }
{
    for (i, x) in samples.iter().enumerate() {
        let bytes = sample_bytes(*x, endianness);
        put_bytes(buf, at + SAMPLE_SIZE * i, &bytes);
    }
}

// Whole samples.
fn put_samples(samples: &[i32], endianness: Endianness, buf: &mut [u8], at: usize)
    requires { at + sample_size * length samples.now ≤ length buf.old }
    ensures { buf.new ≡ splice buf.old at (packed endianness samples.now) }
{
    let n = samples.len() / 8 * 8;
    put_eights(samples, endianness, buf, at);
    put_each(&samples[n..], endianness, buf, at + SAMPLE_SIZE * n);
}

// The first r bytes of a sample.
fn put_part(buf: &mut [u8], at: usize, x: i32, endianness: Endianness, r: usize)
    requires { (r ≤ sample_size) × (at + r ≤ length buf.old) }
    ensures { buf.new ≡ splice buf.old at (take r (bytes24 endianness (low24 x))) }
{
    let bytes = sample_bytes(x, endianness);
    put_bytes(buf, at, &bytes[..r]);
}

// The first `count` bytes: whole samples, and what is left of the next.
fn put_first(samples: &[i32], endianness: Endianness, buf: &mut [u8], at: usize, count: usize)
    requires { (count ≤ sample_size * length samples.now) × (at + count ≤ length buf.old) }
    ensures { buf.new ≡ splice buf.old at (take count (packed endianness samples.now)) }
{
    let k = count / SAMPLE_SIZE;
    put_samples(&samples[..k], endianness, buf, at);
    let r = count % SAMPLE_SIZE;
    if 0 < r {
        put_part(buf, at + SAMPLE_SIZE * k, samples[k], endianness, r);
    }
}

// n, or the bytes of `many` samples if they are fewer. The product need not fit a usize: it is the larger then.
fn bytes_wanted(many: usize, n: usize) -> usize
    ensures { result ≡ min n (sample_size * many) }
{
    many.saturating_mul(SAMPLE_SIZE).min(n)
}

// The first n stores of the packed samples from `at` on, or all if there are fewer; none where they have no room. n counts bytes, so
// the last sample may be stored in part.
pub fn pack_first(
    samples: &[i32],
    endianness: Endianness,
    buf: &mut [u8],
    at: usize,
    n: usize,
) -> usize
    ensures { (result ≡ store_count n (sample_size * length samples.now) at (length buf.old)) × (buf.new ≡ store_first n (packed endianness samples.now) at buf.old) }
{
    let count = bytes_wanted(samples.len(), n);
    if buf.len() < count || buf.len() - count < at {
        return 0;
    }
    put_first(samples, endianness, buf, at, count);
    count
}

// A refusal stores nothing.
pub fn pack(samples: &[i32], endianness: Endianness, out: &mut [u8]) -> Result<(), Refusal>
    ensures number { outcome_number result ≡ pack_number samples.now (length out.old) }
    ensures stored { out.new ≡ pack_into endianness samples.now out.old }
{
    if out.len() / SAMPLE_SIZE < samples.len() {
        return Err(Refusal::NoRoom);
    }
    pack_first(samples, endianness, out, 0, SAMPLE_SIZE * samples.len());
    Ok(())
}
