// Cases of packing: samples, and the bytes that the Rust made of them.
use cases::list::{MOST_SAMPLES, samples_at};
use cases::number::{byte, count, order};
use format::Endianness;
use pcm::packing::pack;

fn same_packed(samples: &[i32], endianness: Endianness, wanted: &[u8]) -> bool {
    let mut out = [0u8; 3 * MOST_SAMPLES];
    pack(samples, endianness, &mut out).is_ok() && out.starts_with(wanted)
}

pub(crate) fn same_samples(body: &[u8]) -> bool {
    let n = count(body, 1);
    if MOST_SAMPLES < n {
        return false;
    }
    let end = 5 + 4 * n;
    if body.len() != end + 4 + 3 * n {
        return false;
    }
    let start = end + 4;
    let samples = samples_at(body, 5);
    same_packed(&samples[..n], order(byte(body, 0)), &body[start..])
}
