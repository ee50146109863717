// A format as numbers.
ghost use Rattle.std.specs.Prelude.{◌≡◌};
ghost use Rattle.byte_order.specs.Rate.{bits_of_rate};
ghost use Rattle.numbers.specs.FormatNumbers.{audio_numbers, format_numbers, order_number};

use byte_order::float::rate_to_bits;
use format::{AudioFormat, Endianness};

// The pattern of `bits_of_rate` for a not-a-number. No accepted file and no sound record has such a rate.
const NAN_BITS: u64 = 0x7FF8_0000_0000_0000;

fn rate_bits(rate: f64) -> u64
    ensures { result ≡ bits_of_rate rate }
{
    rate_to_bits(rate).unwrap_or(NAN_BITS)
}

pub fn audio_numbers(format: AudioFormat) -> [u64; 7]
    ensures { result ≡ audio_numbers format }
{
    [
        rate_bits(format.sample_rate),
        u64::from(format.format_id),
        u64::from(format.format_flags),
        u64::from(format.bytes_per_packet),
        u64::from(format.frames_per_packet),
        u64::from(format.channels_per_frame),
        u64::from(format.bits_per_channel),
    ]
}

pub fn format_numbers(format: Option<AudioFormat>) -> [u64; 8]
    ensures { result ≡ format_numbers format }
{
    match format {
        None => [0; 8],
        Some(f) => {
            let n = audio_numbers(f);
            [1, n[0], n[1], n[2], n[3], n[4], n[5], n[6]]
        }
    }
}

pub fn order_number(endianness: Endianness) -> u64
    ensures { result ≡ order_number endianness }
{
    match endianness {
        Endianness::BigEndian => 0,
        Endianness::LittleEndian => 1,
    }
}
