// A format read from the array that a caller keeps.
ghost use Rattle.std.specs.Prelude.{◌≡◌};
ghost use Rattle.byte_order.specs.Rate.{rate_of};
ghost use Rattle.numbers.specs.FormatNumbers.{audio_low};

use crate::words::{number_at, word_at};
use byte_order::float::rate_from_bits;
use format::AudioFormat;

// The places of a format, in a writer's record as in a feeding one: the 64 bits of the rate, and six numbers of 32 bits.
const RATE: usize = 1;

pub const FORMAT_ID: usize = 2;

const FLAGS: usize = 3;

const BYTES_PER_PACKET: usize = 4;

const FRAMES_PER_PACKET: usize = 5;

const CHANNELS: usize = 6;

const BITS: usize = 7;

// The place after them.
pub const AFTER_FORMAT: usize = 8;

// Every not-a-number pattern stands for the one not-a-number.
fn rate_of(bits: u64) -> f64
    ensures { result ≡ rate_of bits }
{
    rate_from_bits(bits).unwrap_or(f64::NAN)
}

pub fn audio_of(numbers: &[u64]) -> AudioFormat
    ensures { result ≡ audio_low numbers.now }
{
    AudioFormat {
        sample_rate: rate_of(number_at(numbers, RATE)),
        format_id: word_at(numbers, FORMAT_ID),
        format_flags: word_at(numbers, FLAGS),
        bytes_per_packet: word_at(numbers, BYTES_PER_PACKET),
        frames_per_packet: word_at(numbers, FRAMES_PER_PACKET),
        channels_per_frame: word_at(numbers, CHANNELS),
        bits_per_channel: word_at(numbers, BITS),
    }
}
