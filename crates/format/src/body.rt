// The body of a `desc` chunk, made from a format.
ghost use Rattle.std.specs.Prelude.{◌≡◌};
ghost use Rattle.byte_order.specs.Rate.{bits_of_rate};
ghost use Rattle.format.specs.Desc.{desc_body};
ghost use Rattle.format.specs.FormatAnswers.{desc_bytes};

use crate::AudioFormat;
use answers::Refusal;
use byte_order::float::rate_to_bits;
use byte_order::put::put;

// The fields one after the other, as `AudioFormat` declares them.
fn fields(rate_bits: u64, format: AudioFormat) -> [u8; 32]
    requires { rate_bits ≡ bits_of_rate format.sample_rate }
    ensures { result ≡ desc_body format }
{
    let mut body = [0u8; 32];
    put(&mut body, 0, rate_bits.to_be_bytes());
    put(&mut body, 8, format.format_id.to_be_bytes());
    put(&mut body, 12, format.format_flags.to_be_bytes());
    put(&mut body, 16, format.bytes_per_packet.to_be_bytes());
    put(&mut body, 20, format.frames_per_packet.to_be_bytes());
    put(&mut body, 24, format.channels_per_frame.to_be_bytes());
    put(&mut body, 28, format.bits_per_channel.to_be_bytes());
    body
}

// Refused is a rate that is not a number: it has no one pattern of bits.
pub fn desc_bytes(format: AudioFormat) -> Result<[u8; 32], Refusal>
    ensures { result ≡ desc_bytes format }
{
    let rate_bits = rate_to_bits(format.sample_rate).ok_or(Refusal::BadRate)?;
    Ok(fields(rate_bits, format))
}
