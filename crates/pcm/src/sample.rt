// One sample: its low 24 bits and their three bytes.
ghost use Rattle.std.specs.Prelude.{◌≡◌, ◌<◌, ◌^◌, get_or};
ghost use Rattle.pcm.specs.Sample.{low24, bytes24, signed24, number24};

use format::Endianness;

// Bytes of a packed sample.
pub const SAMPLE_SIZE: usize = 3;

// The bits of x as a number without sign are x mod 2^32.
pub(crate) fn low_bits(x: i32) -> u32
    ensures { (result ≡ low24 x) × (result < 2 ^ 24) }
{
    x.cast_unsigned() % 0x100_0000
}

// The byte order is the only difference: the same three bytes from the other end.
pub(crate) fn sample_bytes(x: i32, endianness: Endianness) -> [u8; 3]
    ensures { result ≡ bytes24 endianness (low24 x) }
{
    let [_, high, middle, low] = low_bits(x).to_be_bytes();
    match endianness {
        Endianness::BigEndian => [high, middle, low],
        Endianness::LittleEndian => [low, middle, high],
    }
}

// The top one of the 24 bits is the sign. With that bit turned over the numbers go up from the least sample on, so that no test is
// needed.
fn signed_of(u: u32) -> i32
    requires { u < 2 ^ 24 }
    ensures { result ≡ signed24 u }
{
    ((u + 0x80_0000) % 0x100_0000) as i32 - 0x80_0000
}

// The sample of the first three of four bytes, in the order in which they stand. Four bytes are one load for a compiler.
pub(crate) fn sample_of(word: [u8; 4], endianness: Endianness) -> i32
    ensures { result ≡ signed24 (number24 endianness (get_or word 0 0) (get_or word 1 0) (get_or word 2 0)) }
{
    match endianness {
        Endianness::BigEndian => signed_of(u32::from_be_bytes(word) / 256),
        Endianness::LittleEndian => signed_of(u32::from_le_bytes(word) % 0x100_0000),
    }
}
