// Four samples as twelve bytes, stored as a word of eight and one of four. A word is made as a number first: its bytes from the low end
// are then one store for a compiler, and the stores of four samples are two. The high end first is the number with its bytes swapped:
// `to_be_bytes` would be as many stores as it has bytes.
ghost use Rattle.std.specs.Prelude.{◌≡◌, ◌++◌, ◌+◌, ◌^◌, ◌≤◌, ◌<◌, length, take, drop};
ghost use Rattle.byte_order.specs.Splice.{splice};
ghost use Rattle.pcm.specs.Sample.{bytes24};

use crate::put::put_bytes;
use format::Endianness;

// Two samples and two bytes of the third.
fn eight_of(a: u32, b: u32, c: u32, endianness: Endianness) -> [u8; 8]
    requires { (a < 2 ^ 24) × (b < 2 ^ 24) × (c < 2 ^ 24) }
    ensures { result ≡ bytes24 endianness a ++ (bytes24 endianness b ++ take 2 (bytes24 endianness c)) }
{
    match endianness {
        Endianness::BigEndian => {
            let word = a as u64 * 0x100_0000_0000 + b as u64 * 0x1_0000 + (c / 256) as u64;
            word.swap_bytes().to_le_bytes()
        }
        Endianness::LittleEndian => {
            let third = (c % 0x1_0000) as u64;
            let word = a as u64 + b as u64 * 0x100_0000 + third * 0x1_0000_0000_0000;
            word.to_le_bytes()
        }
    }
}

// The last byte of the third, and the fourth.
fn four_of(c: u32, d: u32, endianness: Endianness) -> [u8; 4]
    requires { (c < 2 ^ 24) × (d < 2 ^ 24) }
    ensures { result ≡ drop 2 (bytes24 endianness c) ++ bytes24 endianness d }
{
    match endianness {
        Endianness::BigEndian => (c % 256 * 0x100_0000 + d).swap_bytes().to_le_bytes(),
        Endianness::LittleEndian => (c / 0x1_0000 + d * 256).to_le_bytes(),
    }
}

// The bytes of four samples, given as their low 24 bits.
pub(crate) fn put_twelve(
    buf: &mut [u8],
    at: usize,
    a: u32,
    b: u32,
    c: u32,
    d: u32,
    endianness: Endianness,
)
    requires { (at + 12 ≤ length buf.old) × (a < 2 ^ 24) × (b < 2 ^ 24) × (c < 2 ^ 24) × (d < 2 ^ 24) }
    ensures { buf.new ≡ splice buf.old at (bytes24 endianness a ++ (bytes24 endianness b ++ (bytes24 endianness c ++ bytes24 endianness d))) }
{
    put_bytes(buf, at, &eight_of(a, b, c, endianness));
    put_bytes(buf, at + 8, &four_of(c, d, endianness));
}
