// Numbers of a case, and positions in it.
ghost use Rattle.std.specs.Prelude.{◌≡◌, get_or};
ghost use Rattle.byte_order.specs.Big.{big_at};
ghost use Rattle.cases.specs.Number.{order_of, type_of};

use byte_order::read::be_u32;
use format::{Endianness, PCMDataType};

pub fn byte(s: &[u8], p: usize) -> u32
    ensures { result ≡ get_or s.now p 0 }
{
    s.get(p).map_or(0, |b| u32::from(*b))
}

// A four-byte number as a position or a count.
pub fn count(s: &[u8], p: usize) -> usize
    ensures { result ≡ big_at 4 s.now p }
{
    be_u32(s, p) as usize
}

pub fn order(little: u32) -> Endianness
    ensures { result ≡ order_of little }
{
    match little {
        1 => Endianness::LittleEndian,
        _ => Endianness::BigEndian,
    }
}

pub fn data_type(float: u32) -> PCMDataType
    ensures { result ≡ type_of float }
{
    match float {
        1 => PCMDataType::Float,
        _ => PCMDataType::SignedInteger,
    }
}
