// Choices that C makes by a bool.
ghost use Rattle.std.specs.Prelude.{◌≡◌};
ghost use Rattle.numbers.specs.FormatNumbers.{byte_order, sample_type};

use format::{Endianness, PCMDataType};

pub fn byte_order(little_endian: bool) -> Endianness
    ensures { result ≡ byte_order little_endian }
{
    if little_endian {
        Endianness::LittleEndian
    } else {
        Endianness::BigEndian
    }
}

pub fn sample_type(is_float: bool) -> PCMDataType
    ensures { result ≡ sample_type is_float }
{
    if is_float {
        PCMDataType::Float
    } else {
        PCMDataType::SignedInteger
    }
}
