// Cases of the plain reading: a file, and what the Rust found in it.
use answers::refusal::DONE;
use byte_order::float::rate_to_bits;
use byte_order::read::{be_u32, be_u64};
use cases::number::{byte, count};
use format::{AudioFormat, Endianness};
use reading::plain::parse_caf_file;
use reading::{CAFFileInfo, FoundFile, RefusedFile};

// Where the parts of an answer stand, from its start.
const CHUNKS: usize = 1;

const REFUSED: usize = 5;

const DATA_START: usize = 13;

const LITTLE: usize = 21;

const HAS_FORMAT: usize = 22;

const FORMAT: usize = 23;

const WITH_FORMAT: usize = 55;

fn same_numbers(wanted: &[u8], format: AudioFormat) -> bool {
    be_u32(wanted, 31) == format.format_id
        && be_u32(wanted, 35) == format.format_flags
        && be_u32(wanted, 39) == format.bytes_per_packet
        && be_u32(wanted, 43) == format.frames_per_packet
        && be_u32(wanted, 47) == format.channels_per_frame
        && be_u32(wanted, 51) == format.bits_per_channel
}

fn same_format(wanted: &[u8], format: Option<AudioFormat>) -> bool {
    match format {
        None => byte(wanted, HAS_FORMAT) == 0 && wanted.len() == FORMAT,
        Some(f) => {
            byte(wanted, HAS_FORMAT) == 1
                && wanted.len() == WITH_FORMAT
                && rate_to_bits(f.sample_rate) == Some(be_u64(wanted, FORMAT))
                && same_numbers(wanted, f)
        }
    }
}

fn same_order(little: u32, endianness: Endianness) -> bool {
    match endianness {
        Endianness::BigEndian => little == 0,
        Endianness::LittleEndian => little == 1,
    }
}

fn same_found(wanted: &[u8], info: CAFFileInfo) -> bool {
    byte(wanted, 0) == DONE
        && be_u64(wanted, REFUSED) == info.size_position as u64
        && be_u64(wanted, DATA_START) == info.data_start as u64
        && same_order(byte(wanted, LITTLE), info.endianness)
        && same_format(wanted, info.format)
}

fn same_answer(wanted: &[u8], answer: Result<FoundFile, RefusedFile>) -> bool {
    match answer {
        Ok(found) => count(wanted, CHUNKS) == found.chunks && same_found(wanted, found.info),
        Err(refused) => {
            byte(wanted, 0) == refused.refusal.number()
                && count(wanted, CHUNKS) == refused.chunks
                && wanted.len() == REFUSED
        }
    }
}

pub(crate) fn same_reading(body: &[u8]) -> bool {
    let Some((_, rest)) = body.split_at_checked(4) else {
        return false;
    };
    let Some((file, wanted)) = rest.split_at_checked(count(body, 0)) else {
        return false;
    };
    same_answer(wanted, parse_caf_file(file))
}
