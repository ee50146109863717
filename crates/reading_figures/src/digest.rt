// A digest of answers: every number of an answer, folded into one.
ghost use Rattle.std.specs.Prelude.{◌≤◌, length};

use answers::refusal::DONE;
use format::{AudioFormat, Endianness};
use reading::plain::parse_caf_file;
use reading::strict::read_strict;
use reading::{AcceptedFile, FoundFile, RefusedFile, StrictInfo};

fn fold(digest: u64, word: u64) -> u64 {
    digest % 0x1_0000_0000 * 1_000_003 + word % 0x1_0000_0000
}

fn fold_size(digest: u64, size: usize) -> u64 {
    fold(digest, size as u64)
}

fn fold_format(digest: u64, format: AudioFormat) -> u64 {
    let packet = fold(digest, format.bytes_per_packet as u64);
    fold(packet, format.channels_per_frame as u64)
}

fn fold_maybe(digest: u64, format: Option<AudioFormat>) -> u64 {
    match format {
        None => fold(digest, 0),
        Some(f) => fold_format(digest, f),
    }
}

fn fold_order(digest: u64, order: Endianness) -> u64 {
    match order {
        Endianness::BigEndian => fold(digest, 0),
        Endianness::LittleEndian => fold(digest, 1),
    }
}

fn fold_number(digest: u64, number: u32, chunks: usize) -> u64 {
    fold_size(fold(digest, number as u64), chunks)
}

fn fold_refused(digest: u64, refused: RefusedFile) -> u64 {
    fold_number(digest, refused.refusal.number(), refused.chunks)
}

fn fold_plain(digest: u64, answer: Result<FoundFile, RefusedFile>) -> u64 {
    match answer {
        Err(refused) => fold_refused(digest, refused),
        Ok(FoundFile { info, chunks }) => {
            let met = fold_number(digest, DONE, chunks);
            let places = fold_size(fold_size(met, info.size_position), info.data_start);
            fold_maybe(fold_order(places, info.endianness), info.format)
        }
    }
}

fn fold_info(digest: u64, info: StrictInfo) -> u64 {
    let places = fold_size(fold_size(digest, info.size_position), info.data_start);
    let payload = fold(fold_size(places, info.payload), info.open as u64);
    fold_format(fold_size(payload, info.frames), info.format)
}

fn fold_strict(digest: u64, answer: Result<AcceptedFile, RefusedFile>) -> u64 {
    match answer {
        Err(refused) => fold_refused(digest, refused),
        Ok(AcceptedFile { info, chunks }) => fold_info(fold_number(digest, DONE, chunks), info),
    }
}

// Both readings of the first n bytes.
fn fold_file(digest: u64, file: &[u8], n: usize) -> u64
    requires { n ≤ length file.now }
{
    let cut = &file[..n];
    fold_strict(fold_plain(digest, parse_caf_file(cut)), read_strict(cut))
}

// The file cut after each byte from `from` to `to`.
pub(crate) fn every_cut(file: &[u8], from: usize, to: usize, so_far: u64) -> u64
    requires { (from ≤ to) × (to ≤ length file.now) }
{
    let mut digest = so_far;
    for n in from..to {
        digest = fold_file(digest, file, n + 1);
    }
    digest
}
