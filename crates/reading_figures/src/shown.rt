// The answers as words.
ghost use Rattle.std.specs.Prelude.{◌≤◌, length};

use answers::refusal::DONE;
use format::{AudioFormat, Endianness};
use reading::plain::parse_caf_file;
use reading::strict::read_strict;
use reading::{AcceptedFile, FoundFile, RefusedFile, StrictInfo};
use show::{decimal, word};
use std::io;

// A blank and a number.
pub(crate) fn number(rt: &impl Print, n: u64) -> io::Result<()> {
    word(rt, b" ")?;
    decimal(rt, n)
}

fn size(rt: &impl Print, n: usize) -> io::Result<()> {
    number(rt, n as u64)
}

// What an answer is told by, and how many chunk headers were met.
fn told(rt: &impl Print, outcome: u32, chunks: usize) -> io::Result<()> {
    number(rt, outcome as u64)?;
    size(rt, chunks)
}

fn refused_words(rt: &impl Print, refused: RefusedFile) -> io::Result<()> {
    told(rt, refused.refusal.number(), refused.chunks)
}

fn format_words(rt: &impl Print, format: AudioFormat) -> io::Result<()> {
    number(rt, format.bytes_per_packet as u64)?;
    number(rt, format.channels_per_frame as u64)
}

fn maybe_words(rt: &impl Print, format: Option<AudioFormat>) -> io::Result<()> {
    match format {
        None => word(rt, b" none"),
        Some(f) => format_words(rt, f),
    }
}

fn order_word(rt: &impl Print, order: Endianness) -> io::Result<()> {
    match order {
        Endianness::BigEndian => word(rt, b" big"),
        Endianness::LittleEndian => word(rt, b" little"),
    }
}

fn plain_words(rt: &impl Print, answer: Result<FoundFile, RefusedFile>) -> io::Result<()> {
    match answer {
        Err(refused) => refused_words(rt, refused),
        Ok(FoundFile { info, chunks }) => {
            told(rt, DONE, chunks)?;
            size(rt, info.size_position)?;
            size(rt, info.data_start)?;
            order_word(rt, info.endianness)?;
            maybe_words(rt, info.format)
        }
    }
}

fn info_words(rt: &impl Print, info: StrictInfo) -> io::Result<()> {
    size(rt, info.size_position)?;
    size(rt, info.data_start)?;
    size(rt, info.payload)?;
    if info.open {
        word(rt, b" open")?;
    } else {
        word(rt, b" closed")?;
    }
    size(rt, info.frames)?;
    format_words(rt, info.format)
}

fn strict_words(rt: &impl Print, answer: Result<AcceptedFile, RefusedFile>) -> io::Result<()> {
    match answer {
        Err(refused) => refused_words(rt, refused),
        Ok(AcceptedFile { info, chunks }) => {
            told(rt, DONE, chunks)?;
            info_words(rt, info)
        }
    }
}

// The length of a file, the first n bytes here, and both answers.
pub(crate) fn both_answers(rt: &impl Print, file: &[u8], n: usize) -> io::Result<()>
    requires { n ≤ length file.now }
{
    let cut = &file[..n];
    size(rt, n)?;
    word(rt, b" plain")?;
    plain_words(rt, parse_caf_file(cut))?;
    word(rt, b" strict")?;
    strict_words(rt, read_strict(cut))
}
