// The feeding record read from the array that a caller keeps.
ghost use Rattle.std.specs.Prelude.{◌≡◌, true, length, take, drop, OnSome};
ghost use Rattle.numbers.specs.Words.{all_words};
ghost use Rattle.feeder_numbers.specs.FeederNumbers.{feeder_places, phase_of, held_in, feeder_of};

use crate::phases::{
    CLOSED_DATA, DESC, EDIT, FILE_HEADER, FIRST_HEADER, HEADER, HEADER_AFTER, OPEN_DATA, REFUSED,
    SKIPPING, SKIPPING_AFTER,
};
use crate::places::{
    CHUNKS, COUNT, FEEDER, HELD, HELD_8, HELD_16, HELD_24, NUMBER, PHASE, SIZE, START, TOTAL,
};
use byte_order::put::put;
use feeder::{DataChunk, Feeder, Phase};
use numbers::format_from_numbers::{AFTER_FORMAT, FORMAT_ID, audio_of};
use numbers::words::{WORDS, words};

// The phase that the array tells, where there is one of its number. A refusal's number fits 32 bits; whether calls give it is for
// `is_sound` to say.
#[tactic(auto, using(crate::proofs::Feeders::feeder_audio), unfolding(crate::specs::FeederNumbers::phase_of))]
fn phase_of(numbers: &[u64]) -> Option<Phase>
    requires places { length numbers.now ≡ feeder_places }
    requires format_fits { all_words (take 6 (drop 2 numbers.now)) ≡ true }
    ensures { result ≡ phase_of numbers.now }
{
    let format = audio_of(numbers);
    let chunk = DataChunk {
        size: numbers[SIZE],
        start: numbers[START] as usize,
    };
    let left = numbers[NUMBER] as usize;
    let phase = match numbers[PHASE] {
        FILE_HEADER => Phase::FileHeader,
        FIRST_HEADER => Phase::FirstHeader,
        DESC => Phase::Desc,
        HEADER => Phase::Header(format, None),
        HEADER_AFTER => Phase::Header(format, Some(chunk)),
        SKIPPING => Phase::Skipping(format, None, left),
        SKIPPING_AFTER => Phase::Skipping(format, Some(chunk), left),
        EDIT => Phase::Edit(format, numbers[SIZE]),
        OPEN_DATA => Phase::OpenData(format, chunk.start),
        CLOSED_DATA => Phase::ClosedData(format, chunk, left),
        REFUSED if numbers[NUMBER] < WORDS => Phase::Refused(numbers[NUMBER] as u32),
        _ => return None,
    };
    Some(phase)
}

fn held_of(numbers: &[u64]) -> [u8; 32]
    requires { length numbers.now ≡ feeder_places }
    ensures { result ≡ held_in numbers.now }
{
    let mut held = [0u8; 32];
    put(&mut held, 0, numbers[HELD].to_be_bytes());
    put(&mut held, 8, numbers[HELD_8].to_be_bytes());
    put(&mut held, 16, numbers[HELD_16].to_be_bytes());
    put(&mut held, 24, numbers[HELD_24].to_be_bytes());
    held
}

// The record that the array stands for, where it stands for one.
#[tactic(auto, unfolding(crate::specs::FeederNumbers::feeder_of))]
pub fn feeder_in(numbers: &[u64]) -> Option<Feeder>
    ensures record_of { result ≡ feeder_of numbers.now }
    ensures places { OnSome result (length numbers.now ≡ feeder_places) }
{
    if numbers.len() != FEEDER || !words(&numbers[FORMAT_ID..AFTER_FORMAT]) {
        return None;
    }
    Some(Feeder {
        phase: phase_of(numbers)?,
        held: held_of(numbers),
        count: numbers[COUNT] as usize,
        total: numbers[TOTAL] as usize,
        chunks: numbers[CHUNKS] as usize,
    })
}
