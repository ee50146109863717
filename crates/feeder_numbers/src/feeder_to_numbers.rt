// The feeding record put into the array that a caller keeps.
ghost use Rattle.std.specs.Prelude.{◌≡◌};
ghost use Rattle.feeder_numbers.specs.FeederNumbers.{phase_kind, phase_format, phase_number, phase_size, phase_start, feeder_numbers, feeder_put};

use crate::phases::{
    CLOSED_DATA, DESC, EDIT, FILE_HEADER, FIRST_HEADER, HEADER, HEADER_AFTER, OPEN_DATA, REFUSED,
    SKIPPING, SKIPPING_AFTER,
};
use crate::places::FEEDER;
use byte_order::read::be_u64;
use feeder::{Feeder, Phase};
use numbers::format_to_numbers::audio_numbers;

fn phase_kind(phase: Phase) -> u64
    ensures { result ≡ phase_kind phase }
{
    match phase {
        Phase::FileHeader => FILE_HEADER,
        Phase::FirstHeader => FIRST_HEADER,
        Phase::Desc => DESC,
        Phase::Header(_, None) => HEADER,
        Phase::Header(_, Some(_)) => HEADER_AFTER,
        Phase::Skipping(_, None, _) => SKIPPING,
        Phase::Skipping(_, Some(_), _) => SKIPPING_AFTER,
        Phase::Edit(..) => EDIT,
        Phase::OpenData(..) => OPEN_DATA,
        Phase::ClosedData(..) => CLOSED_DATA,
        Phase::Refused(_) => REFUSED,
    }
}

fn phase_format(phase: Phase) -> [u64; 7]
    ensures { result ≡ phase_format phase }
{
    match phase {
        Phase::Header(format, _)
        | Phase::Skipping(format, _, _)
        | Phase::Edit(format, _)
        | Phase::OpenData(format, _)
        | Phase::ClosedData(format, _, _) => audio_numbers(format),
        _ => [0; 7],
    }
}

fn phase_number(phase: Phase) -> u64
    ensures { result ≡ phase_number phase }
{
    match phase {
        Phase::Skipping(_, _, left) | Phase::ClosedData(_, _, left) => left as u64,
        Phase::Refused(number) => u64::from(number),
        _ => 0,
    }
}

fn phase_size(phase: Phase) -> u64
    ensures { result ≡ phase_size phase }
{
    match phase {
        Phase::Edit(_, size) => size,
        Phase::Header(_, Some(chunk))
        | Phase::Skipping(_, Some(chunk), _)
        | Phase::ClosedData(_, chunk, _) => chunk.size,
        _ => 0,
    }
}

fn phase_start(phase: Phase) -> u64
    ensures { result ≡ phase_start phase }
{
    match phase {
        Phase::OpenData(_, start) => start as u64,
        Phase::Header(_, Some(chunk))
        | Phase::Skipping(_, Some(chunk), _)
        | Phase::ClosedData(_, chunk, _) => chunk.start as u64,
        _ => 0,
    }
}

fn feeder_numbers(r: Feeder) -> [u64; FEEDER]
    ensures { result ≡ feeder_numbers r }
{
    let [rate, id, flags, packet, frames, channels, bits] = phase_format(r.phase);
    [
        phase_kind(r.phase),
        rate,
        id,
        flags,
        packet,
        frames,
        channels,
        bits,
        phase_number(r.phase),
        phase_size(r.phase),
        phase_start(r.phase),
        r.count as u64,
        r.total as u64,
        r.chunks as u64,
        be_u64(&r.held, 0),
        be_u64(&r.held, 8),
        be_u64(&r.held, 16),
        be_u64(&r.held, 24),
    ]
}

// Puts the record into an array that has its places, and nothing into any other.
pub fn put_feeder(out: &mut [u64], r: Feeder)
    ensures { out.new ≡ feeder_put out.old r }
{
    if out.len() == FEEDER {
        out.copy_from_slice(&feeder_numbers(r));
    }
}
