// Whether calls may have made a record. One that a caller made up is refused, so that nothing else has to be tested.
ghost use Rattle.std.specs.Prelude.{◌≡◌, ◌-◌, ◌≤◌};
ghost use Rattle.feeder.specs.declared.Phase.TheVariants.{OpenData as feeder·OpenData};
ghost use Rattle.feeder.specs.Record.{piece_size, is_by_bytes, rate_is, met_within, headers_before, is_closed_size, passed_within, phase_sound, sound};

use crate::pieces::piece_size;
use crate::{DataChunk, Feeder, Phase};
use answers::{FILE_MAX, Refusal};
use byte_order::float::is_not_a_number;
use format::AudioFormat;
use reading::chunk::is_bad_data_size;
use reading::sizes::{CHUNK_HEADER, EDIT_COUNT, FILE_HEADER, FIRST_BODY, FIRST_END, NEGATIVE};

fn rate_is(format: AudioFormat) -> bool
    ensures { result ≡ rate_is format }
{
    !is_not_a_number(format.sample_rate)
}

// Divided, since a count that a caller made up may be too large to multiply.
fn met_within(k: usize, n: usize) -> bool
    ensures { result ≡ met_within k n }
{
    1 <= k && FIRST_END <= n && k - 1 <= (n - FIRST_END) / CHUNK_HEADER
}

fn is_by_bytes(number: u32) -> bool
    ensures { result ≡ is_by_bytes number }
{
    number == Refusal::NotCaf as u32
        || number == Refusal::BadVersion as u32
        || number == Refusal::BadDesc as u32
        || number == Refusal::BadRate as u32
        || number == Refusal::BadSize as u32
        || number == Refusal::SecondData as u32
}

// The k headers stand before the last n of so many bytes.
fn headers_before(n: usize, bytes: usize, k: usize, format: AudioFormat) -> bool
    ensures { result ≡ headers_before n bytes k format }
{
    rate_is(format) && n <= bytes && met_within(k, bytes - n)
}

fn is_closed_size(size: u64) -> bool
    ensures { result ≡ is_closed_size size }
{
    EDIT_COUNT as u64 <= size && size < NEGATIVE
}

// A data chunk that was passed lies after the first chunk and within the first n bytes.
fn passed_within(data: Option<DataChunk>, n: usize) -> bool
    ensures { result ≡ passed_within «data» n }
{
    match data {
        None => true,
        Some(DataChunk { size, start }) => {
            is_closed_size(size)
                && FIRST_END + EDIT_COUNT <= start
                && start <= n
                && size as usize - EDIT_COUNT <= n - start
        }
    }
}

// The data stand after all headers and the edit count.
#[tactic(auto, unfolding(crate::specs::Record::phase_sound))]
fn open_sound(total: usize, k: usize, format: AudioFormat, start: usize) -> bool
    ensures { result ≡ phase_sound 0 total k (feeder·OpenData format start) }
{
    start <= total && headers_before(EDIT_COUNT, start, k, format)
}

#[tactic(auto, unfolding(crate::specs::Record::phase_sound))]
fn phase_sound(n: usize, total: usize, k: usize, phase: Phase) -> bool
    requires { n ≤ piece_size phase - 1 }
    ensures { result ≡ phase_sound n total k phase }
{
    match phase {
        Phase::FileHeader => total == n && k == 0,
        Phase::FirstHeader => total == FILE_HEADER + n && k == 0,
        Phase::Desc => total == FIRST_BODY + n && k == 1,
        Phase::Header(format, data) => {
            headers_before(n, total, k, format) && passed_within(data, total - n)
        }
        Phase::Skipping(format, data, left) => {
            headers_before(0, total, k, format)
                && passed_within(data, total)
                && 1 <= left
                && left < NEGATIVE as usize
        }
        Phase::Edit(format, size) => {
            headers_before(n, total, k, format) && !is_bad_data_size(size)
        }
        Phase::OpenData(format, start) => open_sound(total, k, format, start),
        Phase::ClosedData(format, DataChunk { size, start }, left) => {
            open_sound(total, k, format, start)
                && is_closed_size(size)
                && 1 <= left
                && left <= size as usize - EDIT_COUNT
                && total - start == size as usize - EDIT_COUNT - left
        }
        Phase::Refused(number) => {
            k <= total / CHUNK_HEADER && (number == Refusal::TooLong as u32 || is_by_bytes(number))
        }
    }
}

// Fewer bytes are held than the piece has, and none where there is no piece.
#[tactic(auto, unfolding(crate::specs::Record::sound))]
pub fn is_sound(r: Feeder) -> bool
    ensures { result ≡ sound r }
{
    r.total <= FILE_MAX
        && r.count <= piece_size(r.phase).saturating_sub(1)
        && phase_sound(r.count, r.total, r.chunks, r.phase)
}
