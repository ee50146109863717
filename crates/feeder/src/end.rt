// The end call: what the strict reading says of all that was fed. It changes nothing, so that it may be called twice.
ghost use Rattle.std.specs.Prelude.{◌≡◌, true, ◌≤◌};
ghost use Rattle.reading.specs.Shapes.{strict_of};
ghost use Rattle.feeder.specs.Record.{passed_within, sound};
ghost use Rattle.feeder.specs.End.{info_at, header_end, chunk_end, end_of, end};

use crate::sound::is_sound;
use crate::{DataChunk, Feeder, Phase};
use answers::{Refusal, refusal_of};
use format::AudioFormat;
use reading::sizes::{EDIT_COUNT, OPEN, SIZE_TO_DATA, TYPE};
use reading::strict::strict_info;
use reading::{AcceptedFile, RefusedFile, StrictInfo};

fn info_at(format: AudioFormat, size: u64, start: usize, after: usize) -> StrictInfo
    requires { 12 ≤ start }
    ensures { result ≡ info_at format size start after }
{
    strict_info(format, size, start - SIZE_TO_DATA, start, after)
}

// A chunk header that did not come whole.
fn header_end(n: usize, chunks: usize) -> Result<AcceptedFile, RefusedFile>
    ensures { strict_of result ≡ header_end n chunks }
{
    let refusal = if n < TYPE {
        Refusal::NoData
    } else {
        Refusal::CutShort
    };
    Err(RefusedFile::new(refusal, chunks))
}

// After the data, which lie within the first m bytes, the file may end here.
fn chunk_end(
    n: usize,
    chunks: usize,
    format: AudioFormat,
    data: Option<DataChunk>,
    m: usize,
) -> Result<AcceptedFile, RefusedFile>
    requires { passed_within «data» m ≡ true }
    ensures { strict_of result ≡ chunk_end n chunks format «data» }
{
    match data {
        None => header_end(n, chunks),
        Some(DataChunk { size, start }) if n == 0 => {
            let info = info_at(format, size, start, size as usize - EDIT_COUNT);
            Ok(AcceptedFile { info, chunks })
        }
        Some(_) => Err(RefusedFile::new(Refusal::CutShort, chunks)),
    }
}

fn end_of(r: Feeder) -> Result<AcceptedFile, RefusedFile>
    requires { sound r ≡ true }
    ensures { strict_of result ≡ end_of r }
{
    match r.phase {
        Phase::FirstHeader => header_end(r.count, r.chunks),
        Phase::Header(format, data) => {
            chunk_end(r.count, r.chunks, format, data, r.total - r.count)
        }
        Phase::OpenData(format, start) => {
            let info = info_at(format, OPEN, start, r.total - start);
            Ok(AcceptedFile {
                info,
                chunks: r.chunks,
            })
        }
        Phase::ClosedData(..) => Err(RefusedFile::new(Refusal::DataPastEnd, r.chunks)),
        // a sound record's number is that of a refusal
        Phase::Refused(number) => {
            let refusal = refusal_of(number).unwrap_or(Refusal::BadWriter);
            Err(RefusedFile::new(refusal, r.chunks))
        }
        // inside the file header, the first chunk, a body that is passed over, or an edit count
        _ => Err(RefusedFile::new(Refusal::CutShort, r.chunks)),
    }
}

#[tactic(auto, unfolding(crate::specs::End::end))]
pub fn end(r: Feeder) -> Result<AcceptedFile, RefusedFile>
    ensures { strict_of result ≡ end r }
{
    if is_sound(r) {
        end_of(r)
    } else {
        Err(RefusedFile::new(Refusal::BadWriter, 0))
    }
}
