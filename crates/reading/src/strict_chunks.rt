// The strict walk over the chunks after the first one: before the data, at them, and after them.
ghost use Rattle.std.specs.Prelude.{◌≡◌, ◌+◌, ◌*◌, ◌≤◌, length};
ghost use Rattle.reading.specs.Ends.{EndsTail, EndsData, EndsWalk};

use crate::bytes::size_at;
use crate::chunk::{is_bad_data_size, rest_refusal};
use crate::others::pass;
use crate::sizes::{CHUNK_HEADER, EDIT_COUNT, OPEN, TYPE};
use crate::{DataSize, RefusedFile, Stop};
use answers::Refusal;

// After a closed data chunk: the count of all chunk headers.
fn tail(s: &[u8], from: usize, met: usize) -> Result<usize, RefusedFile>
    requires { (12 * met ≤ from) × (from ≤ length s.now) }
    ensures { EndsTail s.now from met result }
{
    match pass(s, from, met)? {
        Stop::Rest(0, chunks) => Ok(chunks),
        Stop::Rest(_, chunks) => Err(RefusedFile::new(Refusal::CutShort, chunks)),
        Stop::Data(_, chunks) => Err(RefusedFile::new(Refusal::SecondData, chunks + 1)),
    }
}

// Open data take all that is left of the file; closed data must end in the file, and the walk goes on after them.
fn strict_data(s: &[u8], p: usize, met: usize) -> Result<DataSize, RefusedFile>
    requires { (p + 12 ≤ length s.now) × (12 * met ≤ p) }
    ensures { EndsData s.now p met result }
{
    let chunks = met + 1;
    let size = size_at(s, p);
    if is_bad_data_size(size) {
        return Err(RefusedFile::new(Refusal::BadSize, chunks));
    }
    // what is left after the chunk header: the edit count is part of it, as of the size
    let left = s.len() - (p + CHUNK_HEADER);
    if left < EDIT_COUNT {
        return Err(RefusedFile::new(Refusal::CutShort, chunks));
    }
    let position = p + TYPE;
    if size == OPEN {
        return Ok(DataSize {
            size,
            position,
            chunks,
        });
    }
    if left < size as usize {
        return Err(RefusedFile::new(Refusal::DataPastEnd, chunks));
    }
    let chunks = tail(s, p + CHUNK_HEADER + size as usize, chunks)?;
    Ok(DataSize {
        size,
        position,
        chunks,
    })
}

pub(crate) fn strict_walk(s: &[u8], from: usize, met: usize) -> Result<DataSize, RefusedFile>
    requires { (12 * met ≤ from) × (from ≤ length s.now) }
    ensures { EndsWalk s.now from met result }
{
    match pass(s, from, met)? {
        Stop::Rest(n, chunks) => Err(RefusedFile::new(rest_refusal(n), chunks)),
        Stop::Data(p, chunks) => strict_data(s, p, chunks),
    }
}
