// The chunks that are passed over by their size.
ghost use Rattle.std.specs.Prelude.{◌≡◌, ◌+◌, ◌*◌, ◌≤◌, length};
ghost use Rattle.answers.specs.Refused.{refusal_number};
ghost use Rattle.reading.specs.Step.{skip_at};
ghost use Rattle.reading.specs.Ends.{over_as, Stops};

use crate::bytes::{size_at, stands_at};
use crate::sizes::{CHUNK_HEADER, NEGATIVE};
use crate::{RefusedFile, Stop};
use answers::Refusal;

// The position after the chunk at p. The readings differ in why they refuse one that runs past the end of the file.
#[tactic(auto, unfolding(crate::specs::Step::skip_at))]
pub(crate) fn over(s: &[u8], p: usize, past_end: Refusal) -> Result<usize, Refusal>
    requires { p + 12 ≤ length s.now }
    ensures { over_as result ≡ skip_at (refusal_number past_end) s.now p }
{
    let size = size_at(s, p);
    if NEGATIVE <= size {
        return Err(Refusal::BadSize);
    }
    let body = p + CHUNK_HEADER;
    if s.len() - body < size as usize {
        return Err(past_end);
    }
    Ok(body + size as usize)
}

// The strict reading's way over other chunks, before the data and after them: a loop with no more in it than that. A `desc` is refused, and
// so is a chunk that can't be passed over. Every header that was counted takes 12 bytes, so the count can't wrap.
pub(crate) fn pass(s: &[u8], from: usize, met: usize) -> Result<Stop, RefusedFile>
    requires { (12 * met ≤ from) × (from ≤ length s.now) }
    ensures { Stops s.now from met result }
{
    let mut p = from;
    let mut chunks = met;
    loop {
        if s.len() - p < CHUNK_HEADER {
            return Ok(Stop::Rest(s.len() - p, chunks));
        }
        if stands_at(s, p, *b"desc") {
            return Err(RefusedFile::new(Refusal::BadDesc, chunks + 1));
        }
        if stands_at(s, p, *b"data") {
            return Ok(Stop::Data(p, chunks));
        }
        chunks += 1;
        match over(s, p, Refusal::CutShort) {
            Ok(next) => p = next,
            Err(refusal) => return Err(RefusedFile::new(refusal, chunks)),
        }
    }
}
