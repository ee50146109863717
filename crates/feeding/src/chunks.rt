// Whole chunks of a block, passed over by position and count: a loop that touches no record, so that small chunks cost little.
ghost use Rattle.std.specs.Prelude.{◌≡◌, ◌+◌, ◌<◌, ◌≤◌, length, MatchOption};
ghost use Rattle.answers.specs.Numbers.{file_max};
ghost use Rattle.feeding.specs.Chunks.{whole_at, Walked, is_header, Past};

use crate::Walk;
use byte_order::read::be_u64;
use feeder::{Feeder, Phase};
use reading::bytes::stands_at;
use reading::sizes::{CHUNK_HEADER, NEGATIVE, TYPE};

// A chunk's header and the one after the chunk.
const HEADERS: usize = 2 * CHUNK_HEADER;

// How many bytes the chunk at p has, where it is passed over by its size and another chunk header comes after it.
#[tactic(auto, unfolding(crate::specs::Chunks::whole_at))]
fn whole_at(s: &[u8], p: usize) -> Option<usize>
    requires { p ≤ length s.now }
    ensures { MatchOption result (whole_at s.now p ≡ 0) (λ n. (n ≡ whole_at s.now p) × (0 < n)) }
{
    let left = s.len() - p;
    if left < HEADERS || stands_at(s, p, *b"desc") || stands_at(s, p, *b"data") {
        return None;
    }
    let size = be_u64(s, p + TYPE);
    if NEGATIVE <= size || left - HEADERS < size as usize {
        return None;
    }
    Some(CHUNK_HEADER + size as usize)
}

fn walk(s: &[u8]) -> Walk
    ensures { Walked s.now result }
{
    let mut w = Walk {
        to: 0,
        last: 0,
        chunks: 0,
    };
    while let Some(n) = whole_at(s, w.to) {
        w = Walk {
            to: w.to + n,
            last: w.to,
            chunks: w.chunks + 1,
        };
    }
    w
}

fn is_header(phase: Phase) -> bool
    ensures { result ≡ is_header phase }
{
    matches!(phase, Phase::Header(..))
}

// The record after the whole chunks that lie at the start of s, where a chunk header is due; its total tells how far they go.
pub(crate) fn past_chunks(r: Feeder, s: &[u8]) -> Feeder
    requires { (r.total + length s.now ≤ file_max) × (r.chunks ≤ file_max) }
    ensures { Past r s.now result }
{
    if !is_header(r.phase) || r.count != 0 {
        return r;
    }
    let w = walk(s);
    if w.chunks == 0 {
        return r;
    }
    let mut held = r.held;
    held[..CHUNK_HEADER].copy_from_slice(&s[w.last..w.last + CHUNK_HEADER]);
    Feeder {
        held,
        total: r.total + w.to,
        chunks: r.chunks + w.chunks,
        ..r
    }
}
