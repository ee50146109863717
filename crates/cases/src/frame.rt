// The frame of a case: a byte of kind, the four bytes of a length, and so many bytes of body.
ghost use Rattle.std.specs.Prelude.{◌≡◌, ◌<◌, ◌≤◌, length, MatchOption};
ghost use Rattle.cases.specs.Frame.{case_at};

use crate::number::{byte, count};

#[derive(Clone, Copy)]
pub struct Case {
    pub kind: u32,
    pub start: usize,
    pub end: usize,
}

const LENGTH: usize = 1;

const BODY: usize = 5;

// The case at a position, if it is not cut.
pub fn case_at(s: &[u8], at: usize) -> Option<Case>
    ensures value { result ≡ case_at s.now at }
    ensures within { MatchOption result Unit (λ c. (at < c.end) × (c.start ≤ c.end) × (c.end ≤ length s.now)) }
{
    let start = at.saturating_add(BODY);
    let end = start.saturating_add(count(s, at.saturating_add(LENGTH)));
    if s.len() < end {
        return None;
    }
    Some(Case {
        kind: byte(s, at),
        start,
        end,
    })
}
