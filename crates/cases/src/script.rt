// The calls of a script: where the bytes of each end, and the run of bytes that one is given.
ghost use Rattle.std.specs.Prelude.{◌≡◌};
ghost use Rattle.cases.specs.Script.{after_numbers, after_bytes, kind_of, after_call, end_of, bytes_at};

use crate::number::{byte, count};
use byte_order::read::be_u32;

// The kinds of call, as compare/README.md has them.
#[derive(Clone, Copy, Debug, PartialEq, Eq)]
pub enum CallKind {
    Format = 1,
    Tag = 2,
    Labels = 3,
    Configure = 4,
    Header = 5,
    Data = 6,
    Samples = 7,
    Finish = 8,
    Resume = 9,
    ResumeFrom = 10,
    Cut = 11,
}

// The kind that a byte tells.
#[tactic(auto, unfolding(crate::specs::Script::kind_of))]
pub fn kind_of(byte: u32) -> Option<CallKind>
    ensures { result ≡ kind_of byte }
{
    match byte {
        1 => Some(CallKind::Format),
        2 => Some(CallKind::Tag),
        3 => Some(CallKind::Labels),
        4 => Some(CallKind::Configure),
        5 => Some(CallKind::Header),
        6 => Some(CallKind::Data),
        7 => Some(CallKind::Samples),
        8 => Some(CallKind::Finish),
        9 => Some(CallKind::Resume),
        10 => Some(CallKind::ResumeFrom),
        11 => Some(CallKind::Cut),
        _ => None,
    }
}

// Where the call that is cut stands after its kind: after the four bytes of n.
pub const INNER: usize = 4;

// Where a list of numbers ends whose count stands at p.
fn after_numbers(s: &[u8], p: usize) -> usize
    ensures { result ≡ after_numbers s.now p }
{
    p.saturating_add(4 + be_u32(s, p) as usize * 4)
}

// Where a run of bytes ends whose length stands at p.
fn after_bytes(s: &[u8], p: usize) -> usize
    ensures { result ≡ after_bytes s.now p }
{
    p.saturating_add(4).saturating_add(count(s, p))
}

// Where a call of this kind ends, whose bytes start at p.
fn after_call(kind: Option<CallKind>, s: &[u8], p: usize) -> usize
    ensures { result ≡ after_call kind s.now p }
{
    match kind {
        Some(CallKind::Format) => p.saturating_add(18),
        Some(CallKind::Tag) => p.saturating_add(4),
        Some(CallKind::Labels) => after_numbers(s, p.saturating_add(4)),
        Some(CallKind::Configure) => after_numbers(s, p.saturating_add(16)),
        Some(CallKind::Data | CallKind::ResumeFrom) => after_bytes(s, p),
        Some(CallKind::Samples) => after_numbers(s, p),
        _ => p,
    }
}

// Where the call at p ends and its answer starts.
pub fn end_of(s: &[u8], p: usize) -> usize
    ensures { result ≡ end_of s.now p }
{
    let next = p.saturating_add(1);
    match kind_of(byte(s, p)) {
        Some(CallKind::Cut) => {
            let inner = next.saturating_add(INNER);
            after_call(kind_of(byte(s, inner)), s, inner.saturating_add(1))
        }
        kind => after_call(kind, s, next),
    }
}

// The bytes whose length stands at p; none where the case does not hold them.
pub fn bytes_at(s: &[u8], p: usize) -> &[u8]
    ensures { result.now ≡ bytes_at s.now p }
{
    s.get(p.saturating_add(4)..after_bytes(s, p)).unwrap_or(&[])
}
