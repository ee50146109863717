// How many cases of a sample have the answer that is wanted.
ghost use Rattle.std.specs.Prelude.{◌≡◌, ◌+◌, Some};
ghost use Rattle.cases.specs.Tally.{case_count, tally_text};

use crate::frame::case_at;
use std::fmt;

#[derive(Clone, Copy)]
pub struct Tally {
    pub same: u64,
    pub different: u64,
}

// A replay: it tells of a case, by its kind and its body, whether our answer is the one that is wanted.
pub trait Replay {
    fn is_same(&self, kind: u32, body: &[u8]) -> bool;
}

// Of every case of the sample.
pub fn tally_of<R: Replay>(s: &[u8], replay: &R) -> Tally
    ensures { result.same + result.different ≡ case_count s.now }
{
    let mut same = 0;
    let mut different = 0;
    let mut at = 0;
    while at < s.len() {
        // of a case that is cut nothing follows
        let Some(case) = case_at(s, at) else {
            different += 1;
            break;
        };
        if replay.is_same(case.kind, &s[case.start..case.end]) {
            same += 1;
        } else {
            different += 1;
        }
        at = case.end;
    }
    Tally { same, different }
}

impl fmt::Display for Tally {
    ghost output = { λ t. Some (tally_text t) };

    fn fmt<W: fmt::Write>(&self, f: &mut fmt::Formatter<W>) -> fmt::Result {
        write!(f, "the same {}\ndifferent {}", self.same, self.different)
    }
}
