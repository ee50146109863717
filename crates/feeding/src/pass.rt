// Bytes that need not be read: whoever can move on in a file passes over them.
ghost use Rattle.std.specs.Prelude.{◌≡◌};
ghost use Rattle.answers.specs.Refused.{outcome_number};
ghost use Rattle.feeding.specs.Pass.{may_pass, passable, pass};

use crate::Fed;
use crate::feed::outcome_at;
use crate::took::passed;
use answers::{FILE_MAX, Refusal};
use feeder::sound::is_sound;
use feeder::{Feeder, Phase};

// With room for so many bytes in a file.
fn may_pass(room: usize, phase: Phase) -> usize
    ensures { result ≡ may_pass room phase }
{
    match phase {
        Phase::Skipping(_, _, left) | Phase::ClosedData(_, _, left) => left.min(room),
        Phase::OpenData(..) => room,
        _ => 0,
    }
}

// How many of the next bytes nothing depends on.
#[tactic(auto, unfolding(crate::specs::Pass::passable, feeder::specs::Record::sound))]
pub fn passable(r: Feeder) -> usize
    ensures { result ≡ passable r }
{
    if !is_sound(r) {
        return 0;
    }
    may_pass(FILE_MAX - r.total, r.phase)
}

// As if n bytes were fed, or as many of them as may be passed over.
pub fn pass(r: Feeder, n: usize) -> Fed
    ensures number { outcome_number result.outcome ≡ (pass r n).number }
    ensures feeder { result.feeder ≡ (pass r n).feeder }
{
    if !is_sound(r) {
        return Fed {
            outcome: Err(Refusal::BadWriter),
            feeder: r,
        };
    }
    let room = FILE_MAX - r.total;
    let feeder = passed(r, n.min(may_pass(room, r.phase)));
    Fed {
        outcome: outcome_at(feeder),
        feeder,
    }
}
