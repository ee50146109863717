// The places of an array that are not looked at. A call that changes some places of the array, and makes no record, leaves 0 in them.
ghost use Rattle.std.specs.Prelude.{◌≡◌};
ghost use Rattle.record_numbers.specs.RecordTidy.{no_format, no_tag, tidied};

use crate::places::{HAS_FORMAT, LAYOUT_KIND, LAYOUT_TAG, NO_TAG, TAGGED};
use numbers::lent_numbers::put;
use numbers::words::number_at;

fn no_format(numbers: &mut [u64])
    ensures { numbers.new ≡ no_format numbers.old }
{
    if number_at(numbers, HAS_FORMAT) == 0 {
        put(numbers, HAS_FORMAT, &[0; 8]);
    }
}

fn no_tag(numbers: &mut [u64])
    ensures { numbers.new ≡ no_tag numbers.old }
{
    if number_at(numbers, LAYOUT_KIND) != TAGGED {
        put(numbers, LAYOUT_TAG, &[NO_TAG]);
    }
}

#[tactic(auto, unfolding(crate::specs::RecordTidy::tidied))]
pub fn tidy(numbers: &mut [u64])
    ensures { numbers.new ≡ tidied numbers.old }
{
    no_format(numbers);
    no_tag(numbers);
}
