// The layout for labels as numbers.
ghost use Rattle.std.specs.Prelude.{◌≡◌};
ghost use Rattle.answers.specs.Numbers.{done};
ghost use Rattle.layout.specs.Search.{layout_for};
ghost use Rattle.numbers.specs.Lent.{number_given, lent_after};
ghost use Rattle.reading_numbers.specs.LayoutNumbers.{layout_places, layout_numbers};

use answers::Refusal;
use answers::refusal::DONE;
use layout::search::layout_for;
use numbers::lent_numbers::put;
use record_numbers::record_to_numbers::{layout_kind, layout_tag};

const LAYOUT_PLACES: usize = 2;

pub fn tell_layout(labels: &[u32], out: &mut [u64]) -> u32
    ensures value { result ≡ number_given layout_places out.old done }
    ensures out_after { out.new ≡ lent_after layout_places out.old (layout_numbers (layout_for labels.now)) }
{
    if out.len() < LAYOUT_PLACES {
        return Refusal::NoRoom.number();
    }
    let layout = layout_for(labels);
    put(out, 0, &[layout_kind(layout), layout_tag(layout)]);
    DONE
}
