// The labels of a layout that is described.
ghost use Rattle.std.specs.Prelude.{◌≡◌};
ghost use Rattle.refusals.specs.Sound.{labels_sound};

use layout::known::all_known;
use layout::setting::LABEL_PLACES;

// The first `count` labels, or all of fewer.
pub fn labels_sound(count: usize, labels: &[u32]) -> bool
    ensures { result ≡ labels_sound count labels.now }
{
    count <= LABEL_PLACES && all_known(&labels[..count.min(labels.len())])
}
