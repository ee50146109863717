// What counted calls did.
ghost use Rattle.std.specs.Prelude.{◌≡◌, ◌+◌, ◌<◌, ◌^◌, max};
ghost use Rattle.writer.specs.Shapes.{counted_of};

use crate::Counted;
use answers::Refusal;

// A budget that no call exceeds: the whole call is the counted one with it.
pub const ALL: usize = usize::MAX;

// So many stores from `at` on, in a file of this length.
pub(crate) fn with_stores(len: usize, at: usize, stores: usize) -> Counted
    requires { at + stores < 2 ^ 64 }
    ensures { result ≡ record { stores = stores; file_len = max len (at + stores) } }
{
    Counted {
        stores,
        file_len: len.max(at + stores),
    }
}

// What a counted call is told to have done, also where it is refused: no stores then, and the file as long as it was.
pub fn counts_of(outcome: Result<Counted, Refusal>, file_len: usize) -> Counted
    ensures { (result.stores ≡ (counted_of file_len outcome).stores) × (result.file_len ≡ (counted_of file_len outcome).file_len) }
{
    outcome.unwrap_or(Counted {
        stores: 0,
        file_len,
    })
}
