// The pieces, and a file that is put together from them.
ghost use Rattle.std.specs.Prelude.{◌≡◌, ◌+◌, ◌<◌, ◌≤◌, length};

pub(crate) const PIECES: usize = 13;

pub(crate) const SLOT: usize = 64;

// Puts the piece of one slot after the first `at` bytes of the file; gives its new length.
fn put_piece(slot: &[u8], file: &mut [u8], at: usize) -> usize
    requires { at ≤ length file.old }
    ensures lower_bound { (at ≤ result) × (result ≤ length file.new) }
    ensures file_len_unchanged { length file.new ≡ length file.old }
{
    let [long, bytes @ ..] = slot else {
        return at;
    };
    let n = usize::from(*long).min(bytes.len()).min(file.len() - at);
    file[at..at + n].copy_from_slice(&bytes[..n]);
    at + n
}

// The same by the piece's number.
pub(crate) fn put(slots: &[u8], i: usize, file: &mut [u8], at: usize) -> usize
    requires { (i ≤ 13) × (at ≤ length file.old) }
    ensures lower_bound { (at ≤ result) × (result ≤ length file.new) }
    ensures file_len_unchanged { length file.new ≡ length file.old }
{
    let from = i * SLOT;
    let to = from + SLOT;
    if slots.len() < to {
        return at;
    }
    put_piece(&slots[from..to], file, at)
}
