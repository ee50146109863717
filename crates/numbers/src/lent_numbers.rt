// Numbers put into a lent array.
ghost use Rattle.std.specs.Prelude.{◌≡◌, ◌+◌, ◌≤◌, not, ltb, length};
ghost use Rattle.byte_order.specs.Splice.{splice};
ghost use Rattle.numbers.specs.FormatNumbers.{flag_number};
ghost use Rattle.numbers.specs.Lent.{put_at};

// Whether an array of `len` places has `n` from `at` on.
fn has_room(len: usize, at: usize, n: usize) -> bool
    ensures { result ≡ not (ltb len (at + n)) }
{
    n <= len && at <= len - n
}

// Puts the numbers from a place on, or none where there is not room for all.
pub fn put(out: &mut [u64], at: usize, numbers: &[u64])
    ensures { out.new ≡ put_at out.old at numbers.now }
{
    if has_room(out.len(), at, numbers.len()) {
        out[at..at + numbers.len()].copy_from_slice(numbers);
    }
}

// The same with numbers of 32 bits.
pub fn put_words(out: &mut [u64], at: usize, words: &[u32])
    ensures { out.new ≡ put_at out.old at words.now }
{
    if has_room(out.len(), at, words.len()) {
        for (i, word) in words.iter().enumerate() {
            out[at + i] = u64::from(*word);
        }
    }
}

// 1 for true and 0 for false.
pub fn flag(on: bool) -> u64
    ensures { result ≡ flag_number on }
{
    u64::from(on)
}
