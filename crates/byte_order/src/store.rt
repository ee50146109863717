// Bytes put into a lent buffer: the copy of every call that writes.
ghost use Rattle.std.specs.Prelude.{◌≡◌, ◌<◌, ◌≤◌, ◌^◌, length};
ghost use Rattle.byte_order.specs.Splice.{store_count, store_first};

use crate::read::is_there;

// Through a local array of N bytes. It lies apart from both slices, which two slices need not, so that the compiler makes one memmove of
// the two copies and drops the array: it takes no stack (tests/stack).
fn copy_through<const N: usize>(to: &mut [u8], from: &[u8])
    requires { (length to.old ≡ length from.now) × (length from.now ≤ N) × (N < 2 ^ 63) }
    ensures { to.new ≡ from.now }
{
    let mut held = [0u8; N];
    let part = &mut held[..from.len()];
    part.copy_from_slice(from);
    to.copy_from_slice(part);
}

// Most calls are short: where nothing drops the array, as in a run without the optimiser, they take one that a stack has room for.
const SHORT: usize = 0x1_0000;

// A long copy is to go to memory as one memmove does, which stores past the caches from some length on that the C library sets by
// their size: pieces are longer than that.
const PIECE: usize = 0x2000_0000;

fn copy_piece(to: &mut [u8], from: &[u8])
    requires { (length to.old ≡ length from.now) × (length from.now ≤ 536870912) }
    ensures { to.new ≡ from.now }
{
    if from.len() <= SHORT {
        copy_through::<SHORT>(to, from);
    } else {
        copy_through::<PIECE>(to, from);
    }
}

fn copy_all(to: &mut [u8], from: &[u8])
    requires { length to.old ≡ length from.now }
    ensures { to.new ≡ from.now }
{
    let mut i: usize = 0;
    while i < from.len() {
        let n = PIECE.min(from.len() - i);
        let end = i + n;
        copy_piece(&mut to[i..end], &from[i..end]);
        i = end;
    }
}

// The first n stores of `bytes` from `at` on, or all if there are fewer; none where they have no room. The end of the stores
// need not fit a usize, so room is tested by what is left.
pub fn store(buf: &mut [u8], at: usize, bytes: &[u8], n: usize) -> usize
    ensures { (result ≡ store_count n (length bytes.now) at (length buf.old)) × (buf.new ≡ store_first n bytes.now at buf.old) }
{
    let count = n.min(bytes.len());
    if !is_there(buf, at, count) {
        return 0;
    }
    let end = at + count;
    copy_all(&mut buf[at..end], &bytes[..count]);
    count
}
