// A number's big-endian bytes put into a lent buffer at a position: `put(buf, at, v.to_be_bytes())`. True if they had room there; else
// nothing is stored.
ghost use Rattle.std.specs.Prelude.{◌≡◌, length};
ghost use Rattle.byte_order.specs.Splice.{has_room, store_first};

use crate::read::is_there;
use crate::store::store;

pub fn put<const N: usize>(buf: &mut [u8], at: usize, bytes: [u8; N]) -> bool
    ensures { (result ≡ has_room at N (length buf.old)) × (buf.new ≡ store_first N bytes.entry at buf.old) }
{
    let room = is_there(buf, at, N);
    store(buf, at, &bytes, N);
    room
}
