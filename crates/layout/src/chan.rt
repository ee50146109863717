// The body of a `chan` chunk, put into a lent buffer.
ghost use Rattle.std.specs.Prelude.{◌≡◌, ◌+◌, ◌*◌, ◌≤◌, length};
ghost use Rattle.byte_order.specs.Splice.{splice};
ghost use Rattle.layout.specs.Chan.{chan_head, description, descriptions, chan_fits, chan_put};

use crate::setting::LABEL_PLACES;
use byte_order::store::store;

// The bytes before the descriptions, and of one description.
pub const CHAN_HEAD: usize = 12;

pub const DESCRIPTION: usize = 20;

// Tag, no bitmap, and the count of descriptions.
fn head(tag: u32, count: u32) -> [u8; 12]
    ensures { result ≡ chan_head tag count }
{
    let t = tag.to_be_bytes();
    let n = count.to_be_bytes();
    [t[0], t[1], t[2], t[3], 0, 0, 0, 0, n[0], n[1], n[2], n[3]]
}

// The label, no flags, three zero coordinates.
fn one(label: u32) -> [u8; 20]
    ensures { result ≡ description label }
{
    let l = label.to_be_bytes();
    [
        l[0], l[1], l[2], l[3], 0, 0, 0, 0, 0, 0, 0, 0, 0, 0, 0, 0, 0, 0, 0, 0,
    ]
}

fn put_descriptions(buf: &mut [u8], at: usize, labels: &[u32])
    requires { at + 20 * length labels.now ≤ length buf.old }
    ensures { buf.new ≡ splice buf.old at (descriptions labels.now) }
{
    for (i, label) in labels.iter().enumerate() {
        store(buf, at + i * DESCRIPTION, &one(*label), DESCRIPTION);
    }
}

// True if the body is stored from `at` on; else nothing is.
pub fn put_chan(buf: &mut [u8], at: usize, tag: u32, labels: &[u32]) -> bool
    ensures { (result ≡ chan_fits (length labels.now) at (length buf.old)) × (buf.new ≡ chan_put buf.old at tag labels.now) }
{
    if LABEL_PLACES < labels.len() {
        return false;
    }
    let size = CHAN_HEAD + DESCRIPTION * labels.len();
    if buf.len() < size {
        return false;
    }
    if buf.len() - size < at {
        return false;
    }
    store(buf, at, &head(tag, labels.len() as u32), CHAN_HEAD);
    put_descriptions(buf, at + CHAN_HEAD, labels);
    true
}
