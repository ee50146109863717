// Cases of layouts: a list of labels, and the tag that the Rust gave it or how many channels it described.
use byte_order::read::be_u32;
use cases::list::{MOST_LABELS, labels_at};
use cases::number::count;
use layout::ChannelLayout;
use layout::search::layout_for;

fn same_layout(layout: ChannelLayout, n: usize, tag: u32, described: usize) -> bool {
    match layout {
        ChannelLayout::NoLayout => false,
        ChannelLayout::Tagged(t) => t == tag && described == 0,
        ChannelLayout::Described => tag == 0 && described == n,
    }
}

pub(crate) fn same_labels(body: &[u8]) -> bool {
    let n = count(body, 0);
    if MOST_LABELS < n {
        return false;
    }
    let end = 4 + 4 * n;
    if body.len() != end + 8 {
        return false;
    }
    let labels = labels_at(body, 4);
    let layout = layout_for(&labels[..n]);
    same_layout(layout, n, be_u32(body, end), count(body, end + 4))
}
