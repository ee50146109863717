// The layout for labels: the first row of the table with exactly these labels. Only the rows that can answer are looked at.
ghost use Rattle.std.specs.Prelude.{◌≡◌, ◌<◌, ◌≤◌, length};
ghost use Rattle.byte_order.specs.Same.{exactly};
ghost use Rattle.layout.specs.Table.{row_order};
ghost use Rattle.layout.specs.Search.{layout_for, layout_from};
ghost use Rattle.layout.specs.Searched.{searched, searched_at, rows_before};

use crate::table::{SEARCHED, searched_at, searched_count};
use crate::{ChannelLayout, Row};

// Of a row with as many labels.
fn has_labels(row: Row, labels: &[u32]) -> bool
    requires { (row.count ≤ 8) × (row.count ≡ length labels.now) }
    ensures { result ≡ exactly (row_order row) labels.now }
{
    for (i, label) in labels.iter().enumerate() {
        if row.labels[i] != *label {
            return false;
        }
    }
    true
}

// Only the first `count` labels of a row are its order, so the count is compared too. It is compared before the row is made, since most
// rows have another.
fn matches(i: usize, labels: &[u32]) -> bool
    requires { i < 40 }
    ensures { result ≡ exactly (row_order (searched_at i)) labels.now }
{
    searched_count(i) == labels.len() && has_labels(searched_at(i), labels)
}

// How many of the 40 rows are passed until one matches: all of them where none does.
fn rows_before(labels: &[u32]) -> usize
    ensures { result ≡ rows_before searched labels.now }
{
    for i in 0..SEARCHED {
        if matches(i, labels) {
            return i;
        }
    }
    SEARCHED
}

pub fn layout_for(labels: &[u32]) -> ChannelLayout
    ensures { result ≡ layout_for labels.now }
{
    let i = rows_before(labels);
    if i < SEARCHED {
        ChannelLayout::Tagged(searched_at(i).tag)
    } else {
        ChannelLayout::Described
    }
}

// No layout where the labels are not as many as the channels.
pub fn layout_from(labels: &[u32], channels: u32) -> ChannelLayout
    ensures { result ≡ layout_from labels.now channels }
{
    if labels.len() == channels as usize {
        layout_for(labels)
    } else {
        ChannelLayout::NoLayout
    }
}
