// A header, part after part.
ghost use Rattle.std.specs.Prelude.{◌≡◌, false, ◌+◌, ◌≤◌, length, take};
ghost use Rattle.byte_order.specs.Big.{big_bytes};
ghost use Rattle.byte_order.specs.Splice.{splice, store_count, store_first};
ghost use Rattle.byte_order.specs.Rate.{not_aNumber};
ghost use Rattle.layout.specs.Chan.{chan_body};
ghost use Rattle.layout.specs.Setting.{label_places};
ghost use Rattle.reading.specs.Types.{type_size, chunk_header_size, open_size, 'chan'};
ghost use Rattle.reading.specs.Grammar.{chunk_header, chunk, other_chunks};
ghost use Rattle.header_bytes.specs.Made.{layout_chunks};
ghost use Rattle.header_bytes.specs.Put.{before_layout, layout_place, open_head, longest_header, header_in};

use crate::size::{DATA_HEAD, LAYOUT, LONGEST_HEADER};
use byte_order::float::is_not_a_number;
use byte_order::put::put;
use byte_order::store::store;
use format::AudioFormat;
use format::body::desc_bytes;
use layout::ChannelLayout;
use layout::chan::{CHAN_HEAD, DESCRIPTION, put_chan};
use layout::setting::LABEL_PLACES;
use layout::tag::USE_CHANNEL_DESCRIPTIONS;
use reading::sizes::{CHUNK_HEADER, DESC, FILE_HEADER, OPEN, TYPE, VERSION};

// A chunk's type, and the size of its body.
#[tactic(auto, using(crate::proofs::Parts::chunk_header_put))]
fn put_chunk_header(out: &mut [u8], at: usize, kind: &[u8], size: u64)
    requires { (at + chunk_header_size ≤ length out.old) × (length kind.now ≡ type_size) }
    ensures { out.new ≡ splice out.old at (chunk_header kind.now size) }
{
    store(out, at, kind, TYPE);
    put(out, at + TYPE, size.to_be_bytes());
}

// The file header, and the description with its format.
fn put_description(out: &mut [u8], format: AudioFormat)
    requires { (longest_header ≤ length out.old) × (not_aNumber format.sample_rate ≡ false) }
    ensures { out.new ≡ splice out.old 0 (before_layout format) }
{
    store(out, 0, b"caff", TYPE);
    store(out, TYPE, &VERSION, 4);
    put_chunk_header(out, FILE_HEADER, b"desc", DESC as u64);
    // the rate is a number
    let desc = desc_bytes(format).unwrap();
    store(out, FILE_HEADER + CHUNK_HEADER, &desc, DESC);
}

// Gives the position after the chunk.
fn put_chan_chunk(out: &mut [u8], tag: u32, labels: &[u32]) -> usize
    requires { (longest_header ≤ length out.old) × (length labels.now ≤ label_places) }
    ensures { (result ≡ layout_place + length (chunk 'chan' (chan_body tag labels.now))) × (out.new ≡ splice out.old layout_place (chunk 'chan' (chan_body tag labels.now))) }
{
    let body = CHAN_HEAD + DESCRIPTION * labels.len();
    put_chunk_header(out, LAYOUT, b"chan", body as u64);
    put_chan(out, LAYOUT + CHUNK_HEADER, tag, labels);
    LAYOUT + CHUNK_HEADER + body
}

// A tag tells the labels, so that none are described beside it.
fn put_layout(out: &mut [u8], layout: ChannelLayout, labels: &[u32]) -> usize
    requires { (longest_header ≤ length out.old) × (length labels.now ≤ label_places) }
    ensures { (result ≡ layout_place + length (other_chunks (layout_chunks layout labels.now))) × (out.new ≡ splice out.old layout_place (other_chunks (layout_chunks layout labels.now))) }
{
    match layout {
        ChannelLayout::NoLayout => LAYOUT,
        ChannelLayout::Tagged(tag) => put_chan_chunk(out, tag, &labels[..0]),
        ChannelLayout::Described => put_chan_chunk(out, USE_CHANNEL_DESCRIPTIONS, labels),
    }
}

// The data chunk's header, whose size -1 says that the file is open, and the edit count 0.
#[tactic(auto, using(crate::proofs::Parts::open_put))]
fn put_data_head(out: &mut [u8], at: usize)
    requires { at + length open_head ≤ length out.old }
    ensures { out.new ≡ splice out.old at open_head }
{
    put_chunk_header(out, at, b"data", OPEN);
    put(out, at + CHUNK_HEADER, 0u32.to_be_bytes());
}

// Gives the header's length: 0, and nothing is put, where the slice has not room for every header, where there are more labels than a
// record holds, or where the rate is not a number.
pub fn put_header(
    out: &mut [u8],
    format: AudioFormat,
    layout: ChannelLayout,
    labels: &[u32],
) -> usize
    ensures { (result ≡ length (header_in (length out.old) format layout labels.now)) × (out.new ≡ splice out.old 0 (header_in (length out.old) format layout labels.now)) }
{
    if out.len() < LONGEST_HEADER
        || LABEL_PLACES < labels.len()
        || is_not_a_number(format.sample_rate)
    {
        return 0;
    }
    put_description(out, format);
    let at = put_layout(out, layout, labels);
    put_data_head(out, at);
    at + DATA_HEAD
}

// With the first `count` of these labels, or all of fewer.
pub fn put_header_of(
    out: &mut [u8],
    format: AudioFormat,
    layout: ChannelLayout,
    labels: &[u32],
    count: usize,
) -> usize
    ensures { (result ≡ length (header_in (length out.old) format layout (take count labels.now))) × (out.new ≡ splice out.old 0 (header_in (length out.old) format layout (take count labels.now))) }
{
    put_header(out, format, layout, &labels[..count.min(labels.len())])
}

// The first n stores of -1 into a size field. All eight are made, whatever the field holds.
pub fn put_open_size(buf: &mut [u8], at: usize, n: usize) -> usize
    ensures { (result ≡ store_count n 8 at (length buf.old)) × (buf.new ≡ store_first n (big_bytes 8 open_size) at buf.old) }
{
    store(buf, at, &OPEN.to_be_bytes(), n)
}
