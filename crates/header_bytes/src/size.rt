// How long headers are, from the sizes of their parts.
use layout::chan::{CHAN_HEAD, DESCRIPTION};
use layout::setting::LABEL_PLACES;
use reading::sizes::{CHUNK_HEADER, DESC, EDIT_COUNT, FILE_HEADER};

// Where the layout's chunk stands, if there is one: after the file header and the description.
pub(crate) const LAYOUT: usize = FILE_HEADER + CHUNK_HEADER + DESC;

// What stands after it: the header of the data chunk, and the edit count.
pub(crate) const DATA_HEAD: usize = CHUNK_HEADER + EDIT_COUNT;

// A header without a layout; with a tag; and with descriptions of as many labels as a record holds.
pub const SHORTEST_HEADER: usize = LAYOUT + DATA_HEAD;

pub const TAGGED_HEADER: usize = SHORTEST_HEADER + CHUNK_HEADER + CHAN_HEAD;

pub const LONGEST_HEADER: usize = TAGGED_HEADER + DESCRIPTION * LABEL_PLACES;
