// Document 02, T-01 and T-05: the record of a file that comes in blocks, when it is sound, and what it says at the end. The definitions stand in specs/.
#![tactic(auto)]

pub mod end;
pub mod pieces;
pub mod sound;

use format::AudioFormat;

// A closed data chunk: its size field, and the position where its data start.
#[derive(Clone, Copy)]
pub struct DataChunk {
    pub size: u64,
    pub start: usize,
}

// What the reader of blocks waits for.
#[derive(Clone, Copy)]
pub enum Phase {
    // the 8 bytes of the file header
    FileHeader,
    // the 12 bytes of the first chunk header
    FirstHeader,
    // the 32 bytes of the first chunk's body
    Desc,
    // the 12 bytes of a chunk header after it, or, after the data, the end; the format that was read, and the data chunk, once it was
    // passed over
    Header(AudioFormat, Option<DataChunk>),
    // the rest of a body that is passed over: the format, the data chunk likewise, and how many bytes are to come
    Skipping(AudioFormat, Option<DataChunk>, usize),
    // the 4 bytes of the edit count: the format, and the size field of the data chunk
    Edit(AudioFormat, u64),
    // the end, in open data: the format, and the position where the data start
    OpenData(AudioFormat, usize),
    // the rest of closed data: the format, the data chunk, and how many bytes are to come
    ClosedData(AudioFormat, DataChunk, usize),
    // nothing any more: a refusal was met, with this number
    Refused(u32),
}

// The strict reading of a file that comes in blocks. It holds the first bytes of one piece, and no payload.
#[derive(Clone, Copy)]
pub struct Feeder {
    pub phase: Phase,
    // the bytes of the piece that have come: the first `count`
    pub held: [u8; 32],
    pub count: usize,
    // how many bytes have been read
    pub total: usize,
    // how many whole chunk headers were met
    pub chunks: usize,
}
