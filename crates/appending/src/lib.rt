// The overview put after the data of a finished file, by the parts of the writer's record: which number refuses it, and its stores. The
// call on the record itself is a method in `writer`. The definitions stand in specs/.
#![tactic(auto)]

pub mod append;
mod whole;

use format::{AudioFormat, Endianness};

// The data that a file ends with.
#[derive(Clone, Copy)]
pub struct Audio {
    pub format: Option<AudioFormat>,
    pub order: Endianness,
    pub start: usize,
    pub end: usize,
}
