// What C and Rust link as libcaf.a; include/caf.h declares it. A slice is passed as a pointer and a length, and every call takes
// any lengths and any contents: none has a `requires`. The calls hand on to the crates below, where their bodies are proved.
#![tactic(auto)]

pub mod blocks;
pub mod chan;
pub mod counted;
pub mod differences;
pub mod layouts;
pub mod made;
pub mod overviews;
pub mod readings;
pub mod samples;
pub mod settings;
pub mod trays;
pub mod waves;
pub mod writing;
