// How a sample of the Rust's answers is written (compare/README.md, The fixed sample), for the programs that replay one: numbers, lists, and
// the frame of a case. After the end of the bytes every byte counts as 0, so a case that is cut differs and harms nothing.
#![tactic(auto)]

pub mod frame;
pub mod list;
pub mod number;
pub mod script;
pub mod tally;
