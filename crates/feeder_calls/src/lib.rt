// The reading in blocks on the array of numbers that C keeps between calls; and, as a theorem, that it is the strict reading of the blocks joined.
#![tactic(auto)]

pub mod calls;
