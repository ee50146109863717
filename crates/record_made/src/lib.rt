// The array of numbers that keeps a record for C: made, resumed and looked at, and the counted forms, which only read it.
#![tactic(auto)]

pub mod counted;
pub mod made;
