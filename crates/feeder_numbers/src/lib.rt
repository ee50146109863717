// The feeding record as the array of numbers that C keeps between calls: read from it, and put into it.
#![tactic(auto)]

pub mod feeder_from_numbers;
pub mod feeder_to_numbers;
mod phases;
pub mod places;
