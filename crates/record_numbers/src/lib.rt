// The writer record as the array of numbers that C keeps between calls: read from it, and put into it.
#![tactic(auto)]

pub mod places;
pub mod record_from_numbers;
pub mod record_sound;
pub mod record_tidy;
pub mod record_to_numbers;
