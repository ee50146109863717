// Formats, flags and words as the numbers of 64 bits that C keeps in arrays, and numbers put into a lent array.
#![tactic(auto)]

pub mod choices;
pub mod format_from_numbers;
pub mod format_to_numbers;
pub mod lent_numbers;
pub mod words;
