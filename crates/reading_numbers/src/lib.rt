// What the readings, a `chan` and a search for a layout give C: a `tell_` function returns the answer's number and puts its other numbers into
// a lent array. It tests the array's places first: tested last, an answer would have to be put together before it is written. And the strict
// answer made anew from its numbers.
#![tactic(auto)]

pub mod answer_from_numbers;
pub mod chan;
pub mod layouts;
pub mod places;
pub mod readings;
