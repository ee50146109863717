// Big-endian numbers, stores into a lent buffer, and the 64 bits of a rate. The definitions stand in specs/.
#![tactic(auto)]

pub mod float;
pub mod put;
pub mod read;
pub mod store;
