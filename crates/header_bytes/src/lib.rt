// The bytes of a header, put together in a lent slice that has room for the longest. The definitions stand in specs/.
#![tactic(auto)]

pub mod put;
pub mod size;
