// Document 02, T-01 and T-05: what a whole piece of a file that comes in blocks leads to. The definitions stand in specs/.
#![tactic(auto)]

pub mod judge;
