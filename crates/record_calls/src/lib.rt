// The writer's calls on the array of numbers that keeps its record for C.
#![tactic(auto)]

pub mod kept;
pub mod settings;
pub mod writing;
