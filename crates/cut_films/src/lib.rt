// What the program `cuts` needs besides printing: which sessions a film has, the bytes and samples that each is given, the calls that give
// them, and a digest of the file. The definitions stand in specs/.
#![tactic(auto)]

mod audio;
pub mod calls;
pub mod digest;
pub mod film;
pub mod settings;
