// The places of the array, as include/caf.h names them (CAF_FEEDER_PHASE and so on). Those of the format stand in
// numbers::format_from_numbers.
pub(crate) const PHASE: usize = 0;

pub(crate) const NUMBER: usize = 8;

pub(crate) const SIZE: usize = 9;

pub(crate) const START: usize = 10;

pub(crate) const COUNT: usize = 11;

pub(crate) const TOTAL: usize = 12;

pub(crate) const CHUNKS: usize = 13;

// The 32 bytes of a piece, eight in a number: from its start, and from its bytes 8, 16 and 24 on.
pub(crate) const HELD: usize = 14;

pub(crate) const HELD_8: usize = 15;

pub(crate) const HELD_16: usize = 16;

pub(crate) const HELD_24: usize = 17;

// How many there are.
pub const FEEDER: usize = 18;
