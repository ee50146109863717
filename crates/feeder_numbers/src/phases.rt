// The numbers of the phases. A header and a skipped body have one before the data and one after them.
pub(crate) const FILE_HEADER: u64 = 0;

pub(crate) const FIRST_HEADER: u64 = 1;

pub(crate) const DESC: u64 = 2;

pub(crate) const HEADER: u64 = 3;

pub(crate) const SKIPPING: u64 = 4;

pub(crate) const EDIT: u64 = 5;

pub(crate) const OPEN_DATA: u64 = 6;

pub(crate) const REFUSED: u64 = 7;

pub(crate) const HEADER_AFTER: u64 = 8;

pub(crate) const SKIPPING_AFTER: u64 = 9;

// No phase has a greater number.
pub(crate) const CLOSED_DATA: u64 = 10;
