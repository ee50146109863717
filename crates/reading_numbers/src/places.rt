// The places of the readings' numbers, as include/caf.h names them (CAF_PLAIN_CHUNKS, CAF_STRICT_CHUNKS and so on). A format's own six
// numbers follow its rate, in the order of numbers::format_from_numbers.

// Of both the count of chunk headers met.
pub const CHUNKS: usize = 0;

// Of the plain reading whether there is a format, before its seven numbers, and the byte order and what follows.
pub const PLAIN_HAS_FORMAT: usize = 1;

pub const PLAIN_ENDIANNESS: usize = 9;

pub const PLAIN_PLACES: usize = 12;

// Of the strict one the rate, before the six others, and what follows them.
pub const STRICT_RATE: usize = 1;

pub const STRICT_SIZE_POSITION: usize = 8;

pub const STRICT_DATA_START: usize = 9;

pub const STRICT_PAYLOAD: usize = 10;

pub const STRICT_OPEN: usize = 11;

pub const STRICT_FRAMES: usize = 12;

pub const STRICT_PLACES: usize = 13;
