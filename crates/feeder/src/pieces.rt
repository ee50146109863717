// The pieces that are collected byte by byte: which one each phase waits for.
ghost use Rattle.std.specs.Prelude.{◌≡◌};
ghost use Rattle.feeder.specs.Record.{piece_size};

use crate::Phase;
use reading::sizes::{CHUNK_HEADER, DESC, EDIT_COUNT, FILE_HEADER};

// How many bytes the piece has; 0 where none is collected.
pub fn piece_size(phase: Phase) -> usize
    ensures { result ≡ piece_size phase }
{
    match phase {
        Phase::FileHeader => FILE_HEADER,
        Phase::FirstHeader | Phase::Header(..) => CHUNK_HEADER,
        Phase::Desc => DESC,
        Phase::Edit(..) => EDIT_COUNT,
        _ => 0,
    }
}
