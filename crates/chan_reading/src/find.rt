// The first `chan` of a file that is held whole. Only chunk headers are looked at, so that a mapped film costs its head.
ghost use Rattle.std.specs.Prelude.{◌≡◌};
ghost use Rattle.chan_reading.specs.Find.{find_chan};

use byte_order::read::be_u64;
use reading::Body;
use reading::bytes::stands_at;
use reading::sizes::{CHUNK_HEADER, FILE_HEADER, TYPE};

pub fn find_chan(s: &[u8]) -> Option<Body>
    ensures { result ≡ find_chan s.now }
{
    if s.len() < FILE_HEADER {
        return None;
    }
    let mut p = FILE_HEADER;
    while CHUNK_HEADER <= s.len() - p {
        if stands_at(s, p, *b"data") {
            return None;
        }
        let start = p + CHUNK_HEADER;
        let size = be_u64(s, p + TYPE) as usize;
        if s.len() - start < size {
            return None;
        }
        if stands_at(s, p, *b"chan") {
            return Some(Body { start, size });
        }
        p = start + size;
    }
    None
}
