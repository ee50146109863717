// The places and counts of a record.
ghost use Rattle.std.specs.Prelude.{◌≡◌};
ghost use Rattle.refusals.specs.Sound.{headed_sound_as, places_sound_as};

use reading::sizes::{LEAST_START, SIZE_TO_DATA};

// With a header. The least start is tested first, so that the distance to the size field can be taken.
fn headed_sound(size_position: usize, data_start: usize, file_len: usize, data_count: usize) -> bool
    ensures { result ≡ headed_sound_as size_position data_start file_len data_count }
{
    LEAST_START <= data_start
        && data_start - SIZE_TO_DATA == size_position
        && data_start <= file_len
        && data_count <= file_len - data_start
}

pub fn places_sound(
    has_header: bool,
    size_position: usize,
    data_start: usize,
    file_len: usize,
    data_count: usize,
    finished: bool,
) -> bool
    ensures { result ≡ places_sound_as has_header size_position data_start file_len data_count finished }
{
    if has_header {
        return headed_sound(size_position, data_start, file_len, data_count);
    }
    file_len == 0 && data_count == 0 && !finished
}
