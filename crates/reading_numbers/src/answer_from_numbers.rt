// The strict reading's answer, made anew from its numbers.
ghost use Rattle.std.specs.Prelude.{◌≡◌};
ghost use Rattle.reading.specs.Shapes.{strict_of};
ghost use Rattle.reading.specs.Strict.{strict};
ghost use Rattle.reading_numbers.specs.ReadingNumbers.{values_in};

use crate::places::{
    CHUNKS, STRICT_DATA_START, STRICT_FRAMES, STRICT_OPEN, STRICT_PAYLOAD, STRICT_PLACES,
    STRICT_SIZE_POSITION,
};
use crate::readings::put_strict;
use numbers::format_from_numbers::audio_of;
use numbers::words::number_at;
use reading::{AcceptedFile, RefusedFile, StrictInfo};

fn values_in(numbers: &[u64]) -> StrictInfo
    ensures { result ≡ values_in numbers.now }
{
    StrictInfo {
        format: audio_of(numbers),
        size_position: number_at(numbers, STRICT_SIZE_POSITION) as usize,
        data_start: number_at(numbers, STRICT_DATA_START) as usize,
        payload: number_at(numbers, STRICT_PAYLOAD) as usize,
        open: number_at(numbers, STRICT_OPEN) == 1,
        frames: number_at(numbers, STRICT_FRAMES) as usize,
    }
}

// What `read_strict` answers, for the crates above.
pub fn strict_by_numbers(file: &[u8]) -> Result<AcceptedFile, RefusedFile>
    ensures { strict_of result ≡ strict file.now }
{
    let mut found = [0u64; STRICT_PLACES];
    let outcome = put_strict(file, &mut found);
    let chunks = number_at(&found, CHUNKS) as usize;
    match outcome {
        Ok(()) => Ok(AcceptedFile {
            info: values_in(&found),
            chunks,
        }),
        Err(refusal) => Err(RefusedFile::new(refusal, chunks)),
    }
}
