// The two readings and the end of the one in blocks, with their answers as numbers.
ghost use Rattle.std.specs.Prelude.{◌≡◌, ◌≤◌, length, Ok};
ghost use Rattle.answers.specs.Refused.{outcome_number};
ghost use Rattle.byte_order.specs.Splice.{splice};
ghost use Rattle.reading.specs.Answers.{plain_number, strict_number};
ghost use Rattle.reading.specs.Plain.{plain};
ghost use Rattle.reading.specs.Shapes.{plain_of, strict_of};
ghost use Rattle.reading.specs.Strict.{strict};
ghost use Rattle.feeder_calls.specs.FeederCalls.{end_on};
ghost use Rattle.numbers.specs.Lent.{number_given, lent_after};
ghost use Rattle.reading_numbers.specs.ReadingNumbers.{plain_places, strict_places, plain_numbers, strict_numbers};

use crate::places::{
    CHUNKS, PLAIN_ENDIANNESS, PLAIN_HAS_FORMAT, PLAIN_PLACES, STRICT_PLACES, STRICT_RATE,
    STRICT_SIZE_POSITION,
};
use answers::Refusal;
use answers::refusal::{DONE, number_of};
use feeder_calls::calls::end_on;
use numbers::format_to_numbers::{audio_numbers, format_numbers, order_number};
use numbers::lent_numbers::{flag, put};
use reading::plain::parse_caf_file;
use reading::strict::read_strict;
use reading::{AcceptedFile, FoundFile, RefusedFile};

fn put_found(out: &mut [u64], found: FoundFile)
    requires { plain_places ≤ length out.old }
    ensures { out.new ≡ splice out.old 0 (plain_numbers (plain_of (Ok found))) }
{
    let FoundFile { info, chunks } = found;
    put(out, CHUNKS, &[chunks as u64]);
    put(out, PLAIN_HAS_FORMAT, &format_numbers(info.format));
    let places = [
        order_number(info.endianness),
        info.size_position as u64,
        info.data_start as u64,
    ];
    put(out, PLAIN_ENDIANNESS, &places);
}

pub fn tell_plain(file: &[u8], out: &mut [u64]) -> u32
    ensures value { result ≡ number_given plain_places out.old (plain_number (plain file.now)) }
    ensures out_after { out.new ≡ lent_after plain_places out.old (plain_numbers (plain file.now)) }
{
    if out.len() < PLAIN_PLACES {
        return Refusal::NoRoom.number();
    }
    match parse_caf_file(file) {
        Ok(found) => {
            put_found(out, found);
            DONE
        }
        Err(refused) => {
            put(out, CHUNKS, &[refused.chunks as u64]);
            refused.refusal.number()
        }
    }
}

fn put_accepted(out: &mut [u64], accepted: AcceptedFile)
    requires { strict_places ≤ length out.old }
    ensures { out.new ≡ splice out.old 0 (strict_numbers (strict_of (Ok accepted))) }
{
    let AcceptedFile { info, chunks } = accepted;
    put(out, CHUNKS, &[chunks as u64]);
    put(out, STRICT_RATE, &audio_numbers(info.format));
    let places = [
        info.size_position as u64,
        info.data_start as u64,
        info.payload as u64,
        flag(info.open),
        info.frames as u64,
    ];
    put(out, STRICT_SIZE_POSITION, &places);
}

fn put_answer(out: &mut [u64], answer: Result<AcceptedFile, RefusedFile>) -> Result<(), Refusal>
    requires { strict_places ≤ length out.old }
    ensures { (outcome_number result ≡ strict_number (strict_of answer)) × (out.new ≡ splice out.old 0 (strict_numbers (strict_of answer))) }
{
    match answer {
        Ok(accepted) => {
            put_accepted(out, accepted);
            Ok(())
        }
        Err(refused) => {
            put(out, CHUNKS, &[refused.chunks as u64]);
            Err(refused.refusal)
        }
    }
}

// Reads strictly, and puts the answer's numbers. In libcaf.a it is the only caller of `read_strict`, into which the compiler puts it
// (compare/README.md).
pub(crate) fn put_strict(file: &[u8], out: &mut [u64]) -> Result<(), Refusal>
    ensures value { outcome_number result ≡ number_given strict_places out.old (strict_number (strict file.now)) }
    ensures out_after { out.new ≡ lent_after strict_places out.old (strict_numbers (strict file.now)) }
{
    if out.len() < STRICT_PLACES {
        return Err(Refusal::NoRoom);
    }
    put_answer(out, read_strict(file))
}

pub fn tell_strict(file: &[u8], out: &mut [u64]) -> u32
    ensures value { result ≡ number_given strict_places out.old (strict_number (strict file.now)) }
    ensures out_after { out.new ≡ lent_after strict_places out.old (strict_numbers (strict file.now)) }
{
    number_of(put_strict(file, out))
}

// Of a film that came in blocks: `held` is the array that keeps the record.
pub fn tell_end(held: &[u64], out: &mut [u64]) -> u32
    ensures value { result ≡ number_given strict_places out.old (strict_number (end_on held.now)) }
    ensures out_after { out.new ≡ lent_after strict_places out.old (strict_numbers (end_on held.now)) }
{
    if out.len() < STRICT_PLACES {
        return Refusal::NoRoom.number();
    }
    number_of(put_answer(out, end_on(held)))
}
