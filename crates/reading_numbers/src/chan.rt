// A `chan` read, and the first one of a file found, as numbers.
ghost use Rattle.std.specs.Prelude.{◌≡◌, ◌≤◌, length, Ok};
ghost use Rattle.answers.specs.Numbers.{done};
ghost use Rattle.byte_order.specs.Splice.{splice};
ghost use Rattle.chan_reading.specs.Find.{find_chan};
ghost use Rattle.chan_reading.specs.Shapes.{read_of};
ghost use Rattle.numbers.specs.Lent.{number_given, lent_after};
ghost use Rattle.reading_numbers.specs.ChanNumbers.{read_number, read_numbers, read_places, ReadCall, place_numbers, place_places};

use answers::Refusal;
use answers::refusal::DONE;
use chan_reading::ChanRead;
use chan_reading::describe::read_chan;
use chan_reading::find::find_chan;
use numbers::lent_numbers::{put, put_words};
use reading::Body;

// The places of what a `chan` says: its tag and the three numbers after it, and the order that the tag stands for.
const SAID_TAG: usize = 0;

const SAID_ORDER: usize = 4;

const READ_PLACES: usize = 12;

// Whether there is one, its start and its size.
const PLACE_PLACES: usize = 3;

fn put_given(answer: &mut [u64], read: ChanRead)
    requires { read_places ≤ length answer.old }
    ensures { answer.new ≡ splice answer.old 0 (read_numbers (read_of (Ok read)).answer read.order) }
{
    let ChanRead { head, order } = read;
    let numbers = [
        head.tag as u64,
        head.bitmap as u64,
        head.count as u64,
        order.count as u64,
    ];
    put(answer, SAID_TAG, &numbers);
    put_words(answer, SAID_ORDER, &order.labels);
}

fn tell_read(answer: &mut [u64], read: Result<ChanRead, Refusal>) -> u32
    requires { read_places ≤ length answer.old }
    ensures { (result ≡ read_number (read_of read).answer) × (answer.new ≡ splice answer.old 0 (read_numbers (read_of read).answer (read_of read).order)) }
{
    match read {
        Ok(given) => {
            put_given(answer, given);
            DONE
        }
        Err(refusal) => refusal.number(),
    }
}

// The descriptions go to `out`, and nothing goes there without room for the answer.
pub fn tell_chan(body: &[u8], channels: u32, out: &mut [u32], answer: &mut [u64]) -> u32
    ensures { ReadCall body.now channels out.old answer.old result out.new answer.new }
{
    if answer.len() < READ_PLACES {
        return Refusal::NoRoom.number();
    }
    tell_read(answer, read_chan(body, channels, out))
}

fn place_numbers(place: Option<Body>) -> [u64; 3]
    ensures { result ≡ place_numbers place }
{
    match place {
        Some(body) => [1, body.start as u64, body.size as u64],
        None => [0; 3],
    }
}

pub fn tell_place(file: &[u8], out: &mut [u64]) -> u32
    ensures value { result ≡ number_given place_places out.old done }
    ensures out_after { out.new ≡ lent_after place_places out.old (place_numbers (find_chan file.now)) }
{
    if out.len() < PLACE_PLACES {
        return Refusal::NoRoom.number();
    }
    put(out, 0, &place_numbers(find_chan(file)));
    DONE
}
