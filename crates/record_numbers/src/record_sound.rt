// Whether the record that an array stands for is sound, seen in the array: the record is not made for it, which a small call would feel.
ghost use Rattle.std.specs.Prelude.{◌≡◌, true, ◌≤◌, take};
ghost use Rattle.layout.specs.Known.{are_known};
ghost use Rattle.refusals.specs.Sound.{labels_sound, layout_sound_as};
ghost use Rattle.numbers.specs.Words.{at};
ghost use Rattle.record_numbers.specs.RecordNumbers.{labels_in, layout_of, is_record};
ghost use Rattle.record_numbers.specs.RecordSound.{sound_in};

use crate::places::{
    DATA_COUNT, DATA_START, ENDIANNESS, FILE_LEN, FINISHED, HAS_HEADER, LABEL_COUNT, LABELS,
    RECORD, SIZE_POSITION,
};
use crate::record_from_numbers::{format_of, is_record, layout_of, order_of};
use answers::FILE_MAX;
use layout::ChannelLayout;
use layout::known::{known_label, known_tag};
use layout::setting::LABEL_PLACES;
use numbers::words::{WORDS, number_at};
use refusals::of_format::format_sound;
use refusals::places::places_sound;

#[tactic(auto, using(crate::proofs::Records::record_parts))]
fn labels_known(numbers: &[u64], count: usize) -> bool
    requires { (is_record numbers.now ≡ true) × (count ≤ 64) }
    ensures { result ≡ are_known (take count (labels_in numbers.now)) }
{
    numbers[LABELS..LABELS + count]
        .iter()
        .all(|number| known_label((number % WORDS) as u32))
}

fn labels_sound(numbers: &[u64]) -> bool
    requires { is_record numbers.now ≡ true }
    ensures { result ≡ labels_sound (at numbers.now 11) (labels_in numbers.now) }
{
    let count = number_at(numbers, LABEL_COUNT) as usize;
    count <= LABEL_PLACES && labels_known(numbers, count)
}

#[tactic(auto, using(crate::proofs::Records::record_parts))]
fn layout_sound(numbers: &[u64]) -> bool
    requires { is_record numbers.now ≡ true }
    ensures { result ≡ layout_sound_as (layout_of (at numbers.now 9) (at numbers.now 10)) (at numbers.now 11) (labels_in numbers.now) }
{
    match layout_of(numbers) {
        ChannelLayout::NoLayout => true,
        ChannelLayout::Tagged(tag) => known_tag(tag),
        ChannelLayout::Described => labels_sound(numbers),
    }
}

// Over a buffer of `room` bytes. An array that stands for no record is not sound.
#[tactic(auto, using(crate::proofs::Records::record_parts), unfolding(crate::specs::RecordSound::sound_in, writer::specs::Sound::sound, writer::specs::Sound::sound_alone, writer::specs::Sound::places_sound, writer::specs::Sound::format_sound, writer::specs::Sound::layout_sound, crate::specs::RecordNumbers::record_of))]
fn record_sound(numbers: &[u64], room: usize) -> bool
    ensures { result ≡ sound_in numbers.now room }
{
    if !is_record(numbers) {
        return false;
    }
    let file_len = number_at(numbers, FILE_LEN) as usize;
    let places = places_sound(
        number_at(numbers, HAS_HEADER) == 1,
        number_at(numbers, SIZE_POSITION) as usize,
        number_at(numbers, DATA_START) as usize,
        file_len,
        number_at(numbers, DATA_COUNT) as usize,
        number_at(numbers, FINISHED) == 1,
    );
    file_len <= room
        && file_len <= FILE_MAX
        && places
        && format_sound(format_of(numbers), order_of(number_at(numbers, ENDIANNESS)))
        && layout_sound(numbers)
}

// The length is tested first, so that a compiler knows it at every place that is looked at. Then the whole is handed on as a part of itself:
// a slice that is handed on as it came is kept in memory, by two stores that one load follows, and a processor waits for them.
#[tactic(auto, unfolding(crate::specs::RecordSound::sound_in, crate::specs::RecordNumbers::is_record))]
pub fn sound_in(numbers: &[u64], room: usize) -> bool
    ensures { result ≡ sound_in numbers.now room }
{
    numbers.len() == RECORD && record_sound(&numbers[..RECORD], room)
}
