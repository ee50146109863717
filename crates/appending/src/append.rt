// The append: its number, and its stores.
ghost use Rattle.std.specs.Prelude.{◌≡◌, true, ◌+◌, ◌-◌, ◌≤◌, length};
ghost use Rattle.answers.specs.Numbers.{file_max};
ghost use Rattle.answers.specs.Refused.{outcome_number};
ghost use Rattle.overview.specs.Body.{chunk_length};
ghost use Rattle.refusals.specs.Numbers.{exceeds};
ghost use Rattle.appending.specs.Audio.{size_of, is_whole};
ghost use Rattle.appending.specs.Append.{length_as, number_as, into_as, appended_of, Appends};

use crate::Audio;
use crate::whole::{channels_of, frames_in, is_whole};
use answers::{FILE_MAX, Refusal};
use byte_order::read::be_u32;
use overview::Track;
use overview::chunk::put_overview;
use overview::room::{CHUNK_HEAD, PAIR, chunk_room, group_count};
use reading::sizes::EDIT_COUNT;

// Whether a file of this length would, with the overview, be longer than the buffer, or than any file may be.
fn is_too_long_with_it(len: usize, channels: usize, group: u32, frames: usize, room: usize) -> bool
    ensures { result ≡ exceeds (len + chunk_length channels group frames) room }
{
    !chunk_room(channels, group, frames, len, room)
        || !chunk_room(channels, group, frames, len, FILE_MAX)
}

fn check_overview(
    audio: Audio,
    group: u32,
    sound: bool,
    has_header: bool,
    finished: bool,
    overview: bool,
    room: usize,
) -> Result<(), Refusal>
    ensures { outcome_number result ≡ number_as audio group sound has_header finished overview room }
{
    if !sound {
        return Err(Refusal::BadWriter);
    }
    if !has_header {
        return Err(Refusal::NoHeader);
    }
    if !finished {
        return Err(Refusal::NotClosed);
    }
    if overview {
        return Err(Refusal::TailAfterData);
    }
    if group == 0 {
        return Err(Refusal::NoGroup);
    }
    let payload = audio.end.saturating_sub(audio.start);
    if !is_whole(audio.format, payload) {
        return Err(Refusal::WrongWidth);
    }
    let channels = channels_of(audio.format);
    let frames = frames_in(audio.format, payload);
    if is_too_long_with_it(audio.end, channels, group, frames, room) {
        return Err(Refusal::NoRoom);
    }
    Ok(())
}

// Of a call that is not refused: how many bytes it stores.
fn store_overview(buf: &mut [u8], audio: Audio, group: u32) -> usize
    requires { (is_whole audio.format (size_of audio) ≡ true) × (audio.end + length_as audio group ≤ file_max) }
    ensures { (result ≡ length_as audio group) × (buf.new ≡ into_as audio group buf.old) }
{
    let channels = channels_of(audio.format);
    let frames = frames_in(audio.format, audio.end.saturating_sub(audio.start));
    let track = Track {
        order: audio.order,
        at: audio.start,
        channels,
    };
    let edits = be_u32(buf, audio.start.saturating_sub(EDIT_COUNT));
    put_overview(buf, track, edits, group, frames, audio.end);
    CHUNK_HEAD + PAIR * (channels * group_count(group, frames))
}

// What the record says of itself decides why it is refused; a refusal stores nothing. How many bytes are stored, from the end of the data on.
pub fn append(
    buf: &mut [u8],
    audio: Audio,
    group: u32,
    sound: bool,
    has_header: bool,
    finished: bool,
    overview: bool,
) -> Result<usize, Refusal>
    ensures { Appends (number_as audio group sound has_header finished overview (length buf.old)) audio group (appended_of result) buf.old buf.new }
{
    check_overview(
        audio,
        group,
        sound,
        has_header,
        finished,
        overview,
        buf.len(),
    )?;
    Ok(store_overview(buf, audio, group))
}
