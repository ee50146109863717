// When a record is sound, in the order of specs/Sound.antt.
ghost use Rattle.std.specs.Prelude.{◌≡◌};
ghost use Rattle.writer.specs.Sound.{layout_sound, sound_alone, sound, standing_of};

use crate::CAFWriter;
use answers::FILE_MAX;
use layout::ChannelLayout;
use layout::known::known_tag;
use refusals::of_format::format_sound;
use refusals::of_layout::labels_sound;
use refusals::places::places_sound;
use refusals::standing::Standing;

#[tactic(auto, unfolding(crate::specs::Sound::layout_sound))]
fn layout_sound(w: &CAFWriter) -> bool
    ensures { result ≡ layout_sound w.now }
{
    match w.layout {
        ChannelLayout::NoLayout => true,
        ChannelLayout::Tagged(tag) => known_tag(tag),
        ChannelLayout::Described => labels_sound(w.label_count, &w.labels),
    }
}

impl CAFWriter {
    // Without a buffer.
    #[tactic(auto, unfolding(crate::specs::Sound::sound_alone, crate::specs::Sound::places_sound, crate::specs::Sound::format_sound))]
    pub(crate) fn is_sound_alone(&self) -> bool
        ensures { result ≡ sound_alone self.now }
    {
        self.file_len <= FILE_MAX
            && places_sound(
                self.has_header,
                self.size_position,
                self.data_start,
                self.file_len,
                self.data_count,
                self.finished,
            )
            && format_sound(self.format, self.endianness)
            && layout_sound(self)
    }

    // Over a buffer of `room` bytes.
    #[tactic(auto, unfolding(crate::specs::Sound::sound))]
    pub(crate) fn is_sound(&self, room: usize) -> bool
        ensures { result ≡ sound self.now room }
    {
        self.file_len <= room && self.is_sound_alone()
    }

    // What the record says of itself over that buffer.
    pub(crate) fn standing(&self, room: usize) -> Standing
        ensures { result ≡ standing_of self.now room }
    {
        Standing {
            sound: self.is_sound(room),
            finished: self.finished,
            has_header: self.has_header,
        }
    }
}
