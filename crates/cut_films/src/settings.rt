// The settings of a film's first session.
ghost use Rattle.std.specs.Prelude.{◌≡◌};
ghost use Rattle.cut_films.specs.Film.{layout_by};
ghost use Rattle.cut_films.specs.Settings.{settled_for};

use crate::film::LayoutBy;
use format::{Endianness, PCMDataType};
use layout::label::{LEFT, RIGHT};
use layout::tag::STEREO;
use writer::CAFWriter;
use writer::record::handed_back;

// A fresh record with the format of every film and with this layout: none, a tag, or descriptions, since no tag has the labels in this order.
pub fn with_settings(layout: u32) -> CAFWriter
    ensures { result ≡ settled_for (layout_by layout) }
{
    let w = handed_back(CAFWriter::new().set_audio_format_with_options(
        48000.0,
        2,
        24,
        PCMDataType::SignedInteger,
        Endianness::BigEndian,
    ));
    match LayoutBy::of(layout) {
        LayoutBy::Nothing => w,
        LayoutBy::Tag => handed_back(w.set_channel_layout_tag(STEREO)),
        LayoutBy::Labels => handed_back(w.set_channel_layout_for_labels(&[RIGHT, LEFT], 2)),
    }
}
