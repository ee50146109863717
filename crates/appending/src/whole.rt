// Whether data are whole frames of 24-bit samples, and how many.
ghost use Rattle.std.specs.Prelude.{◌≡◌, true, ◌&&◌, ◌*◌, ◌/◌, ◌<◌, ◌^◌};
ghost use Rattle.format.specs.Wide.{is_wide, whole_frames};
ghost use Rattle.pcm.specs.Packing.{sample_size};
ghost use Rattle.appending.specs.Audio.{channels_of, is_whole};

use format::AudioFormat;
use format::wide::{is_wide, whole_frames};
use pcm::sample::SAMPLE_SIZE;

pub(crate) fn channels_of(format: Option<AudioFormat>) -> usize
    ensures { (result ≡ channels_of format) × (result < 2 ^ 32) }
{
    format.map_or(0, |f| f.channels_per_frame as usize)
}

pub(crate) fn is_whole(format: Option<AudioFormat>, payload: usize) -> bool
    ensures { result ≡ is_whole format payload }
{
    format.is_some_and(|f| is_wide(f) && whole_frames(f.channels_per_frame, payload as u64))
}

pub(crate) fn frames_in(format: Option<AudioFormat>, payload: usize) -> usize
    requires { is_whole format payload ≡ true }
    ensures { result ≡ payload / (sample_size * channels_of format) }
{
    payload / (SAMPLE_SIZE * channels_of(format))
}
