// The last calls of a session, cut, and the calls before them that give it data.
ghost use Rattle.std.specs.Prelude.{◌≡◌, ◌≤◌, length};
ghost use Rattle.writer.specs.Data.{samples_call};
ghost use Rattle.writer.specs.Outcome.{GivesFirst};
ghost use Rattle.writer.specs.Shapes.{counted_of};
ghost use Rattle.cut_films.specs.Audio.{samples_of};
ghost use Rattle.cut_films.specs.Calls.{bytes_before, bytes_call, last_call, Leaves};
ghost use Rattle.cut_films.specs.Film.{last_call_by};

use crate::audio::{AUDIO, audio, samples};
use crate::film::LastCall;
use answers::Refusal;
use writer::record::handed_back;
use writer::{CAFWriter, Counted};

// The last calls have the numbers below this one.
pub const LAST_CALLS: u32 = 8;

// How many bytes stand before this last call.
fn bytes_before(last: LastCall) -> usize
    ensures { (result ≡ bytes_before last) × (result ≤ 251) }
{
    match last {
        LastCall::Begin | LastCall::OneByte | LastCall::FinishEmpty => 0,
        LastCall::FinishByte | LastCall::FinishAgain => 1,
        LastCall::Samples | LastCall::FinishSamples => 5,
        LastCall::FinishRun => AUDIO,
    }
}

// The bytes before this last call, where there are any.
pub fn with_bytes(w: CAFWriter, buf: &mut [u8], session: usize, last: u32) -> CAFWriter
    ensures { Leaves (bytes_call w (length buf.old) session (last_call_by last)) result buf.old buf.new }
{
    let n = bytes_before(LastCall::of(last));
    if n == 0 {
        return w;
    }
    handed_back(w.write_data(buf, &audio(session)[..n]))
}

// The two samples.
pub fn with_samples(w: CAFWriter, buf: &mut [u8], session: usize) -> CAFWriter
    ensures { Leaves (samples_call w (length buf.old) (samples_of session)) result buf.old buf.new }
{
    handed_back(w.write_pcm_24bit_as_packed(buf, &samples(session)))
}

// A last call other than the one that begins the session, cut after n stores.
pub fn cut_last(
    w: CAFWriter,
    buf: &mut [u8],
    session: usize,
    last: u32,
    n: usize,
) -> Result<Counted, Refusal>
    ensures { GivesFirst n (last_call w (length buf.old) session (last_call_by last)) w (counted_of w.file_len result) buf.old buf.new }
{
    match LastCall::of(last) {
        LastCall::OneByte => w.write_data_counted(buf, &audio(session)[..1], n),
        LastCall::Samples => w.write_pcm_24bit_as_packed_counted(buf, &samples(session), n),
        _ => w.finish_counted(buf, n),
    }
}
