// A caller that keeps the record in a local of its own and lends it to the call. What it gives back is what the by-value call gives.
#![tactic(auto)]

ghost use Rattle.std.specs.Prelude.{◌≡◌, length};
ghost use Rattle.answers.specs.Refused.{outcome_number};
ghost use Rattle.writer.specs.Outcome.{answer, buffer_after};
ghost use Rattle.writer.specs.Shapes.{wrote_of};
ghost use Rattle.writer.specs.Settings.{tag_call, configure_call};
ghost use Rattle.writer.specs.Header.{header_call};
ghost use Rattle.writer.specs.Data.{data_call, samples_call};
ghost use Rattle.writer.specs.Finish.{finish_call};

use answers::Refusal;
use writer::{CAFWriter, RefusedCall};

// The by-value answer, with the record that stands in the local after the call.
fn kept(writer: CAFWriter, outcome: Result<(), Refusal>) -> Result<CAFWriter, RefusedCall>
    ensures { wrote_of result ≡ record { number = outcome_number outcome; writer = writer } }
{
    match outcome {
        Ok(()) => Ok(writer),
        Err(refusal) => Err(RefusedCall { refusal, writer }),
    }
}

pub fn set_channel_layout_tag(mut w: CAFWriter, tag: u32) -> Result<CAFWriter, RefusedCall>
    ensures { wrote_of result ≡ answer (tag_call w tag) }
{
    let outcome = lent::settings::set_channel_layout_tag(&mut w, tag);
    kept(w, outcome)
}

pub fn configure_audio_format(
    mut w: CAFWriter,
    sample_rate: f64,
    channels: u32,
    bits_per_channel: u32,
    labels: &[u32],
) -> Result<CAFWriter, RefusedCall>
    ensures { wrote_of result ≡ answer (configure_call w sample_rate channels bits_per_channel labels.now) }
{
    let outcome = lent::settings::configure_audio_format(
        &mut w,
        sample_rate,
        channels,
        bits_per_channel,
        labels,
    );
    kept(w, outcome)
}

pub fn write_header(mut w: CAFWriter, buf: &mut [u8]) -> Result<CAFWriter, RefusedCall>
    ensures { (wrote_of result ≡ answer (header_call w (length buf.old))) × (buf.new ≡ buffer_after (header_call w (length buf.old)) buf.old) }
{
    let outcome = lent::writing::write_header(&mut w, buf);
    kept(w, outcome)
}

pub fn write_data(mut w: CAFWriter, buf: &mut [u8], data: &[u8]) -> Result<CAFWriter, RefusedCall>
    ensures { (wrote_of result ≡ answer (data_call w (length buf.old) «data».now)) × (buf.new ≡ buffer_after (data_call w (length buf.old) «data».now) buf.old) }
{
    let outcome = lent::writing::write_data(&mut w, buf, data);
    kept(w, outcome)
}

pub fn write_pcm_24bit_as_packed(
    mut w: CAFWriter,
    buf: &mut [u8],
    samples: &[i32],
) -> Result<CAFWriter, RefusedCall>
    ensures { (wrote_of result ≡ answer (samples_call w (length buf.old) samples.now)) × (buf.new ≡ buffer_after (samples_call w (length buf.old) samples.now) buf.old) }
{
    let outcome = lent::writing::write_pcm_24bit_as_packed(&mut w, buf, samples);
    kept(w, outcome)
}

pub fn finish(mut w: CAFWriter, buf: &mut [u8]) -> Result<CAFWriter, RefusedCall>
    ensures { (wrote_of result ≡ answer (finish_call w (length buf.old))) × (buf.new ≡ buffer_after (finish_call w (length buf.old)) buf.old) }
{
    let outcome = lent::writing::finish(&mut w, buf);
    kept(w, outcome)
}
