// The calls of the film, and each by both sets.
use std::fmt;
use writer::{CAFWriter, RefusedCall};

// The tag is one that is not known; PacketTooBig and LabelUnknown are configure calls that are refused for it.
#[derive(Clone, Copy)]
pub(crate) enum Call {
    Tag,
    Configure,
    PacketTooBig,
    LabelUnknown,
    Header,
    Data,
    TooMuch,
    Samples,
    Finish,
}

// The first six are refused: three come too early, three are given what can't be. So are a header after the header, data that exceed the
// room, and data after the finish. A second finish is not.
pub(crate) const FILM: [Call; 16] = [
    Call::Data,
    Call::Finish,
    Call::Header,
    Call::Tag,
    Call::PacketTooBig,
    Call::LabelUnknown,
    Call::Configure,
    Call::Header,
    Call::Data,
    Call::Header,
    Call::Samples,
    Call::TooMuch,
    Call::Samples,
    Call::Finish,
    Call::Data,
    Call::Finish,
];

const BYTES: [u8; 6] = [0, 1, 2, 3, 4, 5];

const TWO: [i32; 2] = [8388607, -8388608];

fn channels(call: Call) -> u32 {
    match call {
        Call::PacketTooBig => u32::MAX,
        _ => 2,
    }
}

fn labels(call: Call) -> [u32; 2] {
    match call {
        Call::LabelUnknown => [1, 4000],
        _ => [1, 2],
    }
}

pub(crate) fn by_value(call: Call, w: CAFWriter, buf: &mut [u8]) -> Result<CAFWriter, RefusedCall> {
    match call {
        Call::Tag => w.set_channel_layout_tag(1),
        Call::Header => w.write_header(buf),
        Call::Data => w.write_data(buf, &BYTES),
        Call::TooMuch => w.write_data(buf, &[7; 64]),
        Call::Samples => w.write_pcm_24bit_as_packed(buf, &TWO),
        Call::Finish => w.finish(buf),
        Call::Configure | Call::PacketTooBig | Call::LabelUnknown => {
            w.configure_audio_format(48000.0, channels(call), 24, &labels(call))
        }
    }
}

pub(crate) fn lent(call: Call, w: CAFWriter, buf: &mut [u8]) -> Result<CAFWriter, RefusedCall> {
    match call {
        Call::Tag => lent_by_value::set_channel_layout_tag(w, 1),
        Call::Header => lent_by_value::write_header(w, buf),
        Call::Data => lent_by_value::write_data(w, buf, &BYTES),
        Call::TooMuch => lent_by_value::write_data(w, buf, &[7; 64]),
        Call::Samples => lent_by_value::write_pcm_24bit_as_packed(w, buf, &TWO),
        Call::Finish => lent_by_value::finish(w, buf),
        Call::Configure | Call::PacketTooBig | Call::LabelUnknown => {
            lent_by_value::configure_audio_format(w, 48000.0, channels(call), 24, &labels(call))
        }
    }
}

impl fmt::Display for Call {
    fn fmt<W: fmt::Write>(&self, f: &mut fmt::Formatter<W>) -> fmt::Result {
        f.write_str(match self {
            Call::Tag => "tag",
            Call::Header => "header",
            Call::Data | Call::TooMuch => "data",
            Call::Samples => "samples",
            Call::Finish => "finish",
            Call::Configure | Call::PacketTooBig | Call::LabelUnknown => "configure",
        })
    }
}
