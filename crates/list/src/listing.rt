// Document 01's listing, and document 02's last line of it, the layout (T-03).
use crate::readings::Readings;
use answers::Refusal;
use byte_order::float::rate_to_bits;
use chan_reading::{ChanHead, seek};
use feeder::end::end;
use format::AudioFormat;
use reading::{AcceptedFile, StrictInfo};
use std::io;

// The reader of a layout has room for the six numbers of 64 descriptions.
const LAYOUT_ROOM: usize = 384;

fn lines_of_format(rt: &impl Print, format: AudioFormat) -> io::Result<()> {
    // the strict reading accepts no other rate
    if let Some(bits) = rate_to_bits(format.sample_rate) {
        println!(rt; "rate {bits:016x}")?;
    }
    println!(rt; "id {}", format.format_id)?;
    println!(rt; "flags {}", format.format_flags)?;
    println!(rt;
        "packet {} {}",
        format.bytes_per_packet, format.frames_per_packet
    )?;
    println!(rt;
        "channels {} {}",
        format.channels_per_frame, format.bits_per_channel
    )
}

fn lines_of_data(rt: &impl Print, info: StrictInfo) -> io::Result<()> {
    let end = if info.open { "open" } else { "closed" };
    println!(rt; "data {} {}", info.size_position, info.data_start)?;
    println!(rt; "payload {} {end}", info.payload)?;
    println!(rt; "frames {}", info.frames)
}

fn line_of_layout(rt: &impl Print, says: Option<Result<ChanHead, Refusal>>) -> io::Result<()> {
    match says {
        None => println!(rt; "layout none"),
        Some(Ok(head)) => println!(rt; "layout {}", head.tag),
        Some(Err(refusal)) => println!(rt; "layout refused {}", refusal.number()),
    }
}

pub(crate) fn list(rt: &impl Print, readings: Readings) -> io::Result<()> {
    match end(readings.feeder) {
        Err(refused) => println!(rt; "refused {}", refused.refusal.number()),
        Ok(AcceptedFile { info, .. }) => {
            let channels = info.format.channels_per_frame;
            println!(rt; "file {}", readings.feeder.total)?;
            lines_of_format(rt, info.format)?;
            lines_of_data(rt, info)?;
            line_of_layout(rt, seek::sought(readings.seeker, channels, LAYOUT_ROOM))
        }
    }
}
