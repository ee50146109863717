// Writes document 01's example and prints it: 48000 Hz, two channels, 24 bits, Stereo, samples 1 and -1, finished. Each line of a call
// has its number and the length of the file then. The buffer was lent filled with ee, so the bytes after the file show that they kept
// their contents. Then come 01's bound on labels, bytes per packet as the header has them, and what a header settles.
#![tactic(auto)]

use answers::refusal::number_of;
use format::{Endianness, PCMDataType};
use layout::label::{LEFT, RIGHT};
use std::io;
use writer::record::{handed_back, outcome_of};
use writer::{CAFWriter, RefusedCall};

const BYTE: u8 = 0xEE;

fn told(
    rt: &impl Print,
    call: &str,
    answer: Result<CAFWriter, RefusedCall>,
) -> io::Result<CAFWriter> {
    let writer = handed_back(answer);
    println!(rt;
        "{call} {}, file {}",
        number_of(outcome_of(answer)),
        writer.file_len
    )?;
    Ok(writer)
}

fn write_example(rt: &impl Print, buf: &mut [u8]) -> io::Result<CAFWriter> {
    let labels = [LEFT, RIGHT];
    let samples = [1, -1];
    let set = told(
        rt,
        "configure",
        CAFWriter::new().configure_audio_format(48000.0, 2, 24, &labels),
    )?;
    let begun = told(rt, "header", set.write_header(buf))?;
    let grown = told(
        rt,
        "samples",
        begun.write_pcm_24bit_as_packed(buf, &samples),
    )?;
    told(rt, "finish", grown.finish(buf))
}

fn part(rt: &impl Print, name: &str, bytes: &[u8]) -> io::Result<()> {
    print!(rt; "{name}")?;
    show::hex(rt, bytes)?;
    println!(rt)
}

// As many labels as channels.
fn labels(rt: &impl Print, labels: &[u32], channels: u32) -> io::Result<()> {
    let set = CAFWriter::new().set_channel_layout_for_labels(labels, channels);
    println!(rt; "labels {channels}: {}", number_of(outcome_of(set)))
}

// The four bytes in the header: bits that fill no byte take one more. A refused format leaves no header, and the buffer as it was.
fn packet(rt: &impl Print, bits: u32, channels: u32) -> io::Result<()> {
    let mut buf = [BYTE; 68];
    let set = CAFWriter::new().set_audio_format_with_options(
        48000.0,
        channels,
        bits,
        PCMDataType::SignedInteger,
        Endianness::BigEndian,
    );
    let _ = handed_back(set).write_header(&mut buf);
    print!(rt;
        "bits {bits} channels {channels}: {}",
        number_of(outcome_of(set))
    )?;
    part(rt, ", packet", &buf[36..40])
}

// Around bits that fill no byte, and where the product reaches 2^32.
fn packets(rt: &impl Print) -> io::Result<()> {
    packet(rt, 20, 2)?;
    packet(rt, 0, 2)?;
    packet(rt, 31, 1073741823)?;
    packet(rt, 31, 1073741824)?;
    packet(rt, 20, 1431655765)?;
    packet(rt, 20, 1431655766)?;
    packet(rt, 4294967295, 7)?;
    packet(rt, 4294967295, 8)
}

// What a header settles. The written record takes no setting; a file that is resumed without a format takes bytes, and no samples.
fn settled(rt: &impl Print, written: CAFWriter) -> io::Result<()> {
    let labels = [LEFT, RIGHT];
    told(
        rt,
        "labels",
        written.set_channel_layout_for_labels(&labels, 2),
    )?;
    let mut bare = *b"caff\x00\x01\x00\x00data\xff\xff\xff\xff\xff\xff\xff\xff\x00\x00\x00\x00???";
    let Ok(found) = CAFWriter::from_existing_file(&mut bare, 24) else {
        return println!(rt; "not resumed");
    };
    let resumed = found.writer;
    told(
        rt,
        "samples",
        resumed.write_pcm_24bit_as_packed(&mut bare, &[1]),
    )?;
    told(
        rt,
        "no samples",
        resumed.write_pcm_24bit_as_packed(&mut bare, &[]),
    )?;
    told(rt, "bytes", resumed.write_data(&mut bare, b"abc"))?;
    Ok(())
}

fn main(rt: HostRuntime) -> io::Result<()> {
    let mut buf = [BYTE; 100];
    let written = write_example(&rt, &mut buf)?;
    if let Some((file, after)) = buf.split_at_checked(written.file_len) {
        part(&rt, "file", file)?;
        part(&rt, "after", after)?;
    }
    let row = [LEFT; 65];
    labels(&rt, &row[..64], 64)?;
    labels(&rt, &row, 65)?;
    packets(&rt)?;
    settled(&rt, written)
}
