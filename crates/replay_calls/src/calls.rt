// One call of a script, made on our writer. What a case does not hold whole is made of zeros; the script then ends after the case, and differs.
// The writer is lent from function to function, and not handed through their answers: each answer that held one would cost copies of it.
use answers::Refusal;
use answers::refusal::DONE;
use byte_order::float::rate_from_bits;
use byte_order::read::{be_u32, be_u64};
use byte_order::store::store;
use cases::list::{labels_at, samples_at};
use cases::number::{byte, count, data_type, order};
use cases::script::{CallKind, INNER, bytes_at, kind_of};
use reading::RefusedFile;
use writer::resume::resumed_back;
use writer::{CAFWriter, Counted, RefusedCall, ResumedFile};

// What a call told: its number and its count, and how long the writer's file is then.
#[derive(Clone, Copy)]
pub(crate) struct Done {
    pub number: u32,
    pub count: usize,
    pub file_len: usize,
}

// The number for bytes that are no call. No answer of the Rust has it.
const NO_CALL: u32 = 255;

// After a call that counts nothing and leaves this writer.
fn left(number: u32, writer: &CAFWriter) -> Done {
    Done {
        number,
        count: 0,
        file_len: writer.file_len,
    }
}

fn wrote(writer: &mut CAFWriter, answer: Result<CAFWriter, RefusedCall>) -> Done {
    match answer {
        Ok(after) => {
            *writer = after;
            left(DONE, writer)
        }
        Err(refused) => {
            *writer = refused.writer;
            left(refused.refusal.number(), writer)
        }
    }
}

// Beside a refused resume stands a fresh writer.
fn resumed(writer: &mut CAFWriter, answer: Result<ResumedFile, RefusedFile>) -> Done {
    *writer = resumed_back(answer);
    let (number, count) = match answer {
        Ok(found) => (DONE, found.chunks),
        Err(refused) => (refused.refusal.number(), refused.chunks),
    };
    Done {
        count,
        ..left(number, writer)
    }
}

// A cut leaves no writer, and a fresh one stands in its place until the next call, a resume. A refused call leaves the writer that it got.
fn counted(writer: &mut CAFWriter, answer: Result<Counted, Refusal>) -> Done {
    match answer {
        Ok(done) => {
            *writer = CAFWriter::new();
            Done {
                number: DONE,
                count: done.stores,
                file_len: done.file_len,
            }
        }
        Err(refusal) => left(refusal.number(), writer),
    }
}

fn set_format(s: &[u8], p: usize, writer: &mut CAFWriter) -> Option<Done> {
    let rate = rate_from_bits(be_u64(s, p))?;
    let answer = writer.set_audio_format_with_options(
        rate,
        be_u32(s, p.saturating_add(8)),
        be_u32(s, p.saturating_add(12)),
        data_type(byte(s, p.saturating_add(16))),
        order(byte(s, p.saturating_add(17))),
    );
    Some(wrote(writer, answer))
}

fn set_labels(s: &[u8], p: usize, writer: &mut CAFWriter) -> Option<Done> {
    let all = labels_at(s, p.saturating_add(8));
    let labels = all.get(..count(s, p.saturating_add(4)))?;
    let answer = writer.set_channel_layout_for_labels(labels, be_u32(s, p));
    Some(wrote(writer, answer))
}

fn configure(s: &[u8], p: usize, writer: &mut CAFWriter) -> Option<Done> {
    let rate = rate_from_bits(be_u64(s, p))?;
    let all = labels_at(s, p.saturating_add(20));
    let labels = all.get(..count(s, p.saturating_add(16)))?;
    let channels = be_u32(s, p.saturating_add(8));
    let bits = be_u32(s, p.saturating_add(12));
    let answer = writer.configure_audio_format(rate, channels, bits, labels);
    Some(wrote(writer, answer))
}

fn samples(s: &[u8], p: usize, writer: &mut CAFWriter, buf: &mut [u8]) -> Option<Done> {
    let all = samples_at(s, p.saturating_add(4));
    let samples = all.get(..count(s, p))?;
    let answer = writer.write_pcm_24bit_as_packed(buf, samples);
    Some(wrote(writer, answer))
}

// A call with all its stores, whose bytes start at p.
fn whole(
    kind: CallKind,
    s: &[u8],
    p: usize,
    writer: &mut CAFWriter,
    buf: &mut [u8],
) -> Option<Done> {
    let answer = match kind {
        CallKind::Format => return set_format(s, p, writer),
        CallKind::Labels => return set_labels(s, p, writer),
        CallKind::Configure => return configure(s, p, writer),
        CallKind::Samples => return samples(s, p, writer, buf),
        CallKind::Tag => writer.set_channel_layout_tag(be_u32(s, p)),
        CallKind::Header => writer.write_header(buf),
        CallKind::Data => writer.write_data(buf, bytes_at(s, p)),
        CallKind::Finish => writer.finish(buf),
        CallKind::Resume | CallKind::ResumeFrom | CallKind::Cut => return None,
    };
    Some(wrote(writer, answer))
}

fn samples_cut(
    s: &[u8],
    p: usize,
    writer: &CAFWriter,
    buf: &mut [u8],
    n: usize,
) -> Option<Result<Counted, Refusal>> {
    let all = samples_at(s, p.saturating_add(4));
    let samples = all.get(..count(s, p))?;
    Some(writer.write_pcm_24bit_as_packed_counted(buf, samples, n))
}

// The first n stores of a call: n stands at p, and the call after it.
fn cut(s: &[u8], p: usize, writer: &CAFWriter, buf: &mut [u8]) -> Option<Result<Counted, Refusal>> {
    let n = count(s, p);
    let inner = p.saturating_add(INNER);
    let next = inner.saturating_add(1);
    match kind_of(byte(s, inner))? {
        CallKind::Header => Some(writer.write_header_counted(buf, n)),
        CallKind::Data => Some(writer.write_data_counted(buf, bytes_at(s, next), n)),
        CallKind::Samples => samples_cut(s, next, writer, buf, n),
        CallKind::Finish => Some(writer.finish_counted(buf, n)),
        _ => None,
    }
}

// The bytes of the call are the file from here on.
fn resume_from(s: &[u8], p: usize, buf: &mut [u8]) -> Result<ResumedFile, RefusedFile> {
    let file = bytes_at(s, p);
    store(buf, 0, file, file.len());
    CAFWriter::from_existing_file(buf, file.len())
}

// The call at p, if there is one. A resume is from the first `file_len` bytes of the buffer.
fn made(
    s: &[u8],
    p: usize,
    writer: &mut CAFWriter,
    file_len: usize,
    buf: &mut [u8],
) -> Option<Done> {
    let next = p.saturating_add(1);
    match kind_of(byte(s, p))? {
        CallKind::Resume => Some(resumed(writer, CAFWriter::from_existing_file(buf, file_len))),
        CallKind::ResumeFrom => Some(resumed(writer, resume_from(s, next, buf))),
        CallKind::Cut => {
            let answer = cut(s, next, writer, buf)?;
            Some(counted(writer, answer))
        }
        kind => whole(kind, s, next, writer, buf),
    }
}

pub(crate) fn call(
    s: &[u8],
    p: usize,
    writer: &mut CAFWriter,
    file_len: usize,
    buf: &mut [u8],
) -> Done {
    match made(s, p, writer, file_len, buf) {
        Some(done) => done,
        None => left(NO_CALL, writer),
    }
}
