// One film, on one line.
use crate::session::{ROOM, make};
use answers::refusal::{DONE, number_of};
use cut_films::digest::digest;
use cut_films::film::Film;
use reading::plain::parse_caf_file;
use reading::strict::read_strict;
use reading::{AcceptedFile, FoundFile, RefusedFile};
use std::io;
use writer::CAFWriter;
use writer::record::{handed_back, outcome_of};

fn show_answer(rt: &impl Print, answer: Result<AcceptedFile, RefusedFile>) -> io::Result<()> {
    match answer {
        Ok(file) => {
            let state = if file.info.open { "open" } else { "closed" };
            print!(rt; " {DONE} {state} {}", file.info.payload)
        }
        Err(refused) => print!(rt; " {}", refused.refusal.number()),
    }
}

fn plain_number(answer: Result<FoundFile, RefusedFile>) -> u32 {
    number_of(answer.map(|_| ()).map_err(|refused| refused.refusal))
}

// Of the first n bytes of a buffer: their digest, and their two readings.
fn show_digest(rt: &impl Print, buf: &[u8], n: usize) -> io::Result<()> {
    match buf.get(..n) {
        Some(file) => print!(rt; " {}", digest(file)),
        None => Ok(()),
    }
}

fn show_plain(rt: &impl Print, buf: &[u8], n: usize) -> io::Result<()> {
    print!(rt; " |")?;
    match buf.get(..n) {
        Some(file) => print!(rt; " {}", plain_number(parse_caf_file(file))),
        None => Ok(()),
    }
}

fn show_strict(rt: &impl Print, buf: &[u8], n: usize) -> io::Result<()> {
    print!(rt; " |")?;
    match buf.get(..n) {
        Some(file) => show_answer(rt, read_strict(file)),
        None => Ok(()),
    }
}

// A resume, and where it is not refused a finish.
fn show_recovery(rt: &impl Print, buf: &mut [u8], len: usize) -> io::Result<()> {
    match CAFWriter::from_existing_file(buf, len) {
        Ok(found) => {
            let closed = found.writer.finish(buf);
            print!(rt; " | {DONE} {}", number_of(outcome_of(closed)))?;
            let len = handed_back(closed).file_len;
            show_digest(rt, buf, len)?;
            show_strict(rt, buf, len)
        }
        Err(refused) => {
            print!(rt; " | {}", refused.refusal.number())?;
            show_digest(rt, buf, len)
        }
    }
}

pub(crate) fn show(rt: &impl Print, film: Film) -> io::Result<()> {
    let mut space = [0; ROOM];
    let buf = space.as_mut_slice();
    let left = make(film, buf);
    print!(rt;
        "{film} | {} {} {}",
        left.number, left.stores, left.file_len
    )?;
    show_digest(rt, buf, left.file_len)?;
    show_plain(rt, buf, left.file_len)?;
    show_strict(rt, buf, left.file_len)?;
    show_recovery(rt, buf, left.file_len)?;
    println!(rt)
}
