// A film through both sets of calls, side by side: the record by value, and the record lent. After each call the program prints the number,
// the figures and the file's strict reading, and whether the two sets agree in these, in the file's length and in every byte of the buffer.
#![tactic(auto)]

mod calls;

use answers::Refusal;
use answers::refusal::number_of;
use calls::{FILM, by_value, lent};
use reading::strict::read_strict;
use reading::{AcceptedFile, RefusedFile};
use std::io;
use writer::record::{handed_back, outcome_of};
use writer::{CAFWriter, RefusedCall};

// The length of the two buffers.
const ROOM: usize = 128;

fn same_answer(a: Result<CAFWriter, RefusedCall>, b: Result<CAFWriter, RefusedCall>) -> bool {
    let v = handed_back(a);
    let w = handed_back(b);
    outcome_of(a) == outcome_of(b) && v.stats() == w.stats() && v.file_len == w.file_len
}

// The strict reading of the first bytes of the buffer.
fn reading_of(buf: &[u8], len: usize) -> Result<AcceptedFile, RefusedFile> {
    match buf.get(..len) {
        Some(file) => read_strict(file),
        None => Err(RefusedFile::new(Refusal::BadWriter, 0)),
    }
}

fn show_reading(rt: &impl Print, answer: Result<AcceptedFile, RefusedFile>) -> io::Result<()> {
    match answer {
        Ok(AcceptedFile { info, .. }) => {
            let state = if info.open { "open" } else { "closed" };
            print!(rt; " payload {} {state} frames {}", info.payload, info.frames)
        }
        Err(refused) => print!(rt; " rejected {}", refused.refusal.number()),
    }
}

// Prints what the record by value came to.
fn show_wrote(rt: &impl Print, a: Result<CAFWriter, RefusedCall>, buf: &[u8]) -> io::Result<()> {
    let w = handed_back(a);
    let stats = w.stats();
    let finished = if stats.finished { " finished" } else { "" };
    print!(rt;
        " {} count {}{finished} file {}",
        number_of(outcome_of(a)),
        stats.data_count,
        w.file_len
    )?;
    show_reading(rt, reading_of(buf, w.file_len))
}

fn main(rt: HostRuntime) -> io::Result<()> {
    let mut one = [0; ROOM];
    let mut two = [0; ROOM];
    let mut v = CAFWriter::new();
    let mut w = CAFWriter::new();
    for call in FILM {
        let a = by_value(call, v, &mut one);
        let b = lent(call, w, &mut two);
        print!(rt; "{call}")?;
        show_wrote(&rt, a, &one)?;
        let same = if same_answer(a, b) && one == two {
            " same"
        } else {
            ""
        };
        println!(rt; "{same}")?;
        v = handed_back(a);
        w = handed_back(b);
    }
    Ok(())
}
