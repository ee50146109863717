// Runs both readings on short files: concatenations of the pieces that stand on standard input, each in a slot of 64 bytes after its
// length. `tools/reading_model.py` writes the input and, by a second implementation of document 01's words, the output that is wanted; it
// says what the lines mean.
#![tactic(auto)]

mod digest;
mod pieces;
mod shown;

ghost use Rattle.std.specs.Prelude.{◌≡◌, ◌≤◌, length};

use digest::every_cut;
use pieces::{PIECES, put};
use show::{newline, word};
use shown::{both_answers, number};
use std::io;

// The digest of all files that go on from `at` with one piece more.
fn one_more(slots: &[u8], file: &mut [u8], at: usize, so_far: u64) -> u64
    requires { at ≤ length file.old }
    ensures { length file.new ≡ length file.old }
{
    let mut digest = so_far;
    for i in 0..PIECES {
        let end = put(slots, i, file, at);
        digest = every_cut(file, at, end, digest);
    }
    digest
}

// The same with one or two pieces more.
fn two_more(slots: &[u8], file: &mut [u8], at: usize) -> u64
    requires { at ≤ length file.old }
    ensures { length file.new ≡ length file.old }
{
    let mut digest: u64 = 0;
    for i in 0..PIECES {
        let end = put(slots, i, file, at);
        digest = every_cut(file, at, end, digest);
        digest = one_more(slots, file, end, digest);
    }
    digest
}

// The rest of a line, after the names of the file's pieces.
fn line(rt: &impl Print, slots: &[u8], file: &mut [u8], at: usize) -> io::Result<()>
    requires { at ≤ length file.old }
    ensures { length file.new ≡ length file.old }
{
    both_answers(rt, file, at)?;
    word(rt, b" after")?;
    number(rt, two_more(slots, file, at))?;
    newline(rt)
}

// The letter of a piece.
fn letter(rt: &impl Print, i: usize) -> io::Result<()>
    requires { i ≤ 13 }
{
    let one = [97 + i as u8];
    word(rt, &one)
}

// A line for each piece after the first `at` bytes, whose pieces have these names.
fn lines(rt: &impl Print, slots: &[u8], file: &mut [u8], names: &[u8], at: usize) -> io::Result<()>
    requires { at ≤ length file.old }
    ensures { length file.new ≡ length file.old }
{
    for i in 0..PIECES {
        let end = put(slots, i, file, at);
        word(rt, names)?;
        letter(rt, i)?;
        line(rt, slots, file, end)?;
    }
    Ok(())
}

// The file headers are the first pieces: one of version 1 and one of another.
const HEADER: usize = 0;

const HEADERS: usize = 2;

// The lines of the files that begin with a file header.
fn begun(rt: &impl Print, slots: &[u8], file: &mut [u8]) -> io::Result<()>
    ensures { length file.new ≡ length file.old }
{
    for i in 0..HEADERS {
        let at = put(slots, i, file, 0);
        let names = [97 + i as u8];
        lines(rt, slots, file, &names, at)?;
    }
    Ok(())
}

// A whole `desc` and a closed `data`, by their numbers among the pieces.
const DESC: usize = 2;

const DATA: usize = 10;

// The lines of the files that begin with a file header and a `desc`, and of those that go on after closed data.
fn described(rt: &impl Print, slots: &[u8], file: &mut [u8]) -> io::Result<()>
    ensures { length file.new ≡ length file.old }
{
    let header = put(slots, HEADER, file, 0);
    let at = put(slots, DESC, file, header);
    lines(rt, slots, file, b"ac", at)?;
    let tail = put(slots, DATA, file, at);
    lines(rt, slots, file, b"ack", tail)
}

fn run(rt: &impl Print, slots: &[u8], file: &mut [u8]) -> io::Result<()> {
    word(rt, b"-")?;
    line(rt, slots, file, 0)?;
    lines(rt, slots, file, b"", 0)?;
    begun(rt, slots, file)?;
    described(rt, slots, file)
}

fn main(rt: HostRuntime) -> io::Result<()> {
    let mut slots = [0u8; 832];
    show::fill(&rt, &mut slots)?;
    let mut file = [0u8; 320];
    run(&rt, &slots, &mut file)
}
