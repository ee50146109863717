// Films in one, two and three sessions, the first begun by a fresh writer, the others by a resume. Each session's last call is cut by its
// counted form; what is left at the end is read, resumed and finished. A line for each film:
//
//   LAYOUT LAST/STORES .. | NUMBER STORES LENGTH DIGEST | PLAIN | STRICT | RESUME FINISH DIGEST | STRICT
//
// - its layout, and for each session the last call (cut_films/src/film.rt) and how many of its stores were asked for;
// - what the last of these calls answered, the length of the file that it left, and a digest of its bytes;
// - the numbers of the two readings of it, and what the strict one finds;
// - the numbers of a resume and a finish, a digest of what they make of it, and its strict reading. Where the resume is refused there is
//   no finish, and the digest is that of the file as it then stands.
//
// tools/check_cuts.py makes every line anew and holds it to demand 3.
#![tactic(auto)]

mod line;
mod session;

use cut_films::calls::LAST_CALLS;
use cut_films::film::{Film, LastCall, LayoutBy, started, then};
use std::io;

// Every cut of one more session with this last call, from no store up to one more than it has.
fn cut_everywhere(rt: &impl Print, film: Film, last: u32) -> io::Result<()> {
    let stores = session::stores_of(film, last);
    for n in 0..stores.saturating_add(2) {
        line::show(rt, then(film, last, n))?;
    }
    Ok(())
}

// One more session, with every last call and every cut.
fn one_more(rt: &impl Print, film: Film) -> io::Result<()> {
    for last in 0..LAST_CALLS {
        cut_everywhere(rt, film, last)?;
    }
    Ok(())
}

// Two more sessions: the first with this last call and every cut, the other with every last call and every cut.
fn two_more(rt: &impl Print, film: Film, last: LastCall) -> io::Result<()> {
    let last = last as u32;
    for n in 0..=session::stores_of(film, last) {
        one_more(rt, then(film, last, n))?;
    }
    Ok(())
}

fn main(rt: HostRuntime) -> io::Result<()> {
    // one session: no layout, a tag, descriptions
    one_more(&rt, started(LayoutBy::Nothing as u32))?;
    one_more(&rt, started(LayoutBy::Tag as u32))?;
    one_more(&rt, started(LayoutBy::Labels as u32))?;
    // two sessions: after a header that is cut, at its first and at its last store; after data that are cut; after a finish that is cut
    let film = started(LayoutBy::Nothing as u32);
    one_more(&rt, then(film, LastCall::Begin as u32, 1))?;
    one_more(&rt, then(film, LastCall::Begin as u32, 67))?;
    two_more(&rt, film, LastCall::OneByte)?;
    two_more(&rt, film, LastCall::Samples)?;
    two_more(&rt, film, LastCall::FinishByte)?;
    two_more(&rt, film, LastCall::FinishRun)?;
    // three sessions, the first a finished film: a resume that is cut, or data, or a finish, and then one more session
    let film = then(
        started(LayoutBy::Labels as u32),
        LastCall::FinishByte as u32,
        8,
    );
    two_more(&rt, film, LastCall::Begin)?;
    two_more(&rt, film, LastCall::Samples)?;
    two_more(&rt, film, LastCall::FinishSamples)
}
