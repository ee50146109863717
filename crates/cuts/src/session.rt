// The sessions of a film, made one after the other, the last call of each cut.
use answers::Refusal;
use answers::refusal::{DONE, number_of};
use cut_films::calls::{cut_last, with_bytes, with_samples};
use cut_films::film::{Film, LastCall, LayoutBy, SESSIONS, Session, then};
use cut_films::settings::with_settings;
use writer::budget::counts_of;
use writer::record::handed_back;
use writer::{CAFWriter, Counted};

// The longest film has 68 bytes of header and twice 251 of data.
pub(crate) const ROOM: usize = 640;

// What a last call answers, and how long a file it leaves.
#[derive(Clone, Copy)]
pub(crate) struct Left {
    pub number: u32,
    pub stores: usize,
    pub file_len: usize,
}

impl Left {
    fn by(answer: Result<Counted, Refusal>, len: usize) -> Left {
        let counts = counts_of(answer, len);
        Left {
            number: number_of(answer.map(|_| ())),
            stores: counts.stores,
            file_len: counts.file_len,
        }
    }
}

// The record that the last call finds.
fn before_last(w: CAFWriter, buf: &mut [u8], i: usize, last: LastCall) -> CAFWriter {
    let given = with_bytes(w, buf, i, last as u32);
    match last {
        LastCall::FinishSamples => with_samples(given, buf, i),
        LastCall::FinishAgain => handed_back(given.finish(buf)),
        _ => given,
    }
}

fn calls(w: CAFWriter, buf: &mut [u8], i: usize, session: Session) -> Left {
    let ready = before_last(w, buf, i, session.last);
    Left::by(
        cut_last(ready, buf, i, session.last as u32, session.stores),
        ready.file_len,
    )
}

// The first session.
fn begun(layout: LayoutBy, buf: &mut [u8], session: Session) -> Left {
    let w = with_settings(layout as u32);
    if session.last == LastCall::Begin {
        return Left::by(w.write_header_counted(buf, session.stores), w.file_len);
    }
    calls(handed_back(w.write_header(buf)), buf, 0, session)
}

// A later session, from a file of this length. Where the resume is refused it ends there.
fn resumed(buf: &mut [u8], len: usize, i: usize, session: Session) -> Left {
    if session.last == LastCall::Begin {
        return match CAFWriter::from_existing_file_counted(buf, len, session.stores) {
            Ok(done) => Left {
                number: DONE,
                stores: done.stores,
                file_len: done.file_len,
            },
            Err(refused) => Left::by(Err(refused.refusal), len),
        };
    }
    match CAFWriter::from_existing_file(buf, len) {
        Ok(found) => calls(found.writer, buf, i, session),
        Err(refused) => Left::by(Err(refused.refusal), len),
    }
}

// What stands after the last session's last call.
pub(crate) fn make(film: Film, buf: &mut [u8]) -> Left {
    let mut made = begun(film.layout, buf, film.sessions[0]);
    for i in 1..film.count.min(SESSIONS) {
        made = resumed(buf, made.file_len, i, film.sessions[i]);
    }
    made
}

// How many stores the last call of one session more has.
pub(crate) fn stores_of(film: Film, last: u32) -> usize {
    make(then(film, last, ROOM), &mut [0; ROOM]).stores
}
