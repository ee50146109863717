// The films: a layout, and sessions, each told by its last call and by how many of its stores are done.
ghost use Rattle.std.specs.Prelude.{◌≡◌, Some};
ghost use Rattle.cut_films.specs.Film.{layout_by, last_call_by, started_film, followed_by};
ghost use Rattle.cut_films.specs.Text.{session_text, film_text};

use std::fmt;

pub const SESSIONS: usize = 3;

// Where the layout of a film comes from. Lines have these numbers.
#[derive(Clone, Copy, Debug, PartialEq, Eq)]
pub enum LayoutBy {
    Nothing = 0,
    Tag = 1,
    Labels = 2,
}

// The last call of a session, with what stands before it. Lines have these numbers.
#[derive(Clone, Copy, Debug, PartialEq, Eq)]
pub enum LastCall {
    // the header, or the resume of a later session
    Begin = 0,
    OneByte = 1,
    // two samples, after five bytes
    Samples = 2,
    // with no data
    FinishEmpty = 3,
    // after one byte
    FinishByte = 4,
    // after five bytes and two samples
    FinishSamples = 5,
    // after 251 bytes
    FinishRun = 6,
    // of a finished film, after one byte
    FinishAgain = 7,
}

#[derive(Clone, Copy)]
pub struct Session {
    pub last: LastCall,
    pub stores: usize,
}

// Of the sessions the first `count` are made.
#[derive(Clone, Copy)]
pub struct Film {
    pub layout: LayoutBy,
    pub count: usize,
    pub sessions: [Session; SESSIONS],
}

impl LayoutBy {
    // Every number has its layout: those that are none of the three are for labels too.
    pub fn of(n: u32) -> LayoutBy
        ensures { result ≡ layout_by n }
    {
        match n {
            0 => LayoutBy::Nothing,
            1 => LayoutBy::Tag,
            _ => LayoutBy::Labels,
        }
    }
}

impl LastCall {
    // Every number has its last call: those that are none of the eight are a finish too, with no data.
    pub fn of(n: u32) -> LastCall
        ensures { result ≡ last_call_by n }
    {
        match n {
            0 => LastCall::Begin,
            1 => LastCall::OneByte,
            2 => LastCall::Samples,
            4 => LastCall::FinishByte,
            5 => LastCall::FinishSamples,
            6 => LastCall::FinishRun,
            7 => LastCall::FinishAgain,
            _ => LastCall::FinishEmpty,
        }
    }
}

// A film before its first session.
pub fn started(layout: u32) -> Film
    ensures { result ≡ started_film (layout_by layout) }
{
    let none = Session {
        last: LastCall::Begin,
        stores: 0,
    };
    Film {
        layout: LayoutBy::of(layout),
        count: 0,
        sessions: [none; SESSIONS],
    }
}

// One session more. There is no fourth.
pub fn then(mut film: Film, last: u32, n: usize) -> Film
    ensures { result ≡ followed_by film (last_call_by last) n }
{
    let count = film.count;
    if count < SESSIONS {
        film.sessions[count] = Session {
            last: LastCall::of(last),
            stores: n,
        };
        film.count = count + 1;
    }
    film
}

impl fmt::Display for Session {
    ghost output = { λ s. Some (session_text s) };

    fn fmt<W: fmt::Write>(&self, f: &mut fmt::Formatter<W>) -> fmt::Result {
        write!(f, "{}/{}", self.last as u32, self.stores)
    }
}

// The layout, and the sessions that are made.
impl fmt::Display for Film {
    ghost output = { λ film. Some (film_text film) };

    fn fmt<W: fmt::Write>(&self, f: &mut fmt::Formatter<W>) -> fmt::Result {
        write!(f, "{}", self.layout as u32)?;
        for session in self.sessions.iter().take(self.count) {
            write!(f, " {session}")?;
        }
        Ok(())
    }
}
