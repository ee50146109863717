// Standard input, and the file that it is. std moves on in no standard input, so a file that standard input is gets opened once more, at
// the position where standard input stands, and is read from there. Linux alone tells that position, in /proc; elsewhere, and where the
// file may not be opened, all of standard input is read.
ghost use Rattle.std.specs.Io.{ReadsAtMost};

use std::io::{Read, Seek, SeekFrom};
use std::os::unix::fs::FileTypeExt;
use std::rt::Files;
use std::{fs, io};

const STDIN: &str = "/proc/self/fd/0";

// Its first line is "pos:", a tab and the position.
const STDIN_INFO: &str = "/proc/self/fdinfo/0";

#[derive(Drop)]
pub(crate) struct Source<I, F> {
    input: I,
    file: Option<F>,
    // the file was sought
    is_sought: bool,
}

impl<I: Read, F: Read> Source<I, F> {
    pub(crate) fn new(input: I) -> Source<I, F> {
        Source {
            input,
            file: None,
            is_sought: false,
        }
    }

    pub(crate) fn read(&mut self, buf: &mut [u8]) -> io::Result<usize>
        ensures { ReadsAtMost result buf.new }
    {
        match &mut self.file {
            Some(file) => file.read(buf),
            None => self.input.read(buf),
        }
    }

    // The file, where standard input is one.
    pub(crate) fn file<R: Files<File = F>>(&mut self, rt: &R) -> Option<&mut F> {
        if !self.is_sought {
            self.is_sought = true;
            self.file = opened(rt);
        }
        self.file.as_mut()
    }
}

// A pipe or a terminal is not opened: that could wait, or take what is another's.
fn is_file(rt: &impl Files) -> bool {
    let Ok(metadata) = fs::metadata(rt, STDIN) else {
        return false;
    };
    let kind = metadata.file_type();
    kind.is_file() || kind.is_block_device()
}

fn position(rt: &impl Files) -> Option<u64> {
    let mut text = [0u8; 64];
    let mut info = fs::open(rt, STDIN_INFO).ok()?;
    let n = info.read(&mut text).ok()?;
    let told = str::from_utf8(&text[..n]).ok()?;
    let (first, _) = told.split_once('\n')?;
    let number = first.strip_prefix("pos:")?;
    number.trim().parse::<u64>().ok()
}

fn opened<R: Files>(rt: &R) -> Option<R::File> {
    if !is_file(rt) {
        return None;
    }
    let at = position(rt)?;
    let mut file = fs::open(rt, STDIN).ok()?;
    let reached = file.seek(SeekFrom::Start(at)).ok()?;
    (reached == at).then_some(file)
}
