// Cases of writing: a script of calls on one writer, the answer of each, and the file that they leave.
use crate::calls::{Done, call};
use cases::number::{byte, count};
use cases::script::end_of;
use writer::CAFWriter;

// Room for the longest file of a case.
const ROOM: usize = 2048;

// An answer is number, count, data count, finished, file length.
const ANSWER: usize = 14;

fn same_answer(s: &[u8], p: usize, done: Done, writer: &CAFWriter) -> bool {
    let stats = writer.stats();
    byte(s, p) == done.number
        && count(s, p.saturating_add(1)) == done.count
        && count(s, p.saturating_add(5)) == stats.data_count
        && byte(s, p.saturating_add(9)) == u32::from(stats.finished)
        && count(s, p.saturating_add(10)) == done.file_len
}

// The rest of the case is the file.
fn same_file(s: &[u8], p: usize, buf: &[u8], file_len: usize) -> bool {
    match s.get(p..) {
        Some(file) => file.len() == file_len && buf.starts_with(file),
        None => false,
    }
}

pub(crate) fn same_script(body: &[u8]) -> bool {
    let calls = count(body, 0);
    let mut buf = [0; ROOM];
    let mut writer = CAFWriter::new();
    let mut file_len = 0;
    let mut p = 4;
    for _ in 0..calls {
        let done = call(body, p, &mut writer, file_len, &mut buf);
        p = end_of(body, p);
        if !same_answer(body, p, done, &writer) {
            return false;
        }
        p = p.saturating_add(ANSWER);
        file_len = done.file_len;
    }
    same_file(body, p, &buf, file_len)
}
