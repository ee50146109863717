// Moving on in standard input where it is a file, so that bytes that nothing depends on are not read.
use answers::FILE_MAX;
use std::io;
use std::io::{Seek, SeekFrom};

// Moves on by n bytes, or to the last byte of the file, and gives by how many; by 0 where there is no position. An `Err` says that the
// position is lost. A seek past the end of a file succeeds, so the end is asked for each time. Then every byte that is passed over was
// there, whether the file grows or shrinks meanwhile.
pub(crate) fn moved_on(file: &mut impl Seek, n: usize) -> io::Result<usize> {
    if FILE_MAX < n {
        return Ok(0);
    }
    let Ok(here) = file.seek(SeekFrom::Current(0)) else {
        return Ok(0);
    };
    let last = file.seek(SeekFrom::End(-1));
    if file.seek(SeekFrom::Start(here))? != here {
        return Err(io::Error::other("the position in the file is lost"));
    }
    let left = last.unwrap_or(here).saturating_sub(here);
    let far = n.min(left as usize);
    match file.seek(SeekFrom::Current(far as i64)) {
        Ok(_) => Ok(far),
        Err(_) => Ok(0),
    }
}
