// Words and numbers on standard output, and the bytes of standard input, for the programs. The digits are those of std's formats: `{}`, and
// `{:016x}` and `{:02x}`, whose text std's contracts state. No contract can say what a call of the system writes or reads, so what is
// promised here is safety and an end. A call that fails is the caller's to pass on.
#![tactic(auto)]

ghost use Rattle.std.specs.Prelude.{◌≤◌, length, IfOk};

use std::io;
use std::io::Read;

pub fn word(rt: &impl Print, text: &[u8]) -> io::Result<()> {
    rt.write_all(text)
}

pub fn newline(rt: &impl Print) -> io::Result<()> {
    println!(rt)
}

// The fewest decimal digits that hold v.
pub fn decimal(rt: &impl Print, v: u64) -> io::Result<()> {
    rt.print(v)
}

// All 64 bits of v: 16 hexadecimal digits, in lower case.
pub fn hex64(rt: &impl Print, v: u64) -> io::Result<()> {
    print!(rt; "{v:016x}")
}

// Each byte as two hexadecimal digits, with a blank before it.
pub fn hex(rt: &impl Print, bytes: &[u8]) -> io::Result<()> {
    for b in bytes {
        print!(rt; " {b:02x}")?;
    }
    Ok(())
}

// A minus where v is below 0, and the fewest decimal digits.
pub fn signed(rt: &impl Print, v: i32) -> io::Result<()> {
    rt.print(v)
}

// Reads standard input until the buffer is full or the input ends, and returns how many bytes came.
pub fn fill(rt: &impl Input, buf: &mut [u8]) -> io::Result<usize>
    ensures { IfOk result (λ n. n ≤ length buf.new) }
{
    let mut input = rt.reader();
    let mut done: usize = 0;
    while done < buf.len() {
        let n = input.read(&mut buf[done..])?;
        if n == 0 {
            break;
        }
        done += n;
    }
    Ok(done)
}
