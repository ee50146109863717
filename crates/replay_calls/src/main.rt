// Replays the Rust's answers to scripts of calls on a writer, which stand in the file `stdin` (compare/README.md gives the meaning of each
// byte), and prints how many scripts are ours too. It needs no Rust. The other cases are replayed by the program `replay`.
#![tactic(auto)]

mod calls;
mod scripts;

use cases::tally::{Replay, tally_of};
use scripts::same_script;
use show::fill;
use std::io;

// The one kind of case, by its letter.
const SCRIPT: u32 = b'W' as u32;

// Of a longer input the first bytes are replayed.
const MOST: usize = 65_536;

struct ScriptReplay;

impl Replay for ScriptReplay {
    fn is_same(&self, kind: u32, body: &[u8]) -> bool {
        kind == SCRIPT && same_script(body)
    }
}

fn main(rt: HostRuntime) -> io::Result<()> {
    let mut input = [0; MOST];
    let n = fill(&rt, &mut input)?;
    println!(rt; "{}", tally_of(&input[..n], &ScriptReplay))
}
