// Replays the Rust's readings, layouts and packed samples, which stand in the file `stdin` (compare/README.md gives the meaning of each byte),
// and prints how many are ours too. It needs no Rust. Scripts of calls are replayed by the program `replay_calls`.
#![tactic(auto)]

mod labels;
mod readings;
mod samples;

use cases::tally::{Replay, tally_of};
use labels::same_labels;
use readings::same_reading;
use samples::same_samples;
use show::fill;
use std::io;

// The kinds of case, by their letters.
const LABELS: u32 = b'L' as u32;

const READING: u32 = b'R' as u32;

const SAMPLES: u32 = b'S' as u32;

// Of a longer input the first bytes are replayed.
const MOST: usize = 65_536;

struct AnswerReplay;

impl Replay for AnswerReplay {
    fn is_same(&self, kind: u32, body: &[u8]) -> bool {
        match kind {
            LABELS => same_labels(body),
            READING => same_reading(body),
            SAMPLES => same_samples(body),
            _ => false,
        }
    }
}

fn main(rt: HostRuntime) -> io::Result<()> {
    let mut input = [0; MOST];
    let n = fill(&rt, &mut input)?;
    println!(rt; "{}", tally_of(&input[..n], &AnswerReplay))
}
