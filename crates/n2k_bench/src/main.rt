//! The benchmark: jobs that a user waits for. Each job replays a recording several times, each time with later
//! timestamps, other senders and other data. docs/PERF.md describes how to run it.
//!
//! Usage: `n2k_bench JOB ROUNDS SEED`, with the sections of bench/input.txt on standard input. It prints what the job
//! counted and a digest of all that the job printed. `all` runs every job in turn.
#![tactic(auto)]

mod described;
mod digest;
mod input;
mod jobs;
mod replay;
mod scattered;
mod tables;

use anyhow::{Result, anyhow};
use input::Input;
use n2k_run::{StdSource, read_bytes};
use std::{env, str};

/// The maximum length of the input in bytes.
const LONGEST_INPUT: usize = 1 << 24;

fn number_of(word: &str) -> Result<u64> {
    word.parse::<u32>()
        .map(u64::from)
        .map_err(|_| anyhow!("no number: {word}"))
}

fn main(rt: HostRuntime) -> Result<()> {
    let alloc = rt.alloc();
    let words: Vec<String> = env::args(&rt)?.skip(1).collect(alloc)?;
    let [job, rounds, seed] = words.as_slice() else {
        return Err(anyhow!("usage: n2k_bench JOB ROUNDS SEED"));
    };
    let (rounds, seed) = (number_of(rounds)?, number_of(seed)?);
    let mut source = StdSource::new(rt.stdin());
    let bytes = read_bytes(alloc, &mut source, LONGEST_INPUT)?;
    let text = str::from_utf8(&bytes).map_err(|_| anyhow!("the input is not UTF-8"))?;
    let input = Input::of(text);
    jobs::run(&rt, alloc, job.as_str(), &input, rounds, seed)
}
