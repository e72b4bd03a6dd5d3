//! Times hashes of bytes in memory, and parts that are made of them. It writes what was computed to standard output, and the time in microseconds to standard
//! error. `bench/run` calls it and prints ratios.
//!
//! Arguments: `hash MIB`, `hash_wide MIB`, `hash_length BYTES TURNS` or `make PARTS`.
#![tactic(auto)]

mod hashing;
mod parts;
mod words;

use std::io;
use words::{Job, job_of};

fn main(rt: HostRuntime) -> io::Result<()> {
    let words: Vec<String> = std::env::args(&rt)?.collect(rt.alloc())?;
    match job_of(words.as_slice()) {
        Some(Job::Hash { mib }) => hashing::time_hash(&rt, mib),
        Some(Job::HashWide { mib }) => hashing::time_hash_wide(&rt, mib),
        Some(Job::HashLength { bytes, turns }) => hashing::time_length(&rt, bytes, turns),
        Some(Job::Make { parts }) => parts::time_make(&rt, parts),
        None => eprintln!(rt;
            "benchmarks: hash MIB | hash_wide MIB | hash_length BYTES TURNS | make PARTS"
        ),
    }
}
