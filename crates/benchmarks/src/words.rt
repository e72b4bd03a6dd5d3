//! What to time.

/// One measurement.
#[derive(Clone, Copy, Debug)]
pub enum Job {
    /// The plain hash of `mib` MiB.
    Hash { mib: u16 },
    /// The hash by eight chunks at a time.
    HashWide { mib: u16 },
    /// The same for `bytes` bytes, `turns` times.
    HashLength { bytes: u16, turns: u16 },
    /// Making parts of 16 MiB.
    Make { parts: u16 },
}

fn number(word: &String) -> Option<u16> {
    word.parse::<u16>().ok()
}

/// The measurement that the arguments name; the first of them is the program's name.
pub fn job_of(words: &[String]) -> Option<Job> {
    if words.len() == 4 && words[1].as_str() == "hash_length" {
        return Some(Job::HashLength {
            bytes: number(&words[2])?,
            turns: number(&words[3])?,
        });
    }
    if words.len() != 3 {
        return None;
    }
    let count = number(&words[2])?;
    match words[1].as_str() {
        "hash" => Some(Job::Hash { mib: count }),
        "hash_wide" => Some(Job::HashWide { mib: count }),
        "make" => Some(Job::Make { parts: count }),
        _ => None,
    }
}
