//! What running the program can't show of its arguments: numbers of threads and workers, whether progress is unwanted, the largest length,
//! and a zero byte, which no argument of a process can contain.

use std::alloc::Global;
use store_command_line::{Options, options};

// A length or a number of chunks, a number of threads or workers, and whether progress is unwanted.
type Asked = (Option<u32>, Option<u32>, bool);

const ASKED: &[(&[&str], Option<Asked>)] = &[
    (&["b3store", "sum"], Some((None, None, false))),
    (
        &[
            "b3store",
            "sum",
            "--length",
            "65536",
            "--threads",
            "16",
            "--no-progress",
        ],
        Some((Some(65_536), Some(16), true)),
    ),
    (&["b3store", "check"], Some((None, None, false))),
    (
        &["b3store", "check", "--threads", "1", "--no-progress"],
        Some((None, Some(1), true)),
    ),
    (&["b3store", "upload"], Some((Some(64), Some(4), false))),
    (
        &["b3store", "upload", "--no-progress", "--workers", "16"],
        Some((Some(64), Some(16), true)),
    ),
    (&["b3store", "sum", "a\0b"], None),
    (&["b3store", "sum", "--name", "\0"], None),
    (&["b3store", "sum", "--name", "a\0b"], None),
];

fn asked(alloc: Global, words: &[&str]) -> Option<Asked> {
    match options(alloc, words) {
        Ok(Options::Sum(said)) => Some((said.length, said.threads, said.no_progress)),
        Ok(Options::Check(said)) => Some((None, said.threads, said.no_progress)),
        Ok(Options::Upload(said)) => {
            Some((Some(said.part_chunks), Some(said.workers), said.no_progress))
        }
        _ => None,
    }
}

#[test]
fn arguments_are_parsed_as_options(rt: HostRuntime) {
    for (words, wanted) in ASKED {
        assert!(rt; asked(rt.alloc(), words) == *wanted, "{words:?}");
    }
}
