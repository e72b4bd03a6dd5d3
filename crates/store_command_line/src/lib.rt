//! The command line of the program `b3store`: what its arguments mean.
//!
//! `options` parses the arguments with clap, and returns the subcommand with its options, or why there are none: a text for the user, or
//! out of memory.
//!
//! | Subcommand | Options |
//! |---|---|
//! | `sum` | `--key HEX64`, `--key-file FILE` or `--context TEXT`; `--length N` with N from 1 to 65536, `--threads T` with T from 1 to 16, `--no-progress`; `--name NAME`, or files' names, or `--files-from LIST` with or without `--null` |
//! | `run` | |
//! | `serve` | `--at PATH`, and with it `--sessions N` with N from 1 to 64, by default 16, and `--keep-uploads`; `--load FILE`, and with it `--torn` |
//! | `upload` | `--workers W` from 1 to 16, by default 4; `--part-chunks P` from 1 to 16384, by default 64; `--journal`, `--no-progress` |
//! | `check` | lists' names, `--quiet`, `--status`, `--ignore-missing`, `--threads T` with T from 1 to 16, `--no-progress` |
//! | `audit` | |
//! | `migrate` | |
//!
//! Contracts describe a command line by `specs/CommandLine.antt`, as it is declared to clap, and by `specs/Stated.antt`: the options are
//! the subcommand that was given, with the values of its arguments. `specs/Ranges.antt` states what else holds for options: numbers are
//! within their ranges, and names can be in a check line. Arguments are accepted if and only if clap finds no fault in them and they result
//! in such options, unless an allocation fails. No clause describes the text of a usage fault.
//!
//! Numbers are read and tested after clap, whose contract states no ranges for the options of a subcommand, and which accepts a sign.
#![tactic(auto)]

mod command;
mod said;
mod words;

pub use said::{
    AskedMode, AskedUpload, CheckOptions, DoorOptions, Fault, Input, LogOptions, NameList, Options,
    ServeOptions, SumInputs, SumOptions,
};
pub use words::options;
