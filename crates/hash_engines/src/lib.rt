//! The engines that hash and check files, each over a reader or named inputs, and a writer. They need no store.
//!
//! ```rust
//! let threads = HashThreads {
//!     rt: &rt,
//!     alloc,
//!     count: None,
//! };
//! let request = SumRequest {
//!     line: SumLine {
//!         name: b"notes.txt",
//!         length: None,
//!     },
//!     mode: SumMode::Hash,
//! };
//! let mut line = Vec::new(alloc);
//! sum(&threads, &request, &mut reader, &mut line, &mut work)?;
//! let mut list = line.as_slice();
//! let options = ReportOptions {
//!     shown: Shown::All,
//!     ignores_missing: false,
//! };
//! let verdict = check(alloc, options, &mut names, &mut list, &mut report)?;
//! ```
//!
//! | Engine | Reads | Writes |
//! |---|---|---|
//! | `sum` | bytes | their check line, or the first bytes of their extended output |
//! | `sum_files` | the files of several names | the same for each, when it is known |
//! | `check` | check lines | for each, whether the file of its name has its hash |
//!
//! An engine ends with its `Verdict`, or with the `Cause` that stopped it. `SystemInputs` are the sources of `sum_files` in the program, and
//! `Digests` of them the names of `check`; several threads hash small files of both before they are asked for. If the input of `sum`
//! is an open file, `SystemFiles::root_of_file_input` returns its root, and `write_root` writes what `sum` does. `read_key` and
//! `read_names` read the key and the names that `sum` takes from files.
//!
//! `SystemFiles` hash the files of any `FileSystem`; in the program that is the runtime, which opens each as a `SystemFile`.
//!
//! Contracts know what a reader returns, what a writer accepted and which bytes a file system has at a path if the types specify it, as
//! slices and vectors do. The texts and verdicts are defined in `specs/`: `Sums`, `Checks`, `Keys` and `Lists`.
//!
//! What the system does is not proved: that the runtime opens the file at a path, returns its length, and reads its bytes at an offset.
//! Nothing is known of the bytes at a path (`system_bytes`), and only the call that opens a file unfolds that.
//!
//! `Sources` also prints why a file can't be read, so that contracts state the order of hashes and messages.
#![tactic(auto)]

mod ahead;
mod checking;
mod digests;
mod file_system;
mod files;
mod keys;
mod lists;
mod sources;
mod summing;
mod system;

pub use b3_parallel::HashThreads;
pub use checking::check;
pub use digests::Digests;
pub use edge::{Cause, Verdict};
pub use file_system::{FileSystem, SourceFile};
pub use files::{SystemFiles, SystemInputs, fault_of};
pub use keys::read_key;
pub use lists::{names_of, read_names};
pub use sources::{FileFault, Reason, SourceFrom, Sources, Standing};
pub use summing::{SumLine, SumLines, SumMode, SumRequest, sum, sum_files, write_root};
pub use system::SystemFile;
