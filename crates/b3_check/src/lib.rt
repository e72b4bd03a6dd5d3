//! Check files: text that lists the digest of each named file.
//!
//! ```rust
//! let mut text = Vec::new(alloc);
//! write(lines.as_slice(), &mut text)?;
//! let file = CheckFile::read(alloc, text.as_slice())?;
//! let options = ReportOptions {
//!     shown: Shown::All,
//!     ignores_missing: false,
//! };
//! let counts = verify(&file, options, &mut names, &mut report)?;
//! let has_passed = counts.passes(options);
//! ```
//!
//! A line is written as 64 lower-case hexadecimal digits, two spaces, the name and a newline. If the name contains a backslash, a newline
//! or a carriage return, these are written as `\\`, `\n` and `\r`, and the line begins with an additional backslash. A reader accepts
//! digits of either case and drops all carriage returns at the end of a line. The name of a line without the backslash at its start is
//! taken literally.
//!
//! - `Line` is a digest and a `Name`: nonempty bytes without a zero byte.
//! - `read_line` reads one line: exactly what the grammar allows, or the first matching `Fault`.
//! - `CheckFile` holds the numbered lines of a file, each parsed or with its fault; a bad line does not affect the others.
//! - `write` writes lines. Reading what it writes returns the same lines.
//! - `Names` looks up the digests of names, such as those of files. `verify` asks it once for each line without a fault, in file order, and
//!   writes the lines of the report that its `ReportOptions` ask for, each before it asks for the next. It returns the `Counts`, which say
//!   whether the report passes. Before each line it announces the following lines, so that their names can be looked up ahead.
//! - `check_file_laws` states facts about the definitions that these contracts use.
//!
//! Running out of memory is a separate error in every call that allocates, returned instead of any other result.
//!
//! `verify` allocates nothing and keeps no answers, so running out of memory loses none that was given.
#![tactic(auto)]

mod fault;
mod file;
mod laws;
mod line;
mod name;
mod names;
mod output;
mod reading;
mod report;
mod verifying;
mod writing;

pub use fault::{Fault, ReadError};
pub use file::{CheckFile, NumberedLine};
pub use laws::check_file_laws;
pub use line::Line;
pub use name::{Name, RefusedName};
pub use names::{NameFault, Names};
pub use reading::read_line;
pub use report::{Counts, ReportOptions, Shown};
pub use verifying::verify;
pub use writing::write;
