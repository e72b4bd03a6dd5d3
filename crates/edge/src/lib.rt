//! The interface of each engine to the outside.
//!
//! - `Cause` says what stopped an engine; `Verdict` is the result of one that completed. `write_all`, or `write_bytes` and `flush`, write
//!   an output; `write_whole` and `write_text` return the writer's own error. `read_all` reads an input to its end.
//! - `read_line` reads a line and keeps it up to a maximum length; `first_line` splits one off bytes in memory. Each line ends with a newline, which may
//!   be missing on the last line (`specs/Lines.antt`).
//! - `split_at`, `number`, `two_numbers` and `three_numbers` read fields separated by one space (`specs/Fields.antt`).
//! - `decode` turns hexadecimal digits into bytes, as the crate `hex` defines it; `write_encoded` writes the digits of bytes.
#![tactic(auto)]

mod digits;
mod fields;
mod lines;
mod outcome;
mod reading;
mod streams;

pub use digits::{decode, write_encoded};
pub use fields::{number, split_at, three_numbers, two_numbers};
pub use lines::{LineRead, first_line, len_through, read_line};
pub use outcome::{Cause, Verdict};
pub use reading::{read_all, read_cause};
pub use streams::{flush, write_all, write_bytes, write_text, write_whole};
