//! The lines of a store, and their answers: of scripts, and of sessions for programs.
//!
//! `run` reads a script line by line, executes each line on a new store with the widest limits, and writes the answers. It tells its caller
//! of each line that is outside the grammar, and why (`LineFault`). It uses the store only through its commands and questions. `serve`
//! answers a session's lines, which are those of a script and some that are followed by raw bytes.
//!
//! docs/PROTOCOL.md has the lines of a script and those that only a session has, each with its answer. They are read as
//! `specs/Grammar.antt`, `specs/Requests.antt` and `specs/Questions.antt` define; answers have the texts of `specs/Texts.antt`,
//! `specs/Questions.antt` and `specs/Redo.antt`. What belongs to a question of a session is in `src/questions.rt` and `specs/Questions.antt`.
//!
//! A `put` asks for the upload's plan first (S7), then makes the part (F2 to F6), then puts it; running out of memory while the part is
//! made is S14.
//!
//! A `file` begins an upload, puts the bytes that follow it, and seals, as the commands do that a client would send for this; its answer is
//! that of the seal, or the first refusal, after which the upload is aborted (`specs/Filing.antt`).
//!
//! The bytes after a line are read whatever its answer is, so that a client may send ahead. If an allocation fails for a line or for
//! bytes, the answer is `refused S14`, and the session continues: only a failed read or write ends it.
//!
//! `serve_over` does the same over a store that a session accesses through an `Access`, and that others may change between two of its
//! calls: each call is one step of the model. A `Store` is such an access, and `serve` is `serve_over` on one.
//!
//! Contracts describe a session by `specs/Turns.antt`: the turn of each line, and what it leaves of the input. The state that a step finds
//! is linked to the one that the step before left (`specs/Access.antt`); in a store of its own, it is the same. `session_laws` states that
//! how an input splits depends only on the input, and that the steps in a store of its own are a run of it.
//!
//! They describe a script by `specs/Running.antt`: the turn of each line, in order, in a store of its own that begins empty, and that the
//! steps among these are a run of it. `script_laws` states that a line is read as a command if and only if it spells that command
//! (`specs/Spelling.antt`).
//!
//! At its end a session aborts the uploads that it began and hasn't ended, in the order of their begins, unless its caller keeps them
//! (`specs/Owning.antt`). A number is used once, so such an abort never meets another upload. There is room for a number before its `begin`
//! runs, since a `begin` can't be undone. The numbers are a queue that is searched from its front: ending the oldest upload takes no longer
//! however many are open.
//!
//! `load` runs the lines of a log up to the first one that doesn't pass (`specs/Loading.antt`).
//!
//! A line of a script is answered as out of memory, without a step of the model, only if it has at least 200 bytes or begins with `put `.
#![tactic(auto)]

mod access;
mod answer;
mod answering;
mod bad_lines;
mod digits;
mod ending;
mod filing;
mod giving;
mod laws;
mod loading;
mod own;
mod owning;
mod parsing;
mod questions;
mod reading;
mod receiving;
mod redo;
mod request;
mod running;
mod serving;
mod session_line;
mod texts;

pub use access::Access;
pub use bad_lines::{BadLines, LineFault, Untold};
pub use edge::{Cause, Verdict};
pub use ending::Ending;
pub use giving::write_entries;
pub use laws::{script_laws, session_laws};
pub use loading::{Loaded, LogEnd, load};
pub use own::copied;
pub use owning::UploadsAtEnd;
pub use request::EntryRange;
pub use running::run;
pub use serving::{serve, serve_over};
