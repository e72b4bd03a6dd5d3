//! The engines of the subcommands that have a store or a journal, each over a reader and a writer; and a session's access to a store that
//! threads share. The engines for scripts and sessions are in `store_lines`, and those that hash and check files in `hash_engines`.
//!
//! | Engine | Reads | Writes |
//! |---|---|---|
//! | `upload` | bytes | their check line and the accounts of an upload by several workers |
//! | `audit` | a journal's text | the totals that result from it and what was accepted according to it |
//! | `migrate` | a journal's text | the text of version 2 of its entries |
//!
//! `upload_input` does what `upload` does, and several threads read an input that is an open file.
//!
//! An engine ends with its `Verdict`, those of journals with the `JournalFault` of a refused one, or with the `Cause` that stopped it.
//!
//! Contracts know what a reader returns and what a writer accepted if the types specify it, as slices and vectors do. The texts,
//! verdicts and faults are defined in `specs/`: `Uploads`, `Journals`, `Audits` and `Migrations`.
//!
//! A `SharedAccess` is an `Access` to a `Shared` store, of which it has only the calls of `SessionCalls`: one that makes one more command
//! doesn't compile, or has one more call of its own. Each of its calls takes the store's lock for one step of the model. Everything else
//! is done without the lock: lines and parts are read and hashed before, and answers are written after. What a step takes out of the store
//! (a forgotten object, the parts of an aborted or sealed upload, a refused part, the copy of the journal's entries) is dropped afterwards,
//! too. The aborts at a session's end are steps like any other. All entries of an answer are those of one moment; if an allocation fails
//! for their copy, the answer is `refused S14`, and the session continues.
//!
//! What other threads do between two calls is not known: a call finds a lawful store, whose journal continues the one that the session's
//! last call left (`shared_reach`). So an answer to the session is never revoked. Its `Front` has seen the journal as the last call left
//! it, and has the numbers of the session's own entries; its account of accepted bytes and calls is that of its share (`IsSessionState`).
//! Only this one store adds to a share, shows its journal to a front, and gives a front entries to claim. `client_laws` says what a client
//! may rely on between its calls.
#![tactic(auto)]

mod auditing;
mod journals;
mod laws;
mod migrating;
mod refusing;
mod session_calls;
mod shared_access;
mod streams;
mod uploading;

pub use auditing::audit;
pub use edge::{Cause, Verdict};
pub use laws::client_laws;
pub use migrating::migrate;
pub use refusing::JournalFault;
pub use session_calls::SessionCalls;
pub use shared_access::SharedAccess;
pub use store_shared::UnnamedLedgers;
pub use uploading::{UploadOptions, upload, upload_input};
