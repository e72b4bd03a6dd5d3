//! A store of objects under their BLAKE3 hashes, with tenants' quotas, uploads in parts, and a journal.
//!
//! In a store that `Store::new(alloc, Limits::full())` has made:
//!
//! ```rust
//! let tenant = store.open_tenant(1 << 30)?;
//! let (upload, plan) = store.begin(tenant, bytes.len() as u64)?;
//! let part = Prepared::make(alloc, &plan, 0, bytes, work)?;
//! let _held = store.put(upload, part, work)?;
//! let sealed = store.seal(upload, work)?;
//! let object = store.fetch(tenant, sealed.address)?;
//! ```
//!
//! - `Limits` are the maximum numbers of tenants, journal entries and workers. `Store::new` makes an empty store.
//! - Commands are the methods of `Store` on `&mut self`, questions those on `&self`. A store is the books of `store_books` over parts and
//!   objects with bytes, and a journal. Each command is refused with the books' first refusal, or changes the books as they define and adds
//!   an entry (`specs/Commands.antt`). The facts about every store, whichever commands led to it, are in `specs/Carried.antt`.
//! - `Command` and `Question` are these as values. `Store::step` executes a command; its `Outcome` has the `Reply`, and what the command
//!   removed. `Store::ask` answers a question with a `Reply`. What belongs to a question is in `src/store/questions.rt` and
//!   `specs/Questions.antt`.
//! - `Object` is what a seal files: in contracts it is its bytes. It is stored under their hash.
//! - `run_laws` states that this invariant holds along every list of commands and questions.
//! - Names, limits and refusals come from `store_books`; the journal's entries, text and replay come from `store_journal`. All can be named
//!   from here too.
//!
//! A command asks the books for its first refusal, then makes room for its entry, and only then changes something. The books know neither
//! the plan for which a part was made (S8) nor a hash (S11), so these two are tested here. Objects are found by a hash table: addresses are
//! hashes, which spread evenly. The store keeps the tenant of each upload begun, so that `redo` doesn't search the journal for it.
#![tactic(auto)]

mod address_map;
mod command;
mod journal;
mod laws;
mod object;
mod segments;
mod store;

pub use command::{Command, Outcome, SealReply};
pub use laws::run_laws;
pub use object::{Object, SharedObject};
pub use store::{Counts, Held, Listing, Question, Redo, Redone, Reply, Sealed, Store};
pub use store_books::{
    Address, BadLimits, Limits, MAX_ENTRIES, MAX_LIMIT, MAX_TENANTS, ObjectPage, Refusal, TenantId,
    Totals, UploadId, UploadStatus, Usage,
};
pub use store_journal::{
    AcceptedPuts, BadText, Entry, IllegalEntry, JournalWriter, ObjectLabel, ReadError, ReplayError,
    Replayed, ReplayedUpload, Version, entry_laws, entry_lines, journal_laws, read_entry,
    read_journal, replay, write_entries, write_entry, write_journal,
};
pub use store_upload::Refused;
