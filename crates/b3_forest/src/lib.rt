//! The parts of an upload, hashed independently and in any order (hash mode).
//!
//! ```rust
//! let (upload, plan) = store.begin(tenant, bytes.len() as u64)?;
//! let part = Prepared::make(alloc, &plan, 0, bytes, work)?;
//! let _held = store.put(upload, part, work)?;
//! ```
//!
//! A `Plan` is the length of an upload, or its maximum length if the length is fixed later. `Prepared::make` takes one part of the upload
//! and hashes it without any other part: it keeps the part's pieces, which are complete subtrees of the tree over the whole upload.
//!
//! A `Forest` holds the parts of one upload. `Forest::add` adds a part's pieces and merges those that are the halves of one aligned range;
//! it hashes no bytes. `Forest::finish` returns the top of the tree over the whole content, however it was split and in whatever order the
//! parts came. `Forest::gaps` lists what is missing. Parts are kept in an ordered map: adding one takes logarithmic time at any offset.
//!
//! The rules of an upload (where parts may be, what is missing and where it ends) are those of `store_upload`: a `Forest` is an `Upload`
//! upload that holds its parts as `HashedParts`, which know only about bytes and pieces.
//!
//! A `Follow` does the same for borrowed bytes: it notes parts of them, and returns their top, without copies. `BorrowedBytes` bytes are in one
//! slice, or in `Stretches` of one length, which a `StretchesBuilder` gathers. `Prepared::share` makes a part of bytes that may be shared,
//! such as a stretch, without a copy.
//!
//! The pieces are always the canonical forest of the held chunks, and `forest_laws` states that there is only one such forest. They are
//! kept in an ordered map by their first chunk.
//!
//! All pieces of a part are inserted before any two are merged. If an allocation fails, they are removed again, so a refusal changes
//! nothing.
#![tactic(auto)]

mod borrowed;
mod cutting;
mod follow;
mod forest;
mod gap;
mod hashed_parts;
mod held;
mod laws;
mod piece;
mod prepared;
mod refusal;
mod segment;
mod shared_bytes;
mod stretches;
mod subtrees;

pub use borrowed::BorrowedBytes;
pub use follow::Follow;
pub use forest::Forest;
pub use gap::Gap;
pub use hashed_parts::HashedParts;
pub use laws::forest_laws;
pub use prepared::Prepared;
pub use refusal::{Incomplete, NoteFault};
pub use segment::Segment;
pub use shared_bytes::SharedBytes;
pub use store_upload::{
    AddFault, FinishFault, FixFault, MAX_BYTES, MAX_PART_BYTES, PartFault, Plan, Refused, TooLong,
};
pub use stretches::{Stretches, StretchesBuilder};
