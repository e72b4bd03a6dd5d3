//! The rules of an upload: its plan, where parts may be, what is held and what is missing, and where it ends.
//!
//! - A `Plan` is the length of an upload, or its maximum length if the length is fixed later. `Plan::part_fault` says whether bytes fit it.
//! - `Upload` is an upload that is not closed yet: its plan, its end once that is fixed, and its parts. It knows only the offsets and the
//!   lengths of parts. So the rules are the same for a store, whose parts have bytes, and for the replay of a journal, whose parts have
//!   none.
//! - `Refused` is a refusal that returns what was passed, such as a part.
//! - `HeldParts` stores the parts of an `Upload`, and `Length` is implemented by a part. An ordered map of lengths implements `HeldParts`.
//!
//! In contracts an upload is a list of parts by offset (`specs/Uploads.antt`).
//!
//! A store reports F8, F10, F12 and F13 as S9, S10, S15 and S16. A plan is a number and a kind, since the number bounds an upload of either
//! kind. A part that was made for a plan of the other kind is refused, because other conditions were tested for it.
#![tactic(auto)]

mod held_parts;
mod laws;
mod length;
mod parts;
mod plan;
mod refusal;
mod refused;
mod upload;

pub use held_parts::HeldParts;
pub use laws::upload_laws;
pub use length::Length;
pub use plan::{CHUNK_LEN, MAX_BYTES, MAX_PART_BYTES, MAX_PART_CHUNKS, Plan, TooLong};
pub use refusal::{AddFault, FinishFault, FixFault, PartFault};
pub use refused::Refused;
pub use upload::Upload;
