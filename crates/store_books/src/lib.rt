//! The books of a store: everything that can be said about it without bytes.
//!
//! - `TenantId`, `UploadId` and `Address` name tenants, uploads and objects. `Refusal` says why a command was not accepted. `Limits` are
//!   the maximum numbers of tenants, entries and workers.
//! - `Books` keeps tenants with their limits, their use and their reservation, open uploads, and objects in filing order. Each command has
//!   a function beside it that returns why it would be refused. Open uploads hold their parts in any `HeldParts`, objects are any
//!   `Content`, and an `AddressIndex` finds them.
//!
//! In contracts books are lists (`specs/Books.antt`), and each command is its refusals in order and its result (`specs/Commands.antt`).
//! `forgetting_laws` states that both depend only on the lengths of parts and the labels of objects.
//!
//! `sound_laws` states that an accepted command keeps use and reservation within limits, and stores at most 2^24 bytes; `page_laws` that
//! two pages that follow each other are the page of both counts. A seal has two reasons in turn: those against its upload
//! (`ready_refusal`), and those against filing its content (`file_refusal`).
//!
//! An object is kept under the number of the entry by which it was filed, so a list is in filing order and a forget moves no other object.
//! One set of pairs, each a tenant and such a number, says who holds what: a set for each tenant would take memory for tenants that hold
//! nothing.
#![tactic(auto)]

mod accounts;
mod address;
mod begun;
mod books;
mod catalog;
mod content;
mod index;
mod known;
mod laws;
mod limits;
mod page;
mod refusal;
mod tenant;
mod tenant_id;
mod totals;
mod upload_id;

pub use address::Address;
pub use begun::OwnedUpload;
pub use books::{Books, UploadStatus, Usage};
pub use content::{Content, ObjectLabel};
pub use index::AddressIndex;
pub use laws::{forgetting_laws, page_laws, sound_laws};
pub use limits::{BadLimits, Limits, MAX_ENTRIES, MAX_LIMIT, MAX_TENANTS};
pub use page::ObjectPage;
pub use refusal::Refusal;
pub use tenant_id::TenantId;
pub use totals::Totals;
pub use upload_id::UploadId;
