//! The store for programs in C, and in every language that can call C: what `include/b3store.h` declares.
//!
//! A program keeps handles (`store_handle`). A call takes the value out of a handle, calls the function of `store_core` or of another crate
//! that has the call's contract, and puts the value back. It returns 0 or a number (`answers`), and then what the program passed is
//! unchanged: `specs/Calls.antt` says this once for all calls.
//!
//! - `handles`: `b3store_open`, `b3store_close`.
//! - `tenants`: `b3store_open_tenant`, `b3store_set_limit`, `b3store_usage`.
//! - `filing`: `b3store_file`, which begins, puts and seals.
//! - `uploads`: `b3store_begin`, `b3store_begin_open`, `b3store_plan`, `b3store_fix`, `b3store_seal`, `b3store_seal_as`, `b3store_abort`.
//! - `parts`: `b3store_prepare`, which uses no store, and `b3store_put`.
//! - `objects`: `b3store_fetch`, `b3store_has`, `b3store_forget`; `b3store_read` and `b3store_len`, which use no store.
//! - `lists`: `b3store_list`, `b3store_uploads`, `b3store_tenants`; `rows` copies their rows in pages.
//! - `totals`: `b3store_totals`, `b3store_entries`.
//! - `lines`: `b3store_journal`, and `b3store_lines` for all else.
//!
//! A list, a text or an object in a handle is a value of its own, so its rows and bytes are copied without the store, and without a lock.
#![tactic(auto)]

mod answers;
mod filing;
mod handles;
mod keeping;
mod lines;
mod lists;
mod objects;
mod parts;
mod rows;
mod tenants;
mod totals;
mod uploads;

pub use answers::{AddressBytes, Progress, SealedObject, TenantUsage, UploadBound, Why};
pub use filing::b3store_file;
pub use handles::{b3store_close, b3store_open};
pub use lines::{b3store_journal, b3store_lines};
pub use lists::{b3store_list, b3store_tenants, b3store_uploads};
pub use objects::{b3store_fetch, b3store_forget, b3store_has, b3store_len, b3store_read};
pub use parts::{b3store_prepare, b3store_put};
pub use rows::{
    ListedObject, ListedUpload, b3store_object_rows, b3store_tenant_rows, b3store_upload_rows,
};
pub use tenants::{b3store_open_tenant, b3store_set_limit, b3store_usage};
pub use totals::{StoreTotals, b3store_entries, b3store_totals};
pub use uploads::{
    b3store_abort, b3store_begin, b3store_begin_open, b3store_fix, b3store_plan, b3store_seal,
    b3store_seal_as,
};
