//! Opening a store, and closing handles.

ghost use Rattle.std.specs.Prelude.{◌≡◌, ◌≢◌, ◌<◌, ◌≤◌, ◌⊎◌, [], None, Some};
ghost use Rattle.store_books.specs.Books.{empty_books, max_entries, max_tenants};
ghost use Rattle.store_c.specs.Keeping.{IfClosed};
ghost use Rattle.store_handle.specs.declared.Kept.TheVariants as kept;

use crate::answers::{BAD_LIMITS, DONE, IS_OPEN, NO_MEMORY, NO_VALUE};
use crate::keeping::is_open;
use std::alloc::Global;
use store_core::{Limits, Store};
use store_handle::{Handle, Kept};

/// Has a closed handle keep an empty store with these limits. Returns 65 if the handle is open, 66 if no store has such limits, 14 if there
/// is no memory.
#[unsafe(no_mangle)]
pub extern "C" fn b3store_open(
    alloc: Global,
    store: &mut Handle,
    tenants: u64,
    entries: u64,
    workers: u64,
) -> u32
    ensures opened { result ≡ 0 → store.new.kept ≡ Some (kept.Store (record { state = empty_books tenants entries workers; journal = [] })) }
    ensures refused { result ≢ 0 → store.new.kept ≡ store.old.kept }
    ensures why { IfClosed store.old.kept ((result ≡ 0) ⊎ (result ≡ 14) ⊎ (result ≡ 66)) (result ≡ 65) }
    ensures limits { store.old.kept ≡ None → result ≢ 66 → (0 < tenants) × (0 < entries) × (0 < workers) × (tenants ≤ max_tenants) × (entries ≤ max_entries) × (workers ≤ 16) }
{
    if is_open(store, alloc) {
        return IS_OPEN;
    }
    let Ok(limits) = Limits::new(tenants, entries, workers) else {
        return BAD_LIMITS;
    };
    match Box::new(alloc, Kept::Store(Store::new(alloc, limits))) {
        Ok(place) => {
            store.put(place, alloc);
            DONE
        }
        Err(_) => NO_MEMORY,
    }
}

/// Closes a handle of any kind, and frees what it kept. Returns 64 if it is closed already.
#[unsafe(no_mangle)]
pub extern "C" fn b3store_close(alloc: Global, handle: &mut Handle) -> u32
    ensures closed { handle.new.kept ≡ None }
    ensures answer { IfClosed handle.old.kept (result ≡ 64) (result ≡ 0) }
{
    match handle.take(alloc) {
        Some(_freed) => DONE,
        None => NO_VALUE,
    }
}
