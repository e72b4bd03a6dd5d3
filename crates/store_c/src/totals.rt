//! Totals and counts of a store.

ghost use Rattle.std.specs.Prelude.{◌≡◌, length};
ghost use Rattle.store_books.specs.Books.{totals_of};
ghost use Rattle.store_c.specs.Answers.{store_totals_of};
ghost use Rattle.store_c.specs.Keeping.{OnStore};

use crate::answers::{DONE, NO_VALUE};
use crate::keeping::{put_store, take_store};
use std::alloc::Global;
use store_handle::Handle;

/// Sums over a store: its objects and their bytes, its open uploads, and the bytes and parts that these hold.
#[derive(Clone, Copy)]
#[repr(C)]
pub struct StoreTotals {
    pub objects: u64,
    pub object_bytes: u64,
    pub uploads: u64,
    pub held_bytes: u64,
    pub parts: u64,
}

/// Stores the totals of a store. Returns 64 if the handle keeps none.
#[unsafe(no_mangle)]
pub extern "C" fn b3store_totals(alloc: Global, store: &mut Handle, totals: &mut StoreTotals) -> u32
    ensures kept { store.new.kept ≡ store.old.kept }
    ensures totals { OnStore store.old.kept (λ s. (result ≡ 0) × (totals.new ≡ store_totals_of (totals_of length length s.state)))
        ((result ≡ 64) × (totals.new ≡ totals.old)) }
{
    let Some(taken) = take_store(store, alloc) else {
        return NO_VALUE;
    };
    let found = taken.store.totals();
    put_store(store, taken, alloc);
    *totals = StoreTotals {
        objects: found.objects,
        object_bytes: found.object_bytes,
        uploads: found.uploads,
        held_bytes: found.held_bytes,
        parts: found.parts,
    };
    DONE
}

/// Stores the number of entries of a store's journal. Returns 64 if the handle keeps no store.
#[unsafe(no_mangle)]
pub extern "C" fn b3store_entries(alloc: Global, store: &mut Handle, count: &mut u64) -> u32
    ensures kept { store.new.kept ≡ store.old.kept }
    ensures count { OnStore store.old.kept (λ s. (result ≡ 0) × (count.new ≡ length s.journal)) ((result ≡ 64) × (count.new ≡ count.old)) }
{
    let Some(taken) = take_store(store, alloc) else {
        return NO_VALUE;
    };
    *count = taken.store.journal().len() as u64;
    put_store(store, taken, alloc);
    DONE
}
