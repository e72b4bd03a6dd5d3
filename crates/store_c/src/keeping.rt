//! Taking values out of handles, and putting them back.

ghost use Rattle.std.specs.Prelude.{◌≡◌, ◌≢◌, IfSome, None, Some, false, true};
ghost use Rattle.store_handle.specs.declared.Kept.TheVariants as kept;
ghost use Rattle.store_c.specs.Calls.{Keeps, outcome};
ghost use Rattle.store_c.specs.Keeping.{OnPart, OnStore};

use crate::answers::{DONE, NO_MEMORY, Why, refuse};
use b3_forest::Prepared;
use std::alloc::Global;
use std::mem::replace;
use store_core::{Refusal, Store};
use store_handle::{Handle, Kept};

/// A store that a call has taken out of a handle, and its place on the heap.
#[derive(Drop)]
pub(crate) struct TakenStore {
    pub(crate) store: Store,
    place: Box<Kept>,
}

/// Takes the store out of a handle. If the handle keeps none, it is unchanged.
pub(crate) fn take_store(handle: &mut Handle, alloc: Global) -> Option<TakenStore>
    ensures store { IfSome result (λ taken. handle.old.kept ≡ Some (kept.Store taken.store)) }
    ensures none { result ≡ None → OnStore handle.old.kept (λ s. ⊥) (handle.new.kept ≡ handle.old.kept) }
{
    let mut place = handle.take(alloc)?;
    match replace(&mut *place, Kept::Nothing) {
        Kept::Store(store) => Some(TakenStore { store, place }),
        other => {
            *place = other;
            handle.put(place, alloc);
            None
        }
    }
}

/// Puts a store back.
pub(crate) fn put_store(handle: &mut Handle, taken: TakenStore, alloc: Global)
    ensures { handle.new.kept ≡ Some (kept.Store taken.store) }
{
    let TakenStore { store, mut place } = taken;
    *place = Kept::Store(store);
    handle.put(place, alloc);
}

/// A part that a call has taken out of a handle, and its place on the heap.
#[derive(Drop)]
pub(crate) struct TakenPart {
    pub(crate) part: Prepared,
    pub(crate) place: Box<Kept>,
}

/// Takes the part out of a handle. If the handle keeps none, it is unchanged.
pub(crate) fn take_part(handle: &mut Handle, alloc: Global) -> Option<TakenPart>
    ensures part { IfSome result (λ taken. (handle.old.kept ≡ Some (kept.Part taken.part)) × (handle.new.kept ≡ None)) }
    ensures none { result ≡ None → OnPart handle.old.kept (λ p. ⊥) (handle.new.kept ≡ handle.old.kept) }
{
    let mut place = handle.take(alloc)?;
    match replace(&mut *place, Kept::Nothing) {
        Kept::Part(part) => Some(TakenPart { part, place }),
        other => {
            *place = other;
            handle.put(place, alloc);
            None
        }
    }
}

/// Puts a part back.
pub(crate) fn put_part(handle: &mut Handle, part: Prepared, mut place: Box<Kept>, alloc: Global)
    ensures { handle.new.kept ≡ Some (kept.Part part) }
{
    *place = Kept::Part(part);
    handle.put(place, alloc);
}

/// Whether a handle keeps something.
pub(crate) fn is_open(handle: &mut Handle, alloc: Global) -> bool
    ensures open { result ≡ true → handle.old.kept ≢ None }
    ensures closed { result ≡ false → handle.old.kept ≡ None }
    ensures kept { handle.new.kept ≡ handle.old.kept }
{
    match handle.take(alloc) {
        Some(kept) => {
            handle.put(kept, alloc);
            true
        }
        None => false,
    }
}

/// Has a handle keep a reply and returns 0, or stores what the refusal carries and returns its number.
pub(crate) fn keep(
    alloc: Global,
    found: Result<Kept, Refusal>,
    handle: &mut Handle,
    why: &mut Why,
) -> u32
    ensures { Keeps found (outcome result handle.old.kept handle.new.kept why.old why.new) }
{
    match found {
        Ok(kept) => match Box::new(alloc, kept) {
            Ok(place) => {
                handle.put(place, alloc);
                DONE
            }
            Err(_) => NO_MEMORY,
        },
        Err(refusal) => refuse(refusal, why),
    }
}
