//! The handle by which a program in C keeps a value of the store.
//!
//! A handle is one pointer: null while it is closed, and otherwise a value on the heap that it owns. `Handle::take` moves the value out, and
//! `Handle::put` moves one in, so all code between these two is ordinary. Neither allocates.
//!
//! This is the only crate with code that the compiler can't check, and only the C library uses it: `Loose::into_box` makes a box from a
//! pointer, and `Handle` is declared `Send`. Both are proved by hand, as is every function that makes a `Handle` or a `Loose` or opens one.
//!
//! One enum has all kinds of values, so a handle of the wrong kind is reported by a number. `crosses_threads` has no clause: it compiles
//! only because a handle is `Send`.
#![tactic(auto)]

ghost use Rattle.std.specs.Prelude.{◌≡◌, None, Option, Some, option_map};
ghost use Rattle.store_handle.specs.declared.Kept.{Kept};

mod loose;

use crate::loose::Loose;
use b3_forest::Prepared;
use std::alloc::Global;
use std::marker::Model;
use std::mem::replace;
use std::ptr::null_mut;
use store_core::{Address, Listing, SharedObject, Store, UploadStatus, Usage};

/// What a handle keeps.
#[derive(Drop)]
pub enum Kept {
    Store(Store),
    /// A part of an upload, hashed.
    Part(Prepared),
    /// The bytes of an object.
    Object(SharedObject),
    /// The answers to lines, or entries of a journal.
    Text(Vec<u8>),
    /// The addresses and lengths of the objects that a tenant holds.
    Objects(Listing<(Address, u64)>),
    /// A tenant's open uploads.
    Uploads(Listing<UploadStatus>),
    /// Every tenant's use, reservation and limit.
    Tenants(Listing<Usage>),
    /// Nothing, while a call uses what the handle keeps.
    Nothing,
}

/// A value on the heap, or none. A program in C keeps it, and passes it to one call at a time.
#[repr(C)]
pub struct Handle {
    at: *mut u8,
    pub ghost kept: { Option Kept },
}

impl Model for Handle {
    ghost use Rattle.store_handle.specs.Owned.{handle_owns};
    ghost use Rattle.store_handle.specs.contracts.Kept.{the_row};

    ghost also_owns = { λ h. handle_owns the_row h.at h.kept };
}

impl Handle {
    /// Moves out what the handle keeps, if it keeps something. It is then closed.
    pub fn take(&mut self, alloc: Global) -> Option<Box<Kept>>
        ensures taken { option_map (λ b. b.value) result ≡ self.old.kept }
        ensures closed { self.new.kept ≡ None }
    {
        match replace(self, Handle::closed()).into_loose(alloc) {
            Some(loose) => Some(loose.into_box()),
            None => None,
        }
    }

    /// Has the handle keep a value. What it kept is freed.
    pub fn put(&mut self, kept: Box<Kept>, alloc: Global)
        ensures { self.new.kept ≡ Some kept.value }
    {
        let put = Handle::of_loose(Loose::of(kept));
        if let Some(freed) = replace(self, put).into_loose(alloc) {
            let _freed = freed.into_box();
        }
    }

    fn closed() -> Handle
        ensures { result.kept ≡ None }
    {
        Handle { at: null_mut() }
    }

    fn of_loose(loose: Loose<Kept, Global>) -> Handle
        ensures { result.kept ≡ Some loose.value }
    {
        let Loose { at, alloc: _ } = loose;
        Handle { at: at as *mut u8 }
    }

    fn into_loose(self, alloc: Global) -> Option<Loose<Kept, Global>>
        ensures { option_map (λ l. l.value) result ≡ self.kept }
    {
        let Handle { at } = self;
        if at.is_null() {
            None
        } else {
            Some(Loose {
                at: at as *mut Kept,
                alloc,
            })
        }
    }
}

// What it owns belongs to no thread.
unsafe impl Send for Handle {}

/// States that a handle may go to another thread. It does nothing.
pub fn crosses_threads(handle: &Handle) {
    needs_send(handle);
}

fn needs_send<T: Send>(value: &T) {
    let _value = value;
}
