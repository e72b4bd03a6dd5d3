//! Pages of the objects that a tenant holds.

ghost use Rattle.std.specs.Prelude.{◌≡◌};

use crate::address::Address;
use std::marker::Model;

/// Addresses and lengths of objects, and the number from which the next page lists objects.
#[derive(Drop)]
pub struct ObjectPage {
    objects: Vec<(Address, u64)>,
    next: u64,
}

impl Model for ObjectPage {
    ghost use Rattle.store_books.specs.Pages.{ModelObjectPage};

    ghost Value = { ModelObjectPage };

    ghost view = { λ p. record { objects = p.objects.items; next = p.next } };
}

impl ObjectPage {
    /// The page of these objects.
    pub(crate) fn new(objects: Vec<(Address, u64)>, next: u64) -> ObjectPage
        ensures { result ≡ record { objects = objects.items; next = next } }
    {
        ObjectPage { objects, next }
    }

    /// The objects, in filing order.
    pub fn objects(&self) -> &[(Address, u64)]
        ensures { result.now ≡ self.now.objects }
    {
        self.objects.as_slice()
    }

    /// The number from which the next page lists objects.
    pub fn next_number(&self) -> u64
        ensures { result ≡ self.now.next }
    {
        self.next
    }
}
