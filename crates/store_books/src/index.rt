//! From addresses to numbers.

ghost use Rattle.std.specs.Prelude.{◌≡◌, ℕ, List, Option, Some, None, OnErr, OnOk, if◌then◌else◌};
ghost use Rattle.std.specs.BTreeMap.{get};
ghost use Rattle.std.specs.Cmp.Lexicographic.{slice_cmp};
ghost use Rattle.std.specs.Ordering.{nat_cmp};
ghost use Rattle.std.specs.Str.{bytes_eq};

use crate::address::Address;
use std::alloc::{AllocError, Global};
use std::collections::BTreeMap;

/// Maps addresses to numbers.
pub trait AddressIndex: Drop {
    // The number of an address.
    ghost number_of: { Self → List ℕ → Option ℕ };

    /// An empty map. Allocates nothing.
    fn new(alloc: Global) -> Self
        ensures { (a : List ℕ) → number_of result a ≡ None };

    /// The number of the address.
    fn get(&self, address: Address) -> Option<u64>
        ensures { result ≡ number_of self.now address };

    /// Maps the address, which has no number yet, to `number`.
    fn insert(&mut self, address: Address, number: u64) -> Result<(), AllocError>
        requires { number_of self.old address ≡ None }
        ensures inserted { OnOk result ((a : List ℕ) → number_of self.new a ≡ (if bytes_eq address a then Some number else number_of self.old a)) }
        ensures unchanged { OnErr result ((a : List ℕ) → number_of self.new a ≡ number_of self.old a) };

    /// Removes the address.
    fn remove(&mut self, address: Address)
        ensures { (a : List ℕ) → number_of self.new a ≡ (if bytes_eq address a then None else number_of self.old a) };
}

/// An ordered map: a text can contain any addresses, and none of them is slower to find than another.
impl AddressIndex for BTreeMap<[u8; 32], u64> {
    ghost number_of = { λ m address. get (slice_cmp nat_cmp) m address };

    fn new(alloc: Global) -> Self {
        BTreeMap::new(alloc)
    }

    fn get(&self, address: Address) -> Option<u64> {
        self.get(&address.bytes()).copied()
    }

    fn insert(&mut self, address: Address, number: u64) -> Result<(), AllocError> {
        let Ok(_none) = self.insert(address.bytes(), number) else {
            return Err(AllocError);
        };
        Ok(())
    }

    fn remove(&mut self, address: Address) {
        let _number = self.remove(&address.bytes());
    }
}
