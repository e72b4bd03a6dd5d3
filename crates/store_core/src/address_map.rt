//! From addresses to the numbers of filings.

ghost use Rattle.std.specs.HashMap.{get};
ghost use Rattle.std.specs.Str.{bytes_eq};

use indexmap::IndexMap;
use std::alloc::{AllocError, Global};
use store_books::{Address, AddressIndex};

// A hash map: a store's addresses are hashes already, and so are evenly distributed.
#[derive(Drop)]
pub(crate) struct AddressMap {
    numbers: IndexMap<Address, u64>,
}

impl AddressIndex for AddressMap {
    ghost number_of = { λ m address. get bytes_eq m.numbers address };

    fn new(alloc: Global) -> Self {
        AddressMap {
            numbers: IndexMap::new(alloc),
        }
    }

    fn get(&self, address: Address) -> Option<u64> {
        self.numbers.get(&address).copied()
    }

    fn insert(&mut self, address: Address, number: u64) -> Result<(), AllocError> {
        let Ok(_none) = self.numbers.insert(address, number) else {
            return Err(AllocError);
        };
        Ok(())
    }

    fn remove(&mut self, address: Address) {
        let _number = self.numbers.swap_remove(&address);
    }
}
