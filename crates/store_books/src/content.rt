//! Objects, as the books see them.

ghost use Rattle.std.specs.Prelude.{◌≡◌, ℕ, List};

use crate::address::Address;

/// An object: it has a length and an address.
pub trait Content: Drop {
    // The number of its bytes, and its address.
    ghost size: { Self → ℕ };

    ghost address: { Self → List ℕ };

    /// The number of bytes.
    fn length(&self) -> u64
        ensures { result ≡ size self.now };

    /// The address.
    fn address(&self) -> Address
        ensures { result ≡ address self.now };
}

/// An object without its bytes: what a journal records about it.
#[derive(Clone, Copy, Debug, PartialEq, Eq)]
pub struct ObjectLabel {
    /// Its address.
    pub address: Address,
    /// Its length in bytes.
    pub len: u64,
}

impl Content for ObjectLabel {
    ghost size = { λ o. o.len };

    ghost address = { λ o. o.address };

    fn length(&self) -> u64 {
        self.len
    }

    fn address(&self) -> Address {
        self.address
    }
}
