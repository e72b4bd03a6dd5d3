//! Addresses of objects.

ghost use Rattle.std.specs.Prelude.{◌≡◌, Some};
ghost use Rattle.hex.specs.Hex.{encode_lower};

use std::fmt;
use std::marker::Model;

/// An object's address: the 32 bytes of the BLAKE3 hash of its bytes. In contracts it is the list of these bytes.
#[derive(Clone, Copy, Debug, PartialEq, Eq, PartialOrd, Ord, Hash)]
pub struct Address {
    bytes: [u8; 32],
}

impl Model for Address {
    ghost use Rattle.std.specs.Prelude.{ℕ, List};

    ghost Value = { List ℕ };

    ghost view = { λ a. a.bytes };

    ghost inverse = { λ bytes. record { bytes = bytes } };
}

impl Address {
    /// The address with these bytes.
    pub fn new(bytes: [u8; 32]) -> Address
        ensures { result ≡ bytes }
    {
        Address { bytes }
    }

    /// The bytes of the address.
    pub fn bytes(&self) -> [u8; 32]
        ensures { result ≡ self.now }
    {
        self.bytes
    }
}

/// 64 lower-case hexadecimal digits.
impl fmt::Display for Address {
    ghost output = { λ address. Some (encode_lower address) };

    fn fmt<W: fmt::Write>(&self, f: &mut fmt::Formatter<W>) -> fmt::Result {
        let mut digits = [0; 64];
        hex::encode_to_slice(self.bytes, &mut digits).unwrap();
        f.write_str(str::from_utf8(&digits).unwrap())
    }
}
