//! Numbers of uploads.

ghost use Rattle.std.specs.Prelude.{◌≡◌, Some};
ghost use Rattle.std.specs.Fmt.{decimal};

use std::fmt;
use std::marker::Model;

/// The number of an upload. In contracts it is that number.
#[derive(Clone, Copy, Debug, PartialEq, Eq, PartialOrd, Ord, Hash)]
pub struct UploadId {
    number: u64,
}

impl Model for UploadId {
    ghost use Rattle.std.specs.Prelude.{ℕ};

    ghost Value = { ℕ };

    ghost view = { λ id. id.number };

    ghost inverse = { λ number. record { number = number } };
}

impl UploadId {
    /// The upload with this number.
    pub fn new(number: u64) -> UploadId
        ensures { result ≡ number }
    {
        UploadId { number }
    }

    /// The number.
    pub fn number(&self) -> u64
        ensures { result ≡ self.now }
    {
        self.number
    }
}

/// The number in decimal.
impl fmt::Display for UploadId {
    ghost output = { λ id. Some (decimal id) };

    fn fmt<W: fmt::Write>(&self, f: &mut fmt::Formatter<W>) -> fmt::Result {
        write!(f, "{}", self.number)
    }
}
