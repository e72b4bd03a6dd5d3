//! Why a book records nothing, and why a share does not settle.

ghost use Rattle.std.specs.Prelude.{◌≡◌, Some};
ghost use Rattle.store_ledger.specs.Refusals.{full_code, full_text, missing_code, missing_text};

use std::error::Error;
use std::fmt;

/// L2: the book's bytes or its calls would exceed 2^64-1.
#[derive(Clone, Copy, Debug, PartialEq, Eq, Hash)]
pub struct BookFull;

impl BookFull {
    /// The code of the refusal, `L2`.
    pub fn code(self) -> &'static str
        ensures { result.now ≡ full_code }
    {
        "L2"
    }
}

/// `L2: the book is full`.
impl fmt::Display for BookFull {
    ghost output = { λ _. Some full_text };

    fn fmt<W: fmt::Write>(&self, f: &mut fmt::Formatter<W>) -> fmt::Result {
        write!(f, "{}: the book is full", self.code())
    }
}

impl Error for BookFull {}

/// L1: there are other shares of the book, and these bytes and calls were recorded with them.
#[derive(Clone, Copy, Debug, PartialEq, Eq, Hash)]
pub struct NotWhole {
    pub bytes: u64,
    pub calls: u64,
}

impl NotWhole {
    /// The code of the refusal, `L1`.
    pub fn code(self) -> &'static str
        ensures { result.now ≡ missing_code }
    {
        "L1"
    }
}

/// `L1: the share is not whole: missing bytes N, calls N`.
impl fmt::Display for NotWhole {
    ghost output = { λ missing. Some (missing_text missing) };

    fn fmt<W: fmt::Write>(&self, f: &mut fmt::Formatter<W>) -> fmt::Result {
        let bytes = self.bytes;
        let calls = self.calls;
        write!(
            f,
            "{}: the share is not whole: missing bytes {bytes}, calls {calls}",
            self.code()
        )
    }
}

impl Error for NotWhole {}
