//! Where the digests of named files come from.

ghost use Rattle.std.specs.Prelude.{◌≡◌, ℕ, List, Option, Result, Some};
ghost use Rattle.b3_check.specs.Faults.{name_fault_text};
ghost use Rattle.b3_check.specs.declared.names.NameFault.{NameFault as Refusal};

use crate::file::NumberedLine;
use std::error::Error;
use std::fmt;

/// Why there is no digest for a name.
#[derive(Clone, Copy, Debug, PartialEq, Eq)]
pub enum NameFault {
    /// The file of this name could not be read.
    Unreadable,
    /// Out of memory.
    NoMemory,
}

/// `unreadable` or `out of memory`.
impl fmt::Display for NameFault {
    ghost output = { λ fault. Some (name_fault_text fault) };

    fn fmt<W: fmt::Write>(&self, f: &mut fmt::Formatter<W>) -> fmt::Result {
        match self {
            NameFault::Unreadable => write!(f, "unreadable"),
            NameFault::NoMemory => write!(f, "out of memory"),
        }
    }
}

impl Error for NameFault {}

/// Looks up the digests of names, such as those of files or of a table in memory.
pub trait Names {
    // Whether a call in the state before, with this name, may return this result and leave the state after. If nothing can be said, as for
    // files, it is `λ _ _ _ _. Unit {0}`.
    ghost gives: { Self → List ℕ → Result (Option (List ℕ)) Refusal → Self → Type 0 };

    /// Announces the following lines, in their order, so that the names of those without a fault can be looked up ahead. It is a hint: no
    /// result depends on it, and any other name may be asked for.
    fn expect(&mut self, _lines: &[NumberedLine])
        ensures { self.new ≡ self.old }
    {}

    /// The digest of the file of this name, or `None` if there is no such file.
    fn digest_of(&mut self, name: &[u8]) -> Result<Option<[u8; 32]>, NameFault>
        ensures { gives self.old name.now result self.new };
}
