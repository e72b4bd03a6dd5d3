//! Why parts are not noted, and why there is no top yet.

ghost use Rattle.std.specs.Prelude.{◌≡◌, Some};
ghost use Rattle.store_upload.specs.Texts.{incomplete_code, incomplete_text};
ghost use Rattle.b3_forest.specs.Texts.{note_fault_code, note_fault_text};

use std::error::Error;
use std::fmt;

/// F10: the lowest offset of the upload that is not held.
#[derive(Clone, Copy, PartialEq, Eq, Debug)]
pub struct Incomplete {
    pub missing: u64,
}

impl Incomplete {
    /// The code of the refusal, `F10`.
    pub fn code(self) -> &'static str
        ensures { result.now ≡ incomplete_code }
    {
        "F10"
    }
}

/// The code of the refusal, with its data.
impl fmt::Display for Incomplete {
    ghost output = { λ refused. Some (incomplete_text refused.missing) };

    fn fmt<W: fmt::Write>(&self, f: &mut fmt::Formatter<W>) -> fmt::Result {
        let Incomplete { missing } = self;
        write!(f, "F10 missing {missing}")
    }
}

impl Error for Incomplete {}

/// The refusals of `Follow::note`, in the order in which they are checked.
#[derive(Clone, Copy, PartialEq, Eq, Debug)]
pub enum NoteFault {
    /// F7: the part was not made for the plan of an upload of exactly these bytes, but for another length or an open plan.
    WrongPlan,
    /// F8: the lowest offset of the part that is noted already.
    Overlap { at: u64 },
    /// F11: the part's bytes are not the borrowed bytes at its offset.
    Stranger,
    /// F9: out of memory.
    NoMemory,
}

impl NoteFault {
    /// The code of the refusal.
    pub fn code(self) -> &'static str
        ensures { result.now ≡ note_fault_code self }
    {
        match self {
            NoteFault::WrongPlan => "F7",
            NoteFault::Overlap { .. } => "F8",
            NoteFault::Stranger => "F11",
            NoteFault::NoMemory => "F9",
        }
    }
}

/// The code of the refusal, with its data.
impl fmt::Display for NoteFault {
    ghost output = { λ fault. Some (note_fault_text fault) };

    fn fmt<W: fmt::Write>(&self, f: &mut fmt::Formatter<W>) -> fmt::Result {
        match self {
            NoteFault::WrongPlan => write!(f, "F7"),
            NoteFault::Overlap { at } => write!(f, "F8 at {at}"),
            NoteFault::Stranger => write!(f, "F11"),
            NoteFault::NoMemory => write!(f, "F9"),
        }
    }
}

impl Error for NoteFault {}
