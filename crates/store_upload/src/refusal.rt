//! Why parts are refused, and why an upload has no end or is not complete.

ghost use Rattle.std.specs.Prelude.{◌≡◌, Some};
ghost use Rattle.store_upload.specs.Texts.{add_fault_code, add_fault_text, finish_fault_code, finish_fault_text, fix_fault_code, fix_fault_text, part_fault_text};

use std::error::Error;
use std::fmt;

/// Why bytes are not a part of an upload, in the order of the checks.
#[derive(Clone, Copy, PartialEq, Eq, Debug)]
pub enum PartFault {
    /// F2: no bytes.
    EmptyPart,
    /// F3: the offset is not a multiple of 1024.
    OffAlign,
    /// F4: the exact sum of offset and length exceeds the plan's bound.
    PastEnd,
    /// F5: the length is not a multiple of 1024, and the part does not end at the upload's end; not under an open plan.
    Ragged,
    /// F6: more than 2^24 bytes.
    PartTooLong,
    /// F9: out of memory.
    NoMemory,
}

impl PartFault {
    /// The code of the refusal.
    pub fn code(self) -> &'static str
        ensures { result.now ≡ part_fault_text self }
    {
        match self {
            PartFault::EmptyPart => "F2",
            PartFault::OffAlign => "F3",
            PartFault::PastEnd => "F4",
            PartFault::Ragged => "F5",
            PartFault::PartTooLong => "F6",
            PartFault::NoMemory => "F9",
        }
    }
}

/// The code of the refusal.
impl fmt::Display for PartFault {
    ghost output = { λ fault. Some (part_fault_text fault) };

    fn fmt<W: fmt::Write>(&self, f: &mut fmt::Formatter<W>) -> fmt::Result {
        f.write_str(self.code())
    }
}

impl Error for PartFault {}

/// Why an upload does not take a part, in the order of the checks.
#[derive(Clone, Copy, PartialEq, Eq, Debug)]
pub enum AddFault {
    /// F7: the part was made for another plan.
    WrongPlan,
    /// F8: the lowest offset of the part that is held already.
    Overlap { at: u64 },
    /// F12: the part ends past the upload's end, or its length is not a multiple of 1024 and it ends before `end`. `end` is the upload's
    /// end or, if that is not fixed, the end of the last part that it holds.
    PastLast { end: u64 },
    /// F9: out of memory.
    NoMemory,
}

impl AddFault {
    /// The code of the refusal.
    pub fn code(self) -> &'static str
        ensures { result.now ≡ add_fault_code self }
    {
        match self {
            AddFault::WrongPlan => "F7",
            AddFault::Overlap { .. } => "F8",
            AddFault::PastLast { .. } => "F12",
            AddFault::NoMemory => "F9",
        }
    }
}

/// The code of the refusal, with its data.
impl fmt::Display for AddFault {
    ghost output = { λ fault. Some (add_fault_text fault) };

    fn fmt<W: fmt::Write>(&self, f: &mut fmt::Formatter<W>) -> fmt::Result {
        match self {
            AddFault::WrongPlan => write!(f, "F7"),
            AddFault::Overlap { at } => write!(f, "F8 at {at}"),
            AddFault::PastLast { end } => write!(f, "F12 end {end}"),
            AddFault::NoMemory => write!(f, "F9"),
        }
    }
}

impl Error for AddFault {}

/// Why the end of an upload is not fixed, in the order of the checks.
#[derive(Clone, Copy, PartialEq, Eq, Debug)]
pub enum FixFault {
    /// F1: the length exceeds the plan's bound.
    TooLong,
    /// F12: the upload has another end, or holds a part that ends after this one. `end` is how far it extends.
    PastLast { end: u64 },
}

impl FixFault {
    /// The code of the refusal.
    pub fn code(self) -> &'static str
        ensures { result.now ≡ fix_fault_code self }
    {
        match self {
            FixFault::TooLong => "F1",
            FixFault::PastLast { .. } => "F12",
        }
    }
}

/// The code of the refusal, with its data.
impl fmt::Display for FixFault {
    ghost output = { λ fault. Some (fix_fault_text fault) };

    fn fmt<W: fmt::Write>(&self, f: &mut fmt::Formatter<W>) -> fmt::Result {
        match self {
            FixFault::TooLong => write!(f, "F1"),
            FixFault::PastLast { end } => write!(f, "F12 end {end}"),
        }
    }
}

impl Error for FixFault {}

/// Why an upload is not complete, in the order of the checks.
#[derive(Clone, Copy, PartialEq, Eq, Debug)]
pub enum FinishFault {
    /// F13: the upload's end is not fixed.
    NotFixed,
    /// F10: the lowest offset of the upload that is not held.
    Incomplete { missing: u64 },
}

impl FinishFault {
    /// The code of the refusal.
    pub fn code(self) -> &'static str
        ensures { result.now ≡ finish_fault_code self }
    {
        match self {
            FinishFault::NotFixed => "F13",
            FinishFault::Incomplete { .. } => "F10",
        }
    }
}

/// The code of the refusal, with its data.
impl fmt::Display for FinishFault {
    ghost output = { λ fault. Some (finish_fault_text fault) };

    fn fmt<W: fmt::Write>(&self, f: &mut fmt::Formatter<W>) -> fmt::Result {
        match self {
            FinishFault::NotFixed => write!(f, "F13"),
            FinishFault::Incomplete { missing } => write!(f, "F10 missing {missing}"),
        }
    }
}

impl Error for FinishFault {}
