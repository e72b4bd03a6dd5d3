//! Why a line is not a check line.

ghost use Rattle.std.specs.Prelude.{◌≡◌, Some};
ghost use Rattle.b3_check.specs.Faults.{code_of, error_text, reason_of, sentence_of};
ghost use Rattle.b3_check.specs.declared.fault.ReadError.TheVariants.{NoMemory};

use std::alloc::{AllocError, AllocFailed};
use std::error::Error;
use std::fmt;

/// Why a line is not a check line: the first matching one. The text of an escaped line is what follows the backslash at its start; the text
/// of any other line is the whole line.
#[derive(Clone, Copy, Debug, PartialEq, Eq)]
pub enum Fault {
    /// C1: the text begins with `BLAKE3 (`.
    Tagged,
    /// C2: the text is shorter than 66 bytes.
    Short,
    /// C3: one of the first 64 bytes of the text is not a hexadecimal digit.
    BadHex,
    /// C4: bytes 65 and 66 of the text are not two spaces.
    BadSpaces,
    /// C5: the text has exactly 66 bytes, so there is no name.
    EmptyName,
    /// C6: in the name of an escaped line a backslash is not followed by `\`, `n` or `r`.
    BadEscape,
    /// C7: the name contains a zero byte.
    NulInName,
}

impl Fault {
    /// The code of the fault, `C1` to `C7`.
    pub fn code(self) -> &'static str
        ensures { result.now ≡ code_of self }
    {
        match self {
            Fault::Tagged => "C1",
            Fault::Short => "C2",
            Fault::BadHex => "C3",
            Fault::BadSpaces => "C4",
            Fault::EmptyName => "C5",
            Fault::BadEscape => "C6",
            Fault::NulInName => "C7",
        }
    }

    #[tactic(auto, unfolding(crate::specs::Faults::reason_of))]
    fn reason(self) -> &'static str
        ensures { result.now ≡ reason_of self }
    {
        match self {
            Fault::Tagged => "the line has the tagged form",
            Fault::Short => "the line is too short for digits and two spaces",
            Fault::BadHex => "the first 64 bytes are not all hexadecimal digits",
            Fault::BadSpaces => "no two spaces follow the digits",
            Fault::EmptyName => "the name is empty",
            Fault::BadEscape => "a backslash in the name begins no escape",
            Fault::NulInName => "the name holds a byte 0",
        }
    }
}

/// The code and what is wrong, for example `C5: the name is empty`.
impl fmt::Display for Fault {
    ghost output = { λ fault. Some (sentence_of fault) };

    fn fmt<W: fmt::Write>(&self, f: &mut fmt::Formatter<W>) -> fmt::Result {
        write!(f, "{}: {}", self.code(), self.reason())
    }
}

impl Error for Fault {}

/// Why a line could not be read.
#[derive(Clone, Copy, Debug, PartialEq, Eq)]
pub enum ReadError {
    /// It is not a check line.
    Fault(Fault),
    /// Out of memory for the name.
    NoMemory,
}

/// The fault's sentence, or `out of memory`.
impl fmt::Display for ReadError {
    ghost output = { λ error. Some (error_text error) };

    fn fmt<W: fmt::Write>(&self, f: &mut fmt::Formatter<W>) -> fmt::Result {
        match self {
            ReadError::Fault(fault) => write!(f, "{fault}"),
            ReadError::NoMemory => write!(f, "out of memory"),
        }
    }
}

impl Error for ReadError {}

impl From<AllocError> for ReadError {
    ghost from_gives = { λ _ e. e ≡ NoMemory };

    fn from(_e: AllocError) -> ReadError {
        ReadError::NoMemory
    }
}

impl<T: Drop> From<AllocFailed<T>> for ReadError {
    ghost from_gives = { λ _ e. e ≡ NoMemory };

    fn from(_e: AllocFailed<T>) -> ReadError {
        ReadError::NoMemory
    }
}
