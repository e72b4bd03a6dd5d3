//! How an engine ends: with a verdict, or with what stopped it.

ghost use Rattle.std.specs.Prelude.{◌≡◌, Some};
ghost use Rattle.edge.specs.Causes.{cause_text};
ghost use Rattle.edge.specs.declared.outcome.Cause.TheVariants.{OutOfMemory};

use std::alloc::AllocError;
use std::error::Error;
use std::fmt;

/// The result of an engine that completed.
#[derive(Clone, Copy, Debug, PartialEq, Eq)]
pub enum Verdict {
    /// Everything passed.
    Good,
    /// Something was refused, wrong or failed.
    Refused,
}

/// The first cause that stopped an engine.
#[derive(Clone, Copy, Debug, PartialEq, Eq)]
pub enum Cause {
    /// A read failed, or was abandoned.
    CannotRead,
    /// A write failed.
    CannotWrite,
    /// Out of memory.
    OutOfMemory,
}

/// `cannot read`, `cannot write` or `out of memory`.
impl fmt::Display for Cause {
    ghost output = { λ cause. Some (cause_text cause) };

    fn fmt<W: fmt::Write>(&self, f: &mut fmt::Formatter<W>) -> fmt::Result {
        match self {
            Cause::CannotRead => write!(f, "cannot read"),
            Cause::CannotWrite => write!(f, "cannot write"),
            Cause::OutOfMemory => write!(f, "out of memory"),
        }
    }
}

impl Error for Cause {}

impl From<AllocError> for Cause {
    ghost from_gives = { λ _ cause. cause ≡ OutOfMemory };

    fn from(_: AllocError) -> Cause {
        Cause::OutOfMemory
    }
}
