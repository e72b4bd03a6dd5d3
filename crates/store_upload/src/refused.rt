//! Refusals that return what was passed.

use std::error::Error;
use std::fmt;

/// Why a call was refused, and what it returns to its caller, such as a part or its bytes.
#[derive(Drop)]
pub struct Refused<F, T> {
    pub reason: F,
    pub value: T,
}

/// The reason's text.
impl<F: fmt::Display, T> fmt::Display for Refused<F, T> {
    ghost output = { λ refused. F.output refused.reason };

    fn fmt<W: fmt::Write>(&self, f: &mut fmt::Formatter<W>) -> fmt::Result {
        fmt::Display::fmt(&self.reason, f)
    }
}

/// The reason's text, which shows nothing of the value.
impl<F: fmt::Display, T> fmt::Debug for Refused<F, T> {
    ghost debug_output = { λ refused. F.output refused.reason };

    fn fmt<W: fmt::Write>(&self, f: &mut fmt::Formatter<W>) -> fmt::Result {
        fmt::Display::fmt(&self.reason, f)
    }
}

impl<F: fmt::Display + Drop, T: Drop> Error for Refused<F, T> {}
