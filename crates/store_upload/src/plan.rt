//! Plans of uploads.

ghost use Rattle.std.specs.Prelude.{◌≡◌, ◌≢◌, ◌<◌, ◌≤◌, ◌↔◌, ℕ, IfNone, IfOk, IsErr, Some, false, true};
ghost use Rattle.store_upload.specs.Texts.{too_long_text};
ghost use Rattle.store_upload.specs.Uploads.{Fits, closed_plan, first_end, max_bytes, open_plan, part_fault, same_plan};

use crate::refusal::PartFault;
use std::error::Error;
use std::fmt;
use std::marker::Model;

/// The length of a chunk in bytes. Parts start at multiples of it.
pub const CHUNK_LEN: u64 = 1024;

/// The maximum number of bytes of an upload, 2^44.
pub const MAX_BYTES: u64 = 1 << 44;

/// The maximum number of bytes of a part, 2^24.
pub const MAX_PART_BYTES: u64 = 1 << 24;

/// The maximum number of chunks of a part.
pub const MAX_PART_CHUNKS: u64 = MAX_PART_BYTES / CHUNK_LEN;

/// F1: the length exceeds 2^44.
#[derive(Clone, Copy, PartialEq, Eq, Debug)]
pub struct TooLong;

impl TooLong {
    /// The code of the refusal, `F1`.
    pub fn code(self) -> &'static str
        ensures { result.now ≡ too_long_text }
    {
        "F1"
    }
}

/// The code of the refusal.
impl fmt::Display for TooLong {
    ghost output = { λ _. Some too_long_text };

    fn fmt<W: fmt::Write>(&self, f: &mut fmt::Formatter<W>) -> fmt::Result {
        f.write_str(self.code())
    }
}

impl Error for TooLong {}

/// The plan of an upload: its length in bytes or, for an open plan, its maximum length, with the length itself fixed later. At most 2^44.
#[derive(Clone, Copy, PartialEq, Eq, Debug)]
pub struct Plan {
    bound: u64,
    is_open: bool,
}

impl Model for Plan {
    ghost use Rattle.std.specs.Prelude.{◌≤◌};
    ghost use Rattle.store_upload.specs.Uploads.{UploadPlan, max_bytes};

    ghost Value = { UploadPlan };

    ghost view = { λ p. record { bound = p.bound; is_open = p.is_open } };

    ghost inverse = { λ p. record { bound = p.bound; is_open = p.is_open } };

    ghost invariant = { λ p. p.bound ≤ max_bytes };
}

impl Plan {
    /// The plan of an upload of `len` bytes. F1 if `len` exceeds 2^44.
    pub fn new(len: u64) -> Result<Plan, TooLong>
        ensures plan { IfOk result (λ plan. plan ≡ closed_plan len) }
        ensures too_long { IsErr result ↔ max_bytes < len }
    {
        if len > MAX_BYTES {
            return Err(TooLong);
        }
        Ok(Plan {
            bound: len,
            is_open: false,
        })
    }

    /// The plan of an upload of at most `at_most` bytes, whose length is fixed later. F1 if `at_most` exceeds 2^44.
    pub fn open(at_most: u64) -> Result<Plan, TooLong>
        ensures plan { IfOk result (λ plan. plan ≡ open_plan at_most) }
        ensures too_long { IsErr result ↔ max_bytes < at_most }
    {
        if at_most > MAX_BYTES {
            return Err(TooLong);
        }
        Ok(Plan {
            bound: at_most,
            is_open: true,
        })
    }

    /// The maximum length of the upload; under a plan that is not open, its length.
    pub fn bound(&self) -> u64
        ensures value { result ≡ self.now.bound }
        ensures bounded { result ≤ max_bytes }
    {
        self.bound
    }

    /// Whether the upload's length is fixed later.
    pub fn is_open(&self) -> bool
        ensures { result ≡ self.now.is_open }
    {
        self.is_open
    }

    /// The end of an upload with this plan at the start: `None` if its length is fixed later.
    pub fn end(&self) -> Option<u64>
        ensures { result ≡ first_end self.now }
    {
        if self.is_open { None } else { Some(self.bound) }
    }

    /// Whether it is the plan of an upload of `len` bytes.
    pub fn is_of(&self, len: u64) -> bool
        ensures yes { result ≡ true → self.now ≡ closed_plan len }
        ensures no { result ≡ false → self.now ≢ closed_plan len }
    {
        !self.is_open && self.bound == len
    }

    /// Whether two plans are the same: of the same length and kind.
    pub fn is_same(&self, other: &Plan) -> bool
        ensures { result ≡ same_plan self.now other.now }
    {
        let Plan { bound, is_open } = *other;
        bound == self.bound && is_open == self.is_open
    }

    /// Why `len` bytes at `offset` do not fit the plan. The first matching one of: F2, there are no bytes; F3, the offset is not a multiple
    /// of 1024; F4, they end past the bound; F5, the length is not a multiple of 1024 and they do not end at the upload's end (not under an
    /// open plan); F6, there are more than 2^24 bytes.
    pub fn part_fault(&self, offset: u64, len: u64) -> Option<PartFault>
        ensures fault { result ≡ part_fault self.now offset len }
        ensures fits { IfNone result (Fits self.now offset len) }
        ensures bounded { self.now.bound ≤ max_bytes }
    {
        let most = self.bound();
        if len == 0 {
            return Some(PartFault::EmptyPart);
        }
        if offset % CHUNK_LEN != 0 {
            return Some(PartFault::OffAlign);
        }
        match offset.checked_add(len) {
            None => Some(PartFault::PastEnd),
            Some(end) if end > most => Some(PartFault::PastEnd),
            Some(end) if !self.is_open && len % CHUNK_LEN != 0 && end != most => {
                Some(PartFault::Ragged)
            }
            Some(_) if len > MAX_PART_BYTES => Some(PartFault::PartTooLong),
            Some(_) => None,
        }
    }
}
