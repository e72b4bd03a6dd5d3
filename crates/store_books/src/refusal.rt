//! Why a command or a question is refused.

ghost use Rattle.std.specs.Prelude.{◌≡◌, Some};
ghost use Rattle.store_books.specs.Refusals.{refusal_code, refusal_text};

use crate::address::Address;
use std::error::Error;
use std::fmt;

/// Why a command or a question is refused. If several apply, the first one in the list of the call is returned. A refusal leaves the store
/// unchanged.
#[derive(Clone, Copy, Debug, PartialEq, Eq)]
pub enum Refusal {
    /// S1: no tenant has this number.
    NoTenant,
    /// S2: the number of tenants has reached its limit.
    TenantsFull,
    /// S3: the tenant's limit exceeds 2^46 bytes.
    LimitTooLarge,
    /// S4: the new limit is below the sum of the tenant's use and reservation, in bytes.
    BelowUse { in_use: u64 },
    /// S5: the upload's length exceeds 2^44 bytes, or its end exceeds its plan's bound.
    TooLong,
    /// S6: the tenant has too few bytes left; `free` is its limit minus its use and its reservation.
    OverQuota { free: u64 },
    /// S7: no open upload has this number.
    NoUpload,
    /// S8: the part was made for another plan.
    WrongPlan,
    /// S9: the lowest offset of the part that the upload holds already.
    Overlap { at: u64 },
    /// S10: the lowest offset of the upload that is not held.
    Incomplete { missing: u64 },
    /// S11: the content has another address than the one given; `found` is its address.
    WrongAddress { found: Address },
    /// S12: the tenant holds no object at this address.
    NotHeld,
    /// S13: the number of journal entries has reached its limit.
    JournalFull,
    /// S14: out of memory.
    NoMemory,
    /// S15: the part or the end is past the last byte, or before one that is held: `end` is the upload's end or, if that is not fixed,
    /// the end of the last part that it holds.
    PastLast { end: u64 },
    /// S16: the upload's end is not fixed.
    NotFixed,
}

impl Refusal {
    /// The code of the refusal, `S1` to `S16`.
    pub fn code(self) -> &'static str
        ensures { result.now ≡ refusal_code self }
    {
        match self {
            Refusal::NoTenant => "S1",
            Refusal::TenantsFull => "S2",
            Refusal::LimitTooLarge => "S3",
            Refusal::BelowUse { .. } => "S4",
            Refusal::TooLong => "S5",
            Refusal::OverQuota { .. } => "S6",
            Refusal::NoUpload => "S7",
            Refusal::WrongPlan => "S8",
            Refusal::Overlap { .. } => "S9",
            Refusal::Incomplete { .. } => "S10",
            Refusal::WrongAddress { .. } => "S11",
            Refusal::NotHeld => "S12",
            Refusal::JournalFull => "S13",
            Refusal::NoMemory => "S14",
            Refusal::PastLast { .. } => "S15",
            Refusal::NotFixed => "S16",
        }
    }
}

/// The code of the refusal with its data: `S4 use N`, `S6 free N`, `S9 at N`, `S10 missing N`, `S11 found ADDRESS`, `S15 end N`, and only
/// the code for all others.
impl fmt::Display for Refusal {
    ghost output = { λ refusal. Some (refusal_text refusal) };

    fn fmt<W: fmt::Write>(&self, f: &mut fmt::Formatter<W>) -> fmt::Result {
        match self {
            Refusal::BelowUse { in_use } => write!(f, "{} use {in_use}", self.code()),
            Refusal::OverQuota { free } => write!(f, "{} free {free}", self.code()),
            Refusal::Overlap { at } => write!(f, "{} at {at}", self.code()),
            Refusal::Incomplete { missing } => write!(f, "{} missing {missing}", self.code()),
            Refusal::WrongAddress { found } => write!(f, "{} found {found}", self.code()),
            Refusal::PastLast { end } => write!(f, "{} end {end}", self.code()),
            Refusal::NoTenant
            | Refusal::TenantsFull
            | Refusal::LimitTooLarge
            | Refusal::TooLong
            | Refusal::NoUpload
            | Refusal::WrongPlan
            | Refusal::NotHeld
            | Refusal::JournalFull
            | Refusal::NoMemory
            | Refusal::NotFixed => write!(f, "{}", self.code()),
        }
    }
}

impl Error for Refusal {}
