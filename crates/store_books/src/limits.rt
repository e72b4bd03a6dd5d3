//! The limits of a store.

ghost use Rattle.std.specs.Prelude.{◌≡◌, ◌<◌, ◌≤◌, ◌⊎◌, ◌↔◌, IfOk, IsErr, Some};
ghost use Rattle.store_books.specs.Refusals.{bad_limits_code, bad_limits_text};
ghost use Rattle.store_books.specs.Books.{max_entries, max_tenants};

use std::error::Error;
use std::fmt;

/// The maximum number of tenants of a store, 2^16.
pub const MAX_TENANTS: u64 = 1 << 16;

/// The maximum number of entries of a journal, 2^32.
pub const MAX_ENTRIES: u64 = 1 << 32;

/// The maximum limit of a tenant in bytes, 2^46.
pub const MAX_LIMIT: u64 = 1 << 46;

// The maximum number of workers of an upload.
const MAX_WORKERS: u64 = 16;

/// S0: a limit is zero, or above 2^16 tenants, 2^32 entries or 16 workers.
#[derive(Clone, Copy, Debug, PartialEq, Eq)]
pub struct BadLimits;

impl BadLimits {
    /// The code of the refusal, `S0`.
    pub fn code(self) -> &'static str
        ensures { result.now ≡ bad_limits_code }
    {
        "S0"
    }
}

/// `S0: a limit is zero, or more than a store takes`.
impl fmt::Display for BadLimits {
    ghost output = { λ _. Some bad_limits_text };

    fn fmt<W: fmt::Write>(&self, f: &mut fmt::Formatter<W>) -> fmt::Result {
        write!(
            f,
            "{}: a limit is zero, or more than a store takes",
            self.code()
        )
    }
}

impl Error for BadLimits {}

/// The numbers of tenants, journal entries and workers of an upload that a store allows.
#[derive(Clone, Copy, Debug, PartialEq, Eq)]
pub struct Limits {
    /// 1 to 2^16.
    pub tenants: u64,
    /// 1 to 2^32.
    pub entries: u64,
    /// 1 to 16.
    pub workers: u64,
    pub ghost some: { (0 < tenants) × (0 < entries) × (0 < workers) },
    pub ghost most: { (tenants ≤ max_tenants) × (entries ≤ max_entries) × (workers ≤ 16) },
}

impl Limits {
    /// The widest limits: 2^16 tenants, 2^32 entries and 16 workers.
    pub fn full() -> Limits
        ensures { (result.tenants ≡ max_tenants) × (result.entries ≡ max_entries) × (result.workers ≡ 16) }
    {
        Limits {
            tenants: MAX_TENANTS,
            entries: MAX_ENTRIES,
            workers: MAX_WORKERS,
        }
    }

    /// These limits. S0 if one of them is zero or above the widest.
    pub fn new(tenants: u64, entries: u64, workers: u64) -> Result<Limits, BadLimits>
        ensures limits { IfOk result (λ l. (l.tenants ≡ tenants) × (l.entries ≡ entries) × (l.workers ≡ workers)) }
        ensures bad { IsErr result ↔ ((tenants ≡ 0) ⊎ (entries ≡ 0) ⊎ (workers ≡ 0) ⊎ (max_tenants < tenants) ⊎ (max_entries < entries) ⊎ (16 < workers)) }
    {
        if tenants == 0 || entries == 0 || workers == 0 {
            return Err(BadLimits);
        }
        if tenants > MAX_TENANTS || entries > MAX_ENTRIES || workers > MAX_WORKERS {
            return Err(BadLimits);
        }
        Ok(Limits {
            tenants,
            entries,
            workers,
        })
    }
}
