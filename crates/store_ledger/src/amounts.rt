//! The view of shares in contracts.

ghost use Rattle.std.specs.Prelude.{◌≡◌, ◌+◌, ◌^◌, ◌<◌};
ghost use Rattle.store_ledger.specs.Shares.{sum_of};

/// What a share has: some of its book's parts, and the bytes and the calls that were recorded with it.
#[derive(Clone, Copy, Debug, PartialEq, Eq, Hash)]
pub struct ShareAmounts {
    pub parts: u64,
    pub bytes: u64,
    pub calls: u64,
}

impl ShareAmounts {
    /// Parts with nothing recorded.
    pub(crate) fn new(parts: u64) -> ShareAmounts
        ensures { result ≡ record { parts = parts; bytes = 0; calls = 0 } }
    {
        ShareAmounts {
            parts,
            bytes: 0,
            calls: 0,
        }
    }

    /// The sum of both.
    pub(crate) fn plus(self, other: ShareAmounts) -> ShareAmounts
        requires parts { self.parts + other.parts < 2 ^ 64 }
        requires bytes { self.bytes + other.bytes < 2 ^ 64 }
        requires calls { self.calls + other.calls < 2 ^ 64 }
        ensures { result ≡ sum_of self other }
    {
        ShareAmounts {
            parts: self.parts + other.parts,
            bytes: self.bytes + other.bytes,
            calls: self.calls + other.calls,
        }
    }
}
