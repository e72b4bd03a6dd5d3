//! Shares of a book.

ghost use Rattle.std.specs.Prelude.{◌≡◌, ◌+◌, ◌-◌, ◌^◌, ◌<◌};
ghost use Rattle.store_ledger.specs.Shares.{all_parts, sum_of};
ghost use Rattle.store_ledger.specs.declared.amounts.ShareAmounts.{ShareAmounts};

use crate::amounts::ShareAmounts;
use crate::ledgers::{Ledgers, OfBytes, OfCalls};
use std::marker::Model;
use std::sync::ledger;

/// The number of parts of a book, and so of a `Blank` for one.
pub const ALL_PARTS: u64 = 1 << 32;

/// Some parts of a book, with the bytes and the calls that were recorded with them. It may be dropped: its parts are then lost, and no
/// share of its book can become whole again.
#[derive(Drop)]
pub struct Share<L: Ledgers> {
    pub(crate) amounts: ShareAmounts,
    pub(crate) byte_share: ledger::Share<OfBytes<L>>,
    pub(crate) call_share: ledger::Share<OfCalls<L>>,
}

impl<L: Ledgers> Model for Share<L> {
    ghost Value = { ShareAmounts };

    ghost view = { λ s. s.amounts };

    ghost invariant = { λ s. (s.byte_share.parts ≡ s.amounts.parts) × (s.call_share.parts ≡ s.amounts.parts) × (s.byte_share.amount ≡ s.amounts.bytes)
        × (s.call_share.amount ≡ s.amounts.calls) × (0 < s.amounts.parts) × (L.bytes_parts ≡ all_parts) × (L.calls_parts ≡ all_parts) };
}

impl<L: Ledgers> Share<L> {
    /// The number of its book's parts that the share has.
    pub fn parts(&self) -> u64
        ensures { result ≡ self.now.parts }
    {
        self.amounts.parts
    }

    /// The number of bytes recorded with the share.
    pub fn bytes(&self) -> u64
        ensures { result ≡ self.now.bytes }
    {
        self.amounts.bytes
    }

    /// The number of calls recorded with the share.
    pub fn calls(&self) -> u64
        ensures { result ≡ self.now.calls }
    {
        self.amounts.calls
    }

    /// Moves `parts` parts to a new share of the same book, with nothing recorded.
    pub fn split(&mut self, parts: u64) -> Share<L>
        requires positive { 0 < parts }
        requires some_left { parts < self.old.parts }
        ensures new { result ≡ record { parts = parts; bytes = 0; calls = 0 } }
        ensures left { self.new ≡ record self.old { parts = self.old.parts - parts } }
    {
        let byte_share = self.byte_share.split_off(parts, 0);
        let call_share = self.call_share.split_off(parts, 0);
        self.amounts = ShareAmounts {
            parts: self.amounts.parts - parts,
            ..self.amounts
        };
        Share {
            amounts: ShareAmounts::new(parts),
            byte_share,
            call_share,
        }
    }

    /// Adds another share of the same book. Without the book nothing bounds the two sums, so the caller has to know that they fit;
    /// `Book::join` needs no such condition.
    pub fn join(&mut self, other: Share<L>)
        requires bytes { self.old.bytes + other.bytes < 2 ^ 64 }
        requires calls { self.old.calls + other.calls < 2 ^ 64 }
        ensures { self.new ≡ sum_of self.old other }
    {
        let Share {
            amounts,
            byte_share,
            call_share,
        } = other;
        self.byte_share.merge(byte_share);
        self.call_share.merge(call_share);
        self.amounts = self.amounts.plus(amounts);
    }
}
