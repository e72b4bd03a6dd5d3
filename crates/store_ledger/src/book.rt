//! Books: the totals of what was accepted.

ghost use Rattle.std.specs.Prelude.{◌≡◌, ◌↔◌, IsSome, IfSome, ◌+◌, ◌≤◌, IfOk, IfErr, IsOk, OnOk, OnErr, Ok};
ghost use Rattle.store_ledger.specs.Shares.{Agrees, BookHasRoom, IsMissing, IsWhole, accepted_after, all_parts, share_after, sum_of};
ghost use Rattle.store_ledger.specs.declared.book.Accepted.{Accepted};

use crate::amounts::ShareAmounts;
use crate::ledgers::{Ledgers, OfBytes, OfCalls};
use crate::refusal::{BookFull, NotWhole};
use crate::share::{ALL_PARTS, Share};
use std::marker::Model;
use std::sync::ledger;
use std::sync::ledger::Blank;

/// What was accepted: the total number of bytes, and the number of calls.
#[derive(Clone, Copy, Debug, PartialEq, Eq, Hash)]
pub struct Accepted {
    pub bytes: u64,
    pub calls: u64,
}

/// The totals of the bytes and the calls of all its shares.
#[derive(Drop)]
pub struct Book<L: Ledgers> {
    accepted: Accepted,
    byte_book: ledger::Book<OfBytes<L>>,
    call_book: ledger::Book<OfCalls<L>>,
}

impl<L: Ledgers> Model for Book<L> {
    ghost Value = { Accepted };

    ghost view = { λ b. b.accepted };

    ghost invariant = { λ b. (b.byte_book.total ≡ b.accepted.bytes) × (b.call_book.total ≡ b.accepted.calls) × (L.bytes_parts ≡ all_parts) × (L.calls_parts ≡ all_parts) };
}

impl<L: Ledgers> Book<L> {
    /// A new book, in which nothing is recorded, and the share with all of its parts.
    pub fn open(bytes: Blank, calls: Blank) -> (Book<L>, Share<L>)
        requires bytes { (bytes.name ≡ L.bytes_name) × (bytes.parts ≡ L.bytes_parts) × (bytes.parts ≡ all_parts) }
        requires calls { (calls.name ≡ L.calls_name) × (calls.parts ≡ L.calls_parts) × (calls.parts ≡ all_parts) }
        ensures book { result.0 ≡ record { bytes = 0; calls = 0 } }
        ensures share { result.1 ≡ record { parts = all_parts; bytes = 0; calls = 0 } }
    {
        let (byte_book, byte_share) = bytes.open::<OfBytes<L>>();
        let (call_book, call_share) = calls.open::<OfCalls<L>>();
        let book = Book {
            accepted: Accepted { bytes: 0, calls: 0 },
            byte_book,
            call_book,
        };
        let share = Share {
            amounts: ShareAmounts::new(ALL_PARTS),
            byte_share,
            call_share,
        };
        (book, share)
    }

    /// The total number of bytes of all accepted calls.
    pub fn bytes(&self) -> u64
        ensures { result ≡ self.now.bytes }
    {
        self.accepted.bytes
    }

    /// The number of accepted calls.
    pub fn calls(&self) -> u64
        ensures { result ≡ self.now.calls }
    {
        self.accepted.calls
    }

    /// Adds the bytes and one call to the book and to the share.
    pub fn record(&mut self, share: &mut Share<L>, bytes: u64) -> Result<(), BookFull>
        ensures room { IsOk result ↔ BookHasRoom self.old bytes }
        ensures book { OnOk result (self.new ≡ accepted_after self.old bytes) }
        ensures share { OnOk result (share.new ≡ share_after share.old bytes) }
        ensures full { OnErr result ((self.new ≡ self.old) × (share.new ≡ share.old)) }
    {
        let accepted = self.accepted(share).after(bytes).ok_or(BookFull)?;
        self.byte_book.add(&mut share.byte_share, bytes);
        self.call_book.add(&mut share.call_share, 1);
        self.accepted = accepted;
        share.amounts.bytes += bytes;
        share.amounts.calls += 1;
        Ok(())
    }

    /// The book's numbers if the share has the same, otherwise what the share lacks. Book and share are unchanged.
    pub fn settle(&mut self, share: &mut Share<L>) -> Result<Accepted, NotWhole>
        ensures same { (self.new ≡ self.old) × (share.new ≡ share.old) }
        ensures ok { IfOk result (λ accepted. (accepted ≡ self.old) × Agrees self.old share.old) }
        ensures missing { IfErr result (IsMissing self.old share.old) }
        ensures whole { IsWhole share.old → result ≡ Ok self.old }
    {
        let accepted = self.accepted(share);
        let amounts = share.amounts;
        if amounts.bytes == accepted.bytes && amounts.calls == accepted.calls {
            return Ok(accepted);
        }
        Err(NotWhole {
            bytes: accepted.bytes - amounts.bytes,
            calls: accepted.calls - amounts.calls,
        })
    }

    /// The book's numbers, each of which is at least the share's. Book and share are unchanged.
    pub fn accepted(&mut self, share: &mut Share<L>) -> Accepted
        ensures same { (self.new ≡ self.old) × (share.new ≡ share.old) }
        ensures numbers { result ≡ self.old }
        ensures least { (share.old.bytes ≤ result.bytes) × (share.old.calls ≤ result.calls) }
        ensures whole { IsWhole share.old → Agrees self.old share.old }
    {
        self.byte_book.audit(&mut share.byte_share);
        self.call_book.audit(&mut share.call_share);
        self.accepted
    }

    /// Adds another share of this book to the first. What both have recorded is in the book, so the sums cannot overflow.
    pub fn join(&mut self, share: &mut Share<L>, other: Share<L>)
        ensures book { self.new ≡ self.old }
        ensures share { share.new ≡ sum_of share.old other }
    {
        let Share {
            amounts,
            byte_share,
            call_share,
        } = other;
        share.byte_share.merge(byte_share);
        share.call_share.merge(call_share);
        self.byte_book.audit(&mut share.byte_share);
        self.call_book.audit(&mut share.call_share);
        share.amounts = share.amounts.plus(amounts);
    }
}

impl Accepted {
    /// The numbers after one more call with `bytes` bytes, unless one of them would exceed 2^64-1.
    pub(crate) fn after(self, bytes: u64) -> Option<Accepted>
        ensures room { IsSome result ↔ BookHasRoom self bytes }
        ensures numbers { IfSome result (λ accepted. accepted ≡ accepted_after self bytes) }
    {
        Some(Accepted {
            bytes: self.bytes.checked_add(bytes)?,
            calls: self.calls.checked_add(1)?,
        })
    }
}
