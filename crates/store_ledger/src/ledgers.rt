//! The two ledgers of a book.

ghost use Rattle.std.specs.Prelude.{ℕ};

use std::marker::{Brand, PhantomData};
use std::sync::ledger::Ledger;

/// Names the two ledgers of a book and its shares, one of bytes and one of calls, and the number of parts of each; also names the history
/// of the store that the book belongs to.
pub trait Ledgers {
    ghost use Rattle.atomic_table.specs.Seated.{TableId};

    ghost bytes_name: { ℕ };

    ghost bytes_parts: { ℕ };

    ghost calls_name: { ℕ };

    ghost calls_parts: { ℕ };

    ghost history: { TableId };

    ghost limits: { ℕ × ℕ × ℕ };
}

impl Ledgers for Brand {
    ghost use Rattle.store_ledger.specs.Names.{no_table};

    ghost bytes_name = { 0 };

    ghost bytes_parts = { 0 };

    ghost calls_name = { 0 };

    ghost calls_parts = { 0 };

    ghost history = { no_table };

    ghost limits = { (0, 0, 0) };
}

/// The ledger of bytes. There are no values of this type.
pub struct OfBytes<L: Ledgers> {
    of: PhantomData<L>,
}

impl<L: Ledgers> Ledger for OfBytes<L> {
    ghost name = { L.bytes_name };

    ghost parts = { L.bytes_parts };
}

/// The ledger of calls. There are no values of this type.
pub struct OfCalls<L: Ledgers> {
    of: PhantomData<L>,
}

impl<L: Ledgers> Ledger for OfCalls<L> {
    ghost name = { L.calls_name };

    ghost parts = { L.calls_parts };
}
