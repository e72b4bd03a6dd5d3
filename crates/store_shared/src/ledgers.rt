//! What a new shared store is made of.

ghost use Rattle.std.specs.Prelude.{◌≡◌, IfOk};
ghost use Rattle.store_ledger.specs.Shares.{all_parts};

use crate::history::UnnamedHistory;
use std::alloc::{AllocError, Global};
use std::sync::ledger::Blank;
use store_ledger::ALL_PARTS;

/// The two ledgers of a book and the history of a new store, before a type parameter names them.
#[derive(Drop)]
pub struct UnnamedLedgers {
    /// The ledger of the accepted bytes.
    pub bytes: Blank,
    /// The ledger of the accepted calls.
    pub calls: Blank,
    /// The history, which is empty.
    pub history: UnnamedHistory,
}

impl UnnamedLedgers {
    /// New ledgers with all their parts, and an empty history.
    pub fn new(alloc: Global) -> Result<UnnamedLedgers, AllocError>
        ensures bytes { IfOk result (λ ledgers. ledgers.bytes.parts ≡ all_parts) }
        ensures calls { IfOk result (λ ledgers. ledgers.calls.parts ≡ all_parts) }
    {
        Ok(UnnamedLedgers {
            bytes: Blank::new(ALL_PARTS),
            calls: Blank::new(ALL_PARTS),
            history: UnnamedHistory::new(alloc)?,
        })
    }
}
