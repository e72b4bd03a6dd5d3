//! The passes of a hand-over, what they hand over, and their view in contracts.

ghost use Rattle.std.specs.Prelude.{◌≡◌, ◌≢◌, ◌%◌, ◌^◌, ◌<◌, ℕ, [], ◌∷◌, length};
ghost use Rattle.crossbeam_queue.specs.Passes.{view};
ghost use Rattle.store_board.specs.HandOverRule.{of_giver};

use b3_forest::Prepared;
use crossbeam_queue::Pass;
use std::collections::LinkedList;

/// A part that was handed over, with the number of its giver.
#[derive(Drop)]
pub struct Taken {
    pub giver: u64,
    pub part: Prepared,
}

/// The pass of a giver, with which one thread at a time gives parts. It keeps what was given with it.
#[derive(Drop)]
pub struct GivePass {
    pub(crate) pass: Pass<Taken, PassView>,
    pub(crate) giver: u64,
    ghost one: { ((view pass).rights ≡ 1) × ((view pass).taker ≡ 0) × ((view pass).givers ≡ giver ∷ []) },
    ghost own: { of_giver giver (view pass).given ≡ (view pass).given },
    ghost others: { (g : ℕ) → g ≢ giver → of_giver g (view pass).given ≡ [] },
}

impl GivePass {
    ghost use Rattle.store_board.specs.HandOverRule.{giver_view};

    /// The pass of a giver that has given nothing.
    pub(crate) fn new(pass: Pass<Taken, PassView>, giver: u64) -> GivePass
        requires { view pass ≡ giver_view giver }
        ensures { (result.pass ≡ pass) × (result.giver ≡ giver) }
    {
        GivePass { pass, giver }
    }
}

/// The pass of the taker, with which one thread at a time takes parts. It keeps what was taken with it.
#[derive(Drop)]
pub struct TakePass {
    pub(crate) pass: Pass<Taken, PassView>,
    pub(crate) count: u64,
    ghost taker: { ((view pass).taker ≡ 1) × ((view pass).givers ≡ []) × ((view pass).given ≡ []) },
    ghost some_right: { 0 < (view pass).rights },
    ghost counted: { count ≡ length (view pass).taken % 2 ^ 64 },
}

impl TakePass {
    ghost use Rattle.store_board.specs.HandOverRule.{taker_view};

    /// The taker's pass, which has taken nothing.
    pub(crate) fn new(pass: Pass<Taken, PassView>) -> TakePass
        requires { (view pass ≡ taker_view (view pass).rights (view pass).next_giver) × (0 < (view pass).rights) }
        ensures { result.pass ≡ pass }
    {
        TakePass { pass, count: 0 }
    }
}

/// The taker's pass, after it has taken in those of all givers. With it one thread takes the remaining parts.
#[derive(Drop)]
pub struct WholePass {
    pub(crate) pass: Pass<Taken, PassView>,
    ghost whole: { ((view pass).rights ≡ 2 ^ 64) × ((view pass).taker ≡ 1) },
}

impl WholePass {
    /// All passes in one.
    pub(crate) fn new(pass: Pass<Taken, PassView>) -> WholePass
        requires { ((view pass).rights ≡ 2 ^ 64) × ((view pass).taker ≡ 1) }
        ensures { result.pass ≡ pass }
    {
        WholePass { pass }
    }
}

/// What a pass has done. It exists only in contracts: there are no values of this type.
///
/// The taker's pass starts with every right and as the pass of all givers, and each giver's pass is split off it. `taker` is 1 for it and 0
/// for all others; the givers from `next_giver` on have no pass of their own yet.
pub struct PassView {
    pub rights: u64,
    pub taker: u64,
    pub next_giver: u64,
    pub givers: LinkedList<u64>,
    pub given: LinkedList<Taken>,
    pub taken: LinkedList<Taken>,
}
