//! What a thread promises about the blocks that it takes.

ghost use Rattle.b3_parallel.specs.inner.Rounds.{ArePlaced};

use crate::source::Source;
use crate::taking::Placed;
use b3_core::Mode;
use std::snapshot::Snapshot;
use std::thread::Promise;

/// The promise that its results are for blocks of this source, each with its right place.
#[derive(Drop)]
pub(crate) struct TakenOf<S> {
    pub(crate) mode: Mode,
    pub(crate) source: Snapshot<S>,
    pub(crate) level: u32,
}

impl<S: Source> Promise<Vec<Placed>> for TakenOf<S> {
    ghost kept_by = { λ p r. ArePlaced p.mode (S.bytes p.source.value) p.level r.items };
}
