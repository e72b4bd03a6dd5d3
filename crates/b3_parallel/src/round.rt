//! Some of the blocks of a source.

ghost use Rattle.std.specs.Prelude.{◌≡◌, ◌*◌, ◌^◌, ◌<◌, ◌≤◌};

use crate::sizes::{block_limit, bytes_of};
use b3_core::Mode;

/// The blocks of 2^`level` chunks from `first` to below `end`, which threads hash in a mode.
#[derive(Drop)]
pub(crate) struct Round {
    pub(crate) mode: Mode,
    pub(crate) level: u32,
    pub(crate) first: u64,
    pub(crate) end: u64,
    ghost level_fits: { level < 53 },
    ghost end_fits: { end * 2 ^ level ≤ 2 ^ 53 },
    ghost in_order: { first ≤ end },
}

impl Round {
    /// All whole blocks of the first `len` bytes, up to 2^53 chunks.
    pub(crate) fn whole(mode: &Mode, level: u32, len: u64) -> Round
        requires { level < 53 }
        ensures mode { result.mode ≡ mode.now }
        ensures first { result.first ≡ 0 }
    {
        Round {
            mode: *mode,
            level,
            first: 0,
            end: (len / bytes_of(level) as u64).min(block_limit(level)),
        }
    }

    /// The blocks from `first` to below `end`.
    pub(crate) fn part(&self, first: u64, end: u64) -> Round
        requires order { first ≤ end }
        requires within { end ≤ self.now.end }
        ensures mode { result.mode ≡ self.now.mode }
        ensures level { result.level ≡ self.now.level }
        ensures first { result.first ≡ first }
        ensures end { result.end ≡ end }
    {
        Round {
            mode: self.mode,
            level: self.level,
            first,
            end,
        }
    }
}
