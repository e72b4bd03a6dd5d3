//! Pieces: complete subtrees.

ghost use Rattle.std.specs.Prelude.{◌≡◌, ◌^◌, ◌≤◌};
ghost use Rattle.b3_forest.specs.Pieces.{root_level};

use b3_core::Top;
use store_upload::{CHUNK_LEN, MAX_BYTES};

/// The maximum number of chunks of an upload, and the level of their range.
pub(crate) const MAX_CHUNKS: u64 = MAX_BYTES / CHUNK_LEN;

pub(crate) const ROOT_LEVEL: u32 = 34;

/// The top over 2^`level` chunks starting at chunk `first`, which is a multiple of 2^`level`.
#[derive(Clone, Copy, PartialEq, Eq, Debug)]
pub(crate) struct Piece {
    pub(crate) first: u64,
    pub(crate) level: u32,
    pub(crate) top: Top,
}

/// A piece in a map whose keys are first chunks: the top over 2^`level` chunks.
#[derive(Clone, Copy, PartialEq, Eq, Debug)]
pub(crate) struct Subtree {
    pub(crate) level: u32,
    pub(crate) top: Top,
}

impl Subtree {
    /// A piece without its first chunk.
    pub(crate) fn of(piece: &Piece) -> Subtree
        ensures { result ≡ record { level = piece.now.level; top = piece.now.top } }
    {
        Subtree {
            level: piece.level,
            top: piece.top,
        }
    }

    /// The number of chunks of the piece.
    pub(crate) fn width(&self) -> u64
        requires { self.now.level ≤ root_level }
        ensures { result ≡ 2 ^ self.now.level }
    {
        1 << self.level
    }
}
