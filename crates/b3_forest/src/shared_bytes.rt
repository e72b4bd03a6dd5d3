//! Shared bytes.

ghost use Rattle.std.specs.Prelude.{◌≡◌, IfOk, length};
ghost use Rattle.std.specs.Arc.{arc_value};
ghost use Rattle.b3_forest.specs.Uploads.{part_of};

use crate::segment::Segment;
use std::alloc::AllocError;
use std::marker::Model;
use std::sync::Arc;
use store_upload::Length;

/// The bytes of a part, as an upload keeps them.
#[derive(Drop)]
pub struct SharedBytes {
    bytes: Arc<Vec<u8>>,
}

impl Model for SharedBytes {
    ghost use Rattle.std.specs.Prelude.{ℕ, List};
    ghost use Rattle.std.specs.Arc.{arc_value};

    ghost Value = { List ℕ };

    ghost view = { λ b. (arc_value b.bytes).items };
}

impl SharedBytes {
    /// Bytes that may be shared.
    pub(crate) fn new(bytes: Arc<Vec<u8>>) -> SharedBytes
        ensures { result ≡ (arc_value bytes).items }
    {
        SharedBytes { bytes }
    }

    /// The bytes.
    pub fn as_slice(&self) -> &[u8]
        ensures { result.now ≡ self.now }
    {
        self.bytes.as_slice()
    }

    /// These bytes as a segment at `offset`.
    pub(crate) fn at(&self, offset: u64) -> Result<Segment, AllocError>
        ensures { IfOk result (λ segment. part_of segment ≡ (offset, self.now)) }
    {
        match Arc::try_clone(&self.bytes) {
            Ok(bytes) => Ok(Segment { offset, bytes }),
            Err(_) => Err(AllocError),
        }
    }
}

impl Length for SharedBytes {
    ghost len = { λ b. length b };

    fn length(&self) -> u64 {
        self.bytes.len() as u64
    }
}
