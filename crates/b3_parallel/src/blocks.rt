//! A block of bytes that is hashed by its own thread.

ghost use Rattle.std.specs.Prelude.{◌≡◌, ◌+◌, ◌-◌, ◌/◌, ◌^◌, ◌<◌, IfOk, IfErr, length};
ghost use Rattle.b3_core.specs.Tree.{IsSubtree, chunk_len};
ghost use Rattle.b3_parallel.specs.inner.Blocks.{IsHashed};

use b3_core::{Mode, Top, Work};
use std::snapshot::Snapshot;
use std::thread;
use std::thread::{Promise, PromisedHandle, Threads};

/// What a thread returns: the block's bytes, whose memory can be reused, their node, and the compressions.
#[derive(Drop)]
pub(crate) struct Block {
    pub(crate) bytes: Vec<u8>,
    pub(crate) top: Top,
    pub(crate) work: Work,
}

/// The promise that the node is that of these bytes, and that its compressions were counted.
#[derive(Drop)]
pub(crate) struct BlockOf {
    mode: Mode,
    bytes: Snapshot<Vec<u8>>,
    number: u64,
}

impl Promise<Block> for BlockOf {
    ghost kept_by = { λ p r. IsHashed p.mode p.bytes.value.items p.number r.top r.work };
}

/// A block that a thread is hashing.
pub(crate) type Handle = PromisedHandle<Block, BlockOf>;

/// Hashes a block on this thread. Its first chunk has the number `number`.
pub(crate) fn hash_block(mode: Mode, bytes: Vec<u8>, number: u64, work: Work) -> Block
    requires subtree { IsSubtree (length bytes.items) number }
    requires number { number + length bytes.items / chunk_len < 2 ^ 64 }
    requires none { work ≡ 0 }
    ensures { IsHashed mode bytes.items number result.top result.work }
{
    let mut work = work;
    let top = Top::of_subtree(&mode, bytes.as_slice(), number, &mut work);
    Block { bytes, top, work }
}

/// Hashes a block on a new thread, or on this one if none can be started.
pub(crate) fn start<T: Threads>(
    rt: &T,
    mode: Mode,
    bytes: Vec<u8>,
    number: u64,
    work: Work,
) -> Result<Handle, Block>
    requires subtree { IsSubtree (length bytes.items) number }
    requires number { number + length bytes.items / chunk_len < 2 ^ 64 }
    requires none { work ≡ 0 }
    ensures started { IfOk result (λ h. (h.promise.bytes.value.items ≡ bytes.items) × (h.promise.number ≡ number) × (h.promise.mode ≡ mode)) }
    ensures here { IfErr result (λ block. IsHashed mode bytes.items number block.top block.work) }
{
    let promise = BlockOf {
        mode,
        bytes: Snapshot::of(&bytes),
        number,
    };
    match thread::spawn_with(rt, promise, move || hash_block(mode, bytes, number, work)) {
        Ok(handle) => Ok(handle),
        Err(refused) => Err((refused.value)()),
    }
}
