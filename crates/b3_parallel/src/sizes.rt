//! How an input is split into blocks, and the number of threads.

ghost use Rattle.std.specs.Prelude.{◌≡◌, ℕ, ◌+◌, ◌*◌, ◌^◌, ◌<◌, ◌≤◌, IfNone, IfSome, min};
ghost use Rattle.b3_core.specs.Tree.{chunk_len};

use b3_core::CHUNK_LEN;
use std::thread::{Threads, available_parallelism};

/// The level of the blocks that `hash_all` reads: 2^11 chunks, 2 MiB.
pub(crate) const BLOCK_LEVEL: u32 = 11;

/// The maximum number of blocks hashed at once. With the one being read they take 22 MiB.
pub(crate) const MAX_BLOCKS: usize = 10;

const MAX_THREADS: usize = 16;

/// The length of a read when this thread hashes. It is a function because the elements of an array of constant length would appear in the
/// proofs of its callers.
pub(crate) fn buffer_len() -> usize
    ensures { 0 < result }
{
    1 << 16
}

/// The number of bytes of 2^`level` chunks.
pub(crate) fn bytes_of(level: u32) -> usize
    requires { level < 53 }
    ensures value { result ≡ chunk_len * 2 ^ level }
    ensures above { 0 < result }
{
    CHUNK_LEN << level
}

/// The number of chunks of a subtree of this level.
pub(crate) fn chunks_of(level: u32) -> u64
    requires { level < 53 }
    ensures value { result ≡ 2 ^ level }
    ensures below { result ≤ 2 ^ 52 }
{
    1 << level
}

/// The number of blocks of 2^`level` chunks in 2^53 chunks.
pub(crate) fn block_limit(level: u32) -> u64
    requires { level < 53 }
    ensures { (n : ℕ) → n < result → (n + 1) * 2 ^ level ≤ 2 ^ 53 }
{
    1 << (53 - level)
}

/// The number of threads that hash: as many as asked for, or as the machine has processors, and at most 16.
pub fn thread_count<T: Threads>(rt: &T, asked: Option<u32>) -> usize
    ensures asked { IfSome asked (λ n. result ≡ min n 16) }
    ensures positive { IfNone asked (0 < result) }
    ensures bounded { result ≤ 16 }
{
    let count = match asked {
        Some(count) => count as usize,
        None => match available_parallelism(rt) {
            Ok(count) => count.get(),
            Err(_) => 1,
        },
    };
    count.min(MAX_THREADS)
}
