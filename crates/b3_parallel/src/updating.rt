//! A hasher's next bytes, by several threads.

ghost use Rattle.std.specs.Prelude.{◌≡◌, ℕ, ◌+◌, ◌*◌, ◌/◌, ◌^◌, ◌<◌, ◌++◌, IfSome, List, length};
ghost use Rattle.b3_core.specs.Hashers.{HasRoomFor, HasInput, CountsRest, kept_work};
ghost use Rattle.b3_core.specs.Tree.{IsSubtree, chunk_len};
ghost use Rattle.b3_core.specs.Work.{NeverFalls};

use crate::parts::{append_all, parts_of};
use crate::sizes::bytes_of;
use crate::threads::HashThreads;
use b3_core::{CHUNK_LEN, Hasher, Runtime, Work, is_subtree};
use std::thread::Threads;

// The minimum number of chunks for which a thread is started.
const LEAST: usize = 64;

// The level of the parts into which `chunks` chunks are split for `threads` threads, or `None` if one thread is to hash them all.
fn level_of(chunks: usize, threads: usize) -> Option<u32>
    ensures { IfSome result (λ level. level < 53) }
{
    let share = chunks / threads.max(1);
    if threads < 2 || share < LEAST {
        return None;
    }
    Some(share.ilog2().min(52))
}

/// Appends `bytes` to the input of a hasher, as `Hasher::update` does and with the same count. If a subtree can come next, the bytes are
/// split into whole subtrees of one size: at least one for each thread, and fewer than two for each. Each subtree is hashed on a new
/// thread, or on this one if none can be started; this thread hashes the remaining bytes. If there are fewer than 64 chunks for each
/// thread, no thread is started; if an allocation fails, this thread hashes everything.
pub fn update<T: Threads + Sync + Runtime>(
    threads: &HashThreads<'_, T>,
    hasher: &mut Hasher,
    bytes: &[u8],
    work: &mut Work,
)
    ensures mode { hasher.new.mode ≡ hasher.old.mode }
    ensures bytes { (x : List ℕ) → HasInput hasher.old x → length x + length bytes.now < 2 ^ 64 → HasInput hasher.new (x ++ bytes.now) }
    ensures count { (x : List ℕ) → HasInput hasher.old x → length x + length bytes.now < 2 ^ 64
        → CountsRest (kept_work hasher.old.subtrees) (kept_work hasher.new.subtrees) work.old work.new }
    ensures never_falls { NeverFalls work.old work.new }
{
    let chunks = bytes.len() / CHUNK_LEN;
    if chunks < 2 * LEAST {
        hasher.update(bytes, work);
        return;
    }
    match level_of(chunks, threads.number()) {
        Some(level) if hasher.fits(level) && is_subtree(bytes_of(level), hasher.number()) => {
            update_in_parts(threads, hasher, bytes, level, work);
        }
        _ => hasher.update(bytes, work),
    }
}

// Appends bytes to a hasher; threads hash parts of 2^`level` chunks.
fn update_in_parts<T: Threads + Sync + Runtime>(
    threads: &HashThreads<'_, T>,
    hasher: &mut Hasher,
    bytes: &[u8],
    level: u32,
    work: &mut Work,
)
    requires level { level < 53 }
    requires fits { HasRoomFor level hasher.old }
    requires subtree { IsSubtree (chunk_len * 2 ^ level) (hasher.old.whole / chunk_len) }
    ensures mode { hasher.new.mode ≡ hasher.old.mode }
    ensures bytes { (x : List ℕ) → HasInput hasher.old x → length x + length bytes.now < 2 ^ 64 → HasInput hasher.new (x ++ bytes.now) }
    ensures count { (x : List ℕ) → HasInput hasher.old x → length x + length bytes.now < 2 ^ 64
        → CountsRest (kept_work hasher.old.subtrees) (kept_work hasher.new.subtrees) work.old work.new }
    ensures never_falls { NeverFalls work.old work.new }
{
    let size = bytes_of(level);
    let mode = hasher.mode();
    let number = hasher.number();
    let (front, rest) = bytes.split_at(bytes.len() - bytes.len() % size);
    match parts_of(threads, &mode, front, level, number) {
        Ok(parts) => {
            append_all(hasher, parts, level, work);
            hasher.update(rest, work);
        }
        Err(_) => hasher.update(bytes, work),
    }
}
