//! The hash of all bytes of a source that threads read in parallel.

ghost use Rattle.std.specs.Prelude.{◌≡◌, ℕ, ◌-◌, ◌^◌, ◌<◌, IfSome, List, None, length, true};
ghost use Rattle.b3_core.specs.Tree.{tree_top};
ghost use Rattle.b3_core.specs.Work.{counted, hash_work};
ghost use Rattle.b3_parallel.specs.inner.Blocks.{IsGiven};
ghost use Rattle.b3_parallel.specs.Rounds.{AreAll};
ghost use Rattle.b3_parallel.specs.inner.Rounds.{HasFront, StandsAt};

use crate::counted_hasher::CountedHasher;
use crate::reading::hash_until;
use crate::round::Round;
use crate::rounds::hash_round;
use crate::sizes::buffer_len;
use crate::source::{Places, Source};
use crate::threads::HashThreads;
use b3_core::{Mode, Runtime, Top, Work};
use std::alloc::Global;
use std::thread::Threads;

// The level of the blocks that threads take: 2^9 chunks, 512 KiB.
const LEVEL: u32 = 9;

// The maximum number of blocks in a round, 512 MiB.
const ROUND: u64 = 1 << 10;

/// The node of the tree over all bytes of a source, and the count of its compressions, if several threads can read it: from 16 MiB on, with
/// at least two threads.
///
/// `len` is the expected length in bytes. Each thread takes the next free block of 512 KiB, up to that length, reads it and hashes it. This
/// thread joins the nodes in the order of the blocks, and then hashes what comes after them until the end of the source. So a source that
/// has grown is hashed whole. Each thread has memory for one block; about 150 bytes are kept for each block until all blocks of 512 MiB are
/// done.
///
/// Returns `None` if the expected length is shorter or only one thread is to hash; if a block cannot be read, or the source has become
/// shorter; if out of memory; and for 2^64-1 bytes or more. Then nothing is counted, and the caller reads the source as a stream. Threads
/// that cannot be started are no reason: this thread takes their blocks. No thread is left running.
pub fn hash_source<T: Threads + Runtime, S: Source + Send + Drop + 'static>(
    threads: &HashThreads<'_, T>,
    mode: &Mode,
    source: &S,
    len: u64,
    work: &mut Work,
) -> Option<Top>
    ensures node { IfSome result (λ top. (input : List ℕ) × (top ≡ tree_top input 0 mode.now) × AreAll (S.bytes source.now) input
        × (work.new ≡ counted work.old (hash_work (length input) - 1))) }
    ensures none { result ≡ None → work.new ≡ work.old }
{
    if !threads.shares(len) {
        return None;
    }
    let all = Round::whole(mode, LEVEL, len);
    let mut front = CountedHasher::new(threads.rt, mode);
    if !hash_rounds(threads, &all, source, &mut front)
        || !hash_rest(threads.alloc, source, &mut front)
    {
        return None;
    }
    let top = front.top();
    work.absorb(front.work);
    Some(top)
}

// Appends the first blocks of a source to a hasher, and returns whether all were appended.
fn hash_rounds<T: Threads + Runtime, S: Source + Send + Drop + 'static>(
    threads: &HashThreads<'_, T>,
    all: &Round,
    source: &S,
    front: &mut CountedHasher,
) -> bool
    ensures { HasFront all.now.mode (S.bytes source.now) all.now.level front.old all.now.first
        → result ≡ true → HasFront all.now.mode (S.bytes source.now) all.now.level front.new all.now.end }
{
    let mut first = all.first;
    while first < all.end {
        let end = first + ROUND.min(all.end - first);
        if !hash_round(threads, &all.part(first, end), source, front) {
            return false;
        }
        first = end;
    }
    true
}

// Appends the bytes of a source after those given so far to a hasher, and returns whether all were appended.
fn hash_rest<S: Source>(alloc: Global, source: &S, front: &mut CountedHasher) -> bool
    ensures mode { front.new.hasher.mode ≡ front.old.hasher.mode }
    ensures all { (x : List ℕ) → IsGiven front.old x → length x < 2 ^ 64 → StandsAt (S.bytes source.now) 0 x
        → result ≡ true → (y : List ℕ) × IsGiven front.new y × AreAll (S.bytes source.now) y }
{
    let Ok(mut buffer) = vec![in alloc; 0u8; buffer_len()] else {
        return false;
    };
    let mut reader = Places::new(source, front.hasher.count());
    match hash_until(front, &mut reader, &mut buffer, u64::MAX) {
        Ok(ended) => ended,
        Err(_) => false,
    }
}
