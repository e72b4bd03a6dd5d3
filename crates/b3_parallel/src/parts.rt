//! Bytes in parts, each hashed by its own thread.

ghost use Rattle.std.specs.Prelude.{◌≡◌, ℕ, ◌+◌, ◌*◌, ◌/◌, ◌%◌, ◌^◌, ◌<◌, ◌++◌, IfOk, List, length};
ghost use Rattle.b3_core.specs.Hashers.{CountsRest, HasInput, kept_work};
ghost use Rattle.b3_core.specs.Tree.{IsSubtree, chunk_len};
ghost use Rattle.b3_core.specs.Work.{NeverFalls};
ghost use Rattle.b3_parallel.specs.inner.Blocks.{IsHashed};
ghost use Rattle.b3_parallel.specs.inner.Parts.{AreHashedParts, AreAfter};

use crate::sizes::bytes_of;
use crate::threads::HashThreads;
use b3_core::{CHUNK_LEN, Hasher, Mode, Runtime, Top, Work};
use std::alloc::AllocError;
use std::thread;
use std::thread::Threads;

/// The result of a thread for one part: its node, and the compressions.
#[derive(Drop)]
pub(crate) struct Part {
    pub(crate) top: Top,
    pub(crate) work: Work,
}

// The part with these bytes, 2^k chunks, which starts at `start` within bytes whose first chunk has the number `number`.
fn part_of<T: Runtime>(rt: &T, mode: &Mode, bytes: &[u8], number: u64, start: usize) -> Part
    requires len { (k : ℕ) × (length bytes.now ≡ chunk_len * 2 ^ k) }
    requires start { start % length bytes.now ≡ 0 }
    requires subtree { IsSubtree (length bytes.now) number }
    requires number { number < 2 ^ 54 }
    ensures { IsHashed mode.now bytes.now (number + start / chunk_len) result.top result.work }
{
    let mut work = Work::new(rt);
    let number = number + (start / CHUNK_LEN) as u64;
    let top = Top::of_subtree(mode, bytes, number, &mut work);
    Part { top, work }
}

/// Hashes bytes in parts of 2^`level` chunks, each on a new thread if one can be started. The first chunk has the number `number`.
pub(crate) fn parts_of<T: Threads + Sync + Runtime>(
    threads: &HashThreads<'_, T>,
    mode: &Mode,
    bytes: &[u8],
    level: u32,
    number: u64,
) -> Result<Vec<Part>, AllocError>
    requires level { level < 53 }
    requires whole { length bytes.now % (chunk_len * 2 ^ level) ≡ 0 }
    requires subtree { IsSubtree (chunk_len * 2 ^ level) number }
    requires number { number < 2 ^ 54 }
    ensures { IfOk result (λ parts. AreHashedParts mode.now bytes.now level number parts.items) }
{
    let rt = threads.rt;
    thread::map_chunks(
        rt,
        threads.alloc,
        bytes,
        bytes_of(level),
        &|start, chunk| { part_of(rt, mode, chunk, number, start) },
    )
}

/// Appends parts of 2^`level` chunks to a hasher.
pub(crate) fn append_all(hasher: &mut Hasher, parts: Vec<Part>, level: u32, work: &mut Work)
    requires { level < 53 }
    ensures mode { hasher.new.mode ≡ hasher.old.mode }
    ensures bytes { (x bytes : List ℕ) → AreAfter hasher.old level parts.items x bytes → HasInput hasher.new (x ++ bytes) }
    ensures count { (x bytes : List ℕ) → AreAfter hasher.old level parts.items x bytes
        → CountsRest (kept_work hasher.old.subtrees) (kept_work hasher.new.subtrees) work.old work.new }
    ensures never_falls { NeverFalls work.old work.new }
{
    let mut rest = parts.into_iter();
    while let Some(part) = rest.next() {
        work.absorb(part.work);
        hasher.append(&part.top, level, work);
    }
}
