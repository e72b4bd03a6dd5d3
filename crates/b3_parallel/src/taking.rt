//! Blocks of a source, each taken by the next free thread.

ghost use Rattle.std.specs.Prelude.{◌≡◌, ℕ, ◌+◌, ◌*◌, ◌^◌, ◌<◌, ◌≤◌, IfSome, List, Option, length};
ghost use Rattle.b3_core.specs.Tree.{ModelMode, chunk_len};
ghost use Rattle.b3_parallel.specs.inner.Rounds.{ArePlaced, IsPlaced};

use crate::reading::fill_block;
use crate::round::Round;
use crate::sizes::{bytes_of, chunks_of};
use crate::source::{Places, Source};
use b3_core::{CHUNK_LEN, Top, Work};
use std::alloc::Global;
use std::sync::atomic::{AtomicU64, Ordering};

/// The result for the block after `place` other blocks: its node, and the compressions.
#[derive(Drop)]
pub(crate) struct Placed {
    pub(crate) place: u64,
    pub(crate) top: Top,
    pub(crate) work: Work,
}

// Reads and hashes the block at `place`, if the source has all of it.
fn place_block<S: Source>(
    round: &Round,
    source: &S,
    block: &mut Vec<u8>,
    place: u64,
    work: Work,
) -> Option<Placed>
    requires len { length block.old.items ≡ chunk_len * 2 ^ round.now.level }
    requires place { place < round.now.end }
    requires none { work ≡ 0 }
    ensures len { length block.new.items ≡ length block.old.items }
    ensures placed { IfSome result (IsPlaced round.now.mode (S.bytes source.now) round.now.level) }
{
    let number = place * chunks_of(round.level);
    let mut reader = Places::new(source, number * CHUNK_LEN as u64);
    match fill_block(&mut reader, block) {
        Ok(filled) if filled.count == block.len() => {}
        _ => return None,
    }
    let mut work = work;
    let top = Top::of_subtree(&round.mode, block.as_slice(), number, &mut work);
    Some(Placed { place, top, work })
}

// A count of 0, one of those made for the thread.
fn next_work(works: &mut Vec<Work>) -> Option<Work>
    ensures { IfSome result (λ work. work ≡ 0) }
{
    match works.pop() {
        Some(work) if work.count() == 0 => Some(work),
        _ => None,
    }
}

/// Takes and hashes blocks of a round on this thread until none is left, with a separate count for each. It stops early if the source does
/// not return a whole block or an allocation fails; then no thread finds another block to take.
pub(crate) fn take_blocks<S: Source>(
    alloc: Global,
    round: &Round,
    source: &S,
    next: &AtomicU64,
    works: Vec<Work>,
) -> Vec<Placed>
    ensures { ArePlaced round.now.mode (S.bytes source.now) round.now.level result.items }
{
    let mut works = works;
    let mut taken: Vec<Placed> = Vec::new(alloc);
    let Ok(mut block) = vec![in alloc; 0u8; bytes_of(round.level)] else {
        return taken;
    };
    for _ in round.first..round.end {
        let place = next.fetch_add(1, Ordering::SeqCst);
        if place >= round.end {
            break;
        }
        let made = match next_work(&mut works) {
            Some(work) => place_block(round, source, &mut block, place, work),
            None => None,
        };
        if !keep(&mut taken, made) {
            next.store(round.end, Ordering::SeqCst);
            break;
        }
    }
    taken
}

// Adds the result for a block, and returns whether there was one and memory for it.
fn keep(taken: &mut Vec<Placed>, made: Option<Placed>) -> bool
    ensures { (p : ModelMode) (known : Option (List ℕ)) (k : ℕ) → ArePlaced p known k taken.old.items → IfSome made (IsPlaced p known k) → ArePlaced p known k taken.new.items }
{
    match made {
        Some(placed) => match taken.push(placed) {
            Ok(()) => true,
            Err(_) => false,
        },
        None => false,
    }
}
