//! The blocks of a source in order, appended to a hasher.

ghost use Rattle.std.specs.Prelude.{◌≡◌, ℕ, ◌+◌, ◌*◌, ◌^◌, ◌<◌, ◌≤◌, IfSome, IfOk, Option, List, true, length};
ghost use Rattle.b3_core.specs.Tree.{ModelMode};
ghost use Rattle.b3_parallel.specs.inner.Rounds.{ArePlaced, AreSlots, AreTaken, HasFront, IsPlaced};

use crate::counted_hasher::CountedHasher;
use crate::round::Round;
use crate::source::Source;
use crate::takers::take_all;
use crate::taking::Placed;
use crate::threads::HashThreads;
use b3_core::Runtime;
use std::alloc::{AllocError, Global};
use std::thread::Threads;

// `count` empty slots.
fn empty_slots(alloc: Global, count: usize) -> Result<Vec<Option<Placed>>, AllocError>
    ensures { (p : ModelMode) (known : Option (List ℕ)) (k : ℕ) → IfOk result (λ slots. AreSlots p known k slots.items) }
{
    let mut slots: Vec<Option<Placed>> = Vec::new(alloc);
    slots.reserve(count)?;
    for _ in 0..count {
        slots.push(None)?;
    }
    Ok(slots)
}

// Moves the results of a thread into the slots of their blocks. The first slot is for the block `first`.
fn put_in_slots(slots: &mut Vec<Option<Placed>>, taken: Vec<Placed>, first: u64)
    ensures { (p : ModelMode) (known : Option (List ℕ)) (k : ℕ) → ArePlaced p known k taken.items → AreSlots p known k slots.old.items → AreSlots p known k slots.new.items }
{
    let mut rest = taken.into_iter();
    while let Some(placed) = rest.next() {
        let index = placed.place.wrapping_sub(first) as usize;
        if index < slots.len() {
            slots[index] = Some(placed);
        }
    }
}

// The results of all threads, in slots.
fn slots_of(
    alloc: Global,
    lists: Vec<Vec<Placed>>,
    round: &Round,
) -> Result<Vec<Option<Placed>>, AllocError>
    ensures { (p : ModelMode) (known : Option (List ℕ)) (k : ℕ) → AreTaken p known k lists.items → IfOk result (λ slots. AreSlots p known k slots.items) }
{
    let mut slots = empty_slots(alloc, (round.end - round.first) as usize)?;
    let mut rest = lists.into_iter();
    while let Some(list) = rest.next() {
        put_in_slots(&mut slots, list, round.first);
    }
    Ok(slots)
}

// Appends a block to a hasher if it was made and is the one for this place, and returns whether it was appended.
fn append_slot(front: &mut CountedHasher, slot: Option<Placed>, round: &Round, place: u64) -> bool
    requires { place < round.now.end }
    ensures { (known : Option (List ℕ)) → IfSome slot (IsPlaced round.now.mode known round.now.level) → HasFront round.now.mode known round.now.level front.old place
        → result ≡ true → HasFront round.now.mode known round.now.level front.new (place + 1) }
{
    match slot {
        Some(placed) if placed.place == place => {
            let Placed { top, work, .. } = placed;
            front.append(&top, round.level, work);
            true
        }
        _ => false,
    }
}

// Appends the blocks of a round to a hasher, and returns whether all were appended.
fn append_slots(front: &mut CountedHasher, slots: Vec<Option<Placed>>, round: &Round) -> bool
    ensures { (known : Option (List ℕ)) → AreSlots round.now.mode known round.now.level slots.items
        → HasFront round.now.mode known round.now.level front.old round.now.first
        → result ≡ true → HasFront round.now.mode known round.now.level front.new round.now.end }
{
    let mut rest = slots.into_iter();
    let mut place = round.first;
    while let Some(slot) = rest.next() {
        if place >= round.end || !append_slot(front, slot, round, place) {
            return false;
        }
        place += 1;
    }
    place == round.end
}

/// Hashes the blocks of a round by several threads, appends them to a hasher that was given the blocks before them, and returns whether
/// all were appended.
pub(crate) fn hash_round<T: Threads + Runtime, S: Source + Send + Drop + 'static>(
    threads: &HashThreads<'_, T>,
    round: &Round,
    source: &S,
    front: &mut CountedHasher,
) -> bool
    ensures { HasFront round.now.mode (S.bytes source.now) round.now.level front.old round.now.first
        → result ≡ true → HasFront round.now.mode (S.bytes source.now) round.now.level front.new round.now.end }
{
    let Ok(lists) = take_all(threads, round, source) else {
        return false;
    };
    match slots_of(threads.alloc, lists, round) {
        Ok(slots) => append_slots(front, slots, round),
        Err(_) => false,
    }
}
