//! The threads that take the blocks of a round.

ghost use Rattle.std.specs.Prelude.{◌≡◌, ℕ, ◌*◌, ◌^◌, ◌<◌, ◌≤◌, [], IfOk, IfSome, List, Option};
ghost use Rattle.b3_core.specs.Tree.{ModelMode};
ghost use Rattle.b3_parallel.specs.inner.Rounds.{ArePlaced, AreTaken};
ghost use Rattle.b3_parallel.specs.inner.Takers.{AreTaking, IsTaking};

use crate::promised::TakenOf;
use crate::round::Round;
use crate::source::Source;
use crate::taking::{Placed, take_blocks};
use crate::threads::HashThreads;
use b3_core::{Runtime, Work};
use std::alloc::{AllocError, Global};
use std::snapshot::Snapshot;
use std::sync::Arc;
use std::sync::atomic::AtomicU64;
use std::thread;
use std::thread::{PromisedHandle, Threads};

type Handle<S> = PromisedHandle<Vec<Placed>, TakenOf<S>>;

// A count for each block of a round, or fewer if an allocation fails.
fn works_of<T: Runtime>(threads: &HashThreads<'_, T>, round: &Round) -> Vec<Work> {
    let mut works = Vec::new(threads.alloc);
    for _ in round.first..round.end {
        if works.push(Work::new(threads.rt)).is_err() {
            break;
        }
    }
    works
}

// Starts a thread that takes blocks, if possible.
fn start<T: Threads + Runtime, S: Source + Send + Drop + 'static>(
    threads: &HashThreads<'_, T>,
    round: &Round,
    source: &S,
    next: &Arc<AtomicU64>,
) -> Option<Handle<S>>
    ensures { IfSome result (IsTaking S.bytes round.now.mode (S.bytes source.now) round.now.level) }
{
    let Ok(mine) = source.again() else {
        return None;
    };
    let Ok(next) = Arc::try_clone(next) else {
        return None;
    };
    let alloc = threads.alloc;
    let works = works_of(threads, round);
    let round = round.part(round.first, round.end);
    let promise = TakenOf {
        mode: round.mode,
        source: Snapshot::of(&mine),
        level: round.level,
    };
    match thread::spawn_with(
        threads.rt,
        promise,
        move || take_blocks(alloc, &round, &mine, &next, works),
    ) {
        Ok(handle) => Some(handle),
        Err(_) => None,
    }
}

// Starts the other threads, or fewer if one cannot be started.
fn start_all<T: Threads + Runtime, S: Source + Send + Drop + 'static>(
    threads: &HashThreads<'_, T>,
    round: &Round,
    source: &S,
    next: &Arc<AtomicU64>,
) -> Vec<Handle<S>>
    ensures { AreTaking S.bytes round.now.mode (S.bytes source.now) round.now.level result.items }
{
    let mut handles: Vec<Handle<S>> = Vec::new(threads.alloc);
    for _ in 1..threads.number() {
        let Some(handle) = start(threads, round, source, next) else {
            break;
        };
        match handles.push(handle) {
            Ok(()) => {}
            Err(refused) => {
                let _taken = refused.value.join(threads.rt);
                break;
            }
        }
    }
    handles
}

// Adds the results of a thread to those of the others, and returns whether there was memory for them.
fn add(lists: &mut Vec<Vec<Placed>>, taken: Vec<Placed>) -> bool
    ensures { (p : ModelMode) (known : Option (List ℕ)) (k : ℕ) → ArePlaced p known k taken.items → AreTaken p known k lists.old.items → AreTaken p known k lists.new.items }
{
    match lists.push(taken) {
        Ok(()) => true,
        Err(_) => false,
    }
}

// Waits for all threads, and returns their results after those in `lists`.
fn join_all<T: Threads, S: Source>(
    rt: &T,
    handles: Vec<Handle<S>>,
    lists: Vec<Vec<Placed>>,
) -> Vec<Vec<Placed>>
    ensures { (p : ModelMode) (known : Option (List ℕ)) (k : ℕ) → AreTaking S.bytes p known k handles.items → AreTaken p known k lists.items → AreTaken p known k result.items }
{
    let mut lists = lists;
    let mut rest = handles.into_iter();
    while let Some(handle) = rest.next() {
        let _added = add(&mut lists, handle.join(rt));
    }
    lists
}

/// The results of all threads, this one included, for the blocks of a round: for each thread those of the blocks that it took.
pub(crate) fn take_all<T: Threads + Runtime, S: Source + Send + Drop + 'static>(
    threads: &HashThreads<'_, T>,
    round: &Round,
    source: &S,
) -> Result<Vec<Vec<Placed>>, AllocError>
    ensures { IfOk result (λ lists. AreTaken round.now.mode (S.bytes source.now) round.now.level lists.items) }
{
    let next = Arc::new(threads.alloc, AtomicU64::new(round.first))?;
    let handles = start_all(threads, round, source, &next);
    let works = works_of(threads, round);
    let mine = take_blocks(threads.alloc, round, source, &next, works);
    let mut lists: Vec<Vec<Placed>> = Vec::new(threads.alloc);
    let _added = add(&mut lists, mine);
    Ok(join_all(threads.rt, handles, lists))
}
