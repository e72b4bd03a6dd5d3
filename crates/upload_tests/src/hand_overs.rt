//! Hand-overs, by one thread and by several.

ghost use Rattle.std.specs.Prelude.{◌≡◌, All, vec_len};
ghost use Rattle.store_board.specs.Passes.{IsGiverOf, IsTakerOf};

use crate::parts::part_at;
use b3_core::{Runtime, Work};
use b3_forest::{Plan, Prepared};
use std::alloc::Global;
use std::process::Abort;
use std::sync::{Mutex, Wait};
use std::thread;
use std::thread::Threads;
use store_board::{GivePass, HandOver, HandOverRefusal, TakePass, Unasked};

// The part of one chunk with the number `number`.
fn part(alloc: Global, number: u64, work: &mut Work) -> Option<Prepared> {
    let Ok(plan) = Plan::new(1_048_576) else {
        return None;
    };
    part_at(alloc, &plan, number.wrapping_mul(1024), 1024, work)
}

// Which giver's part was taken, and its offset.
fn taken<R: Wait>(rt: &R, hand_over: &HandOver<Unasked>, pass: &mut TakePass) -> Option<(u64, u64)>
    requires { IsTakerOf hand_over.now pass.old }
    ensures { IsTakerOf hand_over.now pass.new }
{
    let taken = hand_over.take(rt, pass)?;
    Some((taken.giver, taken.part.offset()))
}

// Gives the part of one chunk with the number `number`, and returns the offset of the part that was returned, if there was no room.
fn given<R: Wait + AllocGlobal + Runtime + Abort>(
    rt: &R,
    hand_over: &HandOver<Unasked>,
    pass: &mut GivePass,
    number: u64,
) -> Option<u64>
    requires { IsGiverOf hand_over.now pass.old }
    ensures { IsGiverOf hand_over.now pass.new }
{
    let part = part(rt.alloc(), number, &mut Work::new(rt)).expect(rt, "a part");
    match hand_over.give(rt, pass, part) {
        Ok(()) => None,
        Err(part) => Some(part.offset()),
    }
}

// Gives four parts, the second and the last by another giver, with room for two. The last stays in the queue.
fn give_four<R: Wait + AllocGlobal + Runtime + Abort>(
    rt: &R,
    hand_over: &HandOver<Unasked>,
    first: &mut GivePass,
    second: &mut GivePass,
    taker: &mut TakePass,
) -> ([Option<u64>; 5], [Option<(u64, u64)>; 4])
    requires first { IsGiverOf hand_over.now first.old }
    requires second { IsGiverOf hand_over.now second.old }
    requires taker { IsTakerOf hand_over.now taker.old }
    ensures first { IsGiverOf hand_over.now first.new }
    ensures second { IsGiverOf hand_over.now second.new }
    ensures taker { IsTakerOf hand_over.now taker.new }
{
    let one = given(rt, hand_over, first, 1);
    let two = given(rt, hand_over, second, 2);
    let full = given(rt, hand_over, first, 3);
    let taken_one = taken(rt, hand_over, taker);
    let three = given(rt, hand_over, first, 3);
    let taken_two = taken(rt, hand_over, taker);
    let taken_three = taken(rt, hand_over, taker);
    let nothing = taken(rt, hand_over, taker);
    let four = given(rt, hand_over, second, 4);
    (
        [one, two, full, three, four],
        [taken_one, taken_two, taken_three, nothing],
    )
}

#[test]
fn parts_come_in_the_order_in_which_they_were_given(rt: HostRuntime) {
    let hand_over = HandOver::<Unasked>::new(rt.alloc(), 2, 2);
    let (hand_over, mut givers, mut taker) = hand_over.expect(&rt, "a hand-over");
    let mut second = givers.pop().expect(&rt, "two givers");
    let mut first = givers.pop().expect(&rt, "two givers");
    let (back, taken) = give_four(&rt, &hand_over, &mut first, &mut second, &mut taker);
    let givers = vec![in rt.alloc(); first, second].expect(&rt, "memory");
    let moved = hand_over.close(&rt, givers, taker);
    assert!(rt; back == [None, None, Some(3072), None, None]);
    assert!(rt; taken == [Some((0, 1024)), Some((1, 2048)), Some((0, 3072)), None]);
    assert!(rt; moved.given == 4 && moved.taken == 3);
}

// Why there is no hand-over with these counts.
fn refused(rt: &impl AllocGlobal, capacity: usize, givers: u64) -> Option<HandOverRefusal> {
    HandOver::<Unasked>::new(rt.alloc(), capacity, givers).err()
}

#[test]
fn a_hand_over_needs_room_and_a_giver(rt: HostRuntime) {
    assert!(rt; refused(&rt, 0, 1) == Some(HandOverRefusal::BadCapacity));
    assert!(rt; refused(&rt, 1, 0) == Some(HandOverRefusal::BadCapacity));
}

// Gives one part, waiting while the queue is full.
fn give_one<R: Wait>(rt: &R, hand_over: &HandOver<Unasked>, pass: &mut GivePass, part: Prepared)
    requires { IsGiverOf hand_over.now pass.old }
    ensures { IsGiverOf hand_over.now pass.new }
{
    let mut part = part;
    for _ in rt.forever() {
        match hand_over.give(rt, pass, part) {
            Ok(()) => break,
            Err(back) => part = back,
        }
        thread::yield_now();
    }
}

// Makes a part with the work that the threads share.
fn part_under<R: Wait>(rt: &R, alloc: Global, number: u64, work: &Mutex<Work>) -> Option<Prepared> {
    let mut work = work.lock(rt);
    part(alloc, number, &mut work)
}

// Gives a hundred parts in the order of their offsets, and records that this giver has ended.
fn give_hundred<R: Wait>(
    rt: &R,
    alloc: Global,
    hand_over: &HandOver<Unasked>,
    ended: &Mutex<u64>,
    work: &Mutex<Work>,
    pass: &mut GivePass,
)
    requires { IsGiverOf hand_over.now pass.old }
    ensures { IsGiverOf hand_over.now pass.new }
{
    for number in 0..100 {
        let Some(part) = part_under(rt, alloc, number, work) else {
            break;
        };
        give_one(rt, hand_over, pass, part);
    }
    let mut count = ended.lock(rt);
    *count = count.wrapping_add(1);
}

fn give_from_threads<R: Threads + Wait + Sync>(
    rt: &R,
    alloc: Global,
    hand_over: &HandOver<Unasked>,
    ended: &Mutex<u64>,
    work: &Mutex<Work>,
    givers: Vec<GivePass>,
) -> Vec<GivePass>
    requires { All (λ p. IsGiverOf hand_over.now p) givers.items }
    ensures { All (λ p. IsGiverOf hand_over.now p) result.items × (vec_len result ≡ vec_len givers) }
{
    let mut givers = givers;
    thread::for_each_mut(
        rt,
        givers.as_mut_slice(),
        4,
        &|_, pass: &mut GivePass| { give_hundred(rt, alloc, hand_over, ended, work, pass) },
    );
    givers
}

// Takes until all givers have ended and nothing is left. Returns how many parts came in their giver's order.
fn take_all<R: Wait>(
    rt: &R,
    hand_over: &HandOver<Unasked>,
    ended: &Mutex<u64>,
    givers: u64,
    taker: TakePass,
) -> (TakePass, u64)
    requires { IsTakerOf hand_over.now taker }
    ensures { IsTakerOf hand_over.now result.0 }
{
    let mut taker = taker;
    let mut next = [0u64; 4];
    let mut in_order = 0u64;
    for _ in rt.forever() {
        let all_ended = *ended.lock(rt) >= givers;
        match taken(rt, hand_over, &mut taker) {
            Some((giver, offset)) => {
                in_order = in_order.wrapping_add(one_if_next(&mut next, giver, offset));
            }
            None if all_ended => break,
            None => thread::yield_now(),
        }
    }
    (taker, in_order)
}

// Returns 1 if a part is the next of its giver, otherwise 0. Advances that giver's count.
fn one_if_next(next: &mut [u64; 4], giver: u64, offset: u64) -> u64 {
    let Some(number) = next.get_mut(giver as usize) else {
        return 0;
    };
    let is_next = number.wrapping_mul(1024) == offset;
    *number = number.wrapping_add(1);
    if is_next { 1 } else { 0 }
}

fn hand_over_in_threads<R: Threads + Wait + Sync>(
    rt: &R,
    alloc: Global,
    hand_over: &HandOver<Unasked>,
    work: Work,
    givers: Vec<GivePass>,
    taker: TakePass,
) -> (Vec<GivePass>, TakePass, u64)
    requires givers { All (λ p. IsGiverOf hand_over.now p) givers.items }
    requires taker { IsTakerOf hand_over.now taker }
    ensures givers { All (λ p. IsGiverOf hand_over.now p) result.0.items × (vec_len result.0 ≡ vec_len givers) }
    ensures taker { IsTakerOf hand_over.now result.1 }
{
    let ended = Mutex::new(0u64);
    let ended = &ended;
    let work = Mutex::new(work);
    let work = &work;
    let count = givers.len();
    let (givers, (taker, in_order)) = thread::join(
        rt,
        move || -> Vec<GivePass>
            requires { All (λ p. IsGiverOf hand_over.now p) givers.items }
            ensures { All (λ p. IsGiverOf hand_over.entry.now p) result.items × (vec_len result ≡ vec_len givers) }
        { give_from_threads(rt, alloc, hand_over, ended, work, givers) },
        move || -> (TakePass, u64)
            requires { IsTakerOf hand_over.now taker }
            ensures { IsTakerOf hand_over.entry.now result.0 }
        { take_all(rt, hand_over, ended, count as u64, taker) },
    );
    (givers, taker, in_order)
}

#[test]
fn four_givers_hand_over_four_hundred_parts(rt: HostRuntime) {
    let hand_over = HandOver::<Unasked>::new(rt.alloc(), 8, 4);
    let (hand_over, givers, taker) = hand_over.expect(&rt, "a hand-over");
    let (givers, taker, in_order) = hand_over_in_threads(
        &rt,
        rt.alloc(),
        &hand_over,
        Work::new(&rt),
        givers,
        taker,
    );
    let moved = hand_over.close(&rt, givers, taker);
    assert!(rt; in_order == 400 && moved.given == 400 && moved.taken == 400);
}
