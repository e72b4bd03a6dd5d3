//! What a hasher keeps, and how it changes as bytes arrive.

ghost use Rattle.std.specs.Prelude.{◌≡◌, ℕ, ◌+◌, ◌-◌, ◌*◌, ◌/◌, ◌^◌, ◌<◌, ◌≤◌, ◌↔◌, ◌++◌, List, [], ◌∷◌, length, reverse, true};
ghost use Rattle.b3_core.specs.Hashers.{AreFrom, AreSubtrees, HasRoomFor, IsAfter, HasInput, CountsRest, count_of, kept_work};
ghost use Rattle.b3_core.specs.inner.Hashers.{IsLeft, IsNext, joined};
ghost use Rattle.b3_core.specs.Kept.{FitsItsPlaces, kept_of, max_levels, nodes_of};
ghost use Rattle.b3_core.specs.Tree.{ModelMode, chunk_len, tree_top};
ghost use Rattle.b3_core.specs.Work.{NeverFalls, counted, hash_work};

use crate::compression::CHUNK_LEN;
use crate::mode::Mode;
use crate::node::Top;
use crate::places::{Stack, StackNode, Tail};
use crate::wide::wide_top;
use crate::work::Work;

/// What a hasher keeps, with C's layout: one node for each whole subtree, and the bytes after these. The mode is passed to each call.
#[derive(Clone, Copy)]
#[repr(C)]
pub(crate) struct Kept {
    // Whole subtrees, each larger than those after it.
    subtrees: Stack,
    // The number of bytes that they cover.
    whole: u64,
    // The bytes after them.
    tail: Tail,
}

impl Kept {
    /// What is kept before any bytes are given.
    pub(crate) fn new() -> Kept
        ensures nothing { (p : ModelMode) → kept_of p result ≡ record { mode = p; subtrees = []; whole = 0; tail = [] } }
        ensures within { FitsItsPlaces result }
    {
        Kept {
            subtrees: Stack::new(),
            whole: 0,
            tail: Tail::new(),
        }
    }

    /// Drops all bytes.
    pub(crate) fn clear(&mut self)
        ensures nothing { (p : ModelMode) → kept_of p self.new ≡ record { mode = p; subtrees = []; whole = 0; tail = [] } }
        ensures within { FitsItsPlaces self.new }
    {
        self.subtrees.clear();
        self.whole = 0;
        self.tail.clear();
    }

    /// Whether its lengths fit its arrays.
    pub(crate) fn is_within(&self) -> bool
        ensures { result ≡ true ↔ FitsItsPlaces self.now }
    {
        self.subtrees.fits() && self.tail.fits()
    }

    /// Appends `bytes` to the input. They are hashed in whole subtrees, each as large as possible.
    pub(crate) fn update(&mut self, mode: &Mode, bytes: &[u8], work: &mut Work)
        ensures bytes { (x : List ℕ) → HasInput (kept_of mode.now self.old) x → length x + length bytes.now < 2 ^ 64
            → HasInput (kept_of mode.now self.new) (x ++ bytes.now) }
        ensures count { (x : List ℕ) → HasInput (kept_of mode.now self.old) x → length x + length bytes.now < 2 ^ 64
            → CountsRest (kept_work (kept_of mode.now self.old).subtrees) (kept_work (kept_of mode.now self.new).subtrees) work.old work.new }
        ensures never_falls { NeverFalls work.old work.new }
        ensures within { FitsItsPlaces self.old → FitsItsPlaces self.new }
    {
        let mut rest = self.fill_tail(mode, bytes, work);
        while rest.len() >= CHUNK_LEN {
            let level = self.next_level(rest.len() / CHUNK_LEN);
            let (front, following) = rest.split_at(CHUNK_LEN << level);
            let top = wide_top(mode, front, self.number(), work);
            self.put(mode, StackNode { level, top }, work);
            rest = following;
        }
        self.tail.extend(rest);
    }

    // Fills up a chunk that was begun, and returns the remaining bytes.
    fn fill_tail<'a>(&mut self, mode: &Mode, bytes: &'a [u8], work: &mut Work) -> &'a [u8]
        ensures bytes { (x : List ℕ) → HasInput (kept_of mode.now self.old) x → length x + length bytes.now < 2 ^ 64
            → IsLeft (kept_of mode.now self.old) x bytes.now work.old (kept_of mode.now self.new) result.now work.new }
        ensures never_falls { NeverFalls work.old work.new }
        ensures within { FitsItsPlaces self.old → FitsItsPlaces self.new }
    {
        if self.tail.is_empty() {
            return bytes;
        }
        let room = self.tail.room();
        let (front, rest) = bytes.split_at(room.min(bytes.len()));
        self.tail.extend(front);
        if self.tail.is_full() {
            let top = Top::of_chunk(mode, self.tail.as_slice(), self.number(), work);
            self.tail.clear();
            self.put(mode, StackNode { level: 0, top }, work);
        }
        rest
    }

    /// The number of the chunk after the whole chunks given so far.
    pub(crate) fn number(&self) -> u64
        ensures value { result ≡ self.now.whole / chunk_len }
        ensures below { result < 2 ^ 54 }
    {
        self.whole / CHUNK_LEN as u64
    }

    /// Whether a whole subtree of 2^`level` chunks can come next: the input ends with a whole chunk, and the last node kept covers at least
    /// 2^`level` chunks or there is none.
    pub(crate) fn fits(&self, level: u32) -> bool
        ensures { (p : ModelMode) → result ≡ true ↔ HasRoomFor level (kept_of p self.now) }
    {
        if !self.tail.is_empty() {
            return false;
        }
        match self.subtrees.as_slice().last() {
            Some(last) => level <= last.level,
            None => true,
        }
    }

    /// Appends a whole subtree of 2^`level` chunks to the input. `top` is its node.
    pub(crate) fn append(&mut self, mode: &Mode, top: &Top, level: u32, work: &mut Work)
        requires { level < max_levels }
        ensures bytes { (x mine : List ℕ) → IsAfter (kept_of mode.now self.old) level top.now x mine
            → HasInput (kept_of mode.now self.new) (x ++ mine) }
        ensures fits { (x mine : List ℕ) → IsAfter (kept_of mode.now self.old) level top.now x mine
            → HasRoomFor level (kept_of mode.now self.new) }
        ensures count { (x mine : List ℕ) → IsAfter (kept_of mode.now self.old) level top.now x mine
            → CountsRest (kept_work ((level, top.now) ∷ (kept_of mode.now self.old).subtrees))
            (kept_work (kept_of mode.now self.new).subtrees) work.old work.new }
        ensures never_falls { NeverFalls work.old work.new }
    {
        self.put(mode, StackNode { level, top: *top }, work);
    }

    // The level of the largest subtree of at most `chunks` chunks that is no higher than the last one.
    fn next_level(&self, chunks: usize) -> u32
        requires { 0 < chunks }
        ensures fits { 2 ^ result ≤ chunks }
        ensures order { AreFrom result (reverse (nodes_of self.now.subtrees)) }
    {
        let most = chunks.ilog2();
        match self.subtrees.as_slice().last() {
            Some(last) => most.min(last.level),
            None => most,
        }
    }

    // Appends a whole subtree.
    fn put(&mut self, mode: &Mode, next: StackNode, work: &mut Work)
        requires { next.0 < 64 }
        ensures tail { self.new.tail ≡ self.old.tail }
        ensures whole { self.old.whole + chunk_len * 2 ^ next.0 < 2 ^ 64 → self.new.whole ≡ self.old.whole + chunk_len * 2 ^ next.0 }
        ensures nodes { (x : List ℕ) → IsNext mode.now (reverse (nodes_of self.old.subtrees)) next x → length x < 2 ^ 64
            → AreSubtrees mode.now (reverse (nodes_of self.new.subtrees)) x }
        ensures from { (x : List ℕ) → IsNext mode.now (reverse (nodes_of self.old.subtrees)) next x → length x < 2 ^ 64
            → AreFrom next.0 (reverse (nodes_of self.new.subtrees)) }
        ensures count { (x : List ℕ) → IsNext mode.now (reverse (nodes_of self.old.subtrees)) next x → length x < 2 ^ 64
            → CountsRest (kept_work (next ∷ reverse (nodes_of self.old.subtrees))) (kept_work (reverse (nodes_of self.new.subtrees))) work.old work.new }
        ensures never_falls { NeverFalls work.old work.new }
        ensures fits { self.old.subtrees.len ≤ max_levels → self.new.subtrees.len ≤ max_levels }
    {
        self.whole = self.whole.wrapping_add((CHUNK_LEN as u64) << next.level);
        push(mode, &mut self.subtrees, next, work);
    }

    /// The number of bytes given so far, if it is below 2^64.
    pub(crate) fn count(&self) -> u64
        ensures { (p : ModelMode) → result ≡ count_of (kept_of p self.now) }
    {
        self.whole.wrapping_add(self.tail.len() as u64)
    }

    /// The node of the tree over all bytes given so far.
    pub(crate) fn top(&self, mode: &Mode, work: &mut Work) -> Top
        ensures node { (x : List ℕ) → HasInput (kept_of mode.now self.now) x → result ≡ tree_top x 0 mode.now }
        ensures count { (x : List ℕ) → HasInput (kept_of mode.now self.now) x
            → CountsRest (kept_work (kept_of mode.now self.now).subtrees) (hash_work (length x) - 1) work.old work.new }
        ensures never_falls { NeverFalls work.old work.new }
    {
        match self.subtrees.as_slice().split_last() {
            Some((last, before)) if self.tail.is_empty() => joined(mode, before, last.top, work),
            _ => {
                let last = Top::of_chunk(mode, self.tail.as_slice(), self.number(), work);
                joined(mode, self.subtrees.as_slice(), last, work)
            }
        }
    }
}

// Appends a whole subtree. Two subtrees of one level merge into one of the next level.
fn push(mode: &Mode, subtrees: &mut Stack, next: StackNode, work: &mut Work)
    ensures nodes { (x : List ℕ) → IsNext mode.now (reverse (nodes_of subtrees.old)) next x → length x < 2 ^ 64
        → AreSubtrees mode.now (reverse (nodes_of subtrees.new)) x }
    ensures from { (x : List ℕ) → IsNext mode.now (reverse (nodes_of subtrees.old)) next x → length x < 2 ^ 64
        → AreFrom next.0 (reverse (nodes_of subtrees.new)) }
    ensures count { (x : List ℕ) → IsNext mode.now (reverse (nodes_of subtrees.old)) next x → length x < 2 ^ 64
        → CountsRest (kept_work (next ∷ reverse (nodes_of subtrees.old))) (kept_work (reverse (nodes_of subtrees.new))) work.old work.new }
    ensures never_falls { NeverFalls work.old work.new }
    ensures fits { subtrees.old.len ≤ max_levels → subtrees.new.len ≤ max_levels }
{
    let mut next = next;
    while let Some(last) = subtrees.as_slice().last() {
        if last.level != next.level {
            break;
        }
        let top = Top::parent(mode, &last.top, &next.top, work);
        let level = next.level.saturating_add(1);
        next = StackNode { level, top };
        subtrees.pop();
    }
    subtrees.push(next);
}

// The node over `subtrees` followed by `following`.
fn joined(mode: &Mode, subtrees: &[StackNode], following: Top, work: &mut Work) -> Top
    ensures node { result ≡ joined mode.now (reverse subtrees.now) following }
    ensures count { work.new ≡ counted work.old (2 * length subtrees.now) }
{
    let (mut rest, mut top) = (subtrees, following);
    while let Some((left, before)) = rest.split_last() {
        top = Top::parent(mode, &left.top, &top, work);
        rest = before;
    }
    top
}
