//! The pieces of an upload in a map, by their first chunk.

ghost use Rattle.std.specs.Prelude.{◌≡◌, ◌≢◌, ℕ, ◌+◌, ◌-◌, ◌*◌, ◌/◌, ◌%◌, ◌^◌, ◌<◌, ◌≤◌, ◌∷◌, List, [], IfNone, IfSome, OnErr, OnOk, false, length, true};
ghost use Rattle.std.specs.Map.{values_of};
ghost use Rattle.b3_core.specs.Laws.{NeighboursJoin};
ghost use Rattle.b3_core.specs.Work.{counted};
ghost use Rattle.b3_forest.specs.Subtrees.{AreForest};
ghost use Rattle.b3_forest.specs.inner.Subtrees.{AreBoth, AreChunks, AreFresh, ArePiecesOfSome, IsAlone, IsBound, IsFirstGap, IsLastUpto};
ghost use Rattle.b3_forest.specs.inner.Subtrees.{IsLeastHeld, IsMerged, IsNextFrom, IsOtherHalf, IsPair, IsSettling, NoneFrom, NoneHeld};
ghost use Rattle.b3_forest.specs.inner.Subtrees.{NoneUpto, firsts, is_held, top_over, with_subtrees};
ghost use Rattle.b3_forest.specs.Pieces.{max_chunks, root_level};

use crate::piece::{MAX_CHUNKS, Piece, Subtree};
use b3_core::{Mode, Top, Work, tree_laws};
use std::alloc::AllocError;
use std::collections::BTreeMap;

/// The halves of an aligned range: 2^`level` chunks starting at `left`, and 2^`level` starting at `right`.
#[derive(Clone, Copy)]
pub(crate) struct Halves {
    pub(crate) left: u64,
    pub(crate) right: u64,
    pub(crate) level: u32,
    pub(crate) left_top: Top,
    pub(crate) right_top: Top,
}

/// Inserts pieces. If an allocation fails, the map is unchanged.
pub(crate) fn put_in(
    subtrees: &mut BTreeMap<u64, Subtree>,
    pieces: &[Piece],
) -> Result<(), AllocError>
    ensures put { OnOk result (subtrees.new.entries ≡ with_subtrees pieces.now subtrees.old.entries) }
    ensures back { AreFresh pieces.now subtrees.old.entries → OnErr result (subtrees.new.entries ≡ subtrees.old.entries) }
{
    let Some((piece, rest)) = pieces.split_first() else {
        return Ok(());
    };
    subtrees.insert(piece.first, Subtree::of(piece))?;
    let Ok(()) = put_in(subtrees, rest) else {
        subtrees.remove(&piece.first);
        return Err(AllocError);
    };
    Ok(())
}

// Whether a range of `width` chunks is the left half of the aligned range of twice that width.
fn is_left_half(first: u64, width: u64) -> bool
    requires { 0 < width }
    ensures yes { result ≡ true → first / width % 2 ≡ 0 }
    ensures no { result ≡ false → first / width % 2 ≢ 0 }
    ensures following { result ≡ false → width ≤ first }
{
    first / width % 2 == 0
}

// The first chunk of the other half, for a range of `width` chunks.
fn other_half(first: u64, width: u64) -> u64
    requires positive { 0 < width }
    requires within { first + width ≤ max_chunks }
    ensures { (l q : ℕ) → width ≡ 2 ^ l → first ≡ q * 2 ^ l → IsOtherHalf first l result }
{
    if is_left_half(first, width) {
        first + width
    } else {
        first - width
    }
}

// The halves that include the piece at chunk `first`, if both are present.
fn halves_at(subtrees: &BTreeMap<u64, Subtree>, first: u64) -> Option<Halves>
    requires { ArePiecesOfSome subtrees.now.entries }
    ensures pair { IfSome result (IsPair subtrees.now.entries first) }
    ensures alone { IfNone result (IsAlone subtrees.now.entries first) }
{
    let Some(subtree) = subtrees.get(&first) else {
        return None;
    };
    let place = other_half(first, subtree.width());
    let Some(other) = subtrees.get(&place) else {
        return None;
    };
    if other.level != subtree.level {
        return None;
    }
    let (left, right, left_top, right_top) = if first < place {
        (first, place, subtree.top, other.top)
    } else {
        (place, first, other.top, subtree.top)
    };
    Some(Halves {
        left,
        right,
        level: subtree.level,
        left_top,
        right_top,
    })
}

// Replaces two halves with their parent.
fn merge(subtrees: &mut BTreeMap<u64, Subtree>, halves: &Halves, work: &mut Work)
    requires both { AreBoth subtrees.old.entries halves.now }
    requires low { halves.now.level < root_level }
    ensures join { NeighboursJoin }
    ensures merged { IsMerged subtrees.old.entries subtrees.new.entries halves.now }
    ensures fewer { length subtrees.new.entries + 1 ≡ length subtrees.old.entries }
    ensures count { work.new ≡ counted work.old 2 }
{
    // For the proof alone: the laws of the tree.
    tree_laws();
    let top = Top::parent(&Mode::hash(), &halves.left_top, &halves.right_top, work);
    subtrees.remove(&halves.right);
    let level = halves.level + 1;
    let Ok(_) = subtrees.insert(halves.left, Subtree { level, top }) else {
        unreachable!()
    };
}

// Merges the piece at chunk `first` with its other half, and then the result with its own, as long as there is one.
fn settle(subtrees: &mut BTreeMap<u64, Subtree>, first: u64, work: &mut Work)
    requires { (ds : List ℕ) × IsSettling (first ∷ ds) subtrees.old.entries }
    ensures forest { (n : ℕ) (x : ℕ → List ℕ) (ds : List ℕ) → AreChunks n x → AreForest x (first ∷ ds) subtrees.old.entries → AreForest x ds subtrees.new.entries }
    ensures fewer { length subtrees.new.entries ≤ length subtrees.old.entries }
    ensures count { work.new ≡ counted work.old (2 * (length subtrees.old.entries - length subtrees.new.entries)) }
{
    let Some(halves) = halves_at(subtrees, first) else {
        return;
    };
    merge(subtrees, &halves, work);
    settle(subtrees, halves.left, work);
}

/// Merges everything that these pieces make it possible to merge.
pub(crate) fn settle_all(subtrees: &mut BTreeMap<u64, Subtree>, pieces: &[Piece], work: &mut Work)
    requires { IsSettling (firsts pieces.now) subtrees.old.entries }
    ensures forest { (n : ℕ) (x : ℕ → List ℕ) → AreChunks n x → AreForest x (firsts pieces.now) subtrees.old.entries → AreForest x [] subtrees.new.entries }
    ensures fewer { length subtrees.new.entries ≤ length subtrees.old.entries }
    ensures count { work.new ≡ counted work.old (2 * (length subtrees.old.entries - length subtrees.new.entries)) }
{
    let Some((piece, rest)) = pieces.split_first() else {
        return;
    };
    settle(subtrees, piece.first, work);
    settle_all(subtrees, rest, work);
}

// The last piece that starts at or before chunk `start`.
fn last_upto(subtrees: &BTreeMap<u64, Subtree>, start: u64) -> Option<(u64, Subtree)>
    ensures found { IfSome result (λ e. IsLastUpto subtrees.now.entries start e.0 e.1) }
    ensures none { IfNone result (NoneUpto subtrees.now.entries start) }
{
    let Some((first, subtree)) = subtrees.range(..=start).next_back() else {
        return None;
    };
    Some((*first, *subtree))
}

// The first chunk of the first piece that starts at `start` or later, but before `end`.
fn next_from(subtrees: &BTreeMap<u64, Subtree>, start: u64, end: u64) -> Option<u64>
    requires order { start < end }
    ensures found { IfSome result (IsNextFrom subtrees.now.entries start end) }
    ensures none { IfNone result (NoneFrom subtrees.now.entries start end) }
{
    let Some((first, _)) = subtrees.range(start..end).next() else {
        return None;
    };
    Some(*first)
}

/// The lowest chunk from `start` to below `end` that is in a piece.
pub(crate) fn first_held(subtrees: &BTreeMap<u64, Subtree>, start: u64, end: u64) -> Option<u64>
    requires pieces { ArePiecesOfSome subtrees.now.entries }
    requires order { start < end }
    ensures least { (x : ℕ → List ℕ) → AreForest x [] subtrees.now.entries → IfSome result (IsLeastHeld x start end) }
    ensures none { (x : ℕ → List ℕ) → end ≤ max_chunks → AreForest x [] subtrees.now.entries → IfNone result (NoneHeld x start end) }
{
    match last_upto(subtrees, start) {
        Some((first, subtree)) if start - first < subtree.width() => Some(start),
        _ => next_from(subtrees, start, end),
    }
}

/// The lowest chunk from a bound on that is in no piece.
pub(crate) fn first_gap(subtrees: &BTreeMap<u64, Subtree>, next: u64) -> u64
    requires { ArePiecesOfSome subtrees.now.entries }
    ensures gap { (x : ℕ → List ℕ) → AreForest x [] subtrees.now.entries → next ≤ max_chunks → IsBound subtrees.now.entries next
        → ((i : ℕ) → i < next → is_held x i ≡ true) → ((i : ℕ) → max_chunks ≤ i → is_held x i ≡ false) → IsFirstGap x result }
    ensures bounded { (x : ℕ → List ℕ) → AreForest x [] subtrees.now.entries → next ≤ max_chunks → result ≤ max_chunks }
{
    match subtrees.get(&next) {
        Some(subtree) if next < MAX_CHUNKS => first_gap(subtrees, next + subtree.width()),
        _ => next,
    }
}

/// The top over all pieces, each of them the left side of those to its right.
pub(crate) fn top_of(subtrees: &BTreeMap<u64, Subtree>, work: &mut Work) -> Option<Top>
    ensures top { result ≡ top_over (values_of subtrees.now.entries) }
    ensures count { work.new ≡ counted work.old (2 * (length subtrees.now.entries - 1)) }
{
    let mut top = None;
    for subtree in subtrees.values().rev() {
        top = match top {
            None => Some(subtree.top),
            Some(right) => Some(Top::parent(&Mode::hash(), &subtree.top, &right, work)),
        };
    }
    top
}
