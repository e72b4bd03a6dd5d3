//! The hash by eight compressions at a time, of chunks and of parents, and by four or two chunks when fewer than eight are left.

ghost use Rattle.std.specs.Prelude.{◌≡◌, ℕ, ◌+◌, ◌-◌, ◌*◌, ◌/◌, ◌^◌, ◌<◌, ◌≤◌, ◌↔◌, true, IfSome, length, slice_index};
ghost use Rattle.b3_core.specs.inner.Lanes.{lane, group_top};
ghost use Rattle.b3_core.specs.Modes.{digest_of};
ghost use Rattle.b3_core.specs.Tree.{ModelTop, IsSubtree, chaining_value_of, chunk_len, parent_top, tree_top};
ghost use Rattle.b3_core.specs.Work.{counted, hash_work};

mod chunks;
mod eight;
mod lanes;
mod mixing;
mod pairs;

use crate::compression::CHUNK_LEN;
use crate::mode::Mode;
use crate::node::Top;
use crate::tree::left_len;
use crate::vectors::Words;
use crate::wide::lanes::{chunk_values, lane_parents, lane_words, parent_values};
use crate::wide::pairs::{pair_parents, pair_values};
use crate::work::Work;
use std::simd::{u32x4, u32x8};

// The chaining values of two parents, whose children are the nodes in the four lanes from lane `i` on.
#[inline(always)]
fn lane_pairs<V: Words>(
    mode: &Mode,
    values: &[V; 8],
    i: usize,
    work: &mut Work,
) -> ([u32; 8], [u32; 8])
    requires bounded { i < 8 }
    requires lanes { i + 3 < V.LANES }
    ensures first { (l r : ModelTop) → lane V.word i values.now ≡ chaining_value_of l → lane V.word (i + 1) values.now ≡ chaining_value_of r
        → result.0 ≡ chaining_value_of (parent_top l r mode.now) }
    ensures second { (l r : ModelTop) → lane V.word (i + 2) values.now ≡ chaining_value_of l → lane V.word (i + 3) values.now ≡ chaining_value_of r
        → result.1 ≡ chaining_value_of (parent_top l r mode.now) }
    ensures count { work.new ≡ counted work.old 2 }
{
    pair_parents(
        mode,
        lane_words(values, i),
        lane_words(values, i + 1),
        lane_words(values, i + 2),
        lane_words(values, i + 3),
        work,
    )
}

// The level at which `len` bytes are eight times 2^level whole chunks.
fn eighth_level(len: usize) -> Option<u32>
    ensures { IfSome result (λ level. len ≡ 8 * chunk_len * 2 ^ level) }
{
    let mut level = 0;
    let mut whole = 8 * CHUNK_LEN;
    while whole <= len / 2 {
        whole *= 2;
        level += 1;
    }
    if whole == len { Some(level) } else { None }
}

// The chaining values of eight times four whole chunks, the first with the number `number`. Each lane processes its four chunks one after
// the other, so that the processor reads forwards at eight places and can prefetch.
fn page_values(mode: &Mode, bytes: &[u8], number: u64, work: &mut Work) -> [u32x8; 8]
    requires len { length bytes.now ≡ 32 * chunk_len }
    requires number { number + 32 < 2 ^ 64 }
    ensures values { (j : ℕ) → j < 8 → lane slice_index j result ≡ chaining_value_of (group_top 4 bytes.now number mode.now j) }
    ensures count { work.new ≡ counted work.old 536 }
{
    let first = chunk_values::<u32x8, 4>(mode, bytes, number, work);
    let second = chunk_values::<u32x8, 4>(mode, &bytes[CHUNK_LEN..], number + 1, work);
    let third = chunk_values::<u32x8, 4>(mode, &bytes[2 * CHUNK_LEN..], number + 2, work);
    let fourth = chunk_values::<u32x8, 4>(mode, &bytes[3 * CHUNK_LEN..], number + 3, work);
    let left = lane_parents(mode, first, second, work);
    let right = lane_parents(mode, third, fourth, work);
    lane_parents(mode, left, right, work)
}

// The chaining values of the eight eighths of `bytes`, each of 2^`level` whole chunks. The first chunk has the number `number`.
fn eighth_values(mode: &Mode, bytes: &[u8], level: u32, number: u64, work: &mut Work) -> [u32x8; 8]
    requires len { length bytes.now ≡ 8 * chunk_len * 2 ^ level }
    requires number { number + length bytes.now / chunk_len < 2 ^ 64 }
    ensures values { (j : ℕ) → j < 8 → lane slice_index j result ≡ chaining_value_of (group_top (2 ^ level) bytes.now number mode.now j) }
    ensures count { work.new ≡ counted work.old (136 * 2 ^ level - 8) }
{
    if level == 0 {
        return chunk_values::<u32x8, 1>(mode, bytes, number, work);
    }
    if level == 2 {
        return page_values(mode, bytes, number, work);
    }
    let middle = bytes.len() / 2;
    let (left, right) = bytes.split_at(middle);
    let left_values = eighth_values(mode, left, level - 1, number, work);
    let right_number = number + (middle / CHUNK_LEN) as u64;
    let right_values = eighth_values(mode, right, level - 1, right_number, work);
    parent_values(mode, left_values, right_values, work)
}

// The top of the tree over eight times 2^`level` whole chunks, the first with the number `number`.
fn whole_top(mode: &Mode, bytes: &[u8], level: u32, number: u64, work: &mut Work) -> Top
    requires len { length bytes.now ≡ 8 * chunk_len * 2 ^ level }
    requires number { number + length bytes.now / chunk_len < 2 ^ 64 }
    ensures node { result ≡ tree_top bytes.now number mode.now }
    ensures count { work.new ≡ counted work.old (hash_work (length bytes.now) - 1) }
{
    let values = eighth_values(mode, bytes, level, number, work);
    let (first, second) = lane_pairs(mode, &values, 0, work);
    let (third, fourth) = lane_pairs(mode, &values, 4, work);
    let (left, right) = pair_parents(mode, first, second, third, fourth, work);
    Top::of_children(mode, left, right)
}

// The top of the tree over four whole chunks, the first with the number `number`.
fn four_top(mode: &Mode, bytes: &[u8], number: u64, work: &mut Work) -> Top
    requires len { length bytes.now ≡ 4 * chunk_len }
    requires number { number + 4 < 2 ^ 64 }
    ensures node { result ≡ tree_top bytes.now number mode.now }
    ensures count { work.new ≡ counted work.old 66 }
{
    let values = chunk_values::<u32x4, 1>(mode, bytes, number, work);
    let (left, right) = lane_pairs(mode, &values, 0, work);
    Top::of_children(mode, left, right)
}

// The top of the tree over two whole chunks, the first with the number `number`.
fn two_top(mode: &Mode, bytes: &[u8], number: u64, work: &mut Work) -> Top
    requires len { length bytes.now ≡ 2 * chunk_len }
    requires number { number + 2 < 2 ^ 64 }
    ensures node { result ≡ tree_top bytes.now number mode.now }
    ensures count { work.new ≡ counted work.old 32 }
{
    let (left, right) = pair_values(mode, bytes, number, work);
    Top::of_children(mode, left, right)
}

/// The top of the tree over `bytes`, whose first chunk has the number `number`.
pub(crate) fn wide_top(mode: &Mode, bytes: &[u8], number: u64, work: &mut Work) -> Top
    requires { number + length bytes.now / chunk_len < 2 ^ 64 }
    ensures node { result ≡ tree_top bytes.now number mode.now }
    ensures count { work.new ≡ counted work.old (hash_work (length bytes.now) - 1) }
{
    if bytes.len() <= CHUNK_LEN {
        return Top::of_chunk(mode, bytes, number, work);
    }
    if bytes.len() == 2 * CHUNK_LEN {
        return two_top(mode, bytes, number, work);
    }
    if bytes.len() == 4 * CHUNK_LEN {
        return four_top(mode, bytes, number, work);
    }
    if let Some(level) = eighth_level(bytes.len()) {
        return whole_top(mode, bytes, level, number, work);
    }
    let middle = left_len(bytes.len());
    let (left, right) = bytes.split_at(middle);
    let left_top = wide_top(mode, left, number, work);
    let right_top = wide_top(mode, right, number + (middle / CHUNK_LEN) as u64, work);
    Top::parent(mode, &left_top, &right_top, work)
}

impl Top {
    /// The top of the tree over a whole input, by eight, four or two compressions side by side. Its `root32` is the hash of the input, and
    /// an `OutputReader` reads its extended output. Makes all compressions of the hash except the last.
    pub fn of_input(mode: &Mode, bytes: &[u8], work: &mut Work) -> Top
        ensures node { result ≡ tree_top bytes.now 0 mode.now }
        ensures count { work.new ≡ counted work.old (hash_work (length bytes.now) - 1) }
    {
        wide_top(mode, bytes, 0, work)
    }

    /// The top of a subtree within an input, computed as in `of_input`. `number` is the number of chunks before it, a multiple of 2^k for
    /// some k. The subtree has 2^k whole chunks; at the end of the input it may have fewer, and its last chunk may be short.
    pub fn of_subtree(mode: &Mode, bytes: &[u8], number: u64, work: &mut Work) -> Top
        requires subtree { IsSubtree (length bytes.now) number }
        requires number { number + length bytes.now / chunk_len < 2 ^ 64 }
        ensures node { result ≡ tree_top bytes.now number mode.now }
        ensures count { work.new ≡ counted work.old (hash_work (length bytes.now) - 1) }
    {
        wide_top(mode, bytes, number, work)
    }
}

/// Whether `len` bytes after `number` chunks are a subtree as [`Top::of_subtree`] requires.
pub fn is_subtree(len: usize, number: u64) -> bool
    ensures { result ≡ true ↔ IsSubtree len number }
{
    let chunks = len.div_ceil(CHUNK_LEN).max(1) as u64;
    number % chunks.next_power_of_two() == 0 && (len > 0 || number == 0)
}

/// The hash of `bytes` in a mode, 32 bytes (sections 2.1 to 2.6): the fast implementation. It makes one compression for each block of the
/// input and one for each parent, which are one fewer than the chunks. Chunks and parents are compressed eight at a time wherever 2^k whole
/// chunks, with k at least 3, are a subtree; chunks are compressed four or two at a time where four or two are one.
#[tactic(auto, unfolding(crate::specs::Modes::digest_of))]
pub fn hash_wide(mode: &Mode, bytes: &[u8], work: &mut Work) -> [u8; 32]
    ensures bytes { result ≡ digest_of bytes.now mode.now }
    ensures count { work.new ≡ counted work.old (hash_work (length bytes.now)) }
{
    Top::of_input(mode, bytes, work).root32(work)
}
