//! Compressions side by side, one lane each, in vectors of any number of lanes.

ghost use Rattle.std.specs.Prelude.{◌≡◌, ℕ, ◌+◌, ◌*◌, ◌/◌, ◌%◌, ◌^◌, ◌<◌, ◌≤◌, ◌++◌, List, length, take, slice_index};
ghost use Rattle.b3_core.specs.Compression.{columns, diagonals, round, permute, start_state, compress_of, output_words};
ghost use Rattle.b3_core.specs.Lanes.{chunk_bytes, chunk_at};
ghost use Rattle.b3_core.specs.inner.Lanes.{lane};
ghost use Rattle.b3_core.specs.Tree.{ModelTop, chaining_value_of, parent_top, block, block_words_of, chain, chunk_len, block_size};
ghost use Rattle.b3_core.specs.Work.{counted};

use crate::compression::{CHUNK_END, IV, PARENT, start_flag};
use crate::mode::Mode;
use crate::vectors::Words;
use crate::wide::chunks::Chunks;
use crate::wide::mixing::{ByteTurns, g_two};
use crate::work::Work;
use std::simd::u32x8;

#[inline(always)]
#[rattlefmt::skip]
fn columns<V: ByteTurns>(v: [V; 16], m: [V; 16]) -> [V; 16]
    ensures { (j : ℕ) → j < V.LANES → lane V.word j result ≡ columns (lane V.word j v) (lane V.word j m) }
{
    let [
        v0, v1, v2, v3,
        v4, v5, v6, v7,
        v8, v9, v10, v11,
        v12, v13, v14, v15,
    ] = v;
    let (v0, v4, v8, v12, v1, v5, v9, v13) =
        g_two((v0, v4, v8, v12), (v1, v5, v9, v13), (m[0], m[1]), (m[2], m[3]));
    let (v2, v6, v10, v14, v3, v7, v11, v15) =
        g_two((v2, v6, v10, v14), (v3, v7, v11, v15), (m[4], m[5]), (m[6], m[7]));
    [
        v0, v1, v2, v3,
        v4, v5, v6, v7,
        v8, v9, v10, v11,
        v12, v13, v14, v15,
    ]
}

#[inline(always)]
#[rattlefmt::skip]
fn diagonals<V: ByteTurns>(v: [V; 16], m: [V; 16]) -> [V; 16]
    ensures { (j : ℕ) → j < V.LANES → lane V.word j result ≡ diagonals (lane V.word j v) (lane V.word j m) }
{
    let [
        v0, v1, v2, v3,
        v4, v5, v6, v7,
        v8, v9, v10, v11,
        v12, v13, v14, v15,
    ] = v;
    let (v0, v5, v10, v15, v1, v6, v11, v12) =
        g_two((v0, v5, v10, v15), (v1, v6, v11, v12), (m[8], m[9]), (m[10], m[11]));
    let (v2, v7, v8, v13, v3, v4, v9, v14) =
        g_two((v2, v7, v8, v13), (v3, v4, v9, v14), (m[12], m[13]), (m[14], m[15]));
    [
        v0, v1, v2, v3,
        v4, v5, v6, v7,
        v8, v9, v10, v11,
        v12, v13, v14, v15,
    ]
}

#[inline(always)]
fn round<V: ByteTurns>(v: [V; 16], m: [V; 16]) -> [V; 16]
    ensures { (j : ℕ) → j < V.LANES → lane V.word j result ≡ round (lane V.word j v) (lane V.word j m) }
{
    diagonals(columns(v, m), m)
}

#[inline(always)]
#[rattlefmt::skip]
fn permute<V: Words>(m: [V; 16]) -> [V; 16]
    ensures { (j : ℕ) → j < V.LANES → lane V.word j result ≡ permute (lane V.word j m) }
{
    [
        m[2], m[6], m[3], m[10], m[7], m[0], m[4], m[13],
        m[1], m[11], m[12], m[5], m[9], m[14], m[15], m[8],
    ]
}

// The state before the rounds, in each lane.
#[inline(always)]
#[rattlefmt::skip]
fn start_states<V: Words>(h: [V; 8], t_low: V, t_high: V, d: u32) -> [V; 16]
    ensures { (j t : ℕ) → j < V.LANES → V.word t_low j ≡ t % 2 ^ 32 → V.word t_high j ≡ t / 2 ^ 32
        → lane V.word j result ≡ start_state (lane V.word j h) t block_size d }
{
    let i0 = V::splat(IV[0]);
    let i1 = V::splat(IV[1]);
    let i2 = V::splat(IV[2]);
    let i3 = V::splat(IV[3]);
    let b = V::splat(64);
    let f = V::splat(d);
    [
        h[0], h[1], h[2], h[3],
        h[4], h[5], h[6], h[7],
        i0, i1, i2, i3,
        t_low, t_high, b, f,
    ]
}

// Advances the chaining value of each lane by one whole block: one compression for each lane. The parameter `STEP` is unused; it makes one
// instance for each caller, so that the function is inlined without copying the block.
fn compress<V: ByteTurns, const STEP: usize>(
    h: &mut [V; 8],
    m0: [V; 16],
    t_low: V,
    t_high: V,
    d: u32,
    work: &mut Work,
)
    ensures values { (j t : ℕ) → j < V.LANES → V.word t_low j ≡ t % 2 ^ 32 → V.word t_high j ≡ t / 2 ^ 32
        → lane V.word j h.new ≡ take 8 (compress_of (lane V.word j h.old) (lane V.word j m0) t block_size d) }
    ensures count { work.new ≡ counted work.old V.LANES }
{
    let v0 = start_states(*h, t_low, t_high, d);
    let v1 = round(v0, m0);
    let m1 = permute(m0);
    let v2 = round(v1, m1);
    let m2 = permute(m1);
    let v3 = round(v2, m2);
    let m3 = permute(m2);
    let v4 = round(v3, m3);
    let m4 = permute(m3);
    let v5 = round(v4, m4);
    let m5 = permute(m4);
    let v6 = round(v5, m5);
    let m6 = permute(m5);
    let v = round(v6, m6);
    *h = halves(v);
    work.add(V::LANES as u64);
}

#[inline(always)]
fn halves<V: Words>(v: [V; 16]) -> [V; 8]
    ensures { (j : ℕ) (h : List ℕ) → j < V.LANES → lane V.word j result ≡ take 8 (output_words h (lane V.word j v)) }
{
    let w0 = v[0].xor(v[8]);
    let w1 = v[1].xor(v[9]);
    let w2 = v[2].xor(v[10]);
    let w3 = v[3].xor(v[11]);
    let w4 = v[4].xor(v[12]);
    let w5 = v[5].xor(v[13]);
    let w6 = v[6].xor(v[14]);
    let w7 = v[7].xor(v[15]);
    [w0, w1, w2, w3, w4, w5, w6, w7]
}

// Block `k` of each lane's chunk.
#[inline(always)]
#[rattlefmt::skip]
fn blocks_at<V: Chunks, const STEP: usize>(bytes: &[u8], k: usize) -> [V; 16]
    requires len { chunk_len + chunk_len * (STEP * V.LANES) ≤ length bytes.now + chunk_len * STEP }
    requires block { k < 16 }
    ensures { (j : ℕ) → j < V.LANES → lane V.word j result ≡ block_words_of (block (chunk_bytes bytes.now (STEP * j)) k) }
{
    let at = 64 * k;
    let (w0, w1, w2, w3) = V::words_at(bytes, at, STEP);
    let (w4, w5, w6, w7) = V::words_at(bytes, at + 16, STEP);
    let (w8, w9, w10, w11) = V::words_at(bytes, at + 32, STEP);
    let (w12, w13, w14, w15) = V::words_at(bytes, at + 48, STEP);
    [
        w0, w1, w2, w3,
        w4, w5, w6, w7,
        w8, w9, w10, w11,
        w12, w13, w14, w15,
    ]
}

// The key words in every lane.
fn keys<V: Words>(key: [u32; 8]) -> [V; 8]
    ensures { (j : ℕ) → j < V.LANES → lane V.word j result ≡ key }
{
    let k0 = V::splat(key[0]);
    let k1 = V::splat(key[1]);
    let k2 = V::splat(key[2]);
    let k3 = V::splat(key[3]);
    let k4 = V::splat(key[4]);
    let k5 = V::splat(key[5]);
    let k6 = V::splat(key[6]);
    let k7 = V::splat(key[7]);
    [k0, k1, k2, k3, k4, k5, k6, k7]
}

// Advances the chaining value of each lane's chunk by block `k`.
fn compress_block<V: Chunks, const STEP: usize>(
    h: &mut [V; 8],
    bytes: &[u8],
    k: usize,
    t_low: V,
    t_high: V,
    d: u32,
    work: &mut Work,
)
    requires len { chunk_len + chunk_len * (STEP * V.LANES) ≤ length bytes.now + chunk_len * STEP }
    requires block { k < 16 }
    ensures values { (j t : ℕ) → j < V.LANES → V.word t_low j ≡ t % 2 ^ 32 → V.word t_high j ≡ t / 2 ^ 32
        → lane V.word j h.new ≡ take 8 (compress_of (lane V.word j h.old) (block_words_of (block (chunk_bytes bytes.now (STEP * j)) k)) t block_size d) }
    ensures count { work.new ≡ counted work.old V.LANES }
{
    let m = blocks_at::<V, STEP>(bytes, k);
    compress::<V, STEP>(h, m, t_low, t_high, d, work);
}

/// The chaining value of each lane's chunk after all of its blocks but the last. The first lane has the first chunk, with the number
/// `number`; the chunks of neighbouring lanes are `STEP` chunks apart.
pub(crate) fn chains<V: Chunks, const STEP: usize>(
    mode: &Mode,
    bytes: &[u8],
    number: u64,
    work: &mut Work,
) -> [V; 8]
    requires len { chunk_len + chunk_len * (STEP * V.LANES) ≤ length bytes.now + chunk_len * STEP }
    requires number { number + STEP * V.LANES < 2 ^ 64 + STEP }
    ensures values { (j : ℕ) → j < V.LANES → lane V.word j result ≡ chain (chunk_bytes bytes.now (STEP * j)) (number + STEP * j) mode.now 15 }
    ensures count { work.new ≡ counted work.old (15 * V.LANES) }
{
    let t_low = V::low_words(number, STEP as u64);
    let t_high = V::high_words(number, STEP as u64);
    let mut h = keys(mode.key());
    // The proof refers to the loop by this label.
    'blocks: for k in 0..15 {
        let d = mode.flag() + start_flag(k);
        compress_block::<V, STEP>(&mut h, bytes, k, t_low, t_high, d, work);
    }
    h
}

/// The chaining value of each lane's chunk. The lanes have the chunks and numbers that `chains` describes.
pub(crate) fn chunk_values<V: Chunks, const STEP: usize>(
    mode: &Mode,
    bytes: &[u8],
    number: u64,
    work: &mut Work,
) -> [V; 8]
    requires len { chunk_len + chunk_len * (STEP * V.LANES) ≤ length bytes.now + chunk_len * STEP }
    requires number { number + STEP * V.LANES < 2 ^ 64 + STEP }
    ensures values { (j : ℕ) → j < V.LANES → lane V.word j result ≡ chaining_value_of (chunk_at bytes.now number mode.now (STEP * j)) }
    ensures count { work.new ≡ counted work.old (16 * V.LANES) }
{
    let mut values = chains::<V, STEP>(mode, bytes, number, work);
    let t_low = V::low_words(number, STEP as u64);
    let t_high = V::high_words(number, STEP as u64);
    let d = mode.flag() + CHUNK_END;
    compress_block::<V, STEP>(&mut values, bytes, 15, t_low, t_high, d, work);
    values
}

// The chaining values of eight parents, from their blocks.
#[inline(always)]
fn block_parents(mode: &Mode, block: [u32x8; 16], work: &mut Work) -> [u32x8; 8]
    ensures values { (j : ℕ) (a b : ModelTop) → j < 8 → lane slice_index j block ≡ chaining_value_of a ++ chaining_value_of b
        → lane slice_index j result ≡ chaining_value_of (parent_top a b mode.now) }
    ensures count { work.new ≡ counted work.old 8 }
{
    let none = u32x8::splat(0);
    let mut values = keys(mode.key());
    compress::<u32x8, 0>(&mut values, block, none, none, mode.flag() + PARENT, work);
    values
}

/// The chaining values of the parents of sixteen nodes: first the four parents of the eight nodes in `left`, then those in `right`.
pub(crate) fn parent_values(
    mode: &Mode,
    left: [u32x8; 8],
    right: [u32x8; 8],
    work: &mut Work,
) -> [u32x8; 8]
    ensures front { (j : ℕ) (a b : ModelTop) → j < 4 → lane slice_index (2 * j) left ≡ chaining_value_of a → lane slice_index (2 * j + 1) left ≡ chaining_value_of b
        → lane slice_index j result ≡ chaining_value_of (parent_top a b mode.now) }
    ensures back { (j : ℕ) (a b : ModelTop) → j < 4 → lane slice_index (2 * j) right ≡ chaining_value_of a → lane slice_index (2 * j + 1) right ≡ chaining_value_of b
        → lane slice_index (j + 4) result ≡ chaining_value_of (parent_top a b mode.now) }
    ensures count { work.new ≡ counted work.old 8 }
{
    block_parents(mode, pairs(left, right), work)
}

/// The chaining values of the parents of sixteen nodes: each parent has a lane of the first eight and the same lane of the other eight as
/// children.
pub(crate) fn lane_parents(
    mode: &Mode,
    left: [u32x8; 8],
    right: [u32x8; 8],
    work: &mut Work,
) -> [u32x8; 8]
    ensures values { (j : ℕ) (a b : ModelTop) → j < 8 → lane slice_index j left ≡ chaining_value_of a → lane slice_index j right ≡ chaining_value_of b
        → lane slice_index j result ≡ chaining_value_of (parent_top a b mode.now) }
    ensures count { work.new ≡ counted work.old 8 }
{
    block_parents(mode, stacked(left, right), work)
}

// The blocks of eight parents: the words of the same lane of both.
#[inline(always)]
#[rattlefmt::skip]
fn stacked(left: [u32x8; 8], right: [u32x8; 8]) -> [u32x8; 16]
    ensures { (j : ℕ) → j < 8 → lane slice_index j result ≡ lane slice_index j left ++ lane slice_index j right }
{
    let [l0, l1, l2, l3, l4, l5, l6, l7] = left;
    let [r0, r1, r2, r3, r4, r5, r6, r7] = right;
    [
        l0, l1, l2, l3, l4, l5, l6, l7,
        r0, r1, r2, r3, r4, r5, r6, r7,
    ]
}

// The even-numbered and the odd-numbered lanes of sixteen.
#[inline(always)]
fn parted(left: u32x8, right: u32x8) -> (u32x8, u32x8)
    ensures front { (j : ℕ) → j < 4 → (slice_index result.0 j ≡ slice_index left (2 * j)) × (slice_index result.1 j ≡ slice_index left (2 * j + 1)) }
    ensures back { (j : ℕ) → j < 4 → (slice_index result.0 (j + 4) ≡ slice_index right (2 * j)) × (slice_index result.1 (j + 4) ≡ slice_index right (2 * j + 1)) }
{
    left.deinterleave(right)
}

// The blocks of eight parents: the words of two neighbouring lanes each.
#[inline(always)]
#[rattlefmt::skip]
fn pairs(left: [u32x8; 8], right: [u32x8; 8]) -> [u32x8; 16]
    ensures front { (j : ℕ) → j < 4 → lane slice_index j result ≡ lane slice_index (2 * j) left ++ lane slice_index (2 * j + 1) left }
    ensures back { (j : ℕ) → j < 4 → lane slice_index (j + 4) result ≡ lane slice_index (2 * j) right ++ lane slice_index (2 * j + 1) right }
{
    let (l0, r0) = parted(left[0], right[0]);
    let (l1, r1) = parted(left[1], right[1]);
    let (l2, r2) = parted(left[2], right[2]);
    let (l3, r3) = parted(left[3], right[3]);
    let (l4, r4) = parted(left[4], right[4]);
    let (l5, r5) = parted(left[5], right[5]);
    let (l6, r6) = parted(left[6], right[6]);
    let (l7, r7) = parted(left[7], right[7]);
    [
        l0, l1, l2, l3, l4, l5, l6, l7,
        r0, r1, r2, r3, r4, r5, r6, r7,
    ]
}

/// The words of lane `i`.
#[inline(always)]
#[rattlefmt::skip]
pub(crate) fn lane_words<V: Words>(h: &[V; 8], i: usize) -> [u32; 8]
    requires { i < V.LANES }
    ensures { result ≡ lane V.word i h.now }
{
    [
        h[0].get(i), h[1].get(i), h[2].get(i), h[3].get(i),
        h[4].get(i), h[5].get(i), h[6].get(i), h[7].get(i),
    ]
}
