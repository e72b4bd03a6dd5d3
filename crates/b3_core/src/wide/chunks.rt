//! Chunks side by side, one lane each: their words and their numbers.

ghost use Rattle.std.specs.Prelude.{◌≡◌, ℕ, ◌+◌, ◌*◌, ◌/◌, ◌%◌, ◌^◌, ◌<◌, ◌≤◌, ◌++◌, length, slice_index};
ghost use Rattle.std.proofs.Common.{rules};
ghost use Rattle.std.specs.Mem.{type_size};
ghost use Rattle.b3_core.specs.inner.Lanes.{across};
ghost use Rattle.b3_core.specs.Tree.{chunk_len, word_at};

use crate::compression::{CHUNK_LEN, high, low};
use crate::wide::mixing::ByteTurns;
use crate::words::word;
use std::simd::{u32x4, u32x8};

/// Vectors with a lane for each of several equally spaced chunks.
pub(crate) trait Chunks: ByteTurns {
    // Four consecutive words of each lane's chunk. The chunks of neighbouring lanes are `step` chunks apart.
    fn words_at(bytes: &[u8], at: usize, step: usize) -> (Self, Self, Self, Self)
        requires { at + 16 + chunk_len * (step * Self.LANES) ≤ length bytes.now + chunk_len * step }
        ensures first { (j : ℕ) → j < Self.LANES → Self.word result.0 j ≡ word_at bytes.now (chunk_len * (step * j) + at) }
        ensures second { (j : ℕ) → j < Self.LANES → Self.word result.1 j ≡ word_at bytes.now (chunk_len * (step * j) + (at + 4)) }
        ensures third { (j : ℕ) → j < Self.LANES → Self.word result.2 j ≡ word_at bytes.now (chunk_len * (step * j) + (at + 8)) }
        ensures fourth { (j : ℕ) → j < Self.LANES → Self.word result.3 j ≡ word_at bytes.now (chunk_len * (step * j) + (at + 12)) };

    // The low word of the number of each lane's chunk.
    fn low_words(number: u64, step: u64) -> Self
        requires { number + step * Self.LANES < 2 ^ 64 + step }
        ensures { (j : ℕ) → j < Self.LANES → Self.word result j ≡ (number + step * j) % 2 ^ 32 };

    // The high word of the number of each lane's chunk.
    fn high_words(number: u64, step: u64) -> Self
        requires { number + step * Self.LANES < 2 ^ 64 + step }
        ensures { (j : ℕ) → j < Self.LANES → Self.word result j ≡ (number + step * j) / 2 ^ 32 };

    // A block of such vectors fits in memory.
    ghost is_small: { 16 * type_size Self.row < 2 ^ 63 };
}

impl Chunks for u32x4 {
    ghost is_small = { Prim.search rules };

    #[inline(always)]
    fn words_at(bytes: &[u8], at: usize, step: usize) -> (Self, Self, Self, Self) {
        let gap = CHUNK_LEN * step;
        let a = row(bytes, at);
        let b = row(bytes, at + gap);
        let c = row(bytes, at + 2 * gap);
        let d = row(bytes, at + 3 * gap);
        transposed(a, b, c, d)
    }

    fn low_words(number: u64, step: u64) -> Self {
        u32x4::from_array([
            low(number),
            low(number + step),
            low(number + 2 * step),
            low(number + 3 * step),
        ])
    }

    fn high_words(number: u64, step: u64) -> Self {
        u32x4::from_array([
            high(number),
            high(number + step),
            high(number + 2 * step),
            high(number + 3 * step),
        ])
    }
}

impl Chunks for u32x8 {
    ghost is_small = { Prim.search rules };

    #[inline(always)]
    fn words_at(bytes: &[u8], at: usize, step: usize) -> (Self, Self, Self, Self) {
        let gap = CHUNK_LEN * step;
        let a = two_rows(bytes, at, 4 * gap);
        let b = two_rows(bytes, at + gap, 4 * gap);
        let c = two_rows(bytes, at + 2 * gap, 4 * gap);
        let d = two_rows(bytes, at + 3 * gap, 4 * gap);
        transposed_halves(a, b, c, d)
    }

    fn low_words(number: u64, step: u64) -> Self {
        joined(
            u32x4::low_words(number, step),
            u32x4::low_words(number + 4 * step, step),
        )
    }

    fn high_words(number: u64, step: u64) -> Self {
        joined(
            u32x4::high_words(number, step),
            u32x4::high_words(number + 4 * step, step),
        )
    }
}

// The lanes of `front` followed by those of `back`.
#[inline(always)]
fn joined(front: u32x4, back: u32x4) -> u32x8
    ensures front { (j : ℕ) → j < 4 → slice_index result j ≡ slice_index front j }
    ensures back { (j : ℕ) → j < 4 → slice_index result (j + 4) ≡ slice_index back j }
{
    front.shuffle(back, [0, 1, 2, 3, 4, 5, 6, 7])
}

// Four consecutive words.
#[inline(always)]
fn row(bytes: &[u8], at: usize) -> u32x4
    requires { at + 16 ≤ length bytes.now }
    ensures { (i : ℕ) → i < 4 → slice_index result i ≡ word_at bytes.now (at + 4 * i) }
{
    u32x4::from_array([
        word(bytes, at),
        word(bytes, at + 4),
        word(bytes, at + 8),
        word(bytes, at + 12),
    ])
}

/// Four consecutive words at `at`, then the four that are `further` bytes after them.
#[inline(always)]
pub(crate) fn two_rows(bytes: &[u8], at: usize, further: usize) -> u32x8
    requires { at + further + 16 ≤ length bytes.now }
    ensures front { (i : ℕ) → i < 4 → slice_index result i ≡ word_at bytes.now (at + 4 * i) }
    ensures back { (i : ℕ) → i < 4 → slice_index result (i + 4) ≡ word_at bytes.now (at + further + 4 * i) }
{
    joined(row(bytes, at), row(bytes, at + further))
}

// The transpose of a 4×4 matrix of words.
#[inline(always)]
fn transposed(a: u32x4, b: u32x4, c: u32x4, d: u32x4) -> (u32x4, u32x4, u32x4, u32x4)
    ensures first { result.0 ≡ across 0 a b c d }
    ensures second { result.1 ≡ across 1 a b c d }
    ensures third { result.2 ≡ across 2 a b c d }
    ensures fourth { result.3 ≡ across 3 a b c d }
{
    let ab_front = a.shuffle(b, [0, 4, 1, 5]);
    let ab_back = a.shuffle(b, [2, 6, 3, 7]);
    let cd_front = c.shuffle(d, [0, 4, 1, 5]);
    let cd_back = c.shuffle(d, [2, 6, 3, 7]);
    let first = ab_front.shuffle(cd_front, [0, 1, 4, 5]);
    let second = ab_front.shuffle(cd_front, [2, 3, 6, 7]);
    let third = ab_back.shuffle(cd_back, [0, 1, 4, 5]);
    let fourth = ab_back.shuffle(cd_back, [2, 3, 6, 7]);
    (first, second, third, fourth)
}

// The transposes of two 4×4 matrices of words, one in each half of the vectors.
#[inline(always)]
fn transposed_halves(a: u32x8, b: u32x8, c: u32x8, d: u32x8) -> (u32x8, u32x8, u32x8, u32x8)
    ensures first { result.0 ≡ across 0 a b c d ++ across 4 a b c d }
    ensures second { result.1 ≡ across 1 a b c d ++ across 5 a b c d }
    ensures third { result.2 ≡ across 2 a b c d ++ across 6 a b c d }
    ensures fourth { result.3 ≡ across 3 a b c d ++ across 7 a b c d }
{
    let ab_front = a.shuffle(b, [0, 8, 1, 9, 4, 12, 5, 13]);
    let ab_back = a.shuffle(b, [2, 10, 3, 11, 6, 14, 7, 15]);
    let cd_front = c.shuffle(d, [0, 8, 1, 9, 4, 12, 5, 13]);
    let cd_back = c.shuffle(d, [2, 10, 3, 11, 6, 14, 7, 15]);
    let first = ab_front.shuffle(cd_front, [0, 1, 8, 9, 4, 5, 12, 13]);
    let second = ab_front.shuffle(cd_front, [2, 3, 10, 11, 6, 7, 14, 15]);
    let third = ab_back.shuffle(cd_back, [0, 1, 8, 9, 4, 5, 12, 13]);
    let fourth = ab_back.shuffle(cd_back, [2, 3, 10, 11, 6, 7, 14, 15]);
    (first, second, third, fourth)
}
