//! Two compressions side by side, each in one half of the rows: of two chunks, and of two parents.

ghost use Rattle.std.specs.Prelude.{◌≡◌, ℕ, ◌+◌, ◌*◌, ◌/◌, ◌%◌, ◌^◌, ◌<◌, ◌≤◌, ◌++◌, length, slice_index};
ghost use Rattle.b3_core.specs.Lanes.{chunk_bytes, chunk_at};
ghost use Rattle.b3_core.specs.inner.Rows.{IsRowOf, rows_message, rows_value};
ghost use Rattle.b3_core.specs.Tree.{ModelTop, block, block_size, block_words_of, chaining_value_of, chunk_len, parent_top};
ghost use Rattle.b3_core.specs.Work.{counted};

use crate::compression::{CHUNK_END, CHUNK_LEN, PARENT, compress_rows, high, low, start_flag};
use crate::mode::Mode;
use crate::rows::Quads;
use crate::wide::chunks::two_rows;
use crate::work::Work;
use std::simd::{u32x4, u32x8};

// The key words, for both.
#[inline(always)]
fn keys(key: [u32; 8]) -> (u32x8, u32x8)
    ensures { (i : ℕ) → 4 * i + 3 < 8 → rows_value slice_index i result ≡ key }
{
    let front = u32x8::of_row(u32x4::from_array([key[0], key[1], key[2], key[3]]));
    let back = u32x8::of_row(u32x4::from_array([key[4], key[5], key[6], key[7]]));
    (front, back)
}

// The last rows of two chunks' states. The first chunk has the number `number`.
#[inline(always)]
#[rattlefmt::skip]
fn last_rows(number: u64, flags: u32) -> u32x8
    requires { number + 1 < 2 ^ 64 }
    ensures { (i : ℕ) → 4 * i + 3 < 8 → IsRowOf slice_index i result ((number + i) % 2 ^ 32) ((number + i) / 2 ^ 32) block_size flags }
{
    u32x8::from_array([
        low(number), high(number), 64, flags,
        low(number + 1), high(number + 1), 64, flags,
    ])
}

// Block `k` of each of two chunks.
#[inline(always)]
fn blocks_at(bytes: &[u8], k: usize) -> (u32x8, u32x8, u32x8, u32x8)
    requires len { 2 * chunk_len ≤ length bytes.now }
    requires block { k < 16 }
    ensures { (i : ℕ) → 4 * i + 3 < 8 → rows_message slice_index i result ≡ block_words_of (block (chunk_bytes bytes.now i) k) }
{
    let at = 64 * k;
    let a = two_rows(bytes, at, CHUNK_LEN);
    let b = two_rows(bytes, at + 16, CHUNK_LEN);
    let c = two_rows(bytes, at + 32, CHUNK_LEN);
    let d = two_rows(bytes, at + 48, CHUNK_LEN);
    u32x8::message(a, b, c, d)
}

// The two chaining values.
#[inline(always)]
#[rattlefmt::skip]
fn values_of(h: (u32x8, u32x8)) -> ([u32; 8], [u32; 8])
    ensures first { result.0 ≡ rows_value slice_index 0 h }
    ensures second { result.1 ≡ rows_value slice_index 1 h }
{
    let [a0, a1, a2, a3, a4, a5, a6, a7] = h.0.to_array();
    let [b0, b1, b2, b3, b4, b5, b6, b7] = h.1.to_array();
    (
        [a0, a1, a2, a3, b0, b1, b2, b3],
        [a4, a5, a6, a7, b4, b5, b6, b7],
    )
}

/// The chaining values of two whole chunks, the first with the number `number`.
pub(crate) fn pair_values(
    mode: &Mode,
    bytes: &[u8],
    number: u64,
    work: &mut Work,
) -> ([u32; 8], [u32; 8])
    requires len { 2 * chunk_len ≤ length bytes.now }
    requires number { number + 2 < 2 ^ 64 }
    ensures first { result.0 ≡ chaining_value_of (chunk_at bytes.now number mode.now 0) }
    ensures second { result.1 ≡ chaining_value_of (chunk_at bytes.now number mode.now 1) }
    ensures count { work.new ≡ counted work.old 32 }
{
    let mut h = keys(mode.key());
    // The proof refers to the loop by this label.
    'blocks: for k in 0..15 {
        let m = blocks_at(bytes, k);
        let last = last_rows(number, mode.flag() + start_flag(k));
        h = compress_rows(h, m, last, work);
    }
    let last_block = blocks_at(bytes, 15);
    let last = last_rows(number, mode.flag() + CHUNK_END);
    let values = compress_rows(h, last_block, last, work);
    values_of(values)
}

// The blocks of two parents: of the children `a` and `b`, and of `c` and `d`.
#[inline(always)]
#[rattlefmt::skip]
fn parent_blocks(a: [u32; 8], b: [u32; 8], c: [u32; 8], d: [u32; 8]) -> (u32x8, u32x8, u32x8, u32x8)
    ensures first { rows_message slice_index 0 result ≡ a ++ b }
    ensures second { rows_message slice_index 1 result ≡ c ++ d }
{
    let front = u32x8::from_array([a[0], a[1], a[2], a[3], c[0], c[1], c[2], c[3]]);
    let back = u32x8::from_array([a[4], a[5], a[6], a[7], c[4], c[5], c[6], c[7]]);
    let later = u32x8::from_array([b[0], b[1], b[2], b[3], d[0], d[1], d[2], d[3]]);
    let end = u32x8::from_array([b[4], b[5], b[6], b[7], d[4], d[5], d[6], d[7]]);
    u32x8::message(front, back, later, end)
}

/// The chaining values of two parents: of the first two of four nodes with these chaining values, and of the other two.
pub(crate) fn pair_parents(
    mode: &Mode,
    a: [u32; 8],
    b: [u32; 8],
    c: [u32; 8],
    d: [u32; 8],
    work: &mut Work,
) -> ([u32; 8], [u32; 8])
    ensures first { (l r : ModelTop) → a ≡ chaining_value_of l → b ≡ chaining_value_of r → result.0 ≡ chaining_value_of (parent_top l r mode.now) }
    ensures second { (l r : ModelTop) → c ≡ chaining_value_of l → d ≡ chaining_value_of r → result.1 ≡ chaining_value_of (parent_top l r mode.now) }
    ensures count { work.new ≡ counted work.old 2 }
{
    let last = u32x8::of_row(u32x4::from_array([0, 0, 64, mode.flag() + PARENT]));
    let m = parent_blocks(a, b, c, d);
    let values = compress_rows(keys(mode.key()), m, last, work);
    values_of(values)
}
