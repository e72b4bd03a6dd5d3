//! The compression function (section 2.2) and the constants of the specification.

ghost use Rattle.std.specs.Prelude.{◌≡◌, ℕ, ◌+◌, ◌*◌, ◌/◌, ◌%◌, ◌^◌, ◌<◌, List, take, slice_index};
ghost use Rattle.b3_core.specs.Compression.{rounds, start_state, output_words, compress_of};
ghost use Rattle.b3_core.specs.inner.Rows.{IsRowOf, rows_state, rows_message, rows_value};
ghost use Rattle.b3_core.specs.Tree.{start_flag};
ghost use Rattle.b3_core.specs.Work.{counted};

use crate::rows::{Quads, low_rows, seven_rounds};
use crate::vectors::Words;
use crate::work::Work;
use std::simd::u32x4;

/// The length of a block in bytes. The last block of a chunk may be shorter (section 2.1).
pub const BLOCK_LEN: usize = 64;

/// The length of a chunk in bytes. The last chunk of an input may be shorter (section 2.1).
pub const CHUNK_LEN: usize = 1024;

/// The flag of a chunk's first block (table 3).
pub const CHUNK_START: u32 = 1;

/// The flag of a chunk's last block (table 3).
pub const CHUNK_END: u32 = 2;

/// The flag of a parent (table 3).
pub const PARENT: u32 = 4;

/// The flag of the root's last compression (table 3).
pub const ROOT: u32 = 8;

/// The flag of each compression of the mode `keyed_hash` (table 3).
pub const KEYED_HASH: u32 = 16;

/// The flag of each compression of the context in the mode `derive_key` (table 3).
pub const DERIVE_KEY_CONTEXT: u32 = 32;

/// The flag of each compression of the key material in the mode `derive_key` (table 3).
pub const DERIVE_KEY_MATERIAL: u32 = 64;

/// The initialization vector (table 1): the key words of the mode `hash`; its first four words are a row of each compression's start state.
#[rattlefmt::skip]
pub const IV: [u32; 8] = [
    0x6a09_e667, 0xbb67_ae85, 0x3c6e_f372, 0xa54f_f53a,
    0x510e_527f, 0x9b05_688c, 0x1f83_d9ab, 0x5be0_cd19,
];

#[inline(always)]
pub(crate) fn low(x: u64) -> u32
    ensures { result ≡ x % 2 ^ 32 }
{
    (x & 0xffff_ffff) as u32
}

#[inline(always)]
pub(crate) fn high(x: u64) -> u32
    ensures { result ≡ x / 2 ^ 32 }
{
    (x >> 32) as u32
}

// The state before the rounds.
#[inline(always)]
fn start_rows(h: [u32; 8], counter: u64, block_len: u32, flags: u32) -> (u32x4, u32x4, u32x4, u32x4)
    ensures { rows_state slice_index 0 result ≡ start_state h counter block_len flags }
{
    let a = u32x4::from_array([h[0], h[1], h[2], h[3]]);
    let b = u32x4::from_array([h[4], h[5], h[6], h[7]]);
    let c = u32x4::from_array([IV[0], IV[1], IV[2], IV[3]]);
    let last = [low(counter), high(counter), block_len, flags];
    let d = u32x4::from_array(last).turn(24);
    (a, b, c, d)
}

// The message words of a block, arranged in rows.
#[inline(always)]
fn message_of(m: &[u32; 16]) -> (u32x4, u32x4, u32x4, u32x4)
    ensures { rows_message slice_index 0 result ≡ m.now }
{
    let a = u32x4::from_slice(&m[..4]);
    let b = u32x4::from_slice(&m[4..8]);
    let c = u32x4::from_slice(&m[8..12]);
    let d = u32x4::from_slice(&m[12..]);
    u32x4::message(a, b, c, d)
}

// The state after the seven rounds. Counts one compression.
fn state_after(
    h: &[u32; 8],
    m: &[u32; 16],
    counter: u64,
    block_len: u32,
    flags: u32,
    work: &mut Work,
) -> (u32x4, u32x4, u32x4, u32x4)
    ensures state { rows_state slice_index 0 result ≡ rounds 7 (start_state h.now counter block_len flags) m.now }
    ensures count { work.new ≡ counted work.old 1 }
{
    let v = start_rows(*h, counter, block_len, flags);
    let message = message_of(m);
    seven_rounds(v, message, work)
}

// The first eight output words.
#[inline(always)]
fn low_words(v: (u32x4, u32x4, u32x4, u32x4)) -> [u32; 8]
    ensures { (h : List ℕ) → result ≡ take 8 (output_words h (rows_state slice_index 0 v)) }
{
    let (front, back) = low_rows(v);
    let [w0, w1, w2, w3] = front.to_array();
    let [w4, w5, w6, w7] = back.to_array();
    [w0, w1, w2, w3, w4, w5, w6, w7]
}

// All sixteen output words.
#[inline(always)]
#[rattlefmt::skip]
fn output_words(h: [u32; 8], v: (u32x4, u32x4, u32x4, u32x4)) -> [u32; 16]
    ensures { result ≡ output_words h (rows_state slice_index 0 v) }
{
    let [w0, w1, w2, w3, w4, w5, w6, w7] = low_words(v);
    let [c0, c1, c2, c3] = v.2.to_array();
    let [d0, d1, d2, d3] = v.3.turn(8).to_array();
    [
        w0, w1, w2, w3,
        w4, w5, w6, w7,
        c0 ^ h[0], c1 ^ h[1], c2 ^ h[2], c3 ^ h[3],
        d0 ^ h[4], d1 ^ h[5], d2 ^ h[6], d3 ^ h[7],
    ]
}

/// Advances the chaining values of side-by-side states by one block. The last rows contain the counters, the block lengths and the flags.
pub(crate) fn compress_rows<V: Quads>(
    h: (V, V),
    m: (V, V, V, V),
    last: V,
    work: &mut Work,
) -> (V, V)
    ensures values { (i t b d : ℕ) → 4 * i + 3 < V.LANES → IsRowOf V.word i last (t % 2 ^ 32) (t / 2 ^ 32) b d
        → rows_value V.word i result ≡ take 8 (compress_of (rows_value V.word i h) (rows_message V.word i m) t b d) }
    ensures count { work.new ≡ counted work.old (V.LANES / 4) }
{
    let c = V::of_row(u32x4::from_array([IV[0], IV[1], IV[2], IV[3]]));
    let d = last.turn(24);
    let v = seven_rounds((h.0, h.1, c, d), m, work);
    low_rows(v)
}

/// The compression function (section 2.2): returns the 16 words that a block compresses to. The first 8 are the new chaining value.
/// `block_len` is the length of the block in bytes before it was padded with zeros.
pub fn compress(
    chaining_value: &[u32; 8],
    block_words: &[u32; 16],
    counter: u64,
    block_len: u32,
    flags: u32,
    work: &mut Work,
) -> [u32; 16]
    ensures words { result ≡ compress_of chaining_value.now block_words.now counter block_len flags }
    ensures count { work.new ≡ counted work.old 1 }
{
    let v = state_after(chaining_value, block_words, counter, block_len, flags, work);
    output_words(*chaining_value, v)
}

/// The first 8 words of the compression, which are the new chaining value.
pub(crate) fn compress_to_value(
    chaining_value: &[u32; 8],
    block_words: &[u32; 16],
    counter: u64,
    block_len: u32,
    flags: u32,
    work: &mut Work,
) -> [u32; 8]
    ensures value { result ≡ take 8 (compress_of chaining_value.now block_words.now counter block_len flags) }
    ensures count { work.new ≡ counted work.old 1 }
{
    let v = state_after(chaining_value, block_words, counter, block_len, flags, work);
    low_words(v)
}

/// The start flag of block `block` of a chunk: CHUNK_START for the first block, otherwise 0 (section 2.4).
#[inline(always)]
pub(crate) fn start_flag(block: usize) -> u32
    ensures { result ≡ start_flag block }
{
    if block == 0 { CHUNK_START } else { 0 }
}
