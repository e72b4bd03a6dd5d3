//! Vectors of words: the steps of the compression function in each lane. A row of one state has four lanes; states side by side have one
//! lane each.

ghost use Rattle.std.specs.Prelude.{◌≡◌, ℕ, ◌^◌, ◌<◌, slice_index, bit_xor};
ghost use Rattle.b3_core.specs.Compression.{add32, xor_turn, g};
ghost use Rattle.b3_core.specs.inner.Compression.{turned};

use std::simd::Simd;

/// A vector of words, one in each lane.
pub(crate) trait Words: Copy {
    // The number of lanes.
    ghost LANES: { ℕ };

    // The word in a lane.
    ghost word: { Self → ℕ → ℕ };

    const LANES: usize;

    // The same word in each lane.
    fn splat(x: u32) -> Self
        ensures { (j : ℕ) → j < LANES → word result j ≡ x };

    // The word in lane `i`.
    fn get(self, i: usize) -> u32
        requires { i < LANES }
        ensures { result ≡ word self i };

    // The sum modulo 2^32.
    fn add(self, other: Self) -> Self
        ensures { (j : ℕ) → j < LANES → word result j ≡ add32 (word self j) (word other j) };

    // The exclusive or.
    fn xor(self, other: Self) -> Self
        ensures { (j : ℕ) → j < LANES → word result j ≡ bit_xor (word self j) (word other j) };

    // Rotates each word right by `k` bits. Also says that each word fits in 32 bits.
    fn turn(self, k: u32) -> Self
        requires { (0 < k) × (k < 32) }
        ensures turns { (j : ℕ) → j < LANES → word result j ≡ turned k (word self j) }
        ensures fits { (j : ℕ) → j < LANES → word self j < 2 ^ 32 };
}

impl<const N: usize> Words for Simd<u32, N> {
    ghost LANES = { N };

    ghost word = { λ v j. slice_index v j };

    const LANES: usize = N;

    #[inline(always)]
    fn splat(x: u32) -> Self {
        Simd::splat(x)
    }

    #[inline(always)]
    fn get(self, i: usize) -> u32 {
        self.to_array()[i]
    }

    #[inline(always)]
    fn add(self, other: Self) -> Self {
        self + other
    }

    #[inline(always)]
    fn xor(self, other: Self) -> Self {
        self ^ other
    }

    #[inline(always)]
    fn turn(self, k: u32) -> Self {
        (self >> Simd::splat(k)) | (self << Simd::splat(32 - k))
    }
}

// The exclusive or, rotated right by `k` bits.
#[inline(always)]
pub(crate) fn xor_turn<V: Words>(a: V, b: V, k: u32) -> V
    requires { (0 < k) × (k < 32) }
    ensures { (j : ℕ) → j < V.LANES → V.word result j ≡ xor_turn (V.word a j) (V.word b j) k }
{
    a.xor(b).turn(k)
}

// The first rotation of G, of a word kept as it was before G's last rotation, by 8 bits: that rotation and this one by 16 combine to one by
// 24.
#[inline(always)]
fn first_turn<V: Words>(d: V, a: V) -> V
    ensures { (j : ℕ) → j < V.LANES → V.word result j ≡ xor_turn (turned 8 (V.word d j)) (V.word a j) 16 }
{
    d.turn(24).xor(a.turn(16))
}

// G (section 2.2): mixes two message words into four words of the state. The last of the four is passed and returned as it was before its
// rotation by 8 bits.
#[inline(always)]
pub(crate) fn g<V: Words>(a: V, b: V, c: V, d: V, x: V, y: V) -> (V, V, V, V)
    ensures { (j : ℕ) → j < V.LANES
        → (V.word result.0 j, V.word result.1 j, V.word result.2 j, turned 8 (V.word result.3 j))
        ≡ g (V.word a j) (V.word b j) (V.word c j) (turned 8 (V.word d j)) (V.word x j) (V.word y j) }
{
    let a0 = a.add(b);
    let a1 = a0.add(x);
    let d1 = first_turn(d, a1);
    let c1 = c.add(d1);
    let b1 = xor_turn(b, c1, 12);
    let a3 = a1.add(b1);
    let a2 = a3.add(y);
    let d2 = d1.xor(a2);
    let c2 = c1.add(d2.turn(8));
    let b2 = xor_turn(b1, c2, 7);
    (a2, b2, c2, d2)
}
