//! G in each lane, for compressions side by side. A rotation by whole bytes is a single byte shuffle. The exclusive or before it also works
//! on bytes, because LLVM emits two shuffles for one on words. `rows` uses another `g`, with more steps in a shorter dependency chain.

ghost use Rattle.std.specs.Prelude.{◌≡◌, ℕ, ◌<◌};
ghost use Rattle.b3_core.specs.Compression.{xor_turn, g};

use crate::vectors::{Words, xor_turn};
use std::simd::{u32x4, u32x8};

/// Vectors of words with G's rotations by 16 and by 8 bits.
pub(crate) trait ByteTurns: Words {
    // The exclusive or, rotated right by 16 bits.
    fn xor_turn_16(self, other: Self) -> Self
        ensures { (j : ℕ) → j < Self.LANES → Self.word result j ≡ xor_turn (Self.word self j) (Self.word other j) 16 };

    // The exclusive or, rotated right by 8 bits.
    fn xor_turn_8(self, other: Self) -> Self
        ensures { (j : ℕ) → j < Self.LANES → Self.word result j ≡ xor_turn (Self.word self j) (Self.word other j) 8 };
}

impl ByteTurns for u32x4 {
    #[inline(always)]
    #[rattlefmt::skip]
    fn xor_turn_16(self, other: Self) -> Self {
        let bytes = self.to_le_bytes() ^ other.to_le_bytes();
        u32x4::from_le_bytes(bytes.swizzle([
            2, 3, 0, 1, 6, 7, 4, 5, 10, 11, 8, 9, 14, 15, 12, 13,
        ]))
    }

    #[inline(always)]
    #[rattlefmt::skip]
    fn xor_turn_8(self, other: Self) -> Self {
        let bytes = self.to_le_bytes() ^ other.to_le_bytes();
        u32x4::from_le_bytes(bytes.swizzle([
            1, 2, 3, 0, 5, 6, 7, 4, 9, 10, 11, 8, 13, 14, 15, 12,
        ]))
    }
}

impl ByteTurns for u32x8 {
    #[inline(always)]
    #[rattlefmt::skip]
    fn xor_turn_16(self, other: Self) -> Self {
        let bytes = self.to_le_bytes() ^ other.to_le_bytes();
        u32x8::from_le_bytes(bytes.swizzle([
            2, 3, 0, 1, 6, 7, 4, 5, 10, 11, 8, 9, 14, 15, 12, 13,
            18, 19, 16, 17, 22, 23, 20, 21, 26, 27, 24, 25, 30, 31, 28, 29,
        ]))
    }

    #[inline(always)]
    #[rattlefmt::skip]
    fn xor_turn_8(self, other: Self) -> Self {
        let bytes = self.to_le_bytes() ^ other.to_le_bytes();
        u32x8::from_le_bytes(bytes.swizzle([
            1, 2, 3, 0, 5, 6, 7, 4, 9, 10, 11, 8, 13, 14, 15, 12,
            17, 18, 19, 16, 21, 22, 23, 20, 25, 26, 27, 24, 29, 30, 31, 28,
        ]))
    }
}

// G (section 2.2) on two quadruples of words of the state, with two message words for each. The steps alternate, so that the processor has
// two independent dependency chains.
#[inline(always)]
pub(crate) fn g_two<V: ByteTurns>(
    p: (V, V, V, V),
    q: (V, V, V, V),
    x: (V, V),
    y: (V, V),
) -> (V, V, V, V, V, V, V, V)
    ensures first { (j : ℕ) → j < V.LANES
        → (V.word result.0 j, V.word result.1 j, V.word result.2 j, V.word result.3 j)
        ≡ g (V.word p.0 j) (V.word p.1 j) (V.word p.2 j) (V.word p.3 j) (V.word x.0 j) (V.word x.1 j) }
    ensures second { (j : ℕ) → j < V.LANES
        → (V.word result.4 j, V.word result.5 j, V.word result.6 j, V.word result.7 j)
        ≡ g (V.word q.0 j) (V.word q.1 j) (V.word q.2 j) (V.word q.3 j) (V.word y.0 j) (V.word y.1 j) }
{
    let (a, b, c, d) = p;
    let (e, f, g, h) = q;
    let a0 = a.add(b);
    let e0 = e.add(f);
    let a1 = a0.add(x.0);
    let e1 = e0.add(y.0);
    let d1 = d.xor_turn_16(a1);
    let h1 = h.xor_turn_16(e1);
    let c1 = c.add(d1);
    let g1 = g.add(h1);
    let b1 = xor_turn(b, c1, 12);
    let f1 = xor_turn(f, g1, 12);
    let a2 = a1.add(b1);
    let e2 = e1.add(f1);
    let a3 = a2.add(x.1);
    let e3 = e2.add(y.1);
    let d2 = d1.xor_turn_8(a3);
    let h2 = h1.xor_turn_8(e3);
    let c2 = c1.add(d2);
    let g2 = g1.add(h2);
    let b2 = xor_turn(b1, c2, 7);
    let f2 = xor_turn(f1, g2, 7);
    (a3, b2, c2, d2, e3, f2, g2, h2)
}
