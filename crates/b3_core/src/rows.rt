//! The rounds on states as rows of four words, so that one vector operation does a step for all columns or all diagonals, of one state or
//! of two side by side. The last row is kept as it was before its rotation by 8 bits, as in `g`.

ghost use Rattle.std.specs.Prelude.{◌≡◌, ℕ, ◌+◌, ◌*◌, ◌/◌, ◌<◌, List, take, slice_index};
ghost use Rattle.b3_core.specs.Compression.{columns, diagonals, round, permute, rounds, output_words};
ghost use Rattle.b3_core.specs.inner.Rows.{IsRowOf, rows_words, rows_state, rows_message, rows_value};
ghost use Rattle.b3_core.specs.Work.{counted};

use crate::vectors::{Words, g};
use crate::work::Work;
use std::simd::{u32x4, u32x8};

/// Vectors of rows: each group of four lanes is a row of one state.
pub(crate) trait Quads: Words {
    // The same row for each state.
    fn of_row(row: u32x4) -> Self
        ensures { (i : ℕ) → 4 * i + 3 < Self.LANES
            → IsRowOf Self.word i result (slice_index row 0) (slice_index row 1) (slice_index row 2) (slice_index row 3) };

    // Rotates the words of each row down by one lane; the first word becomes the last.
    fn down_one(self) -> Self
        ensures { (i : ℕ) → 4 * i + 3 < Self.LANES
            → IsRowOf Self.word i result (Self.word self (4 * i + 1)) (Self.word self (4 * i + 2)) (Self.word self (4 * i + 3)) (Self.word self (4 * i)) };

    // Rotates the words of each row down by two lanes.
    fn down_two(self) -> Self
        ensures { (i : ℕ) → 4 * i + 3 < Self.LANES
            → IsRowOf Self.word i result (Self.word self (4 * i + 2)) (Self.word self (4 * i + 3)) (Self.word self (4 * i)) (Self.word self (4 * i + 1)) };

    // Rotates the words of each row down by three lanes.
    fn down_three(self) -> Self
        ensures { (i : ℕ) → 4 * i + 3 < Self.LANES
            → IsRowOf Self.word i result (Self.word self (4 * i + 3)) (Self.word self (4 * i)) (Self.word self (4 * i + 1)) (Self.word self (4 * i + 2)) };

    // Messages with the words of these rows, in the order that `round` expects.
    fn message(a: Self, b: Self, c: Self, d: Self) -> (Self, Self, Self, Self)
        ensures { (i : ℕ) → 4 * i + 3 < Self.LANES → rows_message Self.word i result ≡ rows_words Self.word i a b c d };

    // Permutes the message words for the next round (table 2).
    fn permute(a: Self, b: Self, c: Self, d: Self) -> (Self, Self, Self, Self)
        ensures { (i : ℕ) → 4 * i + 3 < Self.LANES → rows_message Self.word i result ≡ permute (rows_message Self.word i (a, b, c, d)) };
}

impl Quads for u32x4 {
    #[inline(always)]
    fn of_row(row: u32x4) -> Self {
        row
    }

    #[inline(always)]
    fn down_one(self) -> Self {
        self.shuffle(self, [1, 2, 3, 0])
    }

    #[inline(always)]
    fn down_two(self) -> Self {
        self.shuffle(self, [2, 3, 0, 1])
    }

    #[inline(always)]
    fn down_three(self) -> Self {
        self.shuffle(self, [3, 0, 1, 2])
    }

    #[inline(always)]
    fn message(a: Self, b: Self, c: Self, d: Self) -> (Self, Self, Self, Self) {
        let m0 = a.shuffle(b, [0, 2, 4, 6]);
        let m1 = a.shuffle(b, [1, 3, 5, 7]);
        let m2 = c.shuffle(d, [0, 2, 4, 6]);
        let m3 = c.shuffle(d, [1, 3, 5, 7]);
        (m0, m1, m2, m3)
    }

    #[inline(always)]
    fn permute(a: Self, b: Self, c: Self, d: Self) -> (Self, Self, Self, Self) {
        let cd = c.shuffle(d, [0, 1, 6, 3]);
        let bc = b.shuffle(c, [0, 6, 2, 3]);
        let db = d.shuffle(b, [0, 1, 6, 3]);
        let m0 = a.shuffle(b, [1, 5, 7, 2]);
        let m1 = a.shuffle(cd, [3, 5, 0, 6]);
        let m2 = bc.shuffle(d, [0, 1, 4, 7]);
        let m3 = db.shuffle(c, [1, 2, 7, 4]);
        (m0, m1, m2, m3)
    }
}

impl Quads for u32x8 {
    #[inline(always)]
    fn of_row(row: u32x4) -> Self {
        row.shuffle(row, [0, 1, 2, 3, 0, 1, 2, 3])
    }

    #[inline(always)]
    fn down_one(self) -> Self {
        self.shuffle(self, [1, 2, 3, 0, 5, 6, 7, 4])
    }

    #[inline(always)]
    fn down_two(self) -> Self {
        self.shuffle(self, [2, 3, 0, 1, 6, 7, 4, 5])
    }

    #[inline(always)]
    fn down_three(self) -> Self {
        self.shuffle(self, [3, 0, 1, 2, 7, 4, 5, 6])
    }

    #[inline(always)]
    fn message(a: Self, b: Self, c: Self, d: Self) -> (Self, Self, Self, Self) {
        let m0 = a.shuffle(b, [0, 2, 8, 10, 4, 6, 12, 14]);
        let m1 = a.shuffle(b, [1, 3, 9, 11, 5, 7, 13, 15]);
        let m2 = c.shuffle(d, [0, 2, 8, 10, 4, 6, 12, 14]);
        let m3 = c.shuffle(d, [1, 3, 9, 11, 5, 7, 13, 15]);
        (m0, m1, m2, m3)
    }

    #[inline(always)]
    fn permute(a: Self, b: Self, c: Self, d: Self) -> (Self, Self, Self, Self) {
        let cd = c.shuffle(d, [0, 1, 10, 3, 4, 5, 14, 7]);
        let bc = b.shuffle(c, [0, 10, 2, 3, 4, 14, 6, 7]);
        let db = d.shuffle(b, [0, 1, 10, 3, 4, 5, 14, 7]);
        let m0 = a.shuffle(b, [1, 9, 11, 2, 5, 13, 15, 6]);
        let m1 = a.shuffle(cd, [3, 9, 0, 10, 7, 13, 4, 14]);
        let m2 = bc.shuffle(d, [0, 1, 8, 11, 4, 5, 12, 15]);
        let m3 = db.shuffle(c, [1, 2, 11, 8, 5, 6, 15, 12]);
        (m0, m1, m2, m3)
    }
}

// Applies G to the columns of each state: the first half of a round.
#[inline(always)]
fn columns<V: Quads>(v: (V, V, V, V), m: (V, V, V, V)) -> (V, V, V, V)
    ensures { (i : ℕ) → 4 * i + 3 < V.LANES → rows_state V.word i result ≡ columns (rows_state V.word i v) (rows_message V.word i m) }
{
    g(v.0, v.1, v.2, v.3, m.0, m.1)
}

// Applies G to the diagonals of each state: the second half of a round.
#[inline(always)]
fn diagonals<V: Quads>(v: (V, V, V, V), m: (V, V, V, V)) -> (V, V, V, V)
    ensures { (i : ℕ) → 4 * i + 3 < V.LANES → rows_state V.word i result ≡ diagonals (rows_state V.word i v) (rows_message V.word i m) }
{
    let b0 = v.1.down_one();
    let c0 = v.2.down_two();
    let d0 = v.3.down_three();
    let (a, b1, c1, d1) = g(v.0, b0, c0, d0, m.2, m.3);
    let b = b1.down_three();
    let c = c1.down_two();
    let d = d1.down_one();
    (a, b, c, d)
}

#[inline(always)]
fn round<V: Quads>(v: (V, V, V, V), m: (V, V, V, V)) -> (V, V, V, V)
    ensures { (i : ℕ) → 4 * i + 3 < V.LANES → rows_state V.word i result ≡ round (rows_state V.word i v) (rows_message V.word i m) }
{
    diagonals(columns(v, m), m)
}

#[inline(always)]
fn permute<V: Quads>(m: (V, V, V, V)) -> (V, V, V, V)
    ensures { (i : ℕ) → 4 * i + 3 < V.LANES → rows_message V.word i result ≡ permute (rows_message V.word i m) }
{
    V::permute(m.0, m.1, m.2, m.3)
}

/// The states after the seven rounds. Counts one compression for each state.
#[inline(always)]
pub(crate) fn seven_rounds<V: Quads>(
    v0: (V, V, V, V),
    m0: (V, V, V, V),
    work: &mut Work,
) -> (V, V, V, V)
    ensures states { (i : ℕ) → 4 * i + 3 < V.LANES → rows_state V.word i result ≡ rounds 7 (rows_state V.word i v0) (rows_message V.word i m0) }
    ensures count { work.new ≡ counted work.old (V.LANES / 4) }
{
    work.add((V::LANES / 4) as u64);
    let v1 = round(v0, m0);
    let m1 = permute(m0);
    let v2 = round(v1, m1);
    let m2 = permute(m1);
    let v3 = round(v2, m2);
    let m3 = permute(m2);
    let v4 = round(v3, m3);
    let m4 = permute(m3);
    let v5 = round(v4, m4);
    let m5 = permute(m4);
    let v6 = round(v5, m5);
    let m6 = permute(m5);
    round(v6, m6)
}

/// The first eight output words of each state.
#[inline(always)]
pub(crate) fn low_rows<V: Quads>(v: (V, V, V, V)) -> (V, V)
    ensures { (i : ℕ) (h : List ℕ) → 4 * i + 3 < V.LANES → rows_value V.word i result ≡ take 8 (output_words h (rows_state V.word i v)) }
{
    let front = v.0.xor(v.2);
    let back = v.1.xor(v.3.turn(8));
    (front, back)
}
