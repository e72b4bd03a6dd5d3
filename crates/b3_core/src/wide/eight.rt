//! Eight chunks at a time.

ghost use Rattle.std.specs.Prelude.{◌≡◌, ◌+◌, ◌-◌, ◌*◌, ◌^◌, ◌<◌, ◌≤◌, length, slice_index};
ghost use Rattle.b3_core.specs.Lanes.{chunk_bytes, chunk_at, eight_chunks};
ghost use Rattle.b3_core.specs.inner.Lanes.{lane};
ghost use Rattle.b3_core.specs.Tree.{chain, chunk_len};
ghost use Rattle.b3_core.specs.Work.{counted};

use crate::compression::{BLOCK_LEN, CHUNK_END, CHUNK_LEN};
use crate::mode::Mode;
use crate::node::Top;
use crate::wide::lanes::{chains, lane_words};
use crate::words::words_of_block;
use crate::work::Work;
use std::simd::u32x8;

impl Top {
    /// The nodes of eight whole chunks, the first with the number `number`: node i is `of_chunk` of chunk i with the number `number + i`.
    /// Makes their 120 compressions eight at a time.
    pub fn of_eight(mode: &Mode, bytes: &[u8; 8192], number: u64, work: &mut Work) -> [Top; 8]
        requires { number ≤ 2 ^ 64 - 8 }
        ensures nodes { result ≡ eight_chunks bytes.now number mode.now }
        ensures count { work.new ≡ counted work.old 120 }
    {
        let values = chains::<u32x8, 1>(mode, bytes, number, work);
        let n0 = Top::of_lane(mode, bytes, number, &values, 0);
        let n1 = Top::of_lane(mode, bytes, number, &values, 1);
        let n2 = Top::of_lane(mode, bytes, number, &values, 2);
        let n3 = Top::of_lane(mode, bytes, number, &values, 3);
        let n4 = Top::of_lane(mode, bytes, number, &values, 4);
        let n5 = Top::of_lane(mode, bytes, number, &values, 5);
        let n6 = Top::of_lane(mode, bytes, number, &values, 6);
        let n7 = Top::of_lane(mode, bytes, number, &values, 7);
        [n0, n1, n2, n3, n4, n5, n6, n7]
    }

    // The node of chunk `i` of eight, from the chaining values before their last blocks.
    fn of_lane(mode: &Mode, bytes: &[u8], number: u64, values: &[u32x8; 8], i: usize) -> Top
        requires eight { length bytes.now ≡ 8 * chunk_len }
        requires index { i < 8 }
        requires number { number ≤ 2 ^ 64 - 8 }
        ensures { lane slice_index i values.now ≡ chain (chunk_bytes bytes.now i) (number + i) mode.now 15
            → result ≡ chunk_at bytes.now number mode.now i }
    {
        let at = CHUNK_LEN * i + 960;
        Top {
            chaining_value: lane_words(values, i),
            block_words: words_of_block(&bytes[at..at + BLOCK_LEN]),
            counter: number + i as u64,
            block_len: 64,
            flags: (mode.flag() + CHUNK_END) as u8,
        }
    }
}
