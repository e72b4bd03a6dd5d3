//! A chunk: a leaf of the tree.

ghost use Rattle.std.specs.Prelude.{◌≡◌, ◌-◌, ◌≤◌, length};
ghost use Rattle.b3_core.specs.Tree.{chunk_len, chunk_top};
ghost use Rattle.b3_core.specs.Work.{counted, block_count};

use crate::compression::{BLOCK_LEN, CHUNK_END, compress_to_value, start_flag};
use crate::mode::Mode;
use crate::node::Top;
use crate::words::{words_of_block, words_of_short_block};
use crate::work::Work;

impl Top {
    /// The node of one chunk of at most 1024 bytes (section 2.4). `number` counts the chunks before it in the input.
    pub fn of_chunk(mode: &Mode, bytes: &[u8], number: u64, work: &mut Work) -> Top
        requires { length bytes.now ≤ chunk_len }
        ensures node { result ≡ chunk_top bytes.now number mode.now }
        ensures count { work.new ≡ counted work.old (block_count (length bytes.now) - 1) }
    {
        let last = bytes.len().saturating_sub(1) / BLOCK_LEN;
        let mut chaining_value = mode.key();
        // The proof refers to the loop by this label.
        'blocks: for j in 0..last {
            let at = BLOCK_LEN * j;
            let block = words_of_block(&bytes[at..at + BLOCK_LEN]);
            let flags = mode.flag() + start_flag(j);
            chaining_value = compress_to_value(&chaining_value, &block, number, 64, flags, work);
        }
        let tail = &bytes[BLOCK_LEN * last..];
        Top {
            chaining_value,
            block_words: words_of_short_block(tail),
            counter: number,
            block_len: tail.len() as u32,
            flags: (mode.flag() + start_flag(last) + CHUNK_END) as u8,
        }
    }
}
