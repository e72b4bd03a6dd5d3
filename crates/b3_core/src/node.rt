//! A node of the tree: one chunk (`chunk.rt`), or the parent of two nodes.

ghost use Rattle.std.specs.Prelude.{◌≡◌, ℕ, ◌+◌, ◌*◌, ◌^◌, ◌<◌, ◌≤◌, Some, length, slice_index};
ghost use Rattle.b3_core.specs.ExtendedOutput.{output_of, root_words_of};
ghost use Rattle.b3_core.specs.Tree.{ModelTop, parent_top, chaining_value_of, block_size};
ghost use Rattle.b3_core.specs.Texts.{top_text};
ghost use Rattle.b3_core.specs.Work.{counted};

use crate::compression::{PARENT, ROOT, compress, compress_to_value};
use crate::mode::Mode;
use crate::words::{bytes_of, joined};
use crate::work::Work;
use std::fmt;
use std::marker::Model;

/// A node of the tree: the inputs of its last compression, before it is known whether it is the root.
///
/// A node yields either a chaining value for its parent or, as the root, the hash and the extended output. It keeps what both need.
#[derive(Clone, Copy, PartialEq, Eq)]
#[repr(C)]
pub struct Top {
    pub(crate) chaining_value: [u32; 8],
    pub(crate) block_words: [u32; 16],
    pub(crate) counter: u64,
    pub(crate) block_len: u32,
    // Eight bits, so that `u32::from(flags) + ROOT` cannot overflow.
    pub(crate) flags: u8,
}

impl Model for Top {
    ghost Value = { ModelTop };

    ghost view = { λ n. record {
      chaining_value = n.chaining_value;
      block_words = n.block_words;
      counter = n.counter;
      block_len = n.block_len;
      flags = n.flags;
    } };

    ghost inverse = { λ n. record {
      chaining_value = n.chaining_value;
      block_words = n.block_words;
      counter = n.counter;
      block_len = n.block_len;
      flags = n.flags;
    } };
}

impl Top {
    /// The parent of two nodes (section 2.5).
    pub fn parent(mode: &Mode, left: &Top, right: &Top, work: &mut Work) -> Top
        ensures node { result ≡ parent_top left.now right.now mode.now }
        ensures count { work.new ≡ counted work.old 2 }
    {
        let left_value = left.cv(work);
        let right_value = right.cv(work);
        Top::of_children(mode, left_value, right_value)
    }

    /// The parent of two nodes with these chaining values.
    pub(crate) fn of_children(mode: &Mode, left: [u32; 8], right: [u32; 8]) -> Top
        ensures { (l r : ModelTop) → left ≡ chaining_value_of l → right ≡ chaining_value_of r
            → result ≡ parent_top l r mode.now }
    {
        Top {
            chaining_value: mode.key(),
            block_words: joined(left, right),
            counter: 0,
            block_len: 64,
            flags: (mode.flag() + PARENT) as u8,
        }
    }

    /// The chaining value of this node: the first 8 words of its last compression, without ROOT.
    pub fn cv(&self, work: &mut Work) -> [u32; 8]
        ensures value { result ≡ chaining_value_of self.now }
        ensures count { work.new ≡ counted work.old 1 }
    {
        compress_to_value(
            &self.chaining_value,
            &self.block_words,
            self.counter,
            self.block_len,
            u32::from(self.flags),
            work,
        )
    }

    /// Block `i`, 64 bytes, of the extended output of this node as the root (section 2.6).
    pub(crate) fn output_block(&self, i: u64, work: &mut Work) -> [u8; 64]
        ensures bytes { result ≡ output_of self.now (block_size * i) block_size }
        ensures count { work.new ≡ counted work.old 1 }
    {
        bytes_of(self.root_words(i, work))
    }

    // Block `i` of the extended output, as 16 words.
    fn root_words(&self, i: u64, work: &mut Work) -> [u32; 16]
        ensures words { result ≡ root_words_of self.now i }
        ensures count { work.new ≡ counted work.old 1 }
    {
        compress(
            &self.chaining_value,
            &self.block_words,
            i,
            self.block_len,
            u32::from(self.flags) + ROOT,
            work,
        )
    }

    /// The hash of the input of which this node is the root: the first 32 bytes of its extended output.
    pub fn root32(&self, work: &mut Work) -> [u8; 32]
        ensures bytes { result ≡ output_of self.now 0 32 }
        ensures count { work.new ≡ counted work.old 1 }
    {
        let block = self.output_block(0, work);
        let mut hash = [0; 32];
        hash.copy_from_slice(&block[..32]);
        hash
    }
}

/// Shows the counter, the length and the flags, but none of the words: in a keyed parent they include the key.
impl fmt::Debug for Top {
    ghost debug_output = { λ top. Some (top_text top) };

    fn fmt<W: fmt::Write>(&self, f: &mut fmt::Formatter<W>) -> fmt::Result {
        let Top {
            counter,
            block_len,
            flags,
            ..
        } = self;
        write!(
            f,
            "Top {{ counter: {counter}, block_len: {block_len}, flags: {flags} }}"
        )
    }
}
