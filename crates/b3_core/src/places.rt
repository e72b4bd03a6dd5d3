//! The nodes and the bytes that a hasher keeps, with C's layout.

ghost use Rattle.std.specs.Prelude.{◌≡◌, ℕ, ◌+◌, ◌-◌, ◌<◌, ◌≤◌, ◌↔◌, ◌++◌, ◌==◌, [], ◌∷◌, Some, length, min, reverse, slice_get, true};
ghost use Rattle.b3_core.specs.Kept.{max_levels, nodes_of, tail_of};
ghost use Rattle.b3_core.specs.Tree.{ModelTop, chunk_len};

use crate::compression::CHUNK_LEN;
use crate::mode::Mode;
use crate::node::Top;
use std::marker::Model;

/// The number of levels of a tree over less than 2^64 bytes.
pub(crate) const LEVELS: usize = 54;

/// The node over 2^level whole chunks.
#[derive(Clone, Copy)]
#[repr(C)]
pub(crate) struct StackNode {
    pub(crate) level: u32,
    pub(crate) top: Top,
}

impl Model for StackNode {
    ghost use Rattle.std.specs.Prelude.{ℕ};
    ghost use Rattle.b3_core.specs.Tree.{ModelTop};

    ghost Value = { ℕ × ModelTop };

    ghost view = { λ s. (s.level, s.top) };

    ghost inverse = { λ s. record { level = s.0; top = s.1 } };
}

/// A stack of nodes in an array. A length above the number of places counts as that number.
#[derive(Clone, Copy)]
#[repr(C)]
pub(crate) struct Stack {
    places: [StackNode; LEVELS],
    len: u32,
}

impl Stack {
    /// An empty stack.
    #[tactic(auto, unfolding(crate::specs::Kept::nodes_of))]
    pub(crate) fn new() -> Stack
        ensures nodes { nodes_of result ≡ [] }
        ensures fits { result.len ≤ max_levels }
    {
        let blank = StackNode {
            level: 0,
            top: Top::of_children(&Mode::hash(), [0; 8], [0; 8]),
        };
        Stack {
            places: [blank; LEVELS],
            len: 0,
        }
    }

    /// Drops all nodes.
    #[tactic(auto, unfolding(crate::specs::Kept::nodes_of))]
    pub(crate) fn clear(&mut self)
        ensures nodes { nodes_of self.new ≡ [] }
        ensures fits { self.new.len ≤ max_levels }
    {
        self.len = 0;
    }

    /// Whether the length is at most the number of places.
    pub(crate) fn fits(&self) -> bool
        ensures { result ≡ true ↔ self.now.len ≤ max_levels }
    {
        self.len as usize <= LEVELS
    }

    /// The nodes.
    #[tactic(auto, unfolding(crate::specs::Kept::nodes_of))]
    pub(crate) fn as_slice(&self) -> &[StackNode]
        ensures value { result.now ≡ nodes_of self.now }
        ensures fits { length result.now ≤ max_levels }
    {
        &self.places[..(self.len as usize).min(LEVELS)]
    }

    /// Drops the last node, if there is one.
    pub(crate) fn pop(&mut self)
        ensures rest { (last : ℕ × ModelTop) → slice_get (nodes_of self.old) (length (nodes_of self.old) - 1) ≡ Some last
            → reverse (nodes_of self.old) ≡ last ∷ reverse (nodes_of self.new) }
        ensures fewer { 0 < length (nodes_of self.old) → length (nodes_of self.new) < length (nodes_of self.old) }
        ensures fits { self.new.len ≤ max_levels }
    {
        self.len = self.len.min(LEVELS as u32).saturating_sub(1);
    }

    /// Appends a node, if there is room.
    pub(crate) fn push(&mut self, next: StackNode)
        ensures nodes { length (nodes_of self.old) < max_levels → reverse (nodes_of self.new) ≡ next ∷ reverse (nodes_of self.old) }
        ensures fits { self.old.len ≤ max_levels → self.new.len ≤ max_levels }
    {
        let len = self.len as usize;
        if len < LEVELS {
            self.places[len] = next;
            self.len += 1;
        }
    }
}

/// The bytes of a chunk that was begun. A length above the number of places counts as that number.
#[derive(Clone, Copy)]
#[repr(C)]
pub(crate) struct Tail {
    len: u32,
    places: [u8; CHUNK_LEN],
}

impl Tail {
    /// No bytes.
    #[tactic(auto, unfolding(crate::specs::Kept::tail_of))]
    pub(crate) fn new() -> Tail
        ensures bytes { tail_of result ≡ [] }
        ensures fits { result.len ≤ chunk_len }
    {
        Tail {
            len: 0,
            places: [0; CHUNK_LEN],
        }
    }

    /// Drops all bytes.
    #[tactic(auto, unfolding(crate::specs::Kept::tail_of))]
    pub(crate) fn clear(&mut self)
        ensures bytes { tail_of self.new ≡ [] }
        ensures fits { self.new.len ≤ chunk_len }
    {
        self.len = 0;
    }

    /// Whether the length is at most the number of places.
    pub(crate) fn fits(&self) -> bool
        ensures { result ≡ true ↔ self.now.len ≤ chunk_len }
    {
        self.len as usize <= CHUNK_LEN
    }

    /// The number of bytes.
    #[tactic(auto, unfolding(crate::specs::Kept::tail_of))]
    pub(crate) fn len(&self) -> usize
        ensures value { result ≡ length (tail_of self.now) }
        ensures places { result ≡ min self.now.len chunk_len }
    {
        (self.len as usize).min(CHUNK_LEN)
    }

    /// Whether there are no bytes.
    pub(crate) fn is_empty(&self) -> bool
        ensures { result ≡ (length (tail_of self.now) == 0) }
    {
        self.len() == 0
    }

    /// Whether the bytes are a whole chunk.
    pub(crate) fn is_full(&self) -> bool
        ensures { result ≡ (length (tail_of self.now) == chunk_len) }
    {
        self.len() == CHUNK_LEN
    }

    /// The number of bytes missing to a whole chunk.
    pub(crate) fn room(&self) -> usize
        ensures { result + length (tail_of self.now) ≡ chunk_len }
    {
        CHUNK_LEN - self.len()
    }

    #[tactic(auto, unfolding(crate::specs::Kept::tail_of))]
    pub(crate) fn as_slice(&self) -> &[u8]
        ensures value { result.now ≡ tail_of self.now }
        ensures fits { length result.now ≤ chunk_len }
    {
        &self.places[..self.len()]
    }

    /// Appends `bytes`, if there is room for all of them.
    pub(crate) fn extend(&mut self, bytes: &[u8])
        ensures bytes { length (tail_of self.old) + length bytes.now ≤ chunk_len → tail_of self.new ≡ tail_of self.old ++ bytes.now }
        ensures fits { self.old.len ≤ chunk_len → self.new.len ≤ chunk_len }
    {
        let len = self.len();
        if bytes.len() <= self.room() {
            let end = len + bytes.len();
            self.places[len..end].copy_from_slice(bytes);
            self.len = end as u32;
        }
    }
}
