//! BLAKE3 (O'Connor, Aumasson, Neves and Wilcox-O'Hearn, the specification of 2020, sections 2.1 to 2.6).
//!
//! ```rust
//! let mut work = Work::new(rt);
//! let mut hasher = Hasher::new(&Mode::hash());
//! hasher.update(first, &mut work);
//! hasher.update(second, &mut work);
//! hasher.digest(&mut work)
//! ```
//!
//! Every call returns the value that the specification defines, restated in `specs/`, for every input, and its contract says how many
//! compressions it adds to a count. No call allocates, and none can fail except `OutputReader::fill` past the end of the output.
//!
//! - `compress` is the compression function; `IV` and the flags are its constants.
//! - `Mode` is one of the three modes: hash, keyed hash, derive key.
//! - `Top` is a node of the tree before it is known whether it is the root: a chunk, or the parent of two nodes. `Top::of_eight` makes the
//!   nodes of eight chunks at once.
//! - `hash_wide` is the fast hash of bytes in memory, in any mode, by eight, four or two compressions at a time. `Top::of_input` is the
//!   root node that it uses; `Top::of_subtree` is the node of a subtree within an input, which `is_subtree` tests.
//! - `hash` computes the same value by plain recursion, one compression after the other. It takes about three times as long.
//! - `Hasher` computes the root node of bytes that arrive in pieces. `HasherState` is its state as plain numbers with C's layout.
//! - `OutputReader` reads the extended output; `CountedOutput` reads it through `std::io::Read`.
//! - `tree_laws` states the tree in the specification's own words.
//!
//! The modules `compression`, `chunk`, `node` and `tree` follow the specification; `wide` is the fast implementation.
//!
//! The hash of an input takes one compression for each block, and one for each chunk after the first.
//!
//! A `Top` keeps the inputs of its last compression: any node may be the root, which is compressed with one more flag. A `Hasher` keeps
//! only the nodes of whole subtrees and the bytes after them, so its size is fixed; its contracts hold for every input that leads to what
//! it keeps. Several compressions run side by side only if that many chunks or parents make up a subtree, so no lane of a vector is empty.
//! The code can't test which processor it is compiled for: the widest vectors always have eight words, and AVX2 makes them twice as fast.
#![tactic(auto)]

mod chunk;
mod compression;
mod counted_output;
mod derive;
mod hasher;
mod hasher_state;
mod kept;
mod laws;
mod mode;
mod node;
mod output;
mod places;
mod rows;
mod tree;
mod vectors;
mod wide;
mod words;
mod work;

pub use compression::{
    BLOCK_LEN, CHUNK_END, CHUNK_LEN, CHUNK_START, DERIVE_KEY_CONTEXT, DERIVE_KEY_MATERIAL, IV,
    KEYED_HASH, PARENT, ROOT, compress,
};
pub use counted_output::CountedOutput;
pub use hasher::Hasher;
pub use hasher_state::HasherState;
pub use laws::tree_laws;
pub use mode::Mode;
pub use node::Top;
pub use output::{OutputEnd, OutputReader};
pub use tree::hash;
pub use wide::{hash_wide, is_subtree};
pub use work::{Runtime, Work};
