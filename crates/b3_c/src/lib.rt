//! BLAKE3 for programs in C, and in every language that can call C: what `include/b3.h` declares.
//!
//! Each call is one of `b3_core`, and restates its contract. A caller only has to ensure that a pointer and a length are valid memory, and
//! that what is written overlaps nothing else. Every other mistake is reported by a number (`answers`), and then the caller's memory is
//! unchanged. A slice is a pointer followed by a length; the count of compressions is a `uint64_t` that the caller owns.
//!
//! - `whole` hashes bytes in memory: `b3_hash_counted`, `b3_keyed_hash_counted`, `b3_derive_key_counted`, `b3_extended_counted`.
//! - `hashers` hashes bytes that arrive in pieces, by a hasher that the caller keeps: `b3_hasher_init`, `b3_hasher_update`,
//!   `b3_hasher_finalize`, `b3_hasher_extended`.
//! - `nodes` hashes a tree node by node, for the caller's own threads: `b3_subtree`, `b3_parent`, `b3_root`.
//! - `version` has the library's version: `b3_version`.
//!
//! Nothing proves that a caller in C meets a contract, so each call tests what `b3_core` requires. No type that C can see has an invariant:
//! a hasher may hold any numbers; a length or a flag out of range is reported, and no call reads beyond the hasher. A caller passes the
//! length of an output even if it must be 32, so that a wrong one is reported. `b3_parent` and `b3_root` exist for the modes hash and
//! keyed_hash only: a `Mode` alone has the key words of derive_key.
#![tactic(auto)]

mod answers;
mod hashers;
mod nodes;
mod version;
mod whole;

pub use hashers::{b3_hasher_extended, b3_hasher_finalize, b3_hasher_init, b3_hasher_update};
pub use nodes::{b3_parent, b3_root, b3_subtree};
pub use version::b3_version;
pub use whole::{
    b3_derive_key_counted, b3_extended_counted, b3_hash_counted, b3_keyed_hash_counted,
};
