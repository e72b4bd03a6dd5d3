//! The hash by several threads: the values that `b3_core` returns, with the same counts of compressions.
//!
//! ```rust
//! let threads = HashThreads { rt, alloc, count: None };
//! let mut work = Work::new(rt);
//! let top = hash_all(&threads, &Mode::hash(), reader, &mut work)?;
//! Ok(top.root32(&mut work))
//! ```
//!
//! - `HashThreads` has the runtime, the memory and the number of threads.
//! - `hash_all` returns the node of the tree over everything that a reader has left. The calling thread reads; after the first 2 MiB each
//!   block of 2 MiB is hashed by a new thread.
//! - `hash_source` returns the node of the tree over a `Source`, such as an open file, that threads can read at any offset: each thread
//!   takes the next free block of 512 KiB, reads it and hashes it.
//! - `read_source` returns the bytes of a `Source` in blocks: each thread reads its share of them into new memory.
//! - `update` appends bytes in memory to a `Hasher`, as its own `update` does, and hashes them in whole subtrees, one thread each.
//! - `thread_count` is the number of threads that these use.
//!
//! Contracts say which value a call returns. They do not say that threads overlap, or how fast they are. No call leaves a thread running.
//! If a thread cannot be started, or memory for one cannot be allocated, the calling thread hashes alone.
//!
//! No value or count depends on the number of threads; it decides only whether `hash_source` and `read_source` return one. Threads that hash
//! one file have duplicates of its descriptor, since a file that is opened again by its name may be another file.
#![tactic(auto)]

mod blocks;
mod counted_hasher;
mod gathering;
mod line;
mod parts;
mod promised;
mod reading;
mod round;
mod rounds;
mod sizes;
mod source;
mod sourcing;
mod takers;
mod taking;
mod threads;
mod updating;

pub use gathering::read_source;
pub use reading::hash_all;
pub use sizes::thread_count;
pub use source::Source;
pub use sourcing::hash_source;
pub use threads::HashThreads;
pub use updating::update;
