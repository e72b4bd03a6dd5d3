//! The threads that hash.

use crate::sizes::thread_count;
use std::alloc::Global;
use std::thread::Threads;

// The minimum number of bytes of a source for which threads are started.
const LEAST: u64 = 1 << 24;

/// The threads and the memory of a hash by several threads.
#[derive(Drop)]
pub struct HashThreads<'a, T> {
    /// The runtime that starts the threads.
    pub rt: &'a T,
    /// The memory for blocks and results.
    pub alloc: Global,
    /// The number of threads that hash, up to 16; with `None` there are as many as the machine has processors.
    pub count: Option<u32>,
}

impl<T: Threads> HashThreads<'_, T> {
    /// The number of threads that hash.
    pub(crate) fn number(&self) -> usize {
        thread_count(self.rt, self.count)
    }

    /// Whether several threads read a source of `len` bytes.
    pub(crate) fn shares(&self, len: u64) -> bool {
        LEAST <= len && 1 < self.number()
    }
}
