//! A hasher, followed by a line of blocks that threads are hashing.

ghost use Rattle.std.specs.Prelude.{◌<◌};

use crate::blocks::{Block, Handle, hash_block, start};
use crate::counted_hasher::CountedHasher;
use crate::sizes::{bytes_of, chunks_of};
use crate::threads::HashThreads;
use b3_core::{Mode, Runtime, Work};
use std::collections::VecDeque;
use std::thread::Threads;

/// A hasher, and the threads that hash the blocks after its input, each of 2^`level` chunks, in order.
#[derive(Drop)]
pub(crate) struct BlockLine {
    pub(crate) front: CountedHasher,
    handles: VecDeque<Handle>,
    pub(crate) level: u32,
    ghost level_fits: { level < 40 },
}

impl BlockLine {
    ghost use Rattle.std.specs.Prelude.{◌≡◌, ℕ, ◌+◌, ◌*◌, ◌/◌, ◌^◌, ◌<◌, ◌≤◌, ◌++◌, List, [], IfSome, None, length};
    ghost use Rattle.b3_core.specs.Tree.{ModelMode, chunk_len};
    ghost use Rattle.b3_parallel.specs.inner.Blocks.{IsHashed, IsReady};
    ghost use Rattle.b3_parallel.specs.inner.Lines.{Carries};

    /// A hasher that has been given no bytes, and no blocks.
    pub(crate) fn new<T: Runtime>(
        threads: &HashThreads<'_, T>,
        mode: &Mode,
        level: u32,
    ) -> BlockLine
        requires { level < 40 }
        ensures ready { IsReady mode.now result.level result.front [] }
        ensures empty { result.handles.items ≡ [] }
        ensures level { result.level ≡ level }
    {
        BlockLine {
            front: CountedHasher::new(threads.rt, mode),
            handles: VecDeque::new(threads.alloc),
            level,
        }
    }

    // Waits for the first thread, if there is one, and appends its block to the hasher. Returns the block's bytes.
    fn settle_first<T: Threads>(&mut self, rt: &T) -> Option<Vec<u8>>
        ensures level { self.new.level ≡ self.old.level }
        ensures fewer { IfSome result (λ _. length self.new.handles.items < length self.old.handles.items) }
        ensures empty { result ≡ None → self.new.handles.items ≡ [] }
        ensures carries { (p : ModelMode) (x : List ℕ) → length x < 2 ^ 64 → Carries p self.old x → Carries p self.new x }
    {
        let level = self.level;
        match self.handles.pop_front() {
            Some(handle) => {
                let Block { bytes, top, work } = handle.join(rt);
                self.front.append(&top, level, work);
                Some(bytes)
            }
            None => None,
        }
    }

    /// Waits for all threads.
    pub(crate) fn settle_all<T: Threads>(&mut self, rt: &T)
        ensures level { self.new.level ≡ self.old.level }
        ensures empty { self.new.handles.items ≡ [] }
        ensures carries { (p : ModelMode) (x : List ℕ) → length x < 2 ^ 64 → Carries p self.old x → Carries p self.new x }
    {
        while let Some(_bytes) = self.settle_first(rt) {}
    }

    // Waits for all threads, then appends a block that this thread has hashed.
    fn put_hashed<T: Threads>(&mut self, rt: &T, block: Block)
        ensures level { self.new.level ≡ self.old.level }
        ensures carries { (p : ModelMode) (x mine : List ℕ) → Carries p self.old x → length mine ≡ chunk_len * 2 ^ self.old.level
            → IsHashed p mine (length x / chunk_len) block.top block.work → length x + length mine < 2 ^ 64 → Carries p self.new (x ++ mine) }
    {
        self.settle_all(rt);
        let level = self.level;
        let Block { top, work, .. } = block;
        self.front.append(&top, level, work);
    }

    /// Appends a block, with `place` blocks before it, and returns whether a thread hashes it. If none can be started, this thread has
    /// hashed it.
    pub(crate) fn put<T: Threads + Runtime>(&mut self, rt: &T, bytes: Vec<u8>, place: u64) -> bool
        requires len { length bytes.items ≡ chunk_len * 2 ^ self.old.level }
        requires place { (place + 1) * 2 ^ self.old.level ≤ 2 ^ 53 }
        ensures level { self.new.level ≡ self.old.level }
        ensures carries { (p : ModelMode) (x : List ℕ) → Carries p self.old x → length x ≡ chunk_len * (place * 2 ^ self.old.level)
            → Carries p self.new (x ++ bytes.items) }
    {
        let mode = self.front.hasher.mode();
        let number = place * chunks_of(self.level);
        if self.handles.reserve(1).is_err() {
            let block = hash_block(mode, bytes, number, Work::new(rt));
            self.put_hashed(rt, block);
            return false;
        }
        match start(rt, mode, bytes, number, Work::new(rt)) {
            Ok(handle) => {
                self.handles.push_back_reserved(handle);
                true
            }
            Err(block) => {
                self.put_hashed(rt, block);
                false
            }
        }
    }

    /// Memory for the next block: that of the first block if `most` threads are running; otherwise new memory, if it can be allocated.
    pub(crate) fn next_place<T: Threads>(
        &mut self,
        threads: &HashThreads<'_, T>,
        most: usize,
    ) -> Option<Vec<u8>>
        ensures level { self.new.level ≡ self.old.level }
        ensures len { IfSome result (λ bytes. length bytes.items ≡ chunk_len * 2 ^ self.old.level) }
        ensures carries { (p : ModelMode) (x : List ℕ) → length x < 2 ^ 64 → Carries p self.old x → Carries p self.new x }
    {
        let len = bytes_of(self.level);
        if self.handles.len() < most {
            return vec![in threads.alloc; 0u8; len].ok();
        }
        match self.settle_first(threads.rt) {
            Some(bytes) if bytes.len() == len => Some(bytes),
            _ => None,
        }
    }
}
