//! All bytes of a source, which threads read in parallel.

ghost use Rattle.std.specs.Prelude.{◌≡◌, ℕ, ◌*◌, ◌<◌, IfSome, List, Option, flat_map, length, slice_index_or, true};
ghost use Rattle.std.specs.Global.{Vec};
ghost use Rattle.std.specs.Io.KnownBytes.{IsAtEnd};
ghost use Rattle.b3_parallel.specs.Rounds.{AreAll};
ghost use Rattle.b3_parallel.specs.Sources.{known_from};
ghost use Rattle.b3_parallel.specs.inner.Rounds.{StandsAt};

use crate::reading::fill_block;
use crate::source::{Places, Source};
use crate::threads::HashThreads;
use std::alloc::{AllocError, Global};
use std::thread;
use std::thread::Threads;

/// All bytes of a source of `len` bytes, in blocks of `block_len` bytes, if several threads can read it: from 16 MiB on, with at least two
/// threads. Each thread reads the blocks of its share into new memory.
///
/// Returns `None` if the source is shorter or only one thread is to read; if a block cannot be read, or the source has another length by
/// now; and if out of memory. Then the caller reads the source as a stream.
pub fn read_source<T: Threads + Sync, S: Source + Sync>(
    threads: &HashThreads<'_, T>,
    source: &S,
    len: u64,
    block_len: usize,
) -> Option<Vec<Vec<u8>>>
    requires { 0 < block_len }
    ensures { IfSome result (λ blocks. AreAll (S.bytes source.now) (flat_map (λ b. b.items) blocks.items)) }
{
    if !threads.shares(len) {
        return None;
    }
    let Ok(mut blocks) = empty_blocks(threads.alloc, len.div_ceil(block_len as u64)) else {
        return None;
    };
    read_blocks(threads, source, len, block_len, &mut blocks);
    let read = joined_len(blocks.as_slice(), block_len)?;
    if read == len && ends_at(source, len) {
        Some(blocks)
    } else {
        None
    }
}

// `count` empty blocks.
fn empty_blocks(alloc: Global, count: u64) -> Result<Vec<Vec<u8>>, AllocError> {
    let mut blocks = Vec::new(alloc);
    for _ in 0..count {
        blocks.push(Vec::new(alloc))?;
    }
    Ok(blocks)
}

// Reads the blocks of a source of `len` bytes. Those that cannot be read are left empty.
fn read_blocks<T: Threads + Sync, S: Source + Sync>(
    threads: &HashThreads<'_, T>,
    source: &S,
    len: u64,
    block_len: usize,
    blocks: &mut Vec<Vec<u8>>,
)
    ensures { (i : ℕ) (d : Vec ℕ) → i < length blocks.new.items → StandsAt (S.bytes source.now) (i * block_len) (slice_index_or blocks.new.items i d).items }
{
    let alloc = threads.alloc;
    thread::for_each_mut(
        threads.rt,
        blocks.as_mut_slice(),
        threads.number().max(1),
        &|number, block| read_block(alloc, source, len, block_len, number, block),
    );
}

// Reads the block after `number` others of a source of `len` bytes. The block is left empty if that is not possible.
fn read_block<S: Source>(
    alloc: Global,
    source: &S,
    len: u64,
    block_len: usize,
    number: usize,
    block: &mut Vec<u8>,
)
    ensures { StandsAt (S.bytes source.now) (number * block_len) block.new.items }
{
    *block = match block_of(alloc, source, len, block_len, number) {
        Some(block) => block,
        None => Vec::new(alloc),
    };
}

// The block after `number` others of a source of `len` bytes.
fn block_of<S: Source>(
    alloc: Global,
    source: &S,
    len: u64,
    block_len: usize,
    number: usize,
) -> Option<Vec<u8>>
    ensures { IfSome result (λ block. StandsAt (S.bytes source.now) (number * block_len) block.items) }
{
    let start = (number as u64).checked_mul(block_len as u64)?;
    let size = len.saturating_sub(start).min(block_len as u64) as usize;
    let Ok(mut block) = vec![in alloc; 0u8; size] else {
        return None;
    };
    let mut reader = Places::new(source, start);
    match fill_block(&mut reader, &mut block) {
        Ok(filled) if filled.count == block.len() => Some(block),
        _ => None,
    }
}

// The number of bytes in blocks, if all of them before the last are full.
fn joined_len(blocks: &[Vec<u8>], block_len: usize) -> Option<u64>
    ensures len { IfSome result (λ len. len ≡ length (flat_map (λ b. b.items) blocks.now)) }
    ensures stands { (known : Option (List ℕ)) → ((i : ℕ) (d : Vec ℕ) → i < length blocks.now → StandsAt known (i * block_len) (slice_index_or blocks.now i d).items)
        → IfSome result (λ _. StandsAt known 0 (flat_map (λ b. b.items) blocks.now)) }
{
    let mut len = 0u64;
    for number in 0..blocks.len() {
        let start = (number as u64).checked_mul(block_len as u64)?;
        if start != len {
            return None;
        }
        len = len.checked_add(blocks[number].len() as u64)?;
    }
    Some(len)
}

// Whether no byte of a source is at `place`.
fn ends_at<S: Source>(source: &S, place: u64) -> bool
    ensures { result ≡ true → IsAtEnd (known_from (S.bytes source.now) place) }
{
    let mut next = [0u8; 1];
    match source.read_at(&mut next, place) {
        Ok(count) => count == 0,
        Err(_) => false,
    }
}
