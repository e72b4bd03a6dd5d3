//! The hash of everything that a reader has left, by several threads.

ghost use Rattle.std.specs.Prelude.{◌≡◌, ◌≢◌, ℕ, ◌+◌, ◌-◌, ◌*◌, ◌^◌, ◌<◌, ◌≤◌, ◌++◌, List, [], IfErr, IfOk, None, OnOk, length, take, true, false, vec_len};
ghost use Rattle.std.specs.Io.KnownBytes.{Consumes, IsAtEnd, Keeps};
ghost use Rattle.b3_core.specs.Hashers.{count_of};
ghost use Rattle.b3_core.specs.Tree.{ModelMode, chunk_len, tree_top};
ghost use Rattle.b3_core.specs.Work.{NeverFalls, counted, hash_work};
ghost use Rattle.b3_parallel.specs.inner.Blocks.{HasRead, IsGiven, IsReady};
ghost use Rattle.b3_parallel.specs.inner.Lines.{Carries, last_of};

use crate::counted_hasher::CountedHasher;
use crate::line::BlockLine;
use crate::sizes::{BLOCK_LEVEL, MAX_BLOCKS, block_limit, buffer_len, bytes_of};
use crate::threads::HashThreads;
use b3_core::{Mode, Runtime, Top, Work};
use std::io;
use std::io::{Error, ErrorKind, Read};
use std::thread::Threads;

/// How a block was filled.
#[derive(Clone, Copy, Drop)]
pub(crate) struct Filled {
    /// The number of bytes in it.
    pub(crate) count: usize,
    /// Whether one read returned them all.
    pub(crate) at_once: bool,
}

// Reads until the block is full or the reader is at its end.
fn fill<R: Read>(reader: &mut R, block: &mut [u8]) -> io::Result<Filled>
    ensures len { length block.new ≡ length block.old }
    ensures count { IfOk result (λ filled. filled.count ≤ length block.old) }
    ensures bytes { IfOk result (λ filled. Consumes (R.remaining reader.old) (R.remaining reader.new) (take filled.count block.new)) }
    ensures end { IfOk result (λ filled. filled.count < length block.old → IsAtEnd (R.remaining reader.new)) }
{
    let mut count = 0;
    for reads in 0..u64::MAX {
        if count >= block.len() {
            return Ok(filled_by(count, reads));
        }
        match reader.read(&mut block[count..]) {
            Ok(0) => return Ok(filled_by(count, reads)),
            Ok(more) => count += more,
            Err(error) if error.kind() == ErrorKind::Interrupted => {}
            Err(error) => return Err(error),
        }
    }
    Err(Error::from(ErrorKind::Interrupted))
}

// A block with `count` bytes that took `reads` reads.
fn filled_by(count: usize, reads: u64) -> Filled
    ensures { result.count ≡ count }
{
    Filled {
        count,
        at_once: reads < 2,
    }
}

/// Reads until the block is full or the reader is at its end.
pub(crate) fn fill_block<R: Read>(reader: &mut R, block: &mut Vec<u8>) -> io::Result<Filled>
    ensures len { length block.new.items ≡ vec_len block.old }
    ensures count { IfOk result (λ filled. filled.count ≤ vec_len block.old) }
    ensures bytes { IfOk result (λ filled. Consumes (R.remaining reader.old) (R.remaining reader.new) (take filled.count block.new.items)) }
    ensures end { IfOk result (λ filled. filled.count < vec_len block.old → IsAtEnd (R.remaining reader.new)) }
{
    fill(reader, block.as_mut_slice())
}

// Reads once, at most `most` bytes.
fn read_some<R: Read>(reader: &mut R, buffer: &mut [u8], most: u64) -> io::Result<usize>
    requires { (0 < most) × (0 < length buffer.old) }
    ensures len { length buffer.new ≡ length buffer.old }
    ensures count { IfOk result (λ n. (n ≤ most) × (n ≤ length buffer.old)) }
    ensures bytes { IfOk result (λ n. Consumes (R.remaining reader.old) (R.remaining reader.new) (take n buffer.new)) }
    ensures end { IfOk result (λ n. n ≡ 0 → IsAtEnd (R.remaining reader.new)) }
    ensures kept { IfErr result (λ _. Keeps (R.remaining reader.old) (R.remaining reader.new)) }
{
    let len = most.min(buffer.len() as u64) as usize;
    reader.read(&mut buffer[..len])
}

// Reads bytes into a hasher, a buffer at a time, until it has been given `until` bytes or the reader is at its end. Returns whether the
// reader is at its end.
pub(crate) fn hash_until<R: Read>(
    front: &mut CountedHasher,
    reader: &mut R,
    buffer: &mut [u8],
    until: u64,
) -> io::Result<bool>
    requires { 0 < length buffer.old }
    ensures mode { front.new.hasher.mode ≡ front.old.hasher.mode }
    ensures len { length buffer.new ≡ length buffer.old }
    ensures given { (x : List ℕ) → IsGiven front.old x → length x ≤ until
        → OnOk result (HasRead until front.new x (R.remaining reader.old) (R.remaining reader.new)) }
    ensures full { IfOk result (λ ended. ended ≡ false → until ≤ count_of front.new.hasher) }
    ensures end { IfOk result (λ ended. ended ≡ true → IsAtEnd (R.remaining reader.new)) }
{
    for _ in 0..u64::MAX {
        let given = front.hasher.count();
        if given >= until {
            return Ok(false);
        }
        match read_some(reader, buffer, until - given) {
            Ok(0) => return Ok(true),
            Ok(count) => front.update(&buffer[..count]),
            Err(error) if error.kind() == ErrorKind::Interrupted => {}
            Err(error) => return Err(error),
        }
    }
    Err(Error::from(ErrorKind::Interrupted))
}

/// The node of the tree over all bytes that the reader has left, and the count of its compressions.
///
/// This thread reads, and hashes the first 2 MiB. After them each block of 2 MiB is hashed by a new thread while this one reads the next;
/// the nodes are joined in the order of the blocks. If a thread cannot be started or memory for a block cannot be allocated, this thread
/// hashes the remaining bytes. No thread is left running, even after a failed read. Shorter inputs start no thread. A reader that returns a
/// block in small reads, as a pipe does, is slower than this thread hashes; then this thread hashes the remaining bytes too.
///
/// `threads.count` is the number of blocks hashed at once, up to 10 (more threads would find no block to hash). With 1, this thread hashes
/// alone.
///
/// The error is that of the first failed read, `OutOfMemory` if 64 KiB cannot be allocated, or `FileTooLarge` for 2^64-1 bytes or more.
pub fn hash_all<T: Threads + Runtime, R: Read>(
    threads: &HashThreads<'_, T>,
    mode: &Mode,
    reader: &mut R,
    work: &mut Work,
) -> io::Result<Top>
    ensures node { IfOk result (λ top. (input : List ℕ) × (top ≡ tree_top input 0 mode.now) × Consumes (R.remaining reader.old) (R.remaining reader.new) input
        × (work.new ≡ counted work.old (hash_work (length input) - 1))) }
    ensures end { OnOk result (IsAtEnd (R.remaining reader.new)) }
    ensures never_falls { NeverFalls work.old work.new }
{
    let mut line = BlockLine::new(threads, mode, BLOCK_LEVEL);
    let made = hash_in_blocks(threads, &mut line, reader);
    work.absorb(line.front.work);
    made
}

// Hashes all bytes of a reader by the threads of a line of blocks, which has been given nothing yet.
fn hash_in_blocks<T: Threads + Runtime, R: Read>(
    threads: &HashThreads<'_, T>,
    line: &mut BlockLine,
    reader: &mut R,
) -> io::Result<Top>
    requires { line.old.handles.items ≡ [] }
    ensures node { (p : ModelMode) → IsReady p line.old.level line.old.front [] → IfOk result (λ top. (input : List ℕ) × (top ≡ tree_top input 0 p)
        × Consumes (R.remaining reader.old) (R.remaining reader.new) input × (line.new.front.work ≡ counted 0 (hash_work (length input) - 1))) }
    ensures end { OnOk result (IsAtEnd (R.remaining reader.new)) }
{
    let mut buffer = vec![in threads.alloc; 0u8; buffer_len()]?;
    let first = bytes_of(line.level) as u64;
    if hash_until(&mut line.front, reader, &mut buffer, first)? {
        return Ok(line.front.top());
    }
    if hash_in_line(threads, line, reader)? {
        return Ok(line.front.top());
    }
    if hash_until(&mut line.front, reader, &mut buffer, u64::MAX)? {
        return Ok(line.front.top());
    }
    Err(Error::from(ErrorKind::FileTooLarge))
}

// Hashes the bytes after the first block, which the hasher has been given, in a line of blocks. Returns whether the reader is at its end.
// It stops earlier if there is only one thread, a thread cannot be started, or an allocation fails.
fn hash_in_line<T: Threads + Runtime, R: Read>(
    threads: &HashThreads<'_, T>,
    line: &mut BlockLine,
    reader: &mut R,
) -> io::Result<bool>
    requires { line.old.handles.items ≡ [] }
    ensures given { (x : List ℕ) → IsGiven line.old.front x → length x ≡ chunk_len * 2 ^ line.old.level
        → OnOk result ((line.new.front.hasher.mode ≡ line.old.front.hasher.mode) × HasRead (2 ^ 64 - 1) line.new.front x (R.remaining reader.old) (R.remaining reader.new)) }
    ensures end { IfOk result (λ ended. ended ≡ true → IsAtEnd (R.remaining reader.new)) }
{
    let count = threads.number();
    if count < 2 {
        return Ok(false);
    }
    let last = read_in_line(threads, line, reader, count.min(MAX_BLOCKS));
    // After a failed read some threads may still be running.
    line.settle_all(threads.rt);
    match last? {
        Some(bytes) => {
            line.front.update(&bytes);
            Ok(true)
        }
        None => Ok(false),
    }
}

// Reads blocks after the first one and appends each to the line, as long as each arrives in one read; `most` are hashed at once. Returns
// the last bytes, fewer than a block, or `None` if the reader may have more.
fn read_in_line<T: Threads + Runtime, R: Read>(
    threads: &HashThreads<'_, T>,
    line: &mut BlockLine,
    reader: &mut R,
    most: usize,
) -> io::Result<Option<Vec<u8>>>
    ensures level { line.new.level ≡ line.old.level }
    ensures carries { (p : ModelMode) (x : List ℕ) → Carries p line.old x → length x ≡ chunk_len * 2 ^ line.old.level
        → IfOk result (λ last. (y : List ℕ) × Carries p line.new (x ++ y)
        × Consumes (R.remaining reader.old) (R.remaining reader.new) (y ++ last_of last) × (length (x ++ y) + length (last_of last) < 2 ^ 64)) }
    ensures end { IfOk result (λ last. last ≢ None → IsAtEnd (R.remaining reader.new)) }
{
    for place in 1..block_limit(line.level) {
        let Some(mut block) = line.next_place(threads, most) else {
            return Ok(None);
        };
        let filled = fill_block(reader, &mut block)?;
        if filled.count < block.len() {
            block.truncate(filled.count);
            return Ok(Some(block));
        }
        if !line.put(threads.rt, block, place) || !filled.at_once {
            return Ok(None);
        }
    }
    Ok(None)
}
