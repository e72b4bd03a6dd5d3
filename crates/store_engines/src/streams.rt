//! Reading an input in stretches.

ghost use Rattle.std.specs.Prelude.{◌≡◌, ◌≢◌, ◌<◌, ◌≤◌, IfNone, IfSome, OnOk, IfOk, IfErr, flat_map, take, vec_len};
ghost use Rattle.std.specs.Io.KnownBytes.{Consumes, IsAtEnd, Keeps};
ghost use Rattle.b3_parallel.specs.Rounds.{AreAll};

use b3_forest::{Stretches, StretchesBuilder};
use b3_parallel::{Source, read_source};
use edge::{Cause, read_cause};
use hash_engines::{HashThreads, SourceFile, Standing};
use std::alloc::{AllocError, Global};
use std::io;
use std::io::{ErrorKind, Read};
use std::thread::Threads;

/// The number of bytes per read.
pub(crate) fn at_a_time() -> usize
    ensures { 0 < result }
{
    1 << 16
}

/// All bytes that the reader has left, in stretches of `stretch_len` bytes, or why they are not available. Each stretch is allocated before
/// it is filled, so the stretches take little more memory than the bytes.
pub fn read_stretches<R: Read>(
    alloc: Global,
    reader: &mut R,
    stretch_len: usize,
) -> Result<Stretches, Cause>
    requires { 0 < stretch_len }
    ensures bytes { IfOk result (λ input. IfSome (R.remaining reader.old) (λ left. input.bytes ≡ left)) }
    ensures each { IfOk result (λ input. input.each ≡ stretch_len) }
    ensures end { OnOk result (IsAtEnd (R.remaining reader.new)) }
    ensures cause { IfErr result (λ cause. cause ≢ Cause.CannotWrite) }
{
    let mut buffer = vec![in alloc; 0u8; at_a_time()]?;
    let mut gathered = StretchesBuilder::new(alloc, stretch_len)?;
    for _ in 0..u64::MAX {
        match read_some(reader, &mut buffer) {
            Ok(0) => return Ok(gathered.finish(alloc)?),
            Ok(count) => gathered = gathered.with(alloc, &buffer[..count])?,
            Err(error) if error.kind() == ErrorKind::Interrupted => {}
            Err(error) => return Err(read_cause(&error)),
        }
    }
    Err(Cause::CannotRead)
}

/// Reads once, into the front of a buffer.
pub(crate) fn read_some<R: Read>(reader: &mut R, buffer: &mut Vec<u8>) -> io::Result<usize>
    requires { 0 < vec_len buffer.old }
    ensures len { vec_len buffer.new ≡ vec_len buffer.old }
    ensures count { IfOk result (λ count. count ≤ vec_len buffer.old) }
    ensures bytes { IfOk result (λ count. Consumes (R.remaining reader.old) (R.remaining reader.new) (take count buffer.new.items)) }
    ensures end { IfOk result (λ count. count ≡ 0 → IsAtEnd (R.remaining reader.new)) }
    ensures kept { IfErr result (λ _. Keeps (R.remaining reader.old) (R.remaining reader.new)) }
{
    reader.read(buffer.as_mut_slice())
}

// All bytes that an input has left, in stretches of `stretch_len` bytes, if it is an open file that several threads can read: a regular
// file, with at least 16 MiB left. Then the input has no bytes left.
fn file_stretches<T: Threads + Sync, F: SourceFile + Drop + Sync, I: Standing<F>>(
    threads: &HashThreads<'_, T>,
    input: &mut I,
    stretch_len: usize,
) -> Option<Stretches>
    requires { 0 < stretch_len }
    ensures bytes { IfSome result (λ found. IfSome (I.remaining input.old) (λ left. found.bytes ≡ left)) }
    ensures end { IfSome result (λ _. IsAtEnd (I.remaining input.new)) }
    ensures none { IfNone result (input.new ≡ input.old) }
{
    let (source, len) = input.as_source()?;
    let found = source_stretches(threads, &source, len, stretch_len)?;
    input.take_all();
    Some(found)
}

/// All bytes that an input has left, in stretches of `stretch_len` bytes, or why they are not available. Several threads read them if they
/// can.
pub(crate) fn input_stretches<T: Threads + Sync, F: SourceFile + Drop + Sync, I: Standing<F>>(
    rt: &T,
    alloc: Global,
    input: &mut I,
    stretch_len: usize,
) -> Result<Stretches, Cause>
    requires { 0 < stretch_len }
    ensures bytes { IfOk result (λ found. IfSome (I.remaining input.old) (λ left. found.bytes ≡ left)) }
    ensures end { OnOk result (IsAtEnd (I.remaining input.new)) }
    ensures cause { IfErr result (λ cause. cause ≢ Cause.CannotWrite) }
{
    let threads = HashThreads {
        rt,
        alloc,
        count: None,
    };
    match file_stretches(&threads, input, stretch_len) {
        Some(found) => Ok(found),
        None => read_stretches(alloc, input, stretch_len),
    }
}

// All bytes of a source of `len` bytes, in stretches, if several threads can read it.
fn source_stretches<T: Threads + Sync, S: Source + Sync>(
    threads: &HashThreads<'_, T>,
    source: &S,
    len: u64,
    stretch_len: usize,
) -> Option<Stretches>
    requires { 0 < stretch_len }
    ensures { IfSome result (λ found. AreAll (S.bytes source.now) found.bytes) }
{
    let blocks = read_source(threads, source, len, stretch_len)?;
    stretches_of(threads.alloc, blocks, stretch_len).ok()
}

// The bytes of blocks, in stretches. Blocks of `stretch_len` bytes are not copied.
fn stretches_of(
    alloc: Global,
    blocks: Vec<Vec<u8>>,
    stretch_len: usize,
) -> Result<Stretches, AllocError>
    requires { 0 < stretch_len }
    ensures { IfOk result (λ found. found.bytes ≡ flat_map (λ b. b.items) blocks.items) }
{
    let mut gathered = StretchesBuilder::new(alloc, stretch_len)?;
    let mut rest = blocks.into_iter();
    while let Some(block) = rest.next() {
        gathered = gathered.with_owned(alloc, block)?;
    }
    gathered.finish(alloc)
}
