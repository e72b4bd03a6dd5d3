//! Reading the bytes after a line.

ghost use Rattle.std.specs.Prelude.{◌≡◌, ◌+◌, ◌≤◌, ◌++◌, List, [], IfErr, IfOk, IfSome, vec_capacity, vec_len, ℕ};
ghost use Rattle.store_lines.specs.inner.Reads.{Copied, Skipped, TakesSome};

use edge::Cause;
use std::io::{BufRead, ErrorKind};

/// Reads `len` bytes and drops them. Returns false if the input ends before.
pub(crate) fn skip<R: BufRead>(reader: &mut R, len: u64) -> Result<bool, Cause>
    ensures skipped { IfOk result (λ is_whole. IfSome (R.Read.remaining reader.old) (λ input. Skipped is_whole len input (R.Read.remaining reader.new))) }
    ensures cause { IfErr result (λ cause. cause ≡ Cause.CannotRead) }
{
    let mut left = len;
    for _ in 0..u64::MAX {
        if left == 0 {
            return Ok(true);
        }
        match skip_part(reader, left)? {
            Some(count) => left -= count,
            None => return Ok(false),
        }
    }
    Err(Cause::CannotRead)
}

// Drops what the reader has buffered, at most `most` bytes.
fn skip_part<R: BufRead>(reader: &mut R, most: u64) -> Result<Option<u64>, Cause>
    ensures taken { IfOk result (λ count. (bytes : List ℕ) × TakesSome (R.Read.remaining reader.old) (R.Read.remaining reader.new) most count bytes) }
    ensures cause { IfErr result (λ cause. cause ≡ Cause.CannotRead) }
{
    let available = match reader.fill_buf() {
        Ok(available) => available,
        Err(error) => {
            return if error.kind() == ErrorKind::Interrupted {
                Ok(Some(0))
            } else {
                Err(Cause::CannotRead)
            };
        }
    };
    let len = available.len();
    let count = (len as u64).min(most);
    reader.consume(count as usize);
    if len == 0 { Ok(None) } else { Ok(Some(count)) }
}

/// Reads `len` bytes into `bytes`, which has room for them. Returns false if the input ends before.
pub(crate) fn copy<R: BufRead>(
    reader: &mut R,
    bytes: &mut Vec<u8>,
    len: usize,
) -> Result<bool, Cause>
    requires empty { bytes.old.items ≡ [] }
    requires room { len ≤ vec_capacity bytes.old }
    ensures copied { IfOk result (λ is_whole. IfSome (R.Read.remaining reader.old) (λ input. Copied is_whole len input bytes.new.items (R.Read.remaining reader.new))) }
    ensures cause { IfErr result (λ cause. cause ≡ Cause.CannotRead) }
{
    for _ in 0..u64::MAX {
        if bytes.len() >= len {
            return Ok(true);
        }
        let left = len - bytes.len();
        if copy_part(reader, bytes, left)?.is_none() {
            return Ok(false);
        }
    }
    Err(Cause::CannotRead)
}

// Moves what the reader has buffered, at most `most` bytes.
fn copy_part<R: BufRead>(
    reader: &mut R,
    bytes: &mut Vec<u8>,
    most: usize,
) -> Result<Option<usize>, Cause>
    requires { vec_len bytes.old + most ≤ vec_capacity bytes.old }
    ensures taken { IfOk result (λ count. (more : List ℕ) × TakesSome (R.Read.remaining reader.old) (R.Read.remaining reader.new) most count more × (bytes.new.items ≡ bytes.old.items ++ more)) }
    ensures room { vec_capacity bytes.old ≤ vec_capacity bytes.new }
    ensures cause { IfErr result (λ cause. cause ≡ Cause.CannotRead) }
{
    let available = match reader.fill_buf() {
        Ok(available) => available,
        Err(error) => {
            return if error.kind() == ErrorKind::Interrupted {
                Ok(Some(0))
            } else {
                Err(Cause::CannotRead)
            };
        }
    };
    let len = available.len();
    let count = len.min(most);
    let Ok(()) = bytes.extend_from_slice(&available[..count]) else {
        unreachable!()
    };
    reader.consume(count);
    if len == 0 { Ok(None) } else { Ok(Some(count)) }
}
