//! Pattern bytes and a failing writer, also for the tests of higher crates.

use std::alloc::{AllocError, Global};
use std::io;
use std::io::{ErrorKind, Write};

/// The pattern bytes `i mod 251` of an object, from `first` on.
pub fn pattern(alloc: Global, first: u64, len: u64) -> Result<Vec<u8>, AllocError> {
    let mut bytes = Vec::new(alloc);
    let mut next = (first % 251) as u8;
    for _ in 0..len {
        bytes.push(next)?;
        next = if next >= 250 { 0 } else { next + 1 };
    }
    Ok(bytes)
}

/// Whether these are `len` bytes of the pattern, starting at `first`.
pub fn is_pattern(bytes: &[u8], first: u64, len: u64) -> bool {
    let mut next = (first % 251) as u8;
    let mut is_same = bytes.len() as u64 == len;
    for byte in bytes {
        is_same = is_same && *byte == next;
        next = if next >= 250 { 0 } else { next + 1 };
    }
    is_same
}

/// A writer that accepts one byte per call; the calls from number `fails` on fail.
#[derive(Drop)]
pub struct FailingWriter {
    /// The number of calls so far.
    pub calls: u64,
    pub fails: u64,
}

impl Write for FailingWriter {
    fn write(&mut self, bytes: &[u8]) -> io::Result<usize> {
        self.calls = self.calls.wrapping_add(1);
        if self.calls >= self.fails {
            return Err(io::Error::from(ErrorKind::Other));
        }
        if bytes.is_empty() { Ok(0) } else { Ok(1) }
    }

    fn flush(&mut self) -> io::Result<()> {
        Ok(())
    }
}
