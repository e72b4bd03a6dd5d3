//! The hash of bytes in memory.

use b3_core::{Mode, Runtime, Work, hash, hash_wide};
use std::alloc::{AllocError, Global};
use std::io;
use std::io::ErrorKind;
use std::rt::Clock;
use std::time::Instant;

/// `mib` MiB of the pattern bytes `i mod 251`.
pub fn pattern(alloc: Global, mib: u16) -> Result<Vec<u8>, AllocError> {
    let mut bytes = vec![in alloc; 0u8; mib as usize * 1_048_576]?;
    let mut next = 0u8;
    for byte in bytes.iter_mut() {
        *byte = next;
        next = if next >= 250 { 0 } else { next + 1 };
    }
    Ok(bytes)
}

/// Writes a hash, and the time in microseconds.
pub fn report(
    rt: &(impl Print + Eprint + AllocGlobal),
    digest: &[u8; 32],
    micros: u128,
) -> io::Result<()> {
    let digits = hex::encode(rt.alloc(), &digest[..])?;
    println!(rt; "{digits}")?;
    eprintln!(rt; "{micros}")
}

/// Times the plain hash.
pub fn time_hash(
    rt: &(impl Print + Eprint + Clock + AllocGlobal + Runtime),
    mib: u16,
) -> io::Result<()> {
    let bytes = pattern(rt.alloc(), mib)?;
    let mut work = Work::new(rt);
    let start = Instant::now(rt)?;
    let digest = hash(&Mode::hash(), &bytes, &mut work);
    let time = start.elapsed(rt)?;
    report(rt, &digest, time.as_micros())
}

/// Times the hash by eight chunks at a time.
pub fn time_hash_wide(
    rt: &(impl Print + Eprint + Clock + AllocGlobal + Runtime),
    mib: u16,
) -> io::Result<()> {
    let bytes = pattern(rt.alloc(), mib)?;
    let mut work = Work::new(rt);
    let start = Instant::now(rt)?;
    let digest = hash_wide(&Mode::hash(), &bytes, &mut work);
    let time = start.elapsed(rt)?;
    report(rt, &digest, time.as_micros())
}

/// Times the hash by eight chunks at a time of `len` bytes, `turns` times.
pub fn time_length(
    rt: &(impl Print + Eprint + Clock + AllocGlobal + Runtime),
    len: u16,
    turns: u16,
) -> io::Result<()> {
    let bytes = pattern(rt.alloc(), 1)?;
    let Some(part) = bytes.get(..len as usize) else {
        return Err(io::Error::from(ErrorKind::InvalidInput));
    };
    let mut work = Work::new(rt);
    let mut digest = [0u8; 32];
    let start = Instant::now(rt)?;
    for _ in 0..turns {
        digest = hash_wide(&Mode::hash(), part, &mut work);
    }
    let time = start.elapsed(rt)?;
    report(rt, &digest, time.as_micros())
}
