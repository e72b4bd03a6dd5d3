//! Parts of an upload, hashed independently.

use b3_core::{Runtime, Work};
use b3_forest::{Plan, Prepared};
use std::io;
use std::io::ErrorKind;
use std::rt::Clock;
use std::time::Instant;

const PART_MIB: u16 = 16;

/// Times `Prepared::make` over `parts` parts of 16 MiB.
pub fn time_make(
    rt: &(impl Print + Eprint + Clock + AllocGlobal + Runtime),
    parts: u16,
) -> io::Result<()> {
    let mut work = Work::new(rt);
    let mut micros = 0u128;
    let Ok(plan) = Plan::new(16_777_216) else {
        return Err(io::Error::from(ErrorKind::InvalidInput));
    };
    for _ in 0..parts {
        let bytes = crate::hashing::pattern(rt.alloc(), PART_MIB)?;
        let start = Instant::now(rt)?;
        let made = Prepared::make(rt.alloc(), &plan, 0, bytes, &mut work);
        let time = start.elapsed(rt)?;
        micros = micros.wrapping_add(time.as_micros());
        if made.is_err() {
            return Err(io::Error::from(ErrorKind::OutOfMemory));
        }
    }
    println!(rt; "{}", work.count())?;
    eprintln!(rt; "{micros}")
}
