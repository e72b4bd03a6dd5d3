//! Parts of the pattern.

use b3_core::Work;
use b3_forest::{Plan, Prepared};
use b3_tests::pattern;
use std::alloc::Global;

/// The part of `len` bytes of the pattern at `offset`, if the plan accepts it.
pub(crate) fn part_at(
    alloc: Global,
    plan: &Plan,
    offset: u64,
    len: u64,
    work: &mut Work,
) -> Option<Prepared> {
    let bytes = pattern(alloc, offset, len).ok()?;
    Prepared::make(alloc, plan, offset, bytes, work).ok()
}
