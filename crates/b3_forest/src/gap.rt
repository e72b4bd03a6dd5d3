//! The gaps of an upload.

ghost use Rattle.std.specs.Prelude.{◌≡◌, ◌++◌, OnOk};
ghost use Rattle.b3_forest.specs.Gaps.{gap_between};

use std::alloc::AllocError;

/// Consecutive offsets that are not held.
#[derive(Clone, Copy, PartialEq, Eq, Debug)]
pub struct Gap {
    /// The first offset.
    pub offset: u64,
    /// The number of offsets.
    pub len: u64,
}

/// Adds the gap from `start` to `end`, if `start` is before `end`.
pub(crate) fn push_between(gaps: &mut Vec<Gap>, start: u64, end: u64) -> Result<(), AllocError>
    ensures { OnOk result (gaps.new.items ≡ gaps.old.items ++ gap_between start end) }
{
    if start < end {
        gaps.push(Gap {
            offset: start,
            len: end - start,
        })?;
    }
    Ok(())
}
