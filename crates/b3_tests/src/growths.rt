//! Calls in which one allocation fails. tests/growths runs each of these tests many times, and lets another allocation of the process fail
//! each time.
//!
//! The call succeeds as usual, or reports that it ran out of memory. Then what it borrowed is unchanged, what it was given is returned, and
//! the same call succeeds. If the allocation fails while the state is prepared or inspected, everything is repeated, which succeeds, as no
//! second allocation fails. So a call that always reports running out of memory fails the test.

use crate::borrowed::Note;
use crate::fakes::pattern;
use crate::forests::Call::{Add, Root, Segments, State};
use crate::forests::{Call, ROOT_4096};
use crate::{borrowed, forests};
use b3_forest::Plan;
use std::alloc::AllocError;

// The third part has two pieces, and merges three times.
const WHOLE: &[Call] = &[
    Add(0, 1024, 1, 15, Ok(0)),
    Add(3072, 1024, 1, 15, Ok(0)),
    Add(1024, 2048, 2, 30, Ok(3)),
    State(Some(4096), 4096, None, 4096, 3),
    Segments(&[(0, 1024), (1024, 2048), (3072, 1024)]),
    Root(ROOT_4096, 0),
];

// The second part fixes the end, which a refused part must not do.
const OPEN: &[Call] = &[
    Add(0, 1024, 1, 15, Ok(0)),
    Add(3072, 100, 1, 1, Ok(0)),
    Add(1024, 2048, 2, 30, Ok(3)),
    State(Some(3172), 3172, None, 3172, 3),
    Root(
        "c72bfb392903b97ad63dc0c75dc5a42fdeda0c259757f93e56b6efc353658e58",
        0,
    ),
];

#[test]
fn make_and_add(rt: HostRuntime) {
    forests::all_agree(&rt, Plan::new(4096).expect(&rt, "a plan"), WHOLE);
    forests::all_agree(&rt, Plan::open(4096).expect(&rt, "a plan"), OPEN);
}

const NOTED: &[Note] = &[
    Note(false, 4096, 0, 1024, Ok(0), Some(1024)),
    Note(false, 4096, 3072, 1024, Ok(0), Some(1024)),
    Note(false, 4096, 1024, 2048, Ok(3), None),
];

#[test]
fn note(rt: HostRuntime) -> Result<(), AllocError> {
    let bytes = match pattern(rt.alloc(), 0, 4096) {
        Ok(bytes) => bytes,
        Err(_) => pattern(rt.alloc(), 0, 4096)?,
    };
    borrowed::all_agree(&rt, &bytes, NOTED, Some(ROOT_4096));
    Ok(())
}
