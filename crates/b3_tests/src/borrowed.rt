//! Parts of borrowed bytes, and parts whose bytes are shared.

ghost use Rattle.std.specs.Prelude.{◌<◌};

use crate::fakes::{is_pattern, pattern};
use crate::forests::ROOT_2049;
use crate::helpers::digest;
use b3_core::{Runtime, Work};
use b3_forest::{
    BorrowedBytes, Follow, NoteFault, Plan, Prepared, Stretches, StretchesBuilder, TooLong,
};
use std::alloc::{AllocError, Global};
use std::process::Abort;
use std::sync::Arc;

/// A part of the pattern that is noted: whether its plan is open, and the bound of that; its offset and length; the merges, or why it is
/// refused; and the first missing offset after it.
pub(crate) struct Note(
    pub(crate) bool,
    pub(crate) u64,
    pub(crate) u64,
    pub(crate) u64,
    pub(crate) Result<u64, NoteFault>,
    pub(crate) Option<u64>,
);

impl Note {
    fn part(&self, alloc: Global, work: &mut Work) -> Result<Prepared, AllocError> {
        let Note(is_open, bound, offset, len, ..) = *self;
        let plan = if is_open {
            Plan::open(bound)
        } else {
            Plan::new(bound)
        };
        let (Ok(plan), Ok(bytes)) = (plan, pattern(alloc, offset, len)) else {
            return Err(AllocError);
        };
        match Prepared::make(alloc, &plan, offset, bytes, work) {
            Ok(part) => Ok(part),
            Err(_) => Err(AllocError),
        }
    }

    // Whether the part has this result. If an allocation fails, it is noted once more.
    fn agrees(&self, follow: &mut Follow<'_>, part: &Prepared, work: &mut Work) -> bool {
        let Note(.., merges, missing) = *self;
        let before = work.count();
        let noted = match follow.note(part, work) {
            Err(NoteFault::NoMemory) => follow.note(part, work),
            noted => noted,
        };
        let is_count = work.count().wrapping_sub(before) == merges.unwrap_or(0).wrapping_mul(2);
        noted == merges && is_count && follow.first_missing() == missing
    }
}

// Whether all notes have their results, and the whole then has the hash; if that is not expected, whether a byte is missing.
fn are_noted<R: AllocGlobal + Runtime>(
    rt: &R,
    follow: Result<Follow<'_>, TooLong>,
    notes: &[Note],
    digits: Option<&str>,
) -> Result<bool, AllocError> {
    let Ok(mut follow) = follow else {
        return Ok(false);
    };
    let mut work = Work::new(rt);
    for note in notes {
        let Ok(part) = note.part(rt.alloc(), &mut work) else {
            return Err(AllocError);
        };
        if !note.agrees(&mut follow, &part, &mut work) {
            return Ok(false);
        }
    }
    match (follow.finish(&mut work), digits) {
        (Ok(top), Some(digits)) => Ok(top.root32(&mut work) == digest(digits)),
        (Err(incomplete), None) => Ok(follow.first_missing() == Some(incomplete.missing)),
        _ => Ok(false),
    }
}

/// The parts of these bytes are noted as they should be, and the whole then has the hash. If an allocation fails that is not one of `note`,
/// everything is repeated.
pub(crate) fn all_agree<R: AllocGlobal + Runtime + Abort>(
    rt: &R,
    bytes: &[u8],
    notes: &[Note],
    digits: Option<&str>,
) {
    let found = match are_noted(rt, Follow::new(rt.alloc(), bytes), notes, digits) {
        Err(_) => are_noted(rt, Follow::new(rt.alloc(), bytes), notes, digits),
        found => found,
    };
    assert!(rt; found == Ok(true));
}

const IN_ANY_ORDER: &[Note] = &[
    Note(false, 2049, 1024, 1024, Ok(0), Some(0)),
    Note(false, 2049, 0, 1024, Ok(1), Some(2048)),
    Note(false, 2049, 2048, 1, Ok(0), None),
];

// The last bit of the first chunk differs. A part with another plan is reported first, then one that overlaps.
const STRANGERS: &[Note] = &[
    Note(false, 2049, 1024, 1024, Ok(0), Some(0)),
    Note(false, 2049, 0, 1024, Err(NoteFault::Stranger), Some(0)),
    Note(
        false,
        2049,
        0,
        2048,
        Err(NoteFault::Overlap { at: 1024 }),
        Some(0),
    ),
    Note(false, 8192, 0, 1024, Err(NoteFault::WrongPlan), Some(0)),
    Note(true, 2049, 0, 1024, Err(NoteFault::WrongPlan), Some(0)),
    Note(false, 2049, 2048, 1, Ok(0), Some(0)),
];

#[test]
fn parts_are_noted_in_any_order_and_strangers_are_refused(rt: HostRuntime) {
    let mut bytes = pattern(rt.alloc(), 0, 2049).expect(&rt, "memory for the pattern");
    all_agree(&rt, &bytes, IN_ANY_ORDER, Some(ROOT_2049));
    if let Some(byte) = bytes.get_mut(1023) {
        *byte ^= 1;
    }
    all_agree(&rt, &bytes, STRANGERS, None);
}

// These bytes in stretches of `stretch_len`, gathered from pieces of at most 1500 bytes.
fn in_stretches(alloc: Global, bytes: &[u8], stretch_len: usize) -> Result<Stretches, AllocError>
    requires { 0 < stretch_len }
{
    let mut gathered = StretchesBuilder::new(alloc, stretch_len)?;
    for piece in bytes.chunks(1500) {
        gathered = gathered.with(alloc, piece)?;
    }
    gathered.finish(alloc)
}

// A part of the pattern of 2049 bytes, by its offset and length: its pieces, or none if it is refused; the compressions; and the lengths of
// stretches of which it is one.
struct Part(u64, u64, Option<usize>, u64, &'static [usize]);

// Valid parts, and those refused by F2, F3 and F5.
const PARTS: &[Part] = &[
    Part(0, 2049, Some(2), 32, &[4096]),
    Part(0, 1024, Some(1), 15, &[1024]),
    Part(1024, 1024, Some(1), 15, &[1024]),
    Part(1024, 1025, Some(2), 15, &[]),
    Part(2048, 1, Some(1), 0, &[1, 1024, 2048]),
    Part(0, 0, None, 0, &[]),
    Part(1, 1024, None, 0, &[]),
    Part(0, 1025, None, 0, &[]),
];

// Whether it is this part, and whether it returns its bytes as `is_own` says.
fn is_wanted(part: Prepared, wanted: &Part, is_own: bool) -> bool {
    let Part(offset, len, pieces, ..) = *wanted;
    let has_bytes = is_pattern(part.bytes(), offset, len);
    let is_there = part.offset() == offset && Some(part.pieces()) == pieces;
    has_bytes && is_there && part.into_bytes().is_ok() == is_own
}

// Whether the part is as it should be with bytes that nothing else shares.
fn is_shared<R: AllocGlobal + Runtime>(rt: &R, plan: &Plan, wanted: &Part) -> bool {
    let Part(offset, len, pieces, count, _) = *wanted;
    let (alloc, mut work) = (rt.alloc(), Work::new(rt));
    let Ok(bytes) = pattern(alloc, offset, len) else {
        return false;
    };
    let Ok(shared) = Arc::new(alloc, bytes) else {
        return false;
    };
    let is_wanted = match Prepared::share(alloc, plan, offset, shared, &mut work) {
        Ok(part) => is_wanted(part, wanted, true),
        Err(_) => pieces.is_none(),
    };
    is_wanted && work.count() == count
}

// Whether the part of the whole pattern is as it should be.
fn is_prepared<R: AllocGlobal + Runtime>(
    rt: &R,
    plan: &Plan,
    borrowed: BorrowedBytes<'_>,
    wanted: &Part,
    is_own: bool,
) -> bool {
    let Part(offset, len, pieces, count, _) = *wanted;
    if offset > 4096 || len > 4096 || offset + len > borrowed.len() {
        return false;
    }
    let mut work = Work::new(rt);
    let is_wanted = match borrowed.prepare(rt.alloc(), plan, offset, len as usize, &mut work) {
        Ok(part) => is_wanted(part, wanted, is_own),
        Err(_) => pieces.is_none(),
    };
    is_wanted && work.count() == count
}

// Whether the pattern in stretches of `stretch_len` bytes has all parts and the hash as it should.
fn are_stretches<R: AllocGlobal + Runtime>(rt: &R, bytes: &[u8], stretch_len: usize) -> bool
    requires { 0 < stretch_len }
{
    let (Ok(stretches), Ok(plan)) = (
        in_stretches(rt.alloc(), bytes, stretch_len),
        Plan::new(2049),
    ) else {
        return false;
    };
    let borrowed = BorrowedBytes::Stretches(&stretches);
    let mut are_wanted = true;
    for part in PARTS {
        let is_own = !part.4.contains(&stretch_len);
        are_wanted = are_wanted && is_prepared(rt, &plan, borrowed, part, is_own);
    }
    let follow = Follow::of(rt.alloc(), borrowed);
    are_wanted && are_noted(rt, follow, IN_ANY_ORDER, Some(ROOT_2049)) == Ok(true)
}

#[test]
fn parts_with_shared_bytes(rt: HostRuntime) {
    let plan = Plan::new(2049).expect(&rt, "a plan");
    for part in PARTS {
        assert!(rt; is_shared(&rt, &plan, part));
    }
}

// Stretches shorter than a chunk, as long as one, and longer than all bytes. A part that shares a stretch does not return its bytes while
// others hold it; a part with a copy does.
#[test]
fn stretches_are_shared_where_they_are_parts(rt: HostRuntime) {
    let bytes = pattern(rt.alloc(), 0, 2049).expect(&rt, "memory for the pattern");
    for stretch_len in [1usize, 1000, 1024, 2048, 4096] {
        assert!(rt; are_stretches(&rt, &bytes, stretch_len), "{stretch_len}");
    }
}
