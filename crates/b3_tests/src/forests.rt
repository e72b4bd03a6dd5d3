//! Forests of parts, with a length known from the start or fixed at the end. The digests come from outside.

use crate::fakes::{is_pattern, pattern};
use crate::helpers::digest;
use b3_core::{Runtime, Work};
use b3_forest::{AddFault, FinishFault, FixFault, Forest, PartFault, Plan, Prepared, Refused};
use std::alloc::{AllocError, Global};
use std::process::Abort;

/// A call on a forest, and what it returns. A part is one of the pattern, by its offset and length.
#[derive(Clone, Copy)]
pub(crate) enum Call {
    /// Makes a part and adds it: its pieces, the compressions of making it, and the merges or why it is refused.
    Add(u64, u64, usize, u64, Result<u64, AddFault>),
    /// Makes a part, which is refused.
    Make(u64, u64, PartFault),
    /// Fixes the end.
    Fix(u64, Option<FixFault>),
    /// The end, the length, the first missing offset, the bytes held, and the number of parts.
    State(Option<u64>, u64, Option<u64>, u64, u64),
    Gaps(&'static [(u64, u64)]),
    Segments(&'static [(u64, u64)]),
    /// The hash, and the compressions for its node.
    Root(&'static str, u64),
    NoRoot(FinishFault),
}

use Call::{Add, Fix, Gaps, Make, NoRoot, Root, Segments, State};

#[derive(Drop)]
struct Trial {
    alloc: Global,
    forest: Forest,
    work: Work,
}

impl Trial {
    // Whether a call returns what it should.
    fn agrees(&mut self, call: &Call) -> Result<bool, AllocError> {
        match call {
            Add(offset, len, pieces, count, merges) => {
                self.adds(*offset, *len, (*pieces, *count), merges)
            }
            Make(offset, len, fault) => self.refuses(*offset, *len, *fault),
            Fix(len, fault) => Ok(self.fixes(*len, *fault)),
            State(end, len, missing, held, parts) => {
                let (is_end, is_len) = (self.forest.end() == *end, self.forest.length() == *len);
                let is_missing = self.forest.first_missing() == *missing;
                let is_held = self.forest.held() == *held && self.forest.parts() == *parts;
                Ok(is_end && is_len && is_missing && is_held)
            }
            Gaps(gaps) => self.has_gaps(gaps),
            Segments(parts) => Ok(self.has_segments(parts)),
            Root(digits, count) => Ok(self.has_root(digits, *count)),
            NoRoot(fault) => {
                let before = self.work.count();
                let found = self.forest.finish(&mut self.work).err();
                Ok(found == Some(*fault) && self.work.count() == before)
            }
        }
    }

    // Adds a part, and once more if an allocation fails. Returns the number of merges, or why the part came back.
    fn added(&mut self, part: Prepared, offset: u64, len: u64) -> Option<Result<u64, AddFault>> {
        let added = match self.forest.add(part, &mut self.work) {
            Err(
                Refused {
                    reason: AddFault::NoMemory,
                    value: part,
                },
            ) => self.forest.add(part, &mut self.work),
            added => added,
        };
        match added {
            Ok(merges) => Some(Ok(merges)),
            Err(refused) if is_part(&refused.value, offset, len) => Some(Err(refused.reason)),
            Err(_) => None,
        }
    }

    fn adds(
        &mut self,
        offset: u64,
        len: u64,
        wanted: (usize, u64),
        merges: &Result<u64, AddFault>,
    ) -> Result<bool, AllocError> {
        let Ok(bytes) = pattern(self.alloc, offset, len) else {
            return Err(AllocError);
        };
        let (plan, before) = (self.forest.plan(), self.work.count());
        let Ok(part) = Prepared::make(self.alloc, &plan, offset, bytes, &mut self.work) else {
            return Err(AllocError);
        };
        let made = self.work.count();
        let is_wanted = (part.pieces(), made.wrapping_sub(before)) == wanted;
        let is_made = is_wanted && is_part(&part, offset, len) && part.plan() == plan;
        let (fault, count) = match merges {
            Ok(merges) => (None, merges.wrapping_mul(2)),
            Err(fault) => (Some(*fault), 0),
        };
        let is_reported = self.forest.add_fault(&part) == fault;
        let is_added = self.added(part, offset, len) == Some(*merges);
        let is_count = self.work.count().wrapping_sub(made) == count;
        Ok(is_made && is_reported && is_added && is_count)
    }

    // Whether no part can be made for this reason, and its bytes come back.
    fn refuses(&mut self, offset: u64, len: u64, fault: PartFault) -> Result<bool, AllocError> {
        let Ok(bytes) = pattern(self.alloc, offset, len) else {
            return Err(AllocError);
        };
        let plan = self.forest.plan();
        match Prepared::make(self.alloc, &plan, offset, bytes, &mut self.work) {
            Ok(_part) => Ok(false),
            Err(refused) => {
                let is_back = is_pattern(refused.value.as_slice(), offset, len);
                Ok(refused.reason == fault && is_back)
            }
        }
    }

    fn fixes(&mut self, len: u64, fault: Option<FixFault>) -> bool {
        let is_reported = self.forest.fix_fault(len) == fault;
        is_reported && self.forest.fix(len).err() == fault
    }

    fn has_gaps(&self, wanted: &[(u64, u64)]) -> Result<bool, AllocError> {
        let Ok(gaps) = self.forest.gaps(self.alloc) else {
            return Err(AllocError);
        };
        let mut are_gaps = gaps.len() == wanted.len();
        for (gap, wanted) in gaps.iter().zip(wanted) {
            are_gaps = are_gaps && (gap.offset, gap.len) == *wanted;
        }
        Ok(are_gaps)
    }

    fn has_segments(&self, parts: &[(u64, u64)]) -> bool {
        let mut count = 0usize;
        let mut are_parts = true;
        for (offset, shared) in self.forest.segments() {
            let bytes = shared.as_slice();
            let part = (*offset, bytes.len() as u64);
            are_parts = are_parts && parts.get(count) == Some(&part);
            are_parts = are_parts && is_pattern(bytes, part.0, part.1);
            count = count.saturating_add(1);
        }
        are_parts && count == parts.len()
    }

    fn has_root(&mut self, digits: &str, count: u64) -> bool {
        let before = self.work.count();
        let Ok(top) = self.forest.finish(&mut self.work) else {
            return false;
        };
        let is_count = self.work.count().wrapping_sub(before) == count;
        is_count && top.root32(&mut self.work) == digest(digits)
    }
}

fn is_part(part: &Prepared, offset: u64, len: u64) -> bool {
    part.offset() == offset && is_pattern(part.bytes(), offset, len)
}

// The number of calls before the first one that does not return what it should.
fn agreeing<R: AllocGlobal + Runtime>(
    rt: &R,
    plan: Plan,
    calls: &[Call],
) -> Result<usize, AllocError> {
    let alloc = rt.alloc();
    let mut trial = Trial {
        alloc,
        forest: Forest::new(alloc, plan),
        work: Work::new(rt),
    };
    let mut count = 0usize;
    for call in calls {
        match trial.agrees(call) {
            Ok(true) => count = count.saturating_add(1),
            Ok(false) => return Ok(count),
            Err(error) => return Err(error),
        }
    }
    Ok(count)
}

/// The calls on a forest of this plan return what they should. If an allocation fails that is not one of `add`, everything is repeated.
pub(crate) fn all_agree<R: AllocGlobal + Runtime + Abort>(rt: &R, plan: Plan, calls: &[Call]) {
    let found = match agreeing(rt, plan, calls) {
        Err(_) => agreeing(rt, plan, calls),
        found => found,
    };
    assert!(rt; found == Ok(calls.len()), "call {found:?}");
}

fn closed<R: Abort>(rt: &R, len: u64) -> Plan {
    Plan::new(len).expect(rt, "a plan")
}

fn open<R: Abort>(rt: &R, at_most: u64) -> Plan {
    Plan::open(at_most).expect(rt, "a plan")
}

const ROOT_0: &str = "af1349b9f5f9a1a6a0404dea36dcc9499bcb25c9adc112b7cc9a93cae41f3262";

const ROOT_2048: &str = "e776b6028c7cd22a4d0ba182a8bf62205d2ef576467e838ed6f2529b85fba24a";

/// The hash of the pattern of 2049 bytes.
pub(crate) const ROOT_2049: &str =
    "5f4d72f40d7a5f82b15ca2b2e44b1de3c2ef86c426c95c1af0b6879522563030";

/// The hash of the pattern of 4096 bytes.
pub(crate) const ROOT_4096: &str =
    "015094013f57a5277b59d8475c0501042c0b642e531b0a1c8f58d2163229e969";

const ROOT_9217: &str = "d42c90aa30bee83ecb52ad31b685d566145649496764878873598cef582d4d8f";

const ROOT_16384: &str = "f875d6646de28985646f34ee13be9a576fd515f76b5b0a26bb324735041ddde4";

const ROOT_16777216: &str = "869b1292c8bed5bdb2e0075e0c50ccf8b24b33a0f81071c86206bd8fdb269579";

#[test]
fn plans_up_to_two_to_the_forty_four(rt: HostRuntime) {
    let most = 17_592_186_044_416u64;
    let are_bounds = closed(&rt, most).bound() == most && open(&rt, most).bound() == most;
    assert!(rt; are_bounds && Plan::new(most + 1).is_err() && Plan::open(most + 1).is_err());
}

#[test]
fn parts_that_are_refused(rt: HostRuntime) {
    let of_4096 = [
        Make(1024, 0, PartFault::EmptyPart),
        Make(512, 0, PartFault::EmptyPart),
        Make(512, 1024, PartFault::OffAlign),
        Make(4608, 100, PartFault::OffAlign),
        Make(3072, 2048, PartFault::PastEnd),
        Make(18_446_744_073_709_550_592, 1024, PartFault::PastEnd),
        Make(0, 1500, PartFault::Ragged),
    ];
    all_agree(&rt, closed(&rt, 4096), &of_4096);
    all_agree(
        &rt,
        closed(&rt, 33_554_432),
        &[Make(0, 16_778_240, PartFault::PartTooLong)],
    );
    all_agree(
        &rt,
        open(&rt, 2048),
        &[Make(1024, 1025, PartFault::PastEnd)],
    );
}

// In total as many compressions as one hash of the 4096 bytes: 64 blocks and 4 chunks.
const FOUR_CHUNKS: &[Call] = &[
    State(Some(4096), 4096, Some(0), 0, 0),
    Add(1024, 2048, 2, 30, Ok(0)),
    Add(0, 2048, 1, 32, Err(AddFault::Overlap { at: 1024 })),
    Add(0, 1024, 1, 15, Ok(1)),
    State(Some(4096), 4096, Some(3072), 3072, 2),
    NoRoot(FinishFault::Incomplete { missing: 3072 }),
    Add(0, 2048, 1, 32, Err(AddFault::Overlap { at: 0 })),
    Add(2048, 2048, 1, 32, Err(AddFault::Overlap { at: 2048 })),
    State(Some(4096), 4096, Some(3072), 3072, 2),
    Add(3072, 1024, 1, 15, Ok(2)),
    State(Some(4096), 4096, None, 4096, 3),
    Segments(&[(0, 1024), (1024, 2048), (3072, 1024)]),
    Root(ROOT_4096, 0),
];

#[test]
fn four_chunks_from_the_middle(rt: HostRuntime) {
    all_agree(&rt, closed(&rt, 4096), FOUR_CHUNKS);
}

const WITH_GAPS: &[Call] = &[
    Gaps(&[(0, 5000)]),
    Add(1024, 1024, 1, 15, Ok(0)),
    Add(4096, 904, 1, 14, Ok(0)),
    Gaps(&[(0, 1024), (2048, 2048)]),
    Add(2048, 2048, 1, 32, Ok(0)),
    Add(0, 1024, 1, 15, Ok(2)),
    Gaps(&[]),
];

#[test]
fn gaps_between_parts(rt: HostRuntime) {
    all_agree(&rt, closed(&rt, 5000), WITH_GAPS);
}

// The offsets of three parts, the last of which has one byte.
const ORDERS: [[u64; 3]; 6] = [
    [0, 1024, 2048],
    [0, 2048, 1024],
    [1024, 0, 2048],
    [1024, 2048, 0],
    [2048, 0, 1024],
    [2048, 1024, 0],
];

fn part_at(offset: u64, merges: u64) -> Call {
    if offset == 2048 {
        Add(offset, 1, 1, 0, Ok(merges))
    } else {
        Add(offset, 1024, 1, 15, Ok(merges))
    }
}

// The second of the parts with whole chunks merges.
#[test]
fn three_parts_in_any_order(rt: HostRuntime) {
    for order in ORDERS {
        let [first, second, third] = order;
        let (one, other) = if third == 2048 { (1, 0) } else { (0, 1) };
        let calls = [
            part_at(first, 0),
            part_at(second, one),
            part_at(third, other),
            Root(ROOT_2049, 2),
        ];
        all_agree(&rt, closed(&rt, 2049), &calls);
    }
}

// In total as many compressions as one hash of the 16384 bytes: 256 blocks and 16 chunks.
const EVEN_CHUNKS_FIRST: &[Call] = &[
    Add(0, 1024, 1, 15, Ok(0)),
    Add(2048, 1024, 1, 15, Ok(0)),
    Add(4096, 1024, 1, 15, Ok(0)),
    Add(6144, 1024, 1, 15, Ok(0)),
    Add(8192, 1024, 1, 15, Ok(0)),
    Add(10_240, 1024, 1, 15, Ok(0)),
    Add(12_288, 1024, 1, 15, Ok(0)),
    Add(14_336, 1024, 1, 15, Ok(0)),
    Add(15_360, 1024, 1, 15, Ok(1)),
    Add(13_312, 1024, 1, 15, Ok(2)),
    Add(11_264, 1024, 1, 15, Ok(1)),
    Add(9216, 1024, 1, 15, Ok(3)),
    Add(7168, 1024, 1, 15, Ok(1)),
    Add(5120, 1024, 1, 15, Ok(2)),
    Add(3072, 1024, 1, 15, Ok(1)),
    Add(1024, 1024, 1, 15, Ok(4)),
    Root(ROOT_16384, 0),
];

#[test]
fn even_chunks_first(rt: HostRuntime) {
    all_agree(&rt, closed(&rt, 16_384), EVEN_CHUNKS_FIRST);
}

#[test]
fn one_part_is_the_whole(rt: HostRuntime) {
    let parts = [Add(0, 9217, 2, 151, Ok(0)), Root(ROOT_9217, 2)];
    let part = [
        Add(0, 16_777_216, 1, 278_526, Ok(0)),
        Root(ROOT_16777216, 0),
    ];
    all_agree(
        &rt,
        closed(&rt, 0),
        &[State(Some(0), 0, None, 0, 0), Root(ROOT_0, 0)],
    );
    all_agree(&rt, closed(&rt, 9217), &parts);
    all_agree(&rt, closed(&rt, 16_777_216), &part);
}

// A part whose length is not a multiple of a chunk fixes the end, unless it ends before a part that is held.
const RAGGED: &[Call] = &[
    State(None, 4096, Some(0), 0, 0),
    Add(1024, 1024, 1, 15, Ok(0)),
    Add(0, 1000, 1, 15, Err(AddFault::PastLast { end: 2048 })),
    State(None, 4096, Some(0), 1024, 1),
    Add(2048, 1, 1, 0, Ok(0)),
    State(Some(2049), 2049, Some(0), 1025, 2),
    Add(3072, 1024, 1, 15, Err(AddFault::PastLast { end: 2049 })),
    Add(0, 1000, 1, 15, Err(AddFault::PastLast { end: 2049 })),
    Add(0, 1024, 1, 15, Ok(1)),
    State(Some(2049), 2049, None, 2049, 3),
    Root(ROOT_2049, 2),
];

const FIXED: &[Call] = &[
    NoRoot(FinishFault::NotFixed),
    Add(0, 2048, 1, 32, Ok(0)),
    Fix(4097, Some(FixFault::TooLong)),
    Fix(2047, Some(FixFault::PastLast { end: 2048 })),
    Fix(3072, None),
    Fix(3072, None),
    Fix(2048, Some(FixFault::PastLast { end: 3072 })),
    Fix(3073, Some(FixFault::PastLast { end: 3072 })),
    State(Some(3072), 3072, Some(2048), 2048, 1),
    NoRoot(FinishFault::Incomplete { missing: 2048 }),
];

#[test]
fn an_end_is_fixed(rt: HostRuntime) {
    let whole = [
        Add(0, 2048, 1, 32, Ok(0)),
        NoRoot(FinishFault::NotFixed),
        Fix(2048, None),
        Root(ROOT_2048, 0),
    ];
    let past = FixFault::PastLast { end: 4096 };
    all_agree(&rt, open(&rt, 4096), RAGGED);
    all_agree(&rt, open(&rt, 4096), FIXED);
    all_agree(&rt, open(&rt, 4096), &[Fix(0, None), Root(ROOT_0, 0)]);
    all_agree(&rt, open(&rt, 2048), &whole);
    all_agree(
        &rt,
        closed(&rt, 4096),
        &[Fix(4096, None), Fix(4095, Some(past))],
    );
}
