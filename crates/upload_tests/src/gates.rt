//! Gates that stop an upload, fail, or hold a part.

use std::process::Abort;
use std::sync::atomic::{AtomicBool, AtomicU64, Ordering};
use std::thread;
use store_shared::{Draw, Gate, GateStop};

/// How often a thread that waits for another checks before it gives up waiting.
pub(crate) const TURNS: u64 = 1 << 24;

// After this many turns without a request for a part, no more requests are expected.
const STILL_TURNS: u64 = 2000;

/// The maximum number of parts of an upload in these tests.
pub(crate) const MAX_PARTS: u64 = 4096;

/// `count` counters, all zero.
pub(crate) fn zeros<R: AllocGlobal + Abort>(rt: &R, count: u64) -> Vec<AtomicU64> {
    let mut counts = Vec::new(rt.alloc());
    for _ in 0..count {
        counts.push(AtomicU64::new(0)).expect(rt, "memory");
    }
    counts
}

/// How often a gate was asked, in total and for each part, and whether it lets the parts pass that it holds.
#[derive(Drop)]
pub(crate) struct Signal {
    asked: AtomicU64,
    parts: Vec<AtomicU64>,
    released: AtomicBool,
}

impl Signal {
    pub(crate) fn new<R: AllocGlobal + Abort>(rt: &R) -> Signal {
        Signal {
            asked: AtomicU64::new(0),
            parts: zeros(rt, MAX_PARTS),
            released: AtomicBool::new(false),
        }
    }

    // Counts a part that the gate is asked for.
    fn ask(&self, part: u64) {
        if let Some(count) = self.parts.as_slice().get(part as usize) {
            let _before = count.fetch_add(1, Ordering::SeqCst);
        }
        let _before = self.asked.fetch_add(1, Ordering::SeqCst);
    }

    pub(crate) fn asked(&self) -> u64 {
        self.asked.load(Ordering::SeqCst)
    }

    /// Whether the gate was asked once for each part.
    pub(crate) fn is_asked_once_for_each(&self) -> bool {
        for count in self.parts.as_slice() {
            if count.load(Ordering::SeqCst) != 1 {
                return false;
            }
        }
        self.asked() == MAX_PARTS
    }

    /// Waits until the gate was asked `times` times, for at most `TURNS` turns.
    pub(crate) fn has_asked(&self, times: u64) -> bool {
        for _ in 0..TURNS {
            if self.asked() >= times {
                return true;
            }
            thread::yield_now();
        }
        false
    }

    pub(crate) fn release(&self) {
        self.released.store(true, Ordering::SeqCst);
    }

    /// Waits until the held parts may pass, for at most `TURNS` turns.
    pub(crate) fn is_released(&self) -> bool {
        for _ in 0..TURNS {
            if self.released.load(Ordering::SeqCst) {
                return true;
            }
            thread::yield_now();
        }
        false
    }

    // Waits until no more parts are asked for, for example because the queue is full.
    fn wait_until_still(&self) {
        let mut seen = 0u64;
        let mut turns = 0u64;
        for _ in 0..TURNS {
            let asked = self.asked();
            turns = if asked == seen {
                turns.saturating_add(1)
            } else {
                0
            };
            if turns > STILL_TURNS {
                return;
            }
            seen = asked;
            thread::yield_now();
        }
    }
}

/// What a gate does.
#[derive(Clone, Copy)]
pub(crate) enum Rule {
    /// Passes all parts.
    Pass,
    /// Returns Stop for one part.
    Stop(u64),
    /// Fails at one part, with the code 9.
    Fail(u64),
    /// Fails at all parts, with the part's number as code.
    FailAll,
    /// Holds all parts until this number of parts was asked for.
    HoldUntil(u64),
    /// Holds the parts from this number on.
    HoldFrom(u64),
    /// Holds part 0. Stops at part 1, once no more parts are asked for, and lets part 0 pass.
    StopWhenStill,
    /// Takes some time for each part, and returns Stop for one.
    Slow(u64),
}

/// A gate that follows a rule.
#[derive(Drop)]
pub(crate) struct Checkpoint<'a> {
    pub(crate) rule: Rule,
    pub(crate) signal: &'a Signal,
}

impl Checkpoint<'_> {
    // Holds a part until it may pass; otherwise fails with the code 1.
    fn held(&self) -> Option<GateStop> {
        if self.signal.is_released() {
            return None;
        }
        Some(GateStop::Fault(1))
    }

    // The result for a part that does not pass.
    fn found(&self, part: u64) -> Option<GateStop> {
        match self.rule {
            Rule::Pass => None,
            Rule::Stop(at) => {
                if part == at {
                    return Some(GateStop::Stop);
                }
                None
            }
            Rule::Fail(at) => {
                if part == at {
                    return Some(GateStop::Fault(9));
                }
                None
            }
            Rule::FailAll => Some(GateStop::Fault(part)),
            Rule::HoldUntil(times) => {
                if self.signal.has_asked(times) {
                    return None;
                }
                Some(GateStop::Fault(1))
            }
            Rule::HoldFrom(first) => {
                if part >= first {
                    return self.held();
                }
                None
            }
            Rule::StopWhenStill => self.stopped_when_still(part),
            Rule::Slow(at) => {
                if part == at {
                    return Some(GateStop::Stop);
                }
                take_time();
                None
            }
        }
    }

    fn stopped_when_still(&self, part: u64) -> Option<GateStop> {
        if part == 0 {
            return self.held();
        }
        if part > 1 {
            return None;
        }
        self.signal.wait_until_still();
        self.signal.release();
        Some(GateStop::Stop)
    }
}

fn take_time() {
    for _ in 0..100 {
        thread::yield_now();
    }
}

impl Gate for Checkpoint<'_> {
    ghost rule = { λ gate. record { may_stop = λ part. Unit {0}; may_fault = λ part code. Unit {0}; has_passed = λ part. Unit {0} } };

    fn passed(&self, part: Draw) -> Result<(), GateStop> {
        let part = part.number();
        self.signal.ask(part);
        let Some(found) = self.found(part) else {
            return Ok(());
        };
        match found {
            GateStop::Stop => Err(GateStop::Stop),
            GateStop::Fault(code) => Err(GateStop::Fault(code)),
        }
    }
}
