//! Uploads, and what another thread does under the lock meanwhile.

use crate::gates::{Rule, Signal, TURNS};
use crate::hashes::PATTERN_2049;
use crate::parts::part_at;
use crate::uploading::{Cut, left_by, three_parts, upload_row};
use b3_core::{Runtime, Work};
use b3_forest::Plan;
use std::alloc::Global;
use std::process::Abort;
use std::sync::Wait;
use std::thread;
use std::thread::{Parker, Threads};
use std::time::Duration;
use store_core::{Address, TenantId, UploadId};
use store_ledger::{Ledgers, Share};
use store_shared::{PassAll, Shared, lent_abort, lent_begin, lent_forget, lent_put, lent_seal};

/// What the stranger does.
#[derive(Clone, Copy, PartialEq, Eq)]
pub(crate) enum Deed {
    /// Nothing.
    Nothing,
    /// Uploads the same bytes for a tenant, at the same time.
    Upload(u64),
    /// Aborts upload 1 while the gate holds all its parts.
    Abort,
    /// Puts the last part of upload 1 while the gate holds it.
    Put,
    /// Puts it and seals upload 1.
    Seal,
    /// Meanwhile files the same bytes by its own upload.
    File,
    /// Files them, and forgets them.
    FileAndForget,
    /// Keeps the lock until the gate lets all parts pass, and some turns longer.
    KeepLock,
    /// Keeps the lock until all workers wait for room, and two seconds longer.
    KeepLockFull,
}

/// The result of the deed. For an upload, whether its bytes were new.
#[derive(Clone, Copy)]
pub(crate) enum Outcome {
    Refused,
    Done,
    New,
    Known,
}

// Puts bytes of the pattern to an upload of all 2049.
fn put_one<L: Ledgers, R: Wait + Runtime>(
    rt: &R,
    alloc: Global,
    shared: &Shared<L>,
    share: &mut Share<L>,
    upload: UploadId,
    offset: u64,
) -> bool {
    let Ok(plan) = Plan::new(2049) else {
        return false;
    };
    let len = 2049u64.saturating_sub(offset);
    let mut work = Work::new(rt);
    let Some(part) = part_at(alloc, &plan, offset, len, &mut work) else {
        return false;
    };
    lent_put(&mut *shared.lock(rt), share, upload, part, &mut work).is_ok()
}

fn seal_one<L: Ledgers, R: Wait + Runtime>(rt: &R, shared: &Shared<L>, upload: UploadId) -> bool {
    let sealed = lent_seal(&mut *shared.lock(rt), upload, &mut Work::new(rt));
    sealed.is_ok()
}

// Forgets an object for tenant 0. Returns whether the object was returned.
fn forget_one<L: Ledgers, R: Wait>(rt: &R, shared: &Shared<L>, address: Address) -> bool {
    let forgotten = lent_forget(&mut *shared.lock(rt), TenantId::new(0), address);
    forgotten.is_ok_and(|removed| removed.is_some())
}

/// Begins upload 0, of 2049 bytes, and puts its last byte.
pub(crate) fn begin_neighbour<L: Ledgers, R: Wait + Runtime>(
    rt: &R,
    alloc: Global,
    shared: &Shared<L>,
    share: &mut Share<L>,
) {
    let _begun = lent_begin(&mut *shared.lock(rt), TenantId::new(0), 2049);
    let _put = put_one(rt, alloc, shared, share, UploadId::new(0), 2048);
}

// Files all bytes by upload 2, in one part.
fn file_all<L: Ledgers, R: Wait + Runtime>(
    rt: &R,
    alloc: Global,
    shared: &Shared<L>,
    share: &mut Share<L>,
) -> bool {
    let is_begun = lent_begin(&mut *shared.lock(rt), TenantId::new(0), 2049).is_ok();
    let own = UploadId::new(2);
    is_begun && put_one(rt, alloc, shared, share, own, 0) && seal_one(rt, shared, own)
}

// Keeps the lock, so that no part can be put.
fn keeps_lock<L: Ledgers, R: Wait>(rt: &R, shared: &Shared<L>, signal: &Signal) -> bool {
    let _guard = shared.lock(rt);
    let is_released = signal.is_released();
    for _ in 0..1000 {
        thread::yield_now();
    }
    is_released
}

// Keeps the lock until all workers wait for room: the queue is full, and each worker and the collector hold a part. Then keeps it for
// longer than the workers' longest wait.
fn keeps_lock_full<L: Ledgers, R: Wait>(
    rt: &R,
    shared: &Shared<L>,
    signal: &Signal,
    workers: u64,
) -> bool {
    let guard = shared.lock(rt);
    let put = guard.store().totals().parts;
    let are_full = signal.has_asked(put.saturating_add(workers.saturating_mul(3)));
    Parker::new().park_timeout(rt, Duration::from_secs(2));
    are_full
}

// Waits until the open uploads hold `bytes` bytes, for at most `TURNS` turns.
fn holds<L: Ledgers, R: Wait>(rt: &R, shared: &Shared<L>, bytes: u64) -> bool {
    for _ in 0..TURNS {
        if shared.lock(rt).store().totals().held_bytes == bytes {
            return true;
        }
        thread::yield_now();
    }
    false
}

// Does the deed, and then lets the gate pass all parts. What is put or filed comes after the parts that the gate does not hold.
fn is_done<L: Ledgers, R: Wait + Runtime>(
    rt: &R,
    alloc: Global,
    shared: &Shared<L>,
    share: &mut Share<L>,
    signal: &Signal,
    deed: Deed,
    workers: u64,
) -> bool {
    let upload = UploadId::new(1);
    match deed {
        Deed::Nothing | Deed::Upload(_) => false,
        Deed::Abort => lent_abort(&mut *shared.lock(rt), upload).is_ok(),
        Deed::KeepLock => keeps_lock(rt, shared, signal),
        Deed::KeepLockFull => keeps_lock_full(rt, shared, signal, workers),
        Deed::Put => holds(rt, shared, 2049) && put_one(rt, alloc, shared, share, upload, 2048),
        Deed::Seal => {
            holds(rt, shared, 2049)
                && put_one(rt, alloc, shared, share, upload, 2048)
                && seal_one(rt, shared, upload)
        }
        Deed::File => holds(rt, shared, 2049) && file_all(rt, alloc, shared, share),
        Deed::FileAndForget => {
            let address = Address::new(PATTERN_2049);
            holds(rt, shared, 2049)
                && file_all(rt, alloc, shared, share)
                && forget_one(rt, shared, address)
        }
    }
}

/// Does the deed during an upload of these bytes. A deed that is not an upload is done once the gate was asked.
pub(crate) fn meanwhile<L: Ledgers, R: Threads + Wait + Sync + Runtime>(
    rt: &R,
    alloc: Global,
    shared: &Shared<L>,
    share: Share<L>,
    signal: &Signal,
    deed: Deed,
    row: &[u8],
    workers: u64,
) -> (Share<L>, Outcome) {
    if deed == Deed::Nothing {
        return (share, Outcome::Done);
    }
    if let Deed::Upload(tenant) = deed {
        let tenant = TenantId::new(tenant);
        let (share, answer) = upload_row(
            rt, alloc, shared, share, &PassAll, tenant, row, 1, workers,
        );
        return match answer {
            Ok(true) => (share, Outcome::New),
            Ok(false) => (share, Outcome::Known),
            Err(_) => (share, Outcome::Refused),
        };
    }
    let mut share = share;
    let is_done = signal.has_asked(1)
        && is_done(rt, alloc, shared, &mut share, signal, deed, workers);
    signal.release();
    if is_done {
        (share, Outcome::Done)
    } else {
        (share, Outcome::Refused)
    }
}

// A deed, and the result of the upload with it: before its journal, and after its first two parts.
#[derive(Clone, Copy)]
struct Beside {
    deed: Deed,
    reported: &'static str,
    rest: &'static str,
}

const BESIDE: &[Beside] = &[
    Beside {
        deed: Deed::Put,
        reported: "U1 S9 at 2048 2048 2, accepted 2050 4, objects 0 bytes 0 uploads 1 held 1 parts 1, entries 8",
        rest: "put 1 2048 1 / abort 1",
    },
    Beside {
        deed: Deed::Seal,
        reported: "U1 S7 2048 2, accepted 2050 4, objects 1 bytes 2049 uploads 1 held 1 parts 1, entries 8",
        rest: "put 1 2048 1 / seal 1 5f4d72f40d7a5f82b15ca2b2e44b1de3c2ef86c426c95c1af0b6879522563030 new",
    },
    Beside {
        deed: Deed::File,
        reported: "known 2049 3, accepted 4099 5, objects 1 bytes 2049 uploads 1 held 1 parts 1, entries 11",
        rest: "begin 2 0 2049 / put 2 0 2049 / seal 2 5f4d72f40d7a5f82b15ca2b2e44b1de3c2ef86c426c95c1af0b6879522563030 new / put 1 2048 1 / seal 1 5f4d72f40d7a5f82b15ca2b2e44b1de3c2ef86c426c95c1af0b6879522563030 known",
    },
    Beside {
        deed: Deed::FileAndForget,
        reported: "new 2049 3, accepted 4099 5, objects 1 bytes 2049 uploads 1 held 1 parts 1, entries 12",
        rest: "begin 2 0 2049 / put 2 0 2049 / seal 2 5f4d72f40d7a5f82b15ca2b2e44b1de3c2ef86c426c95c1af0b6879522563030 new / forget 0 5f4d72f40d7a5f82b15ca2b2e44b1de3c2ef86c426c95c1af0b6879522563030 / put 1 2048 1 / seal 1 5f4d72f40d7a5f82b15ca2b2e44b1de3c2ef86c426c95c1af0b6879522563030 new",
    },
];

// Whether this is the result of an upload that is held at its last part while the stranger acts, with the other two parts put in this
// order.
fn is_left(left: &str, beside: Beside, parts: &str) -> bool {
    let begun = ": tenant 0 6147 / begin 0 0 2049 / put 0 2048 1 / begin 1 0 2049 / ";
    let Some(rest) = left.strip_prefix(beside.reported) else {
        return false;
    };
    let Some(rest) = rest.strip_prefix(begun) else {
        return false;
    };
    let Some(rest) = rest.strip_prefix(parts) else {
        return false;
    };
    rest.strip_prefix(" / ") == Some(beside.rest)
}

// An upload is held at its last part while the stranger acts, and has the result that is listed.
fn leaves<R: Threads + Wait + Sync + AllocGlobal + Runtime + Abort>(
    rt: &R,
    beside: Beside,
    workers: u64,
) {
    let signal = Signal::new(rt);
    let left = left_by(
        rt,
        Rule::HoldFrom(2),
        &signal,
        beside.deed,
        three_parts(workers),
    );
    let left = left.as_str();
    let is_ordered = is_left(left, beside, "put 1 0 1024 / put 1 1024 1024");
    let is_swapped = is_left(left, beside, "put 1 1024 1024 / put 1 0 1024");
    assert!(rt;
        is_ordered || is_swapped && workers > 1,
        "{workers}: {left}"
    );
}

// Several workers may put parts 0 and 1 in either order. The stranger comes when both are put.
#[test]
fn an_upload_meets_what_was_done_meanwhile(rt: HostRuntime) {
    for beside in BESIDE {
        for workers in [1, 2, 16] {
            leaves(&rt, *beside, workers);
        }
    }
}

// The gate holds all parts, so that none is put before the abort.
#[test]
fn an_upload_that_was_aborted_is_refused(rt: HostRuntime) {
    for workers in [1, 2, 16] {
        let cut = three_parts(workers);
        let signal = Signal::new(&rt);
        let left = left_by(&rt, Rule::HoldFrom(0), &signal, Deed::Abort, cut);
        assert_eq!(rt;
            left.as_str(),
            "U1 S7 0 0, accepted 1 1, objects 0 bytes 0 uploads 1 held 1 parts 1, entries 5: tenant 0 6147 / begin 0 0 2049 / put 0 2048 1 / begin 1 0 2049 / abort 1",
        );
    }
}

// Whether a part that passed was dropped, in an upload of 128 parts that is stopped at part 1. While the lock is kept, the workers fill the
// queue and wait for room. Then the one at part 1 stops, and part 0 may pass.
fn is_dropped<R: Threads + Wait + Sync + AllocGlobal + Runtime + Abort>(
    rt: &R,
    workers: u64,
) -> bool {
    let cut = Cut {
        limit: 133121,
        len: 131072,
        ..three_parts(workers)
    };
    let signal = Signal::new(rt);
    let left = left_by(rt, Rule::StopWhenStill, &signal, Deed::KeepLock, cut);
    let left = left.as_str();
    let is_ended = left.starts_with("U3 ") && left.ends_with(" / abort 1");
    assert!(rt; is_ended && !left.contains(" put 1 1024 "), "{left}");
    let passed = signal.asked().saturating_sub(1);
    let all = format!(in rt.alloc(); "U3 {} {passed}, ", passed.saturating_mul(1024));
    !left.starts_with(all.expect(rt, "memory").as_str())
}

// The number of parts put depends on the schedule. On a busy machine the gate stops before the queue is full, and all parts that passed are
// put; one round of many in which it is full is enough.
#[test]
fn a_stop_ends_workers_that_wait_for_room(rt: HostRuntime) {
    for workers in [3, 16] {
        let mut is_seen = false;
        for _ in 0..100 {
            if is_seen {
                break;
            }
            is_seen = is_dropped(&rt, workers);
        }
        assert!(rt; is_seen, "{workers} workers");
    }
}

// Tenant 1 uploads, and so does tenant 0 or 1. The parts of both may be put in any order. One object is left, so both were sealed, the
// second as known.
#[test]
fn the_same_bytes_are_uploaded_twice(rt: HostRuntime) {
    let rest =
        "accepted 4098 6, objects 1 bytes 2049 uploads 0 held 0 parts 0, entries 12: tenant 0 6147 / tenant 1 6147 / begin 0 ";
    for workers in [1, 2, 16] {
        for other in [0, 1] {
            let cut = Cut {
                has_neighbour: false,
                tenants: 2,
                ..three_parts(workers)
            };
            let signal = Signal::new(&rt);
            let left = left_by(&rt, Rule::Pass, &signal, Deed::Upload(other), cut);
            let left = left.as_str();
            let is_reported = (left.starts_with("new 2049 3, the stranger known, ")
                || left.starts_with("known 2049 3, the stranger new, "))
                && left.contains(rest);
            let begun = if other == 0 {
                " 0 2049 / "
            } else {
                " 1 2049 / "
            };
            let are_begun = left.contains(begun) && left.contains(" 1 2049 / ");
            assert!(rt; is_reported && are_begun, "{workers} {other}: {left}");
        }
    }
}
