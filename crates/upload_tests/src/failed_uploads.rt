//! Uploads that fail.

use crate::gates::{Rule, Signal};
use crate::reports::aborted_after;
use crate::strangers::Deed;
use crate::uploading::{Cut, left_by, three_parts};
use b3_core::Runtime;
use std::alloc::{AllocError, Global};
use std::process::Abort;
use std::sync::Wait;
use std::thread::Threads;

// Whether an upload has failed with one of these faults and was aborted, after the parts were put in one of these orders.
fn is_aborted(alloc: Global, left: &str, faults: &str, orders: &str) -> Result<bool, AllocError> {
    for fault in faults.split('|') {
        for parts in orders.split('|') {
            if aborted_after(alloc, fault, parts)?.as_str() == left {
                return Ok(true);
            }
        }
    }
    Ok(false)
}

// An upload of three parts by `workers` workers fails with one of these faults, and is aborted. The parts were put in one of these orders.
fn aborts<R: Threads + Wait + Sync + AllocGlobal + Runtime + Abort>(
    rt: &R,
    rule: Rule,
    workers: u64,
    faults: &str,
    orders: &str,
) {
    let signal = Signal::new(rt);
    let left = left_by(rt, rule, &signal, Deed::Nothing, three_parts(workers));
    let found = is_aborted(rt.alloc(), left.as_str(), faults, orders);
    assert!(rt; found == Ok(true), "{workers} workers: {}", left.as_str());
}

// Numbers are drawn in order, and a part that is drawn and passes is handed over, since the queue has room for all three. So part 2 is put
// only if part 1 is; with two workers both are made by the one that has not failed.
#[test]
fn a_stop_at_the_first_part_ends_an_upload(rt: HostRuntime) {
    aborts(&rt, Rule::Stop(0), 1, "U3", "");
    aborts(&rt, Rule::Stop(0), 2, "U3", "|1|12");
    aborts(&rt, Rule::Stop(0), 16, "U3", "|1|12|21");
}

// Part 0 is drawn before part 1. With two workers it is handed over before part 2 is drawn.
#[test]
fn a_fault_at_the_second_part_ends_an_upload(rt: HostRuntime) {
    let fault = "U4 part 1 code 9";
    aborts(&rt, Rule::Fail(1), 1, fault, "0");
    aborts(&rt, Rule::Fail(1), 2, fault, "0|02");
    aborts(&rt, Rule::Fail(1), 16, fault, "0|02|20");
}

// All others are drawn before the last one.
#[test]
fn a_stop_at_the_last_part_ends_an_upload(rt: HostRuntime) {
    aborts(&rt, Rule::Stop(2), 1, "U3", "01");
    aborts(&rt, Rule::Stop(2), 2, "U3", "01|10");
    aborts(&rt, Rule::Stop(2), 16, "U3", "01|10");
}

// Each worker makes at most one part. The fault of the first worker that made one is reported, whichever that was.
#[test]
fn faults_at_all_parts_end_an_upload(rt: HostRuntime) {
    let two = "U4 part 0 code 0|U4 part 1 code 1";
    let three = "U4 part 0 code 0|U4 part 1 code 1|U4 part 2 code 2";
    aborts(&rt, Rule::FailAll, 1, "U4 part 0 code 0", "");
    aborts(&rt, Rule::FailAll, 2, two, "");
    aborts(&rt, Rule::FailAll, 16, three, "");
}

// An upload results in a text that begins like this.
fn leaves<R: Threads + Wait + Sync + AllocGlobal + Runtime + Abort>(
    rt: &R,
    rule: Rule,
    cut: Cut,
    head: &str,
) {
    let signal = Signal::new(rt);
    let left = left_by(rt, rule, &signal, Deed::Nothing, cut);
    assert!(rt; left.as_str().starts_with(head), "{}", left.as_str());
}

// The result of an upload of three parts if the journal is full once the upload is begun.
const NOTHING_PUT: &str =
    "U1 S13 left 1 0 0, accepted 1 1, objects 0 bytes 0 uploads 2 held 1 parts 1, entries 4: tenant 0 6147 / begin 0 0 2049 / put 0 2048 1 / begin 1 0 2049";

// With room for four entries nothing is put. Then a gate fails at the second part too, but the store's refusal to the collector is reported
// first. With room for 22, more parts than the hand-over has room for are dropped, and the workers end.
#[test]
fn a_full_journal_leaves_the_upload(rt: HostRuntime) {
    let cut = three_parts(1);
    leaves(
        &rt,
        Rule::Pass,
        Cut { entries: 5, ..cut },
        "U1 S13 left 1 1024 1, accepted 1025 2, objects 0 bytes 0 uploads 2 held 1025 parts 2, entries 5: tenant 0 6147 / begin 0 0 2049 / put 0 2048 1 / begin 1 0 2049 / put 1 0 1024",
    );
    leaves(&rt, Rule::Pass, Cut { entries: 4, ..cut }, NOTHING_PUT);
    leaves(&rt, Rule::Fail(1), Cut { entries: 4, ..cut }, NOTHING_PUT);
    for workers in [1, 2, 16] {
        let cut = Cut {
            limit: 104449,
            entries: 22,
            len: 102400,
            ..three_parts(workers)
        };
        leaves(
            &rt,
            Rule::Pass,
            cut,
            "U1 S13 left 1 18432 18, accepted 18433 19, objects 0 bytes 0 uploads 2 held 18433 parts 19, entries 22: ",
        );
    }
}

// All parts are put, and the journal has no room for the seal or the abort.
#[test]
fn a_seal_is_refused(rt: HostRuntime) {
    let cut = Cut {
        has_neighbour: false,
        entries: 5,
        max_workers: 1,
        ..three_parts(1)
    };
    leaves(
        &rt,
        Rule::Pass,
        cut,
        "U1 S13 left 0 2049 3, accepted 2049 3, objects 0 bytes 0 uploads 1 held 2049 parts 3, entries 5: tenant 0 6147 / begin 0 0 2049 / put 0 0 1024 / put 0 1024 1024 / put 0 2048 1",
    );
}

// The result of a bad cut.
const NOTHING_BEGUN: &str =
    "U2 0 0, accepted 1 1, objects 0 bytes 0 uploads 1 held 1 parts 1, entries 3: tenant 0 6147 / begin 0 0 2049 / put 0 2048 1";

// A quota without room; parts of no chunks and of one too many; no worker, and one more than allowed.
#[test]
fn what_is_refused_first_begins_nothing(rt: HostRuntime) {
    for max_workers in [1u64, 2, 16] {
        let cut = Cut {
            max_workers,
            ..three_parts(max_workers)
        };
        leaves(
            &rt,
            Rule::Pass,
            Cut { limit: 4097, ..cut },
            "U1 S6 free 2048 0 0, accepted 1 1, objects 0 bytes 0 uploads 1 held 1 parts 1, entries 3: tenant 0 4097 / begin 0 0 2049 / put 0 2048 1",
        );
        let too_many = max_workers.saturating_add(1);
        for part_chunks in [0, 16385] {
            leaves(&rt, Rule::Pass, Cut { part_chunks, ..cut }, NOTHING_BEGUN);
        }
        for workers in [0, too_many] {
            leaves(&rt, Rule::Pass, Cut { workers, ..cut }, NOTHING_BEGUN);
        }
    }
}

// Enough parts that workers which ignored a stop would ask the gate more often than the bound.
fn many_parts() -> Cut {
    Cut {
        limit: 4196353,
        max_workers: 2,
        len: 4194304,
        ..three_parts(2)
    }
}

const BOUND: u64 = 2000;

#[test]
fn a_stop_is_seen(rt: HostRuntime) {
    let signal = Signal::new(&rt);
    let left = left_by(&rt, Rule::Slow(0), &signal, Deed::Nothing, many_parts());
    assert!(rt; left.as_str().starts_with("U3 "), "{}", left.as_str());
    assert!(rt; signal.asked() < BOUND);
}

// Either of the first two parts may come first.
#[test]
fn workers_end_where_the_collector_gives_up(rt: HostRuntime) {
    let cut = Cut {
        entries: 5,
        ..many_parts()
    };
    let signal = Signal::new(&rt);
    let left = left_by(&rt, Rule::Slow(u64::MAX), &signal, Deed::Nothing, cut);
    let left = left.as_str();
    assert!(rt;
        left.starts_with(
            "U1 S13 left 1 1024 1, accepted 1025 2, objects 0 bytes 0 uploads 2 held 1025 parts 2, entries 5: "
        ),
        "{left}"
    );
    assert!(rt;
        left.ends_with("/ put 1 0 1024") || left.ends_with("/ put 1 1024 1024"),
        "{left}"
    );
    assert!(rt; signal.asked() < BOUND);
}
