//! Uploads that are sealed, by one and by several workers; and the lock of a store.

use crate::gates::{Rule, Signal};
use crate::strangers::Deed;
use crate::uploading::{Cut, left_by, three_parts};
use b3_core::Runtime;
use std::process::Abort;
use std::sync::Wait;
use std::thread::Threads;
use store_shared::SharedOf;

// An upload for tenant 1 in parts of one chunk, during which a stranger may act, results in a text that begins and ends like this.
fn leaves<R: Threads + Wait + Sync + AllocGlobal + Runtime + Abort>(
    rt: &R,
    rule: Rule,
    signal: &Signal,
    deed: Deed,
    workers: u64,
    len: u64,
    head: &str,
    tail: &str,
) {
    let cut = Cut {
        has_neighbour: false,
        tenants: 2,
        limit: 4194304,
        len,
        ..three_parts(workers)
    };
    let left = left_by(rt, rule, signal, deed, cut);
    let left = left.as_str();
    let is_wanted = left.starts_with(head) && left.ends_with(tail);
    assert!(rt;
        is_wanted,
        "{workers} workers, {} parts asked for",
        signal.asked()
    );
}

#[test]
fn any_number_of_workers_uploads(rt: HostRuntime) {
    for workers in [1, 2, 3, 16] {
        leaves(
            &rt,
            Rule::Pass,
            &Signal::new(&rt),
            Deed::Nothing,
            workers,
            2049,
            "new 2049 3, accepted 2049 3, objects 1 bytes 2049 uploads 0 held 0 parts 0, entries 7: tenant 0 4194304 / tenant 1 4194304 / begin 0 1 2049 / put 0 ",
            " / seal 0 5f4d72f40d7a5f82b15ca2b2e44b1de3c2ef86c426c95c1af0b6879522563030 new",
        );
        leaves(
            &rt,
            Rule::Pass,
            &Signal::new(&rt),
            Deed::Nothing,
            workers,
            0,
            "new 0 0, accepted 0 0, objects 1 bytes 0 uploads 0 held 0 parts 0, entries 4: tenant 0 4194304 / tenant 1 4194304 / begin 0 1 0 / seal 0 af1349b9f5f9a1a6a0404dea36dcc9499bcb25c9adc112b7cc9a93cae41f3262 new",
            "",
        );
    }
}

// All parts wait until as many were asked for as there are workers, so all workers have to run at the same time.
#[test]
fn all_workers_overlap(rt: HostRuntime) {
    for workers in [2, 16] {
        leaves(
            &rt,
            Rule::HoldUntil(workers),
            &Signal::new(&rt),
            Deed::Nothing,
            workers,
            16384,
            "new 16384 16, accepted 16384 16, objects 1 bytes 16384 uploads 0 held 0 parts 0, entries 20: ",
            " / seal 0 f875d6646de28985646f34ee13be9a576fd515f76b5b0a26bb324735041ddde4 new",
        );
    }
}

// While a stranger keeps the lock the workers make parts until the queue is full, and wait. Each part is asked for once, and all are put.
#[test]
fn a_full_queue_loses_no_part(rt: HostRuntime) {
    for workers in [1, 2, 16] {
        let signal = Signal::new(&rt);
        leaves(
            &rt,
            Rule::Pass,
            &signal,
            Deed::KeepLockFull,
            workers,
            4194304,
            "new 4194304 4096, accepted 4194304 4096, objects 1 bytes 4194304 uploads 0 held 0 parts 0, entries 4100: ",
            " / seal 0 4e94e6f582581a0f3855f3ce504b153e951e65036fe9e2f010b7e25473c54f98 new",
        );
        assert!(rt; signal.is_asked_once_for_each(), "{workers} workers");
    }
}

// The lock works for any value, so that it can't change a store.
#[test]
fn a_lock_is_generic_over_what_it_protects(rt: HostRuntime) {
    let shared = SharedOf::of(7u64, 1);
    let seen = *shared.lock(&rt);
    assert!(rt; shared.workers() == 1 && seen == 7);
    assert!(rt; shared.close() == 7);
}
