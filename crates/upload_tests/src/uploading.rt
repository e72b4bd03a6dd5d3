//! An upload, what another thread does meanwhile, and the result of both, as text.

ghost use Rattle.std.specs.Prelude.{◌≡◌, ◌^◌};

use crate::gates::{Checkpoint, Rule, Signal};
use crate::reports::{reported_text, store_text};
use crate::strangers::{Deed, Outcome, begin_neighbour, meanwhile};
use b3_core::Runtime;
use b3_tests::pattern;
use std::alloc::{AllocError, Global};
use std::marker::Brand;
use std::process::Abort;
use std::sync::Wait;
use std::thread;
use std::thread::Threads;
use store_core::{Limits, TenantId};
use store_ledger::{Accepted, Ledgers, Share};
use store_shared::{Gate, Locked, Shared, UnnamedLedgers, UploadFault, lent_open_tenant, upload};

/// A store with limits and `tenants` tenants, each with the limit `limit`; and an upload for the last of them of `len` bytes of the
/// pattern. If it has a neighbour, that is upload 0, which holds a part when the upload is begun.
#[derive(Clone, Copy)]
pub(crate) struct Cut {
    pub(crate) has_neighbour: bool,
    pub(crate) tenants: u64,
    pub(crate) limit: u64,
    pub(crate) entries: u64,
    pub(crate) max_workers: u64,
    pub(crate) len: u64,
    pub(crate) part_chunks: u64,
    pub(crate) workers: u64,
}

/// Three parts of one chunk, the last one ragged, and a neighbour. There is room for one more upload of that length.
pub(crate) fn three_parts(workers: u64) -> Cut {
    Cut {
        has_neighbour: true,
        tenants: 1,
        limit: 6147,
        entries: 1 << 32,
        max_workers: 16,
        len: 2049,
        part_chunks: 1,
        workers,
    }
}

/// Uploads bytes, and returns whether they were new.
pub(crate) fn upload_row<L: Ledgers, G: Gate + Sync, R: Threads + Wait + Sync + Runtime>(
    rt: &R,
    alloc: Global,
    shared: &Shared<L>,
    share: Share<L>,
    gate: &G,
    tenant: TenantId,
    row: &[u8],
    part_chunks: u64,
    workers: u64,
) -> (Share<L>, Result<bool, UploadFault>) {
    let (share, answer) = upload(
        rt,
        alloc,
        shared,
        share,
        gate,
        tenant,
        row,
        part_chunks,
        workers,
    );
    match answer {
        Ok(sealed) => (share, Ok(sealed.new)),
        Err(fault) => (share, Err(fault)),
    }
}

// Opens the tenants, and begins the neighbour if there is one. If a tenant is not opened, the upload for it is refused with S1.
fn prepare<L: Ledgers, R: Wait + AllocGlobal + Runtime>(
    rt: &R,
    shared: &Shared<L>,
    share: &mut Share<L>,
    cut: Cut,
) {
    for _ in 0..cut.tenants {
        let _opened = lent_open_tenant(&mut *shared.lock(rt), cut.limit);
    }
    if cut.has_neighbour {
        begin_neighbour(rt, rt.alloc(), shared, share);
    }
}

// What was recorded with a share.
fn accepted_by<L: Ledgers>(share: &Share<L>) -> Accepted {
    Accepted {
        bytes: share.bytes(),
        calls: share.calls(),
    }
}

// The result of an upload, and what it and the stranger left in a store whose whole share settles.
fn beside_text<L: Ledgers, R: Abort>(
    rt: &R,
    alloc: Global,
    answer: Result<bool, UploadFault>,
    put: Accepted,
    outcome: Outcome,
    locked: &mut Locked<L>,
    share: &mut Share<L>,
) -> Result<String, AllocError> {
    let beside = match outcome {
        Outcome::Refused => "the stranger refused, ",
        Outcome::Done => "",
        Outcome::New => "the stranger new, ",
        Outcome::Known => "the stranger known, ",
    };
    let accepted = locked.settle(share).expect(rt, "a whole share");
    let reported = reported_text(alloc, answer, put)?;
    let left = store_text(alloc, accepted, locked.store())?;
    format!(in alloc; "{}, {beside}{}", reported.as_str(), left.as_str())
}

// Uploads bytes for the last tenant, in the parts that the cut has.
fn upload_cut<L: Ledgers, G: Gate + Sync, R: Threads + Wait + Sync + AllocGlobal + Runtime>(
    rt: &R,
    shared: &Shared<L>,
    share: Share<L>,
    gate: &G,
    row: &[u8],
    cut: Cut,
) -> (Share<L>, Result<bool, UploadFault>) {
    let tenant = TenantId::new(cut.tenants.saturating_sub(1));
    upload_row(
        rt,
        rt.alloc(),
        shared,
        share,
        gate,
        tenant,
        row,
        cut.part_chunks,
        cut.workers,
    )
}

// Uploads bytes with one share, while the stranger acts with the other.
fn side_by_side<
    L: Ledgers + Send + Sync,
    G: Gate + Sync,
    R: Threads + Wait + Sync + AllocGlobal + Runtime,
>(
    rt: &R,
    shared: &Shared<L>,
    one: Share<L>,
    other: Share<L>,
    gate: &G,
    signal: &Signal,
    deed: Deed,
    row: &[u8],
    cut: Cut,
) -> ((Share<L>, Result<bool, UploadFault>), (Share<L>, Outcome)) {
    thread::join(
        rt,
        move || -> (Share<L>, Result<bool, UploadFault>) {
            upload_cut(rt, shared, one, gate, row, cut)
        },
        move || -> (Share<L>, Outcome) {
            let workers = cut.workers;
            meanwhile(rt, rt.alloc(), shared, other, signal, deed, row, workers)
        },
    )
}

/// An upload with a share of one part, and the deed of the stranger, who has all other parts.
pub(crate) fn uploaded<
    L: Ledgers + Send + Sync,
    G: Gate + Sync,
    R: Threads + Wait + Sync + AllocGlobal + Runtime + Abort,
>(
    rt: &R,
    ledgers: UnnamedLedgers,
    gate: &G,
    signal: &Signal,
    deed: Deed,
    row: &[u8],
    cut: Cut,
) -> Result<String, AllocError>
    requires bytes { (ledgers.bytes.name ≡ L.bytes_name) × (ledgers.bytes.parts ≡ L.bytes_parts) × (ledgers.bytes.parts ≡ 2 ^ 32) }
    requires calls { (ledgers.calls.name ≡ L.calls_name) × (ledgers.calls.parts ≡ L.calls_parts) × (ledgers.calls.parts ≡ 2 ^ 32) }
    requires history { ledgers.history ≡ L.history }
    requires limits { L.limits ≡ (cut.tenants, cut.entries, cut.max_workers) }
{
    let alloc = rt.alloc();
    let limits = Limits::new(cut.tenants, cut.entries, cut.max_workers).expect(rt, "limits");
    let (shared, mut other) = Shared::<L>::new(alloc, limits, ledgers);
    let one = other.split(1);
    prepare(rt, &shared, &mut other, cut);
    let ((one, answer), (mut share, outcome)) = side_by_side(
        rt, &shared, one, other, gate, signal, deed, row, cut,
    );
    let put = accepted_by(&one);
    let mut locked = shared.close();
    locked.join(&mut share, one);
    beside_text(rt, alloc, answer, put, outcome, &mut locked, &mut share)
}

/// The result of an upload under a gate with this rule, and what it and the stranger leave.
pub(crate) fn left_by<R: Threads + Wait + Sync + AllocGlobal + Runtime + Abort>(
    rt: &R,
    rule: Rule,
    signal: &Signal,
    deed: Deed,
    cut: Cut,
) -> String {
    let gate = Checkpoint { rule, signal };
    let input = pattern(rt.alloc(), 0, cut.len).expect(rt, "memory");
    let ledgers = UnnamedLedgers::new(rt.alloc()).expect(rt, "memory");
    let left = uploaded::<Brand, _, R>(rt, ledgers, &gate, signal, deed, input.as_slice(), cut);
    left.expect(rt, "memory")
}
