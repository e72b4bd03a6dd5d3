//! The threads of an upload.

ghost use Rattle.std.specs.Prelude.{◌≡◌, ◌+◌, ◌<◌, ◌≤◌, ◌^◌, [], All, IfNone, IfOk, IfSome, Some, length, map, vec_capacity, vec_len};
ghost use Rattle.b3_forest.specs.Borrowed.{borrowed_bytes};
ghost use Rattle.store_upload.specs.Uploads.{max_bytes, max_part_chunks};
ghost use Rattle.store_board.specs.Passes.{IsGiverOf, given_of};
ghost use Rattle.store_board.specs.Seats.{IsSeatOf, parts_of};
ghost use Rattle.store_shared.specs.Cuts.{part_count};
ghost use Rattle.store_shared.specs.Gates.{IsOwnFault};
ghost use Rattle.store_shared.specs.inner.Workers.{AreWorkersOf, IsReportOf, IsThreadOf, IsWorkerOf, fault_of_first};
ghost use Rattle.store_shared.specs.declared.fault.UploadFaultKind.TheVariants.{NoMemory};

use crate::fault::UploadFaultKind;
use crate::gate::Gate;
use crate::job::Job;
use crate::worker::{Report, ReportOf, Worker, run};
use b3_core::{Runtime, Work};
use b3_forest::{BorrowedBytes, Stretches};
use std::alloc::{AllocError, Global};
use std::sync::Wait;
use std::thread::{PromisedHandle, Scope, Threads};
use store_board::{BoardSeat, GivePass};

// The threads that were started, room for their reports, and why not all were started.
pub(crate) struct Crew<'s, G: Gate> {
    pub(crate) handles: Vec<PromisedHandle<Report, ReportOf<'s, G>>>,
    pub(crate) reports: Vec<Report>,
    pub(crate) unstarted: Option<UploadFaultKind>,
}

/// A worker for each seat and pass, in reverse order.
pub(crate) fn workers_of<G: Gate, R: Runtime>(
    rt: &R,
    job: &Job<'_, G>,
    seats: Vec<BoardSeat>,
    passes: Vec<GivePass>,
) -> Result<Vec<Worker>, AllocError>
    requires seats { All (λ s. IsSeatOf job.now.exchange.board s) seats.items }
    requires passes { All (λ p. IsGiverOf job.now.exchange.hand_over p × (given_of p ≡ [])) passes.items }
    requires as_many { vec_len passes ≡ vec_len seats }
    ensures { IfOk result (λ workers. AreWorkersOf job.now.exchange workers.items × (vec_len workers ≡ vec_len seats)) }
{
    let mut seats = seats;
    let mut passes = passes;
    let mut workers = Vec::new(job.exchange.alloc);
    while let Some(seat) = seats.pop() {
        let Some(pass) = passes.pop() else {
            unreachable!()
        };
        workers.push(Worker {
            seat,
            pass,
            work: Work::new(rt),
        })?;
    }
    Ok(workers)
}

/// Starts a thread for each worker, the last one first, and makes room for their reports. If one cannot be started, the remaining ones are
/// not started, and the result has a fault.
pub(crate) fn start_all<'s, E, G: Gate + Sync, R: Wait + Sync>(
    scope: &Scope<'s, E>,
    rt: &'s R,
    job: &'s Job<'s, G>,
    workers: Vec<Worker>,
) -> Crew<'s, G>
    requires { AreWorkersOf job.now.exchange workers.items }
    ensures handles { All (IsThreadOf job.now.cut job.now.gate.now job.now.exchange) result.handles.items }
    ensures all { IfNone result.unstarted (vec_len result.handles ≡ vec_len workers) }
    ensures room { (result.reports.items ≡ []) × (vec_len result.reports + vec_len result.handles ≤ vec_capacity result.reports) }
    ensures fault { IfSome result.unstarted IsOwnFault }
{
    let mut handles = Vec::new(job.exchange.alloc);
    let mut reports = Vec::new(job.exchange.alloc);
    if reports.reserve(workers.len()).is_err() {
        return broken_off(handles, reports);
    }
    let mut workers = workers;
    while let Some(worker) = workers.pop() {
        if handles.reserve(1).is_err() {
            return broken_off(handles, reports);
        }
        match start_one(scope, rt, job, worker) {
            Ok(handle) => handles.push_reserved(handle),
            Err(_) => return broken_off(handles, reports),
        }
    }
    Crew {
        handles,
        reports,
        unstarted: None,
    }
}

// Starts a thread for a worker. The borrowed bytes are passed as a slice or as stretches, and not as the enum of both.
fn start_one<'s, E, G: Gate + Sync, R: Wait + Sync>(
    scope: &Scope<'s, E>,
    rt: &'s R,
    job: &'s Job<'s, G>,
    worker: Worker,
) -> Result<PromisedHandle<Report, ReportOf<'s, G>>, UploadFaultKind>
    requires { IsWorkerOf job.now.exchange worker × (given_of worker.pass ≡ []) }
    ensures { IfOk result (IsThreadOf job.now.cut job.now.gate.now job.now.exchange) }
{
    let borrowed = job.cut.borrowed();
    let promise = ReportOf {
        borrowed,
        part_chunks: job.cut.part_chunks(),
        gate: job.gate,
        exchange: &job.exchange,
    };
    match borrowed {
        BorrowedBytes::Slice(bytes) => start_on_slice(scope, rt, promise, bytes, worker),
        BorrowedBytes::Stretches(bytes) => start_on_stretches(scope, rt, promise, bytes, worker),
    }
}

// Starts a thread for a worker on a slice.
fn start_on_slice<'s, E, G: Gate + Sync, R: Wait + Sync>(
    scope: &Scope<'s, E>,
    rt: &'s R,
    promise: ReportOf<'s, G>,
    bytes: &'s [u8],
    worker: Worker,
) -> Result<PromisedHandle<Report, ReportOf<'s, G>>, UploadFaultKind>
    requires bytes { (borrowed_bytes promise.borrowed ≡ bytes.now) × (length bytes.now ≤ max_bytes) }
    requires parts { parts_of promise.exchange.now.board ≡ part_count (length bytes.now) promise.part_chunks }
    requires part_chunks { (0 < promise.part_chunks) × (promise.part_chunks ≤ max_part_chunks) }
    requires worker { IsWorkerOf promise.exchange.now worker × (given_of worker.pass ≡ []) }
    ensures { IfOk result (λ handle. handle.promise ≡ promise.entry) }
{
    let (part_chunks, gate, exchange) = (promise.part_chunks, promise.gate, promise.exchange);
    let runs = move || -> Report
        requires { IsWorkerOf exchange.now worker × (given_of worker.pass ≡ [])
            × (parts_of exchange.now.board ≡ part_count (length bytes.now) part_chunks) × (length bytes.now ≤ max_bytes) × (0 < part_chunks)
            × (part_chunks ≤ max_part_chunks) }
        ensures { IsReportOf exchange.entry.now (G.rule gate.entry.now) (record { bytes = bytes.entry.now; part_chunks = part_chunks }) result }
    {
        let parts = ReportOf {
            borrowed: BorrowedBytes::Slice(bytes),
            part_chunks,
            gate,
            exchange,
        };
        run(rt, &parts, worker)
    };
    match scope.spawn_with(promise, runs) {
        Ok(handle) => Ok(handle),
        Err(_) => Err(UploadFaultKind::NoMemory),
    }
}

// Starts a thread for a worker on stretches.
fn start_on_stretches<'s, E, G: Gate + Sync, R: Wait + Sync>(
    scope: &Scope<'s, E>,
    rt: &'s R,
    promise: ReportOf<'s, G>,
    bytes: &'s Stretches,
    worker: Worker,
) -> Result<PromisedHandle<Report, ReportOf<'s, G>>, UploadFaultKind>
    requires bytes { (borrowed_bytes promise.borrowed ≡ bytes.now.bytes) × (length bytes.now.bytes ≤ max_bytes) }
    requires parts { parts_of promise.exchange.now.board ≡ part_count (length bytes.now.bytes) promise.part_chunks }
    requires part_chunks { (0 < promise.part_chunks) × (promise.part_chunks ≤ max_part_chunks) }
    requires worker { IsWorkerOf promise.exchange.now worker × (given_of worker.pass ≡ []) }
    ensures { IfOk result (λ handle. handle.promise ≡ promise.entry) }
{
    let (part_chunks, gate, exchange) = (promise.part_chunks, promise.gate, promise.exchange);
    let runs = move || -> Report
        requires { IsWorkerOf exchange.now worker × (given_of worker.pass ≡ [])
            × (parts_of exchange.now.board ≡ part_count (length bytes.now.bytes) part_chunks) × (length bytes.now.bytes ≤ max_bytes)
            × (0 < part_chunks) × (part_chunks ≤ max_part_chunks) }
        ensures { IsReportOf exchange.entry.now (G.rule gate.entry.now) (record { bytes = bytes.entry.now.bytes; part_chunks = part_chunks }) result }
    {
        let parts = ReportOf {
            borrowed: BorrowedBytes::Stretches(bytes),
            part_chunks,
            gate,
            exchange,
        };
        run(rt, &parts, worker)
    };
    match scope.spawn_with(promise, runs) {
        Ok(handle) => Ok(handle),
        Err(_) => Err(UploadFaultKind::NoMemory),
    }
}

// A crew that is incomplete because an allocation for another thread failed.
fn broken_off<'s, G: Gate>(
    handles: Vec<PromisedHandle<Report, ReportOf<'s, G>>>,
    reports: Vec<Report>,
) -> Crew<'s, G>
    ensures { (result.handles ≡ handles.entry) × (result.reports ≡ reports) × (result.unstarted ≡ Some NoMemory) }
{
    Crew {
        handles,
        reports,
        unstarted: Some(UploadFaultKind::NoMemory),
    }
}

// Joins a thread, and returns the report of its worker.
fn join_one<'s, G: Gate, R: Threads>(
    rt: &R,
    job: &'s Job<'s, G>,
    handle: PromisedHandle<Report, ReportOf<'s, G>>,
) -> Report
    requires { IsThreadOf job.now.cut job.now.gate.now job.now.exchange handle }
    ensures { IsReportOf job.now.exchange (G.rule job.now.gate.now) job.now.cut result }
{
    handle.join(rt)
}

/// Joins all threads, and returns the reports of their workers, in the workers' order.
pub(crate) fn join_all<'s, G: Gate, R: Threads>(
    rt: &R,
    job: &'s Job<'s, G>,
    handles: Vec<PromisedHandle<Report, ReportOf<'s, G>>>,
    reports: Vec<Report>,
) -> Vec<Report>
    requires handles { All (IsThreadOf job.now.cut job.now.gate.now job.now.exchange) handles.items }
    requires room { (reports.items ≡ []) × (vec_len reports + vec_len handles ≤ vec_capacity reports) }
    ensures count { vec_len result ≡ vec_len handles.entry }
    ensures reports { All (λ r. IsReportOf job.now.exchange (G.rule job.now.gate.now) job.now.cut r) result.items }
{
    let mut rest = handles.into_iter();
    let mut reports = reports;
    while let Some(handle) = rest.next() {
        reports.push_reserved(join_one(rt, job, handle));
    }
    reports
}

/// The fault of the first worker that had one.
pub(crate) fn first_fault(reports: &[Report]) -> Option<UploadFaultKind>
    ensures { result ≡ fault_of_first reports.now }
{
    let mut first = None;
    for report in reports {
        first = first.or(report.fault);
    }
    first
}

/// The passes of the workers, in their order.
pub(crate) fn passes_from(alloc: Global, reports: Vec<Report>) -> Result<Vec<GivePass>, AllocError>
    ensures { IfOk result (λ passes. passes.items ≡ map (λ r. r.worker.pass) reports.items) }
{
    let mut passes = Vec::new(alloc);
    let mut rest = reports.into_iter();
    while let Some(report) = rest.next() {
        let Report { fault: _, worker } = report;
        let Worker {
            seat: _,
            pass,
            work: _,
        } = worker;
        passes.push(pass)?;
    }
    Ok(passes)
}
