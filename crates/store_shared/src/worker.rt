//! The workers of an upload.

ghost use Rattle.std.specs.Prelude.{◌≡◌, ◌∷◌, ◌++◌, ◌<◌, ◌≤◌, ◌^◌, [], IfErr, IfSome, false, length, true};
ghost use Rattle.b3_forest.specs.Borrowed.{borrowed_bytes};
ghost use Rattle.store_upload.specs.Uploads.{max_bytes, max_part_chunks};
ghost use Rattle.store_board.specs.Passes.{given_of, giver_of};
ghost use Rattle.store_board.specs.Seats.{IsSeatOf, parts_of};
ghost use Rattle.store_shared.specs.Cuts.{part_count};
ghost use Rattle.store_shared.specs.inner.Gates.{IsFaultOf, fault_for};
ghost use Rattle.store_shared.specs.Uploading.{cut_count};
ghost use Rattle.store_shared.specs.inner.Workers.{AllPassed, IsReportOf, IsWorkerOf};

use crate::backoff::Backoff;
use crate::cut::Cut;
use crate::fault::UploadFaultKind;
use crate::gate::{Gate, GateStop};
use crate::job::Exchange;
use b3_core::Work;
use b3_forest::{BorrowedBytes, Prepared};
use std::sync::Wait;
use std::thread::Promise;
use store_board::{BoardSeat, GivePass};

// A worker: its seat at the board, its pass of the hand-over, and the compressions that it made.
#[derive(Drop)]
pub(crate) struct Worker {
    pub(crate) seat: BoardSeat,
    pub(crate) pass: GivePass,
    pub(crate) work: Work,
}

// What a worker's thread returns: its fault, if it had one, and the worker itself.
#[derive(Drop)]
pub(crate) struct Report {
    pub(crate) fault: Option<UploadFaultKind>,
    pub(crate) worker: Worker,
}

// The promise about a report: its fault is one that the gate may have caused, or out of memory, and everything that the worker gave is
// parts of the upload that have passed the gate.
#[derive(Drop)]
pub(crate) struct ReportOf<'a, G: Gate> {
    pub(crate) borrowed: BorrowedBytes<'a>,
    pub(crate) part_chunks: u64,
    pub(crate) gate: &'a G,
    pub(crate) exchange: &'a Exchange,
}

impl<'a, G: Gate> Promise<Report> for ReportOf<'a, G> {
    ghost kept_by = { λ p report. IsReportOf p.exchange.now (G.rule p.gate.now) (record { bytes = borrowed_bytes p.borrowed; part_chunks = p.part_chunks }) report };
}

// The fault for a gate's result for a part.
fn fault_at(part: u64, answer: GateStop) -> UploadFaultKind
    ensures { result ≡ fault_for part answer }
{
    match answer {
        GateStop::Stop => UploadFaultKind::Stopped,
        GateStop::Fault(code) => UploadFaultKind::GateFault { part, code },
    }
}

// Whether no more parts are wanted: a worker has stopped the board, or the collector has stopped collecting.
fn is_over(exchange: &Exchange, seat: &mut BoardSeat) -> bool
    requires { IsSeatOf exchange.now.board seat.old }
    ensures { IsSeatOf exchange.now.board seat.new }
{
    exchange.board.stopped(seat) || exchange.progress.has_given_up()
}

// Hands a part over, or drops it if the queue is full and no more parts are wanted. Returns whether it was handed over.
fn hand_part<R: Wait>(rt: &R, exchange: &Exchange, worker: &mut Worker, part: Prepared) -> bool
    requires { IsWorkerOf exchange.now worker.old }
    ensures own { IsWorkerOf exchange.now worker.new }
    ensures given { result ≡ true → given_of worker.new.pass ≡ given_of worker.old.pass ++ record { giver = giver_of worker.old.pass; part = part } ∷ [] }
    ensures dropped { result ≡ false → given_of worker.new.pass ≡ given_of worker.old.pass }
{
    let mut part = part;
    let mut backoff = Backoff::new();
    for _ in rt.forever() {
        match exchange.hand_over.give(rt, &mut worker.pass, part) {
            Ok(()) => return true,
            Err(back) => part = back,
        }
        if is_over(exchange, &mut worker.seat) {
            return false;
        }
        backoff.wait(rt);
    }
    unreachable!()
}

// Makes parts and hands them over, until there are no more, no more are wanted, or something fails.
fn make_parts<G: Gate, R: Wait>(
    rt: &R,
    cut: &Cut<'_>,
    gate: &G,
    exchange: &Exchange,
    worker: &mut Worker,
) -> Result<(), UploadFaultKind>
    requires own { IsWorkerOf exchange.now worker.old }
    requires parts { parts_of exchange.now.board ≡ cut_count cut.now }
    requires passed { AllPassed (G.rule gate.now) cut.now worker.old.pass }
    ensures own { IsWorkerOf exchange.now worker.new }
    ensures passed { AllPassed (G.rule gate.now) cut.now worker.new.pass }
    ensures fault { IfErr result (IsFaultOf (G.rule gate.now) (cut_count cut.now)) }
{
    for _ in rt.forever() {
        if is_over(exchange, &mut worker.seat) {
            return Ok(());
        }
        let Some(draw) = exchange.board.claim(&mut worker.seat) else {
            return Ok(());
        };
        let number = draw.number();
        let part = cut.prepare(exchange.alloc, number, &mut worker.work)?;
        if let Err(answer) = gate.passed(draw) {
            return Err(fault_at(number, answer));
        }
        if !hand_part(rt, exchange, worker, part) {
            return Ok(());
        }
    }
    unreachable!()
}

/// Runs on a worker's thread. A worker that fails stops the board. Every worker that ends is counted.
pub(crate) fn run<G: Gate, R: Wait>(rt: &R, parts: &ReportOf<'_, G>, worker: Worker) -> Report
    requires own { IsWorkerOf parts.now.exchange.now worker }
    requires fresh { given_of worker.pass ≡ [] }
    requires parts { parts_of parts.now.exchange.now.board ≡ part_count (length (borrowed_bytes parts.now.borrowed)) parts.now.part_chunks }
    requires bytes { length (borrowed_bytes parts.now.borrowed) ≤ max_bytes }
    requires positive { 0 < parts.now.part_chunks }
    requires bounded { parts.now.part_chunks ≤ max_part_chunks }
    ensures fault { IfSome result.fault (IsFaultOf (G.rule parts.now.gate.now) (part_count (length (borrowed_bytes parts.now.borrowed)) parts.now.part_chunks)) }
    ensures own { IsWorkerOf parts.now.exchange.now result.worker }
    ensures passed { AllPassed (G.rule parts.now.gate.now) (record { bytes = borrowed_bytes parts.now.borrowed; part_chunks = parts.now.part_chunks }) result.worker.pass }
{
    // A thread is passed the bytes and the number of chunks, and makes its own `Cut` of them.
    let exchange = parts.exchange;
    let cut = Cut::new(parts.borrowed, parts.part_chunks);
    let mut worker = worker;
    match make_parts(rt, &cut, parts.gate, exchange, &mut worker) {
        Ok(()) => {
            exchange.progress.end();
            Report {
                fault: None,
                worker,
            }
        }
        Err(kind) => {
            exchange.board.stop(&mut worker.seat);
            exchange.progress.end();
            Report {
                fault: Some(kind),
                worker,
            }
        }
    }
}
