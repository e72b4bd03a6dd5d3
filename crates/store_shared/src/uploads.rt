//! Uploads by several workers.

ghost use Rattle.std.specs.Prelude.{◌≡◌, ◌+◌, ◌<◌, ◌≤◌, ℕ, [], All, IfErr, IfNone, IfOk, IfSome, OnOk, false, length, max, min, true, vec_capacity, vec_len};
ghost use Rattle.std.specs.Arc.{arc_value};
ghost use Rattle.b3_core.specs.Modes.{hash_of};
ghost use Rattle.b3_forest.specs.Borrowed.{borrowed_bytes};
ghost use Rattle.store_upload.specs.Uploads.{max_bytes, max_part_chunks};
ghost use Rattle.store_board.specs.Passes.{IsTakerOf, givers_of, taken_of};
ghost use Rattle.store_shared.specs.Cuts.{IsBadCut};
ghost use Rattle.store_shared.specs.Gates.{IsOwnFault};
ghost use Rattle.store_shared.specs.Uploading.{ModelCut, cut_count};
ghost use Rattle.store_shared.specs.inner.Uploading.{AreNoted, IsCollected, IsUploaded};
ghost use Rattle.store_shared.specs.Uploads.{IsAnswered};
ghost use Rattle.store_shared.specs.inner.Workers.{AreWorkersOf, IsThreadOf};
ghost use Rattle.store_books.specs.Books.{max_workers};

use crate::collector::{Collector, Target};
use crate::crew::{Crew, first_fault, join_all, start_all, workers_of};
use crate::cut::Cut;
use crate::fault::{UploadFault, UploadFaultKind};
use crate::gate::Gate;
use crate::job::{Exchange, Job};
use crate::lent::{lent_abort, lent_begin, lent_seal_as};
use crate::progress::Progress;
use crate::shared::Shared;
use crate::worker::Worker;
use b3_core::{Runtime, Work};
use b3_forest::{BorrowedBytes, Follow};
use std::alloc::Global;
use std::sync::Wait;
use std::thread;
use std::thread::Threads;
use store_board::{Board, HandOver, TakePass, Unasked};
use store_core::{Address, Refusal, Sealed, TenantId, UploadId};
use store_ledger::{Ledgers, Share};
use store_upload::MAX_PART_CHUNKS;

/// An upload: the tenant, the bytes, which are split into parts of `part_chunks` chunks of 1024 bytes, the number of workers, and the gate
/// that they ask after each part.
#[derive(Drop)]
pub struct UploadRequest<'a, G: Gate> {
    pub tenant: TenantId,
    pub bytes: BorrowedBytes<'a>,
    pub part_chunks: u64,
    pub workers: u64,
    pub gate: &'a G,
}

impl<'a, G: Gate + Sync> UploadRequest<'a, G> {
    /// Uploads the bytes for the tenant, and files them at their hash.
    ///
    /// Each worker runs on its own thread, and there are no more workers than parts. A worker draws the number of a part, hashes the part,
    /// from a stretch of the bytes or a copy, asks the gate, and hands it over. The calling thread notes the parts that are handed over and
    /// puts them with the caller's share, several parts each time it takes the lock. If nothing fails, it seals the upload at the address
    /// that it has computed itself; then each part has passed the gate.
    ///
    /// U2 is checked first, before anything is begun. U1 is a refusal of the store, U3 and U4 are a gate's results, U5 is out of memory
    /// outside the store's commands, and U6 a part that is not one of the upload's parts. The collector's own fault takes precedence over
    /// those of the workers, and among these the fault of the worker with the lowest number. If an upload fails after it was begun, all
    /// workers are joined and the upload is aborted; `left` is its number only if the abort was refused and it is still open. The share has
    /// grown by the parts that were accepted. The call may wait, and keeps its promise if it returns.
    pub fn upload<L: Ledgers, R: Threads + Wait + Sync + Runtime>(
        &self,
        rt: &R,
        alloc: Global,
        shared: &Shared<L>,
        share: Share<L>,
    ) -> (Share<L>, Result<Sealed, UploadFault>)
        ensures { IsAnswered (G.rule self.now.gate.now) (record { bytes = borrowed_bytes self.now.bytes; part_chunks = self.now.part_chunks }) self.now.workers shared.now share result.0 result.1 }
    {
        if self.has_bad_cut(shared.workers()) {
            let fault = UploadFault::unbegun(UploadFaultKind::BadCut);
            return (share, Err(fault));
        }
        upload_parts(rt, alloc, shared, share, self)
    }

    // Whether a part would have no chunk or too many, or there would be no worker or too many.
    fn has_bad_cut(&self, most: u64) -> bool
        ensures yes { result ≡ true → IsBadCut self.now.part_chunks self.now.workers most }
        ensures no { result ≡ false → (0 < self.now.part_chunks) × (self.now.part_chunks ≤ max_part_chunks) × (0 < self.now.workers) × (self.now.workers ≤ most) }
    {
        if self.part_chunks == 0 || self.part_chunks > MAX_PART_CHUNKS {
            return true;
        }
        self.workers == 0 || self.workers > most
    }
}

/// Uploads bytes, as `UploadRequest::upload` does with these values in its fields.
pub fn upload<L: Ledgers, G: Gate + Sync, R: Threads + Wait + Sync + Runtime>(
    rt: &R,
    alloc: Global,
    shared: &Shared<L>,
    share: Share<L>,
    gate: &G,
    tenant: TenantId,
    bytes: &[u8],
    part_chunks: u64,
    workers: u64,
) -> (Share<L>, Result<Sealed, UploadFault>)
    ensures { IsAnswered (G.rule gate.now) (record { bytes = bytes.now; part_chunks = part_chunks }) workers shared.now share result.0 result.1 }
{
    let request = UploadRequest {
        tenant,
        bytes: BorrowedBytes::Slice(bytes),
        part_chunks,
        workers,
        gate,
    };
    request.upload(rt, alloc, shared, share)
}

// Uploads a request with valid numbers of chunks and workers.
fn upload_parts<L: Ledgers, G: Gate + Sync, R: Threads + Wait + Sync + Runtime>(
    rt: &R,
    alloc: Global,
    shared: &Shared<L>,
    share: Share<L>,
    request: &UploadRequest<'_, G>,
) -> (Share<L>, Result<Sealed, UploadFault>)
    requires part_chunks { (0 < request.now.part_chunks) × (request.now.part_chunks ≤ max_part_chunks) }
    requires workers { request.now.workers ≤ max_workers }
    ensures passed { OnOk result.1 ((k : ℕ) → k < cut_count (record { bytes = borrowed_bytes request.now.bytes; part_chunks = request.now.part_chunks }) → (G.rule request.now.gate.now).has_passed k) }
    ensures uploaded { IsUploaded (G.rule request.now.gate.now) (record { bytes = borrowed_bytes request.now.bytes; part_chunks = request.now.part_chunks }) share result.0 result.1 }
{
    let upload = match begin(rt, shared, request.tenant, request.bytes.len()) {
        Ok(upload) => upload,
        Err(kind) => return (share, Err(UploadFault::unbegun(kind))),
    };
    let (share, hashed) = put_parts(rt, alloc, shared, share, request, upload);
    let kind = match hashed {
        Ok(address) => match seal(rt, shared, upload, address) {
            Ok(sealed) => return (share, Ok(sealed)),
            Err(kind) => kind,
        },
        Err(kind) => kind,
    };
    let left = abort(rt, shared, upload);
    (share, Err(UploadFault { kind, left }))
}

// Begins an upload.
fn begin<L: Ledgers, R: Wait>(
    rt: &R,
    shared: &Shared<L>,
    tenant: TenantId,
    len: u64,
) -> Result<UploadId, UploadFaultKind>
    ensures bounded { OnOk result (len ≤ max_bytes) }
    ensures fault { IfErr result IsOwnFault }
{
    match lent_begin(&mut *shared.lock(rt), tenant, len) {
        Ok(begun) => {
            let (upload, plan) = begun;
            // For the proof alone: the bound of a plan is at most 2^44.
            let _most = plan.bound();
            Ok(upload)
        }
        Err(refusal) => Err(UploadFaultKind::Refused(refusal)),
    }
}

// Seals a complete upload at its address. The caller frees what it held, without the lock.
fn seal<L: Ledgers, R: Wait + Runtime>(
    rt: &R,
    shared: &Shared<L>,
    upload: UploadId,
    address: Address,
) -> Result<Sealed, UploadFaultKind>
    ensures ok { IfOk result (λ sealed. (sealed.address ≡ address) × (hash_of (arc_value sealed.object) ≡ address)) }
    ensures fault { IfErr result IsOwnFault }
{
    let mut work = Work::new(rt);
    match lent_seal_as(&mut *shared.lock(rt), upload, address, &mut work) {
        Ok(sealed) => Ok(sealed),
        Err(refusal) => Err(UploadFaultKind::Refused(refusal)),
    }
}

// Tries to abort an upload, and returns its number if it is left open. What it held is freed after the lock is released.
fn abort<L: Ledgers, R: Wait>(rt: &R, shared: &Shared<L>, upload: UploadId) -> Option<UploadId> {
    let aborted = lent_abort(&mut *shared.lock(rt), upload);
    match aborted {
        Ok(_) | Err(Refusal::NoUpload) => None,
        Err(_) => Some(upload),
    }
}

// As many workers as there are parts, at least one, and at most `most`.
fn workers_for(parts: u64, most: u64) -> u64
    ensures { result ≡ min most (max 1 parts) }
{
    most.min(parts.max(1))
}

// Puts all parts of an upload that was begun, and returns its address.
fn put_parts<L: Ledgers, G: Gate + Sync, R: Threads + Wait + Sync + Runtime>(
    rt: &R,
    alloc: Global,
    shared: &Shared<L>,
    share: Share<L>,
    request: &UploadRequest<'_, G>,
    upload: UploadId,
) -> (Share<L>, Result<Address, UploadFaultKind>)
    requires bytes { length (borrowed_bytes request.now.bytes) ≤ max_bytes }
    requires part_chunks { (0 < request.now.part_chunks) × (request.now.part_chunks ≤ max_part_chunks) }
    requires workers { request.now.workers ≤ max_workers }
    ensures passed { OnOk result.1 ((k : ℕ) → k < cut_count (record { bytes = borrowed_bytes request.now.bytes; part_chunks = request.now.part_chunks }) → (G.rule request.now.gate.now).has_passed k) }
    ensures collected { IsCollected (G.rule request.now.gate.now) (record { bytes = borrowed_bytes request.now.bytes; part_chunks = request.now.part_chunks }) share result.0 result.1 }
{
    let cut = Cut::new(request.bytes, request.part_chunks);
    let worker_count = workers_for(cut.parts(), request.workers);
    let no_memory = Err(UploadFaultKind::NoMemory);
    let Ok((board, seats)) = Board::new(alloc, cut.parts(), worker_count) else {
        return (share, no_memory);
    };
    let Ok((hand_over, passes, take_pass)) = HandOver::<Unasked>::new(
        alloc,
        2 * worker_count as usize,
        worker_count,
    ) else {
        return (share, no_memory);
    };
    let Ok(follow) = Follow::of(alloc, cut.borrowed()) else {
        return (share, no_memory);
    };
    let exchange = Exchange {
        alloc,
        board,
        hand_over,
        progress: Progress::new(),
    };
    let job = Job {
        cut,
        gate: request.gate,
        exchange,
    };
    let Ok(workers) = workers_of(rt, &job, seats, passes) else {
        return (share, no_memory);
    };
    let collector = Collector {
        target: Target { shared, upload },
        share,
        follow,
        fault: None,
        work: Work::new(rt),
    };
    work_together(rt, &job, workers, take_pass, collector)
}

// Runs all workers, and the collector alongside.
fn work_together<L: Ledgers, G: Gate + Sync, R: Threads + Wait + Sync>(
    rt: &R,
    job: &Job<'_, G>,
    workers: Vec<Worker>,
    take_pass: TakePass,
    collector: Collector<'_, L>,
) -> (Share<L>, Result<Address, UploadFaultKind>)
    requires positive { 0 < job.now.cut.part_chunks }
    requires workers { AreWorkersOf job.now.exchange workers.items }
    requires all { vec_len workers ≡ givers_of job.now.exchange.hand_over }
    requires taker { IsTakerOf job.now.exchange.hand_over take_pass × (taken_of take_pass ≡ []) }
    requires fresh { AreNoted job.now.cut collector.follow [] }
    ensures collected { IsCollected (G.rule job.now.gate.now) job.now.cut collector.entry.share result.0 result.1 }
    ensures passed { OnOk result.1 ((k : ℕ) → k < cut_count job.now.cut → (G.rule job.now.gate.now).has_passed k) }
{
    thread::scope(
        thread::scope_env(),
        rt,
        move |scope| -> (Share<L>, Result<Address, UploadFaultKind>)
            requires { (0 < job.now.cut.part_chunks) × AreWorkersOf job.now.exchange workers.items
                × (vec_len workers ≡ givers_of job.now.exchange.hand_over) × (IsTakerOf job.now.exchange.hand_over take_pass
                × (taken_of take_pass ≡ [])) × AreNoted job.now.cut collector.follow [] }
            ensures { IsCollected (G.rule job.entry.now.gate.now) job.entry.now.cut collector.entry.share result.0 result.1 × OnOk result.1 ((k : ℕ)
                → k < cut_count job.entry.now.cut → (G.rule job.entry.now.gate.now).has_passed k) }
        {
            let crew = start_all(scope, rt, job, workers);
            gather(rt, job, crew, take_pass, collector)
        },
    )
}

// Collects while the workers run, joins them all and collects the remaining parts. Returns the address of all bytes, or what failed.
fn gather<'s, L: Ledgers, G: Gate, R: Threads + Wait>(
    rt: &R,
    job: &'s Job<'s, G>,
    crew: Crew<'s, G>,
    take_pass: TakePass,
    collector: Collector<'_, L>,
) -> (Share<L>, Result<Address, UploadFaultKind>)
    requires positive { 0 < job.now.cut.part_chunks }
    requires handles { All (IsThreadOf job.now.cut job.now.gate.now job.now.exchange) crew.handles.items }
    requires all { IfNone crew.unstarted (vec_len crew.handles ≡ givers_of job.now.exchange.hand_over) }
    requires room { (crew.reports.items ≡ []) × (vec_len crew.reports + vec_len crew.handles ≤ vec_capacity crew.reports) }
    requires own { IfSome crew.unstarted IsOwnFault }
    requires taker { IsTakerOf job.now.exchange.hand_over take_pass × (taken_of take_pass ≡ []) }
    requires fresh { AreNoted job.now.cut collector.follow [] }
    ensures collected { IsCollected (G.rule job.now.gate.now) job.now.cut collector.entry.share result.0 result.1 }
    ensures passed { OnOk result.1 ((k : ℕ) → k < cut_count job.now.cut → (G.rule job.now.gate.now).has_passed k) }
{
    let Crew {
        handles,
        reports,
        unstarted,
    } = crew;
    let started = handles.len() as u64;
    let mut collector = collector;
    let mut take_pass = take_pass;
    collector.fault = unstarted;
    collector.collect(rt, job, started, &mut take_pass);
    let reports = join_all(rt, job, handles, reports);
    let workers_fault = first_fault(reports.as_slice());
    collector.collect_rest(rt, job, reports, take_pass);
    collector.address(workers_fault)
}
