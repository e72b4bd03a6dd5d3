//! The collector of an upload: it notes the parts that workers hand over, and puts them.

ghost use Rattle.std.specs.Prelude.{◌≡◌, [], ◌∷◌, ◌++◌, ◌⊎◌, All, Err, IfErr, IfNone, IfOk, IfSome, List, None, OnErr, OnOk, Some, map, vec_len};
ghost use Rattle.b3_core.specs.Modes.{hash_of};
ghost use Rattle.b3_forest.specs.Followed.{AllNoted};
ghost use Rattle.b3_forest.specs.Parts.{Part};
ghost use Rattle.store_board.specs.Passes.{IsAllTaken, IsGiverOf, IsTakerOf, IsWholeOf, all_given, given_by_all, givers_of, taken_by_all, taken_of};
ghost use Rattle.store_ledger.specs.declared.amounts.ShareAmounts.{ShareAmounts};
ghost use Rattle.store_shared.specs.Cuts.{RoseBySome, share_with};
ghost use Rattle.store_shared.specs.Gates.{IsOwnFault};
ghost use Rattle.store_shared.specs.inner.Uploading.{HasCollected, IsCollecting, NotesMore, RoseByPrefix, parts_in};
ghost use Rattle.store_shared.specs.declared.fault.UploadFaultKind.TheVariants.{StrangePart};

use crate::backoff::Backoff;
use crate::crew::passes_from;
use crate::cut::Cut;
use crate::fault::UploadFaultKind;
use crate::gate::Gate;
use crate::job::{Exchange, Job};
use crate::lent::lent_put;
use crate::shared::Shared;
use crate::worker::Report;
use b3_core::Work;
use b3_forest::{Follow, NoteFault, Prepared};
use std::sync::Wait;
use store_board::{TakePass, Taken, WholePass};
use store_core::{Address, Refusal, Refused, UploadId};
use store_ledger::{Ledgers, Share};

// The maximum number of parts that are put while the lock is taken once, while workers run.
const MAX_IN_HAND: usize = 16;

// The upload to which parts are put, and its store.
#[derive(Drop)]
pub(crate) struct Target<'a, L: Ledgers> {
    pub(crate) shared: &'a Shared<L>,
    pub(crate) upload: UploadId,
}

// The target of the parts, the share in which they are recorded, what was noted of the upload's bytes, the collector's own fault, and the
// compressions that it makes.
#[derive(Drop)]
pub(crate) struct Collector<'a, L: Ledgers> {
    pub(crate) target: Target<'a, L>,
    pub(crate) share: Share<L>,
    pub(crate) follow: Follow<'a>,
    pub(crate) fault: Option<UploadFaultKind>,
    pub(crate) work: Work,
}

// Notes a part, which must be one of the upload's parts.
fn note(
    cut: &Cut<'_>,
    follow: &mut Follow<'_>,
    part: &Prepared,
    work: &mut Work,
) -> Result<(), UploadFaultKind>
    requires { follow.old.bytes ≡ cut.now.bytes }
    ensures bytes { follow.new.bytes ≡ cut.now.bytes }
    ensures noted { OnOk result (NotesMore cut.now follow.old follow.new (part.now.part ∷ [])) }
    ensures fault { IfErr result IsOwnFault }
{
    let Some(_number) = cut.number_of(part) else {
        return Err(UploadFaultKind::StrangePart);
    };
    match follow.note(part, work) {
        Ok(_) => Ok(()),
        Err(NoteFault::NoMemory) => Err(UploadFaultKind::NoMemory),
        Err(_) => Err(UploadFaultKind::StrangePart),
    }
}

// Notes parts, one after the other.
fn note_all(
    cut: &Cut<'_>,
    follow: &mut Follow<'_>,
    parts: &[Prepared],
    work: &mut Work,
) -> Result<(), UploadFaultKind>
    requires { follow.old.bytes ≡ cut.now.bytes }
    ensures bytes { follow.new.bytes ≡ cut.now.bytes }
    ensures noted { OnOk result (NotesMore cut.now follow.old follow.new (map (λ p. p.part) parts.now)) }
    ensures fault { IfErr result IsOwnFault }
{
    for part in parts {
        if let Err(kind) = note(cut, follow, part, work) {
            return Err(kind);
        }
    }
    Ok(())
}

// Puts parts, one after the other, taking the lock once, until one is refused. The refused part is returned; those after it are freed after
// the lock is released, because the guard is dropped before the variables declared above it.
fn put_all<L: Ledgers, R: Wait>(
    rt: &R,
    target: &Target<'_, L>,
    parts: Vec<Prepared>,
    share: &mut Share<L>,
    work: &mut Work,
) -> Result<(), Refused<Refusal, Prepared>>
    ensures ok { OnOk result (share.new ≡ share_with share.old (map (λ p. p.part) parts.items)) }
    ensures err { OnErr result (RoseByPrefix (map (λ p. p.part) parts.items) share.old share.new) }
{
    let mut rest = parts.into_iter();
    let mut locked = target.shared.lock(rt);
    while let Some(part) = rest.next() {
        if let Err(refused) = lent_put(&mut *locked, share, target.upload, part, work) {
            return Err(refused);
        }
    }
    Ok(())
}

// Takes parts until there are no more, or as many as are put at once.
fn take_some<R: Wait>(
    rt: &R,
    exchange: &Exchange,
    pass: &mut TakePass,
) -> Result<Vec<Prepared>, UploadFaultKind>
    requires { IsTakerOf exchange.now.hand_over pass.old }
    ensures same { IsTakerOf exchange.now.hand_over pass.new }
    ensures taken { IfOk result (λ parts. parts_in (taken_of pass.new) ≡ parts_in (taken_of pass.old) ++ map (λ p. p.part) parts.items) }
    ensures fault { IfErr result IsOwnFault }
{
    let mut parts = Vec::new(exchange.alloc);
    for _ in 0..MAX_IN_HAND {
        let Some(Taken { giver: _, part }) = exchange.hand_over.take(rt, pass) else {
            break;
        };
        if parts.push(part).is_err() {
            return Err(UploadFaultKind::NoMemory);
        }
    }
    Ok(parts)
}

// Takes all remaining parts.
fn take_all<R: Wait>(
    rt: &R,
    exchange: &Exchange,
    pass: &mut WholePass,
) -> Result<Vec<Prepared>, UploadFaultKind>
    requires { IsWholeOf exchange.now.hand_over pass.old }
    ensures same { given_by_all pass.new ≡ given_by_all pass.old }
    ensures taken { IfOk result (λ parts. parts_in (taken_by_all pass.new) ≡ parts_in (taken_by_all pass.old) ++ map (λ p. p.part) parts.items) }
    ensures all { OnOk result (IsAllTaken pass.new) }
    ensures fault { IfErr result IsOwnFault }
{
    let mut parts = Vec::new(exchange.alloc);
    for _ in rt.forever() {
        let Some(Taken { giver: _, part }) = exchange.hand_over.take_rest(rt, pass) else {
            return Ok(parts);
        };
        if parts.push(part).is_err() {
            return Err(UploadFaultKind::NoMemory);
        }
    }
    unreachable!()
}

impl<'a, L: Ledgers> Collector<'a, L> {
    // Notes parts, and puts them.
    fn note_and_put<R: Wait>(
        &mut self,
        rt: &R,
        cut: &Cut<'_>,
        parts: Vec<Prepared>,
    ) -> Result<(), UploadFaultKind>
        requires { self.old.follow.bytes ≡ cut.now.bytes }
        ensures bytes { self.new.follow.bytes ≡ cut.now.bytes }
        ensures same { self.new.fault ≡ self.old.fault }
        ensures ok { OnOk result ((start : ShareAmounts) (taken : List Part) → IsCollecting cut.now start self.old.follow self.old.share taken None
            → IsCollecting cut.now start self.new.follow self.new.share (taken ++ map (λ p. p.part) parts.items) None) }
        ensures err { OnErr result ((start : ShareAmounts) (taken : List Part) → IsCollecting cut.now start self.old.follow self.old.share taken None
            → RoseBySome cut.now.bytes cut.now.part_chunks start self.new.share) }
        ensures fault { IfErr result IsOwnFault }
    {
        if let Err(kind) = note_all(cut, &mut self.follow, parts.as_slice(), &mut self.work) {
            return Err(kind);
        }
        let (share, work) = (&mut self.share, &mut self.work);
        if let Err(refused) = put_all(rt, &self.target, parts, share, work) {
            return Err(UploadFaultKind::Refused(refused.reason));
        }
        Ok(())
    }

    // Takes the available parts, notes and puts them; after a failure it drops them. Returns whether there were any.
    fn collect_some<G: Gate, R: Wait>(
        &mut self,
        rt: &R,
        job: &Job<'_, G>,
        pass: &mut TakePass,
    ) -> bool
        requires taker { IsTakerOf job.now.exchange.hand_over pass.old }
        requires bytes { self.old.follow.bytes ≡ job.now.cut.bytes }
        requires own { IfSome self.old.fault IsOwnFault }
        ensures taker { IsTakerOf job.now.exchange.hand_over pass.new }
        ensures bytes { self.new.follow.bytes ≡ job.now.cut.bytes }
        ensures own { IfSome self.new.fault IsOwnFault }
        ensures kept { (start : ShareAmounts)
            → IsCollecting job.now.cut start self.old.follow self.old.share (parts_in (taken_of pass.old)) self.old.fault
            → IsCollecting job.now.cut start self.new.follow self.new.share (parts_in (taken_of pass.new)) self.new.fault }
        ensures failed { self.new.fault ≡ None → self.old.fault ≡ None }
    {
        if self.fault.is_some() {
            return job.exchange.hand_over.take(rt, pass).is_some();
        }
        let parts = match take_some(rt, &job.exchange, pass) {
            Ok(parts) => parts,
            Err(kind) => {
                self.fault = Some(kind);
                return true;
            }
        };
        if parts.is_empty() {
            return false;
        }
        if let Err(kind) = self.note_and_put(rt, &job.cut, parts) {
            self.fault = Some(kind);
        }
        true
    }

    /// Collects until `started` workers have ended. After a failure, it signals the workers to end.
    pub(crate) fn collect<G: Gate, R: Wait>(
        &mut self,
        rt: &R,
        job: &Job<'_, G>,
        started: u64,
        pass: &mut TakePass,
    )
        requires taker { IsTakerOf job.now.exchange.hand_over pass.old }
        requires bytes { self.old.follow.bytes ≡ job.now.cut.bytes }
        requires own { IfSome self.old.fault IsOwnFault }
        ensures taker { IsTakerOf job.now.exchange.hand_over pass.new }
        ensures bytes { self.new.follow.bytes ≡ job.now.cut.bytes }
        ensures own { IfSome self.new.fault IsOwnFault }
        ensures kept { (start : ShareAmounts)
            → IsCollecting job.now.cut start self.old.follow self.old.share (parts_in (taken_of pass.old)) self.old.fault
            → IsCollecting job.now.cut start self.new.follow self.new.share (parts_in (taken_of pass.new)) self.new.fault }
        ensures failed { self.new.fault ≡ None → self.old.fault ≡ None }
    {
        let mut backoff = Backoff::new();
        for _ in rt.forever() {
            if self.fault.is_some() {
                job.exchange.progress.give_up();
            }
            if job.exchange.progress.ended() >= started {
                break;
            }
            if self.collect_some(rt, job, pass) {
                backoff = Backoff::new();
            } else {
                backoff.wait(rt);
            }
        }
    }

    /// After all workers have returned their passes, takes, notes and puts the remaining parts. After a failure, it leaves them.
    pub(crate) fn collect_rest<G: Gate, R: Wait>(
        &mut self,
        rt: &R,
        job: &Job<'_, G>,
        reports: Vec<Report>,
        pass: TakePass,
    )
        requires all { self.old.fault ≡ None → vec_len reports ≡ givers_of job.now.exchange.hand_over }
        requires givers { All (λ r. IsGiverOf job.now.exchange.hand_over r.worker.pass) reports.items }
        requires taker { IsTakerOf job.now.exchange.hand_over pass }
        requires bytes { self.old.follow.bytes ≡ job.now.cut.bytes }
        requires own { IfSome self.old.fault IsOwnFault }
        ensures own { IfSome self.new.fault IsOwnFault }
        ensures collected { (start : ShareAmounts)
            → IsCollecting job.now.cut start self.old.follow self.old.share (parts_in (taken_of pass)) self.old.fault
            → HasCollected job.now.cut start self.new.follow self.new.share self.new.fault (all_given (map (λ r. r.worker.pass) reports.items)) }
    {
        if self.fault.is_some() {
            return;
        }
        match passes_from(job.exchange.alloc, reports) {
            Ok(passes) => {
                let mut whole = job.exchange.hand_over.gather(passes, pass);
                self.collect_all(rt, job, &mut whole);
            }
            Err(_) => self.fault = Some(UploadFaultKind::NoMemory),
        }
    }

    // Takes all remaining parts, notes and puts them.
    fn collect_all<G: Gate, R: Wait>(&mut self, rt: &R, job: &Job<'_, G>, whole: &mut WholePass)
        requires whole { IsWholeOf job.now.exchange.hand_over whole.old }
        requires bytes { self.old.follow.bytes ≡ job.now.cut.bytes }
        requires none { self.old.fault ≡ None }
        ensures own { IfSome self.new.fault IsOwnFault }
        ensures collected { (start : ShareAmounts)
            → IsCollecting job.now.cut start self.old.follow self.old.share (parts_in (taken_by_all whole.old)) None
            → HasCollected job.now.cut start self.new.follow self.new.share self.new.fault (given_by_all whole.old) }
    {
        let parts = match take_all(rt, &job.exchange, whole) {
            Ok(parts) => parts,
            Err(kind) => {
                self.fault = Some(kind);
                return;
            }
        };
        if let Err(kind) = self.note_and_put(rt, &job.cut, parts) {
            self.fault = Some(kind);
        }
    }

    /// The address of all bytes, if nothing failed; otherwise the collector's own fault, or that of a worker.
    pub(crate) fn address(
        self,
        workers_fault: Option<UploadFaultKind>,
    ) -> (Share<L>, Result<Address, UploadFaultKind>)
        ensures share { result.0 ≡ self.entry.share }
        ensures address { IfOk result.1 (λ a. (self.entry.fault ≡ None) × (a ≡ hash_of self.entry.follow.bytes) × AllNoted self.entry.follow) }
        ensures workers { OnOk result.1 (workers_fault ≡ None) }
        ensures own { IfSome self.entry.fault (λ kind. result.1 ≡ Err kind) }
        ensures theirs { self.entry.fault ≡ None → IfSome workers_fault (λ kind. result.1 ≡ Err kind) }
        ensures fault { IfErr result.1 (λ kind. (self.entry.fault ≡ Some kind) ⊎ (workers_fault ≡ Some kind) ⊎ (kind ≡ StrangePart)) }
    {
        let Collector {
            target: _,
            share,
            follow,
            fault,
            work,
        } = self;
        let mut work = work;
        match fault {
            Some(kind) => return (share, Err(kind)),
            None => {}
        }
        if let Some(kind) = workers_fault {
            return (share, Err(kind));
        }
        match follow.finish(&mut work) {
            Ok(top) => (share, Ok(Address::new(top.root32(&mut work)))),
            Err(_) => (share, Err(UploadFaultKind::StrangePart)),
        }
    }
}
