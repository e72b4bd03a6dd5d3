//! A session's own uploads: those that it began itself, and has not sealed or aborted.

ghost use Rattle.std.specs.Prelude.{◌≡◌, ◌<◌, ◌==◌, [], IfErr, OnErr, OnOk, false, true};
ghost use Rattle.std.specs.List.{position};
ghost use Rattle.std.specs.Io.KnownBytes.{Appends};
ghost use Rattle.std.specs.VecDeque.{deque_capacity, deque_len};
ghost use Rattle.edge.specs.Output.{WroteSome};
ghost use Rattle.store_core.specs.Runs.{change};
ghost use Rattle.store_lines.specs.Access.{Took};
ghost use Rattle.store_lines.specs.Owning.{accepted_after, begins, session_of, step_after, without};
ghost use Rattle.store_lines.specs.Turns.{IsLinkedChange};
ghost use Rattle.store_lines.specs.inner.Reporting.{AbortsOver, Notes, ReportedOver};

use crate::access::Access;
use crate::answer::Answer;
use crate::answering::report;
use crate::filing::abort;
use crate::giving::refuse;
use b3_core::Work;
use edge::Cause;
use std::alloc::Global;
use std::collections::VecDeque;
use std::io::Write;
use store_core::{Command, Refusal, Reply, UploadId};

/// What a session does at its end with its own uploads: those that it began itself, and that are open still.
#[derive(Clone, Copy, Debug, PartialEq, Eq)]
pub enum UploadsAtEnd {
    /// They stay open.
    Kept,
    /// It aborts them.
    Aborted,
}

/// The uploads that a session has to abort at its end, in the order of their begins. There are none if it keeps them.
#[derive(Drop)]
pub(crate) struct OwnUploads {
    at_end: UploadsAtEnd,
    numbers: VecDeque<UploadId>,
}

impl OwnUploads {
    pub(crate) fn new(alloc: Global, at_end: UploadsAtEnd) -> OwnUploads
        ensures at_end { result.at_end ≡ at_end }
        ensures none { result.numbers.items ≡ [] }
    {
        OwnUploads {
            at_end,
            numbers: VecDeque::new(alloc),
        }
    }

    // Makes room for the upload that a command begins. Returns false if an allocation fails for it.
    fn make_room(&mut self, command: &Command) -> bool
        ensures at_end { self.new.at_end ≡ self.old.at_end }
        ensures same { self.new.numbers.items ≡ self.old.numbers.items }
        ensures room { result ≡ true → self.old.at_end ≡ UploadsAtEnd.Aborted → begins command.now ≡ true → deque_len self.new.numbers < deque_capacity self.new.numbers }
        ensures lacks { result ≡ false → (self.old.at_end ≡ UploadsAtEnd.Aborted) × (begins command.now ≡ true) }
    {
        match self.at_end {
            UploadsAtEnd::Kept => true,
            UploadsAtEnd::Aborted => !begins(command) || self.numbers.reserve(1).is_ok(),
        }
    }

    // Executes a command, and notes what it began or ended.
    fn step<A: Access>(
        &mut self,
        access: &mut A,
        command: &Command,
        work: &mut Work,
    ) -> Result<Reply, Refusal>
        requires { self.old.at_end ≡ UploadsAtEnd.Aborted → begins command.now ≡ true → deque_len self.old.numbers < deque_capacity self.old.numbers }
        ensures took { Took A.reach (A.stands access.old) (A.stands access.new) (change command.now) result }
        ensures at_end { self.new.at_end ≡ self.old.at_end }
        ensures kept { self.old.at_end ≡ UploadsAtEnd.Kept → self.new.numbers.items ≡ self.old.numbers.items }
        ensures noted { self.old.at_end ≡ UploadsAtEnd.Aborted → self.new.numbers.items ≡ step_after self.old.numbers.items (change command.now) result }
    {
        let reply = access.step(*command, work)?;
        if self.at_end == UploadsAtEnd::Aborted {
            note(&mut self.numbers, command, &reply);
        }
        Ok(reply)
    }

    /// Aborts them, one after the other.
    pub(crate) fn abort_all<A: Access>(mut self, access: &mut A, work: &mut Work)
        ensures aborted { AbortsOver A.reach (A.stands access.old) (A.stands access.new) self.numbers.items }
        ensures none { self.numbers.items ≡ [] → access.new ≡ access.old }
    {
        while let Some(upload) = self.numbers.pop_front() {
            abort(access, upload, work);
        }
    }
}

// Whether a command begins an upload.
fn begins(command: &Command) -> bool
    ensures { result ≡ begins command.now }
{
    matches!(*command, Command::Begin { .. } | Command::BeginOpen { .. })
}

// Notes what an accepted command began or ended.
fn note(numbers: &mut VecDeque<UploadId>, command: &Command, reply: &Reply)
    requires { begins command.now ≡ true → deque_len numbers.old < deque_capacity numbers.old }
    ensures { numbers.new.items ≡ accepted_after numbers.old.items command.now reply.now }
{
    match *command {
        Command::Begin { .. } | Command::BeginOpen { .. } => {
            if let Reply::Upload(upload, _) = reply {
                numbers.push_back_reserved(*upload);
            }
        }
        Command::Seal { upload } | Command::SealAs { upload, .. } | Command::Abort { upload } => {
            remove(numbers, upload);
        }
        _ => {}
    }
}

// Removes an upload, if it is there.
fn remove(numbers: &mut VecDeque<UploadId>, upload: UploadId)
    ensures { numbers.new.items ≡ without upload numbers.old.items }
{
    if let Some(place) = place_of(numbers, upload) {
        let _removed = numbers.remove(place);
    }
}

fn place_of(numbers: &VecDeque<UploadId>, upload: UploadId) -> Option<usize>
    ensures { result ≡ position (λ number. number == upload) numbers.now.items }
{
    numbers.iter().position(|number| *number == upload)
}

/// Executes a command, and writes its reply. An upload that it begins is noted, so that the session can abort it at its end; if an
/// allocation fails for that, the command is not executed, and the answer says so.
pub(crate) fn execute<A: Access, W: Write>(
    access: &mut A,
    own: &mut OwnUploads,
    writer: &mut W,
    command: Command,
    work: &mut Work,
) -> Result<(), Cause>
    ensures reported { OnOk result (ReportedOver (A.stands access.old) (A.stands access.new)
        (λ before turn after. IsLinkedChange (session_of A.reach own.old.at_end) before command turn after × Notes own.old own.new turn) (Appends (W.contents writer.old) (W.contents writer.new))) }
    ensures failed { OnErr result (ReportedOver (A.stands access.old) (A.stands access.new)
        (λ before turn after. IsLinkedChange (session_of A.reach own.old.at_end) before command turn after × Notes own.old own.new turn) (WroteSome (W.contents writer.old) (W.contents writer.new))) }
    ensures cause { IfErr result (λ cause. cause ≡ Cause.CannotWrite) }
    ensures at_end { own.new.at_end ≡ own.old.at_end }
{
    if !own.make_room(&command) {
        return refuse(writer, Refusal::NoMemory);
    }
    let reply = own.step(access, &command, work);
    report(writer, &[], Answer::Replied(reply))
}
