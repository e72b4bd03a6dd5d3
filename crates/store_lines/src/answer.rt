//! The answer to a line.

ghost use Rattle.std.specs.Prelude.{◌≡◌, ◌<◌, IfErr, IfOk, OnErr, OnOk};
ghost use Rattle.std.specs.Io.KnownBytes.{Appends};
ghost use Rattle.edge.specs.Output.{WroteSome};
ghost use Rattle.store_lines.specs.inner.Answers.{AnswersRead, AnswersRequest, LacksRead, TellsRead, is_good, reported_ending, reported_text};
ghost use Rattle.store_lines.specs.Script.{fault_ending, reply_ending};
ghost use Rattle.std.specs.Io.BufRead.{strip_last};

use crate::bad_lines::BadLines;
use crate::ending::Ending;
use crate::own::{chosen, run_command};
use crate::questions::write_answer;
use crate::receiving::put_bytes;
use crate::request::{EntryRange, Request};
use crate::session_line::{Line, script_line};
use crate::texts::{write_bad, write_journal, write_unmade};
use b3_core::Work;
use b3_forest::PartFault;
use edge::{Cause, LineRead};
use std::alloc::{AllocError, Global};
use std::io::Write;
use store_core::{Entry, Refusal, Reply, Store};

/// The maximum length of a command's line in bytes, with its newline.
pub(crate) const MAX_LINE: usize = 33_554_481;

/// The answer to a line: nothing for an empty line, `bad`, why a part cannot be made, the store's reply or refusal, or entries of its journal.
#[derive(Drop)]
pub(crate) enum Answer {
    Nothing,
    Bad,
    Unmade(PartFault),
    Replied(Result<Reply, Refusal>),
    Entries(EntryRange),
}

impl Answer {
    /// How a run with this answer ends at best.
    pub(crate) fn ending(&self) -> Ending
        ensures { result ≡ reported_ending self.now }
    {
        match self {
            Answer::Nothing | Answer::Entries(_) => Ending::Good,
            Answer::Bad => Ending::Refused,
            Answer::Unmade(fault) => fault_ending(*fault),
            Answer::Replied(reply) => reply_ending(reply),
        }
    }

    /// Whether a run may end well with this answer.
    pub(crate) fn is_good(&self) -> bool
        ensures { result ≡ is_good (reported_ending self.now) }
    {
        match self.ending() {
            Ending::Good => true,
            Ending::Refused | Ending::OutOfMemory => false,
        }
    }

    /// Writes the answer of a store whose journal is `entries`. Allocates nothing.
    pub(crate) fn write<W: Write>(self, entries: &[Entry], writer: &mut W) -> Result<(), Cause>
        ensures wrote { OnOk result (Appends (W.contents writer.old) (W.contents writer.new) (reported_text entries.now self)) }
        ensures failed { OnErr result (WroteSome (W.contents writer.old) (W.contents writer.new) (reported_text entries.now self)) }
        ensures cause { IfErr result (λ cause. cause ≡ Cause.CannotWrite) }
    {
        match self {
            Answer::Nothing => Ok(()),
            Answer::Bad => write_bad(writer),
            Answer::Unmade(fault) => write_unmade(writer, fault),
            Answer::Replied(reply) => write_answer(writer, reply),
            Answer::Entries(range) => write_journal(writer, chosen(entries, range)),
        }
    }
}

fn fault_ending(fault: PartFault) -> Ending
    ensures { result ≡ fault_ending fault }
{
    match fault {
        PartFault::NoMemory => Ending::OutOfMemory,
        _ => Ending::Refused,
    }
}

fn reply_ending(reply: &Result<Reply, Refusal>) -> Ending
    ensures { result ≡ reply_ending reply.now }
{
    match reply {
        Ok(_) => Ending::Good,
        Err(Refusal::NoMemory) => Ending::OutOfMemory,
        Err(_) => Ending::Refused,
    }
}

/// Answers the line with this number, which was read like this. If it is outside the grammar, that is told. If an allocation fails for the
/// contents of the line, the store is unchanged.
pub(crate) fn answer_read<F: BadLines>(
    alloc: Global,
    store: &mut Store,
    number: u64,
    line: &[u8],
    read: LineRead,
    faults: &mut F,
    work: &mut Work,
) -> Result<Answer, AllocError>
    ensures answered { IfOk result (λ answer. AnswersRead store.old store.new read line.now (reported_text store.new.journal answer) (reported_ending answer)) }
    ensures told { OnOk result (TellsRead F.tells faults.old faults.new number read line.now) }
    ensures unchanged { OnErr result (store.new ≡ store.old) }
    ensures untold { OnErr result (faults.new ≡ faults.old) }
    // An allocation can fail only for a long line, or for the bytes of a part.
    ensures memory { OnErr result (LacksRead read line.now) }
{
    match script_line(alloc, line, read) {
        Line::Empty => Ok(Answer::Nothing),
        Line::Bad(fault) => {
            faults.tell(number, fault);
            Ok(Answer::Bad)
        }
        Line::NoMemory => Err(AllocError),
        Line::Has(request) => Ok(answer_request(alloc, store, request, work)),
    }
}

/// A line without its newline, which may be missing on the last line.
pub(crate) fn without_end(line: &[u8]) -> &[u8]
    ensures { result.now ≡ strip_last 10 line.now }
{
    match line {
        [front @ .., b'\n'] => front,
        _ => line,
    }
}

// Answers a request of a script.
fn answer_request(alloc: Global, store: &mut Store, request: Request, work: &mut Work) -> Answer
    ensures { AnswersRequest store.old store.new request (reported_text store.new.journal result) (reported_ending result) }
{
    match request {
        Request::Does(command) => Answer::Replied(run_command(store, command, work)),
        Request::Asks(question) => Answer::Replied(store.ask(question)),
        Request::Entries(range) => Answer::Entries(range),
        Request::Put(part) => put_bytes(alloc, store, part, work),
        Request::PutRaw(_) | Request::File(_) | Request::Fetch(_) => Answer::Bad,
    }
}
