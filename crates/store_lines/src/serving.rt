//! The engine.

ghost use Rattle.std.specs.Prelude.{◌≡◌, ◌≢◌, ◌<◌, ◌≤◌, [], false, true, IfErr, IfOk, IfSome, OnOk, Err, Some, vec_capacity};
ghost use Rattle.std.specs.Io.BufRead.{DropsThrough, take_through};
ghost use Rattle.std.specs.Io.KnownBytes.{Appends, IsAtEnd};
ghost use Rattle.edge.specs.Output.{WroteSome};
ghost use Rattle.store_lines.specs.Lines.{max_request};
ghost use Rattle.store_lines.specs.inner.Requests.{IsSessionLine};
ghost use Rattle.store_core.specs.Carried.{IsCarried};
ghost use Rattle.store_lines.specs.Access.{alone_stands};
ghost use Rattle.store_lines.specs.Owning.{alone, session_of};
ghost use Rattle.store_lines.specs.Script.{widest_start};
ghost use Rattle.store_lines.specs.Turns.{Finishes, ServedAllOver, ServedSomeOver};
ghost use Rattle.store_lines.specs.inner.Reporting.{LeavesLineOver, LeavesOver, Notes, Owns, ServesLineOver, ServesRequestOver};

use crate::access::Access;
use crate::answer::{Answer, MAX_LINE};
use crate::answering::{give, give_entries, report};
use crate::filing::file;
use crate::giving::refuse;
use crate::owning::{OwnUploads, UploadsAtEnd, execute};
use crate::receiving::{put_bytes, receive};
use crate::request::{MAX_REQUEST, Request};
use crate::session_line::{Line, line_of};
use b3_core::Work;
use edge::{Cause, LineRead, Verdict, read_line};
use std::alloc::Global;
use std::io::{BufRead, Write};
use store_core::{Limits, Refusal, Store};

/// Runs a session on an empty store with the widest limits: reads it line by line, with the bytes after a line, and writes the answer
/// when these were read. The writer is flushed after each answer. Returns `Good` at the end of the input, or `Refused` if the input ends
/// within the bytes after a line: a `putb` is then not put, and a `file` is aborted.
///
/// It stops at the first failed read or write. After 2^64-1 lines it stops reading, as std's readers do. Compressions are counted in
/// `work`.
pub fn serve<R: BufRead, W: Write>(
    alloc: Global,
    reader: &mut R,
    writer: &mut W,
    work: &mut Work,
) -> Result<Verdict, Cause>
    // The writer grew by the answers to all lines, from the empty store, except for one whose bytes are truncated by the end of the input.
    // The store is lawful in the end.
    ensures written { IfOk result (λ verdict. IfSome (R.Read.remaining reader.old) (λ input. ServedAllOver alone (alone_stands widest_start)
        (Finishes alone (λ last. IsCarried last.store)) input (W.contents writer.old) (W.contents writer.new) verdict)) }
    ensures end { OnOk result (IfSome (R.Read.remaining reader.old) (λ _. IsAtEnd (R.Read.remaining reader.new))) }
    // After a failed read it grew by the answers to a prefix of the lines.
    ensures read { result ≡ Err Cause.CannotRead → IfSome (R.Read.remaining reader.old) (λ input. ServedSomeOver alone (alone_stands widest_start)
        (Finishes alone (λ last. IsCarried last.store)) input (Appends (W.contents writer.old) (W.contents writer.new))) }
    // After a failed write it grew by a prefix of such answers, the last of which was being written.
    ensures failed { result ≡ Err Cause.CannotWrite → IfSome (R.Read.remaining reader.old) (λ input. ServedSomeOver alone (alone_stands widest_start)
        (Finishes alone (λ last. IsCarried last.store)) input (WroteSome (W.contents writer.old) (W.contents writer.new))) }
    // Running out of memory stops no session that has begun.
    ensures memory { result ≡ Err Cause.OutOfMemory → (reader.new ≡ reader.old) × (writer.new ≡ writer.old) }
{
    let mut store = Store::new(alloc, Limits::full());
    let at_end = UploadsAtEnd::Kept;
    let ended = serve_over(alloc, &mut store, at_end, reader, writer, work);
    // For the proof alone: the store is lawful.
    let _lawful = store.journal();
    ended
}

/// Runs a session over any access to a store: reads it line by line, with the bytes after a line, and writes the answer when these were
/// read. The writer is flushed after each answer. Returns `Good` at the end of the input, or `Refused` if the input ends within the bytes
/// after a line, where a `putb` is not put and a `file` is aborted, or within a line that needs a newline, which is not run.
///
/// It stops at the first failed read or write. After 2^64-1 lines it stops reading, as std's readers do. However it ended, it then aborts
/// the uploads that it began itself and that are open still, or keeps them, as `at_end` says. Compressions are counted in `work`.
pub fn serve_over<A: Access, R: BufRead, W: Write>(
    alloc: Global,
    access: &mut A,
    at_end: UploadsAtEnd,
    reader: &mut R,
    writer: &mut W,
    work: &mut Work,
) -> Result<Verdict, Cause>
    // The writer grew by the answers to all lines, except for one that is truncated by the end of the input. Each answer is the model's, in
    // a state that is linked to what the answer before left. Then each upload that it began and that no answer of its own ended was aborted,
    // unless these are kept.
    ensures written { IfOk result (λ verdict. IfSome (R.Read.remaining reader.old) (λ input. ServedAllOver (session_of A.reach at_end) (A.stands access.old)
        (Finishes (session_of A.reach at_end) (A.stands access.new)) input (W.contents writer.old) (W.contents writer.new) verdict)) }
    ensures end { OnOk result (IfSome (R.Read.remaining reader.old) (λ _. IsAtEnd (R.Read.remaining reader.new))) }
    // After a failed read it grew by the answers to a prefix of the lines.
    ensures read { result ≡ Err Cause.CannotRead → IfSome (R.Read.remaining reader.old) (λ input. ServedSomeOver (session_of A.reach at_end) (A.stands access.old)
        (Finishes (session_of A.reach at_end) (A.stands access.new)) input (Appends (W.contents writer.old) (W.contents writer.new))) }
    // After a failed write it grew by a prefix of such answers, the last of which was being written.
    ensures failed { result ≡ Err Cause.CannotWrite → IfSome (R.Read.remaining reader.old) (λ input. ServedSomeOver (session_of A.reach at_end) (A.stands access.old)
        (Finishes (session_of A.reach at_end) (A.stands access.new)) input (WroteSome (W.contents writer.old) (W.contents writer.new))) }
    // Running out of memory stops no session that has begun.
    ensures memory { result ≡ Err Cause.OutOfMemory → (access.new ≡ access.old) × (reader.new ≡ reader.old) × (writer.new ≡ writer.old) }
{
    let mut own = OwnUploads::new(alloc, at_end);
    let ended = serve_lines(alloc, access, &mut own, reader, writer, work);
    own.abort_all(access, work);
    ended
}

// Serves the lines of a session, and notes the uploads that it has to abort at its end.
fn serve_lines<A: Access, R: BufRead, W: Write>(
    alloc: Global,
    access: &mut A,
    own: &mut OwnUploads,
    reader: &mut R,
    writer: &mut W,
    work: &mut Work,
) -> Result<Verdict, Cause>
    requires { own.old.numbers.items ≡ [] }
    ensures written { IfOk result (λ verdict. IfSome (R.Read.remaining reader.old) (λ input. ServedAllOver (session_of A.reach own.old.at_end) (A.stands access.old)
        (Owns (session_of A.reach own.old.at_end) (A.stands access.new) own.new.numbers.items) input (W.contents writer.old) (W.contents writer.new) verdict)) }
    ensures end { OnOk result (IfSome (R.Read.remaining reader.old) (λ _. IsAtEnd (R.Read.remaining reader.new))) }
    ensures read { result ≡ Err Cause.CannotRead → IfSome (R.Read.remaining reader.old) (λ input. ServedSomeOver (session_of A.reach own.old.at_end) (A.stands access.old)
        (Owns (session_of A.reach own.old.at_end) (A.stands access.new) own.new.numbers.items) input (Appends (W.contents writer.old) (W.contents writer.new))) }
    ensures failed { result ≡ Err Cause.CannotWrite → IfSome (R.Read.remaining reader.old) (λ input. ServedSomeOver (session_of A.reach own.old.at_end) (A.stands access.old)
        (Owns (session_of A.reach own.old.at_end) (A.stands access.new) own.new.numbers.items) input (WroteSome (W.contents writer.old) (W.contents writer.new))) }
    ensures memory { result ≡ Err Cause.OutOfMemory → (access.new ≡ access.old) × (own.new.numbers.items ≡ []) × (reader.new ≡ reader.old) × (writer.new ≡ writer.old) }
{
    let mut line = Vec::with_capacity(alloc, MAX_REQUEST)?;
    for _ in 0..u64::MAX {
        let read = next_line(reader, &mut line)?;
        if read.count == 0 {
            return Ok(Verdict::Good);
        }
        if is_cut(access, read) {
            return Ok(Verdict::Refused);
        }
        let found = line_of(alloc, line.as_slice(), read);
        if !serve_line(alloc, access, own, reader, writer, found, work)? {
            return Ok(Verdict::Refused);
        }
    }
    Err(Cause::CannotRead)
}

// Reads the next line with its newline, into room for a request.
pub(crate) fn next_line<R: BufRead>(reader: &mut R, line: &mut Vec<u8>) -> Result<LineRead, Cause>
    requires { max_request ≤ vec_capacity line.old }
    ensures read { IfOk result (λ read. IfSome (R.Read.remaining reader.old) (λ input. IsSessionLine (take_through 10 input) read line.new.items)) }
    ensures rest { OnOk result (DropsThrough (R.Read.remaining reader.old) (R.Read.remaining reader.new) 10) }
    ensures room { max_request ≤ vec_capacity line.new }
    ensures cause { IfErr result (λ cause. cause ≡ Cause.CannotRead) }
{
    read_line(reader, line, MAX_LINE)
}

// Whether a line lacks the newline that it needs.
fn is_cut<A: Access>(access: &A, read: LineRead) -> bool
    ensures cut { result ≡ true → (A.reach.needs_newline ≡ true) × (read.is_ended ≡ false) }
    ensures whole { result ≡ false → A.reach.needs_newline ≡ true → read.is_ended ≡ true }
{
    access.needs_newline() && !read.is_ended
}

// Serves a line. Returns false if its bytes are truncated.
pub(crate) fn serve_line<A: Access, R: BufRead, W: Write>(
    alloc: Global,
    access: &mut A,
    own: &mut OwnUploads,
    reader: &mut R,
    writer: &mut W,
    line: Line,
    work: &mut Work,
) -> Result<bool, Cause>
    ensures served { IfOk result (λ is_whole. IfSome (R.Read.remaining reader.old)
        (λ following. ServesLineOver (session_of A.reach own.old.at_end) (A.stands access.old) (A.stands access.new) (Notes own.old own.new) is_whole line following
        (R.Read.remaining reader.new) (Appends (W.contents writer.old) (W.contents writer.new)))) }
    ensures failed { result ≡ Err Cause.CannotWrite → IfSome (R.Read.remaining reader.old)
        (λ following. ServesLineOver (session_of A.reach own.old.at_end) (A.stands access.old) (A.stands access.new) (Notes own.old own.new) true line following
        (R.Read.remaining reader.new) (WroteSome (W.contents writer.old) (W.contents writer.new))) }
    ensures unwritten { result ≡ Err Cause.CannotRead → writer.new ≡ writer.old }
    ensures left { result ≡ Err Cause.CannotRead → IfSome (R.Read.remaining reader.old)
        (λ following. LeavesLineOver A.reach (A.stands access.old) (A.stands access.new) line following) }
    ensures at_end { own.new.at_end ≡ own.old.at_end }
    // Without a turn, no upload is noted or removed.
    ensures truncated { IfOk result (λ is_whole. is_whole ≡ false → own.new ≡ own.old) }
    ensures unread { result ≡ Err Cause.CannotRead → own.new ≡ own.old }
    ensures cause { IfErr result (λ cause. cause ≢ Cause.OutOfMemory) }
{
    match line {
        Line::Has(request) => return serve_request(
            alloc, access, own, reader, writer, request, work,
        ),
        Line::Empty => report(writer, &[], Answer::Nothing)?,
        Line::Bad(_) => report(writer, &[], Answer::Bad)?,
        Line::NoMemory => refuse(writer, Refusal::NoMemory)?,
    }
    Ok(true)
}

// Serves a request. Returns false if its bytes are truncated.
fn serve_request<A: Access, R: BufRead, W: Write>(
    alloc: Global,
    access: &mut A,
    own: &mut OwnUploads,
    reader: &mut R,
    writer: &mut W,
    request: Request,
    work: &mut Work,
) -> Result<bool, Cause>
    ensures served { IfOk result (λ is_whole. IfSome (R.Read.remaining reader.old)
        (λ following. ServesRequestOver (session_of A.reach own.old.at_end) (A.stands access.old) (A.stands access.new) (Notes own.old own.new) is_whole request following
        (R.Read.remaining reader.new) (Appends (W.contents writer.old) (W.contents writer.new)))) }
    ensures failed { result ≡ Err Cause.CannotWrite → IfSome (R.Read.remaining reader.old)
        (λ following. ServesRequestOver (session_of A.reach own.old.at_end) (A.stands access.old) (A.stands access.new) (Notes own.old own.new) true request following
        (R.Read.remaining reader.new) (WroteSome (W.contents writer.old) (W.contents writer.new))) }
    ensures unwritten { result ≡ Err Cause.CannotRead → writer.new ≡ writer.old }
    ensures left { result ≡ Err Cause.CannotRead → IfSome (R.Read.remaining reader.old)
        (λ following. LeavesOver A.reach (A.stands access.old) (A.stands access.new) (Some request) following) }
    ensures at_end { own.new.at_end ≡ own.old.at_end }
    // Without a turn, no upload is noted or removed.
    ensures truncated { IfOk result (λ is_whole. is_whole ≡ false → own.new ≡ own.old) }
    ensures unread { result ≡ Err Cause.CannotRead → own.new ≡ own.old }
    ensures cause { IfErr result (λ cause. cause ≢ Cause.OutOfMemory) }
{
    match request {
        Request::Does(command) => execute(access, own, writer, command, work)?,
        Request::Asks(question) => {
            let reply = access.ask(question);
            report(writer, &[], Answer::Replied(reply))?;
        }
        Request::Put(part) => {
            let answer = put_bytes(alloc, access, part, work);
            report(writer, &[], answer)?;
        }
        Request::PutRaw(part) => match receive(alloc, access, reader, part, work)? {
            Some(answer) => report(writer, &[], answer)?,
            None => return Ok(false),
        },
        Request::File(filing) => match file(alloc, access, reader, filing, work)? {
            Some(answer) => report(writer, &[], answer)?,
            None => return Ok(false),
        },
        Request::Fetch(wanted) => give(access, writer, wanted)?,
        Request::Entries(range) => give_entries(alloc, access, writer, range)?,
    }
    Ok(true)
}
