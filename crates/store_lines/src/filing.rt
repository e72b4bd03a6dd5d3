//! Filing the bytes after a line as one object.

ghost use Rattle.std.specs.Prelude.{◌≡◌, IfErr, IfOk, IfSome, OnErr, Result, Some};
ghost use Rattle.store_books.specs.declared.refusal.Refusal.{Refusal};
ghost use Rattle.store_core.specs.Runs.{change};
ghost use Rattle.store_core.specs.declared.command.Command.TheVariants as commands;
ghost use Rattle.store_core.specs.declared.store.questions.Reply.{Reply as ModelReply};
ghost use Rattle.store_lines.specs.Access.{Took};
ghost use Rattle.store_lines.specs.Filing.{closing};
ghost use Rattle.store_lines.specs.declared.request.Request.TheVariants.{File};
ghost use Rattle.store_lines.specs.inner.Reporting.{FilesOver, FillsOver, IsOfUpload, LeavesOver, NamesUpload, StopsOver};

use crate::access::Access;
use crate::answer::Answer;
use crate::receiving::{dropped, receive};
use crate::request::{Filing, RawPart};
use b3_core::Work;
use b3_forest::MAX_PART_BYTES;
use edge::Cause;
use std::alloc::Global;
use std::io::BufRead;
use store_core::{Command, Reply, UploadId};

// What became of an upload whose bytes follow a line.
#[derive(Drop)]
enum Filled {
    // It was sealed.
    Sealed(Reply),
    // A part or the seal was refused, with this answer, and that many bytes are left.
    Refused(Answer, u64),
    // The bytes are truncated.
    Truncated,
}

/// Begins an upload, puts the bytes in parts, seals it, and answers. If one of these is refused, the upload is aborted, the bytes that are
/// left are dropped, and that is the answer. Returns `None` if the bytes are truncated; the upload is then aborted too.
pub(crate) fn file<A: Access, R: BufRead>(
    alloc: Global,
    access: &mut A,
    reader: &mut R,
    filing: Filing,
    work: &mut Work,
) -> Result<Option<Answer>, Cause>
    ensures filed { IfOk result (λ answer. IfSome (R.Read.remaining reader.old)
        (λ following. FilesOver A.reach (A.stands access.old) (A.stands access.new) answer filing following (R.Read.remaining reader.new))) }
    ensures left { OnErr result (IfSome (R.Read.remaining reader.old)
        (λ following. LeavesOver A.reach (A.stands access.old) (A.stands access.new) (Some (File filing)) following)) }
    ensures cause { IfErr result (λ cause. cause ≡ Cause.CannotRead) }
{
    let Filing { tenant, len, .. } = filing;
    let upload = match access.step(Command::Begin { tenant, len }, work) {
        Ok(reply) => upload_of(reply),
        Err(refusal) => return dropped(reader, len, Answer::Replied(Err(refusal))),
    };
    match fill(alloc, access, reader, upload, filing, work) {
        Ok(Filled::Sealed(reply)) => Ok(Some(Answer::Replied(Ok(reply)))),
        Ok(Filled::Refused(answer, left)) => {
            abort(access, upload, work);
            dropped(reader, left, answer)
        }
        Ok(Filled::Truncated) => {
            abort(access, upload, work);
            Ok(None)
        }
        Err(cause) => {
            abort(access, upload, work);
            Err(cause)
        }
    }
}

// The upload of a reply to its beginning.
fn upload_of(reply: Reply) -> UploadId
    requires { IsOfUpload reply }
    ensures { NamesUpload reply result }
{
    match reply {
        Reply::Upload(upload, _) => upload,
        _ => unreachable!(),
    }
}

// Puts the bytes in parts, and seals the upload.
fn fill<A: Access, R: BufRead>(
    alloc: Global,
    access: &mut A,
    reader: &mut R,
    upload: UploadId,
    filing: Filing,
    work: &mut Work,
) -> Result<Filled, Cause>
    ensures filled { IfOk result (λ filled. IfSome (R.Read.remaining reader.old)
        (λ following. FillsOver A.reach (A.stands access.old) (A.stands access.new) filled filing upload following (R.Read.remaining reader.new))) }
    ensures stopped { OnErr result (IfSome (R.Read.remaining reader.old)
        (λ following. StopsOver A.reach (A.stands access.old) (A.stands access.new) filing upload following)) }
    ensures cause { IfErr result (λ cause. cause ≡ Cause.CannotRead) }
{
    for number in 0..filing.len.div_ceil(MAX_PART_BYTES) {
        let offset = number * MAX_PART_BYTES;
        let len = MAX_PART_BYTES.min(filing.len - offset);
        let part = RawPart {
            upload,
            offset,
            len,
        };
        let Some(answer) = receive(alloc, access, reader, part, work)? else {
            return Ok(Filled::Truncated);
        };
        if !answer.is_good() {
            return Ok(Filled::Refused(answer, filing.len - offset - len));
        }
    }
    match access.step(closing(upload, filing), work) {
        Ok(reply) => Ok(Filled::Sealed(reply)),
        Err(refusal) => Ok(Filled::Refused(Answer::Replied(Err(refusal)), 0)),
    }
}

/// Aborts the upload, unless that is refused.
pub(crate) fn abort<A: Access>(access: &mut A, upload: UploadId, work: &mut Work)
    ensures { (reply : Result ModelReply Refusal) × Took A.reach (A.stands access.old) (A.stands access.new) (change (commands.Abort upload)) reply }
{
    let _reply = access.step(Command::Abort { upload }, work);
}

// The command that files the upload.
fn closing(upload: UploadId, filing: Filing) -> Command
    ensures { result ≡ closing filing upload }
{
    match filing.address {
        Some(address) => Command::SealAs { upload, address },
        None => Command::Seal { upload },
    }
}
