//! Putting parts.

ghost use Rattle.std.specs.Prelude.{◌≡◌, IfErr, IfOk, IfSome, OnErr, length};
ghost use Rattle.b3_forest.specs.Parts.{planned};
ghost use Rattle.store_lines.specs.inner.Reads.{Dropped};
ghost use Rattle.store_upload.specs.Uploads.{part_fault};
ghost use Rattle.store_lines.specs.inner.Reporting.{AnsweredOver, Leaves, ReceivesOver};
ghost use Rattle.store_lines.specs.Turns.{IsLinkedMade, IsLinkedPut};

use crate::access::Access;
use crate::answer::Answer;
use crate::reading::{copy, skip};
use crate::request::{Part, PartBytes, RawPart};
use b3_core::Work;
use b3_forest::{PartFault, Plan, Prepared};
use edge::Cause;
use std::alloc::Global;
use std::io::BufRead;
use store_core::Reply;

/// Asks for the upload's plan, makes the part, and puts it.
pub(crate) fn put_bytes<A: Access>(
    alloc: Global,
    access: &mut A,
    part: Part,
    work: &mut Work,
) -> Answer
    ensures { AnsweredOver (A.stands access.old) (A.stands access.new) (λ before turn after. IsLinkedPut A.reach before part.upload part.offset part.bytes turn after) result }
{
    match access.plan(part.upload) {
        Ok(plan) => put_made(alloc, access, &plan, part, work),
        Err(refusal) => Answer::Replied(Err(refusal)),
    }
}

// Makes a part for a plan, and puts it.
fn put_made<A: Access>(
    alloc: Global,
    access: &mut A,
    plan: &Plan,
    part: Part,
    work: &mut Work,
) -> Answer
    ensures { AnsweredOver (A.stands access.old) (A.stands access.new)
        (λ first turn after. IsLinkedMade A.reach first part.upload (planned plan.now part.offset part.bytes) (part_fault plan.now part.offset
        (length part.bytes)) turn after) result }
{
    let Part {
        upload,
        offset,
        bytes,
    } = part;
    let part = match Prepared::make(alloc, plan, offset, bytes.into_vec(), work) {
        Ok(part) => part,
        Err(refused) => return Answer::Unmade(refused.reason),
    };
    match access.put(upload, part, work) {
        Ok(held) => Answer::Replied(Ok(Reply::Held(held))),
        Err(refused) => Answer::Replied(Err(refused.reason)),
    }
}

/// Takes the bytes of a part, puts it, and answers. The bytes are dropped if the part is refused, or if an allocation fails for them.
/// Returns `None`, and puts nothing, if they are truncated.
pub(crate) fn receive<A: Access, R: BufRead>(
    alloc: Global,
    access: &mut A,
    reader: &mut R,
    part: RawPart,
    work: &mut Work,
) -> Result<Option<Answer>, Cause>
    ensures received { IfOk result (λ answer. IfSome (R.Read.remaining reader.old)
        (λ following. ReceivesOver A.reach (A.stands access.old) (A.stands access.new) answer part.upload part.offset part.len following
        (R.Read.remaining reader.new))) }
    ensures left { OnErr result (Leaves A.reach (A.stands access.old) (A.stands access.new)) }
    ensures cause { IfErr result (λ cause. cause ≡ Cause.CannotRead) }
{
    let RawPart {
        upload,
        offset,
        len,
    } = part;
    let plan = match access.plan(upload) {
        Ok(plan) => plan,
        Err(refusal) => return dropped(reader, len, Answer::Replied(Err(refusal))),
    };
    if let Some(fault) = plan.part_fault(offset, len) {
        return dropped(reader, len, Answer::Unmade(fault));
    }
    let Ok(mut bytes) = Vec::with_capacity(alloc, len as usize) else {
        return dropped(reader, len, Answer::Unmade(PartFault::NoMemory));
    };
    if !copy(reader, &mut bytes, len as usize)? {
        return Ok(None);
    }
    let part = Part {
        upload,
        offset,
        bytes: PartBytes::new(bytes),
    };
    Ok(Some(put_made(alloc, access, &plan, part, work)))
}

/// Drops `len` bytes, and answers.
pub(crate) fn dropped<R: BufRead>(
    reader: &mut R,
    len: u64,
    answer: Answer,
) -> Result<Option<Answer>, Cause>
    ensures dropped { IfOk result (λ given. IfSome (R.Read.remaining reader.old) (λ following. Dropped given answer len following (R.Read.remaining reader.new))) }
    ensures cause { IfErr result (λ cause. cause ≡ Cause.CannotRead) }
{
    if skip(reader, len)? {
        Ok(Some(answer))
    } else {
        Ok(None)
    }
}
