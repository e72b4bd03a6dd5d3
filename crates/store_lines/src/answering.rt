//! Answers to lines.

ghost use Rattle.std.specs.Prelude.{◌≡◌, IfErr, OnErr, OnOk};
ghost use Rattle.std.specs.Io.KnownBytes.{Appends};
ghost use Rattle.edge.specs.Output.{WroteSome};
ghost use Rattle.store_core.specs.declared.store.questions.Question.TheVariants as questions;
ghost use Rattle.store_lines.specs.inner.Answers.{reported_text};
ghost use Rattle.store_core.specs.Runs.{ask};
ghost use Rattle.store_lines.specs.Session.{as_range};
ghost use Rattle.store_lines.specs.inner.Reporting.{ReportedOver};
ghost use Rattle.store_lines.specs.Turns.{IsLinkedCall, IsLinkedEntries};

use crate::access::Access;
use crate::answer::Answer;
use crate::giving::{give_object, refuse};
use crate::request::{EntryRange, Wanted};
use edge::{Cause, flush};
use std::alloc::Global;
use std::io::Write;
use store_core::{Entry, Refusal};

/// Writes an answer, with its entries of the journal `entries` if it has any, and flushes.
pub(crate) fn report<W: Write>(
    writer: &mut W,
    entries: &[Entry],
    answer: Answer,
) -> Result<(), Cause>
    ensures wrote { OnOk result (Appends (W.contents writer.old) (W.contents writer.new) (reported_text entries.now answer)) }
    ensures failed { OnErr result (WroteSome (W.contents writer.old) (W.contents writer.new) (reported_text entries.now answer)) }
    ensures cause { IfErr result (λ cause. cause ≡ Cause.CannotWrite) }
{
    answer.write(entries, writer)?;
    flush(writer)
}

/// Writes the journal's entries from a number on, or that it ran out of memory for their copy.
pub(crate) fn give_entries<A: Access, W: Write>(
    alloc: Global,
    access: &mut A,
    writer: &mut W,
    range: EntryRange,
) -> Result<(), Cause>
    ensures reported { OnOk result (ReportedOver (A.stands access.old) (A.stands access.new)
        (λ before turn after. IsLinkedEntries A.reach range before turn after) (Appends (W.contents writer.old) (W.contents writer.new))) }
    ensures failed { OnErr result (ReportedOver (A.stands access.old) (A.stands access.new)
        (λ before turn after. IsLinkedEntries A.reach range before turn after) (WroteSome (W.contents writer.old) (W.contents writer.new))) }
    ensures cause { IfErr result (λ cause. cause ≡ Cause.CannotWrite) }
{
    if access.write_entries(alloc, writer, range)? {
        Ok(())
    } else {
        refuse(writer, Refusal::NoMemory)
    }
}

/// Writes an object's bytes, or those of a range.
pub(crate) fn give<A: Access, W: Write>(
    access: &mut A,
    writer: &mut W,
    wanted: Wanted,
) -> Result<(), Cause>
    ensures gave { OnOk result (ReportedOver (A.stands access.old) (A.stands access.new)
        (λ before turn after. IsLinkedCall A.reach (as_range wanted.range) before
        (ask (questions.Fetch wanted.tenant wanted.address)) turn after) (Appends (W.contents writer.old) (W.contents writer.new))) }
    ensures failed { OnErr result (ReportedOver (A.stands access.old) (A.stands access.new)
        (λ before turn after. IsLinkedCall A.reach (as_range wanted.range) before
        (ask (questions.Fetch wanted.tenant wanted.address)) turn after) (WroteSome (W.contents writer.old) (W.contents writer.new))) }
    ensures cause { IfErr result (λ cause. cause ≡ Cause.CannotWrite) }
{
    match access.fetch(wanted.tenant, wanted.address) {
        Ok(object) => give_object(writer, &object, wanted.range),
        Err(refusal) => refuse(writer, refusal),
    }
}
