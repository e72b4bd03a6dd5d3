//! Verifying a check file.

ghost use Rattle.std.specs.Prelude.{◌≡◌, ◌≢◌, ◌+◌, ◌-◌, ◌^◌, ℕ, List, IfErr, IfOk, OnErr, OnOk};
ghost use Rattle.std.specs.Io.KnownBytes.{Appends};
ghost use Rattle.b3_check.specs.Reports.{IsEnded, IsFound, IsReport, Verdict, counts_of, report_text};
ghost use Rattle.b3_check.specs.inner.Reports.{AreAtMost, IsLineAsked, IsLineEnded};

use crate::file::{CheckFile, NumberedLine};
use crate::line::Line;
use crate::names::{NameFault, Names};
use crate::report::{Counts, Found, ReportOptions, write_counts, write_fault, write_found};
use edge::Cause;
use std::alloc::AllocError;
use std::io::Write;

/// Asks `names` for the digest of each line without a fault, in file order, and writes what is shown of each line before it asks for the
/// next; then writes the counts, if they are shown. Before each line it announces the following lines to `names`.
///
/// Allocates nothing. It stops at the first failed write, or when `names` is out of memory.
pub fn verify<N: Names, W: Write>(
    file: &CheckFile,
    options: ReportOptions,
    names: &mut N,
    writer: &mut W,
) -> Result<Counts, Cause>
    ensures report { IfOk result (λ counts. (verdicts : List Verdict) × IsReport N.gives names.old file.now verdicts names.new
        × (counts ≡ counts_of verdicts) × Appends (W.contents writer.old) (W.contents writer.new) (report_text options verdicts)) }
    ensures stopped { IfErr result (λ cause. IsEnded N.gives options names.old file.now cause names.new (W.contents writer.old) (W.contents writer.new)) }
{
    let mut counts = Counts::default();
    let lines = file.lines();
    for (index, line) in lines.iter().enumerate() {
        names.expect(&lines[index..]);
        verify_line(line, options, names, &mut counts, writer)?;
    }
    match write_counts(options, counts, writer) {
        Ok(()) => Ok(counts),
        Err(_) => Err(Cause::CannotWrite),
    }
}

// Asks for one line, counts its verdict, and writes what is shown of it.
fn verify_line<N: Names, W: Write>(
    line: &NumberedLine,
    options: ReportOptions,
    names: &mut N,
    counts: &mut Counts,
    writer: &mut W,
) -> Result<(), Cause>
    requires { AreAtMost (2 ^ 64 - 2) counts.old }
    ensures asked { OnOk result (IsLineAsked N.gives options names.old line.now.number line.now.line names.new counts.old counts.new (W.contents writer.old) (W.contents writer.new)) }
    ensures stopped { IfErr result (λ cause. IsLineEnded N.gives options names.old line.now.number line.now.line cause names.new (W.contents writer.old) (W.contents writer.new)) }
{
    match &line.line {
        Ok(named) => verify_named(named, options, names, counts, writer),
        Err(fault) => {
            counts.add_fault();
            match write_fault(options, line.number, *fault, writer) {
                Ok(()) => Ok(()),
                Err(_) => Err(Cause::CannotWrite),
            }
        }
    }
}

// Asks for the digest of a line without a fault, and reports the result.
fn verify_named<N: Names, W: Write>(
    line: &Line,
    options: ReportOptions,
    names: &mut N,
    counts: &mut Counts,
    writer: &mut W,
) -> Result<(), Cause>
    requires { AreAtMost (2 ^ 64 - 2) counts.old }
    ensures asked { OnOk result (IsLineAsked N.gives options names.old 0 (Ok line.now) names.new counts.old counts.new (W.contents writer.old) (W.contents writer.new)) }
    ensures stopped { IfErr result (λ cause. IsLineEnded N.gives options names.old 0 (Ok line.now) cause names.new (W.contents writer.old) (W.contents writer.new)) }
{
    let Ok(found) = found_of(line, names) else {
        return Err(Cause::OutOfMemory);
    };
    counts.add_found(found);
    match write_found(options, found, &line.name, writer) {
        Ok(()) => Ok(()),
        Err(_) => Err(Cause::CannotWrite),
    }
}

// The result for the name of a line.
fn found_of<N: Names>(line: &Line, names: &mut N) -> Result<Found, AllocError>
    ensures found { IfOk result (λ found. IsFound N.gives names.old line.now found names.new) }
    ensures stopped { OnErr result (N.gives names.old line.now.name (Err NameFault.NoMemory) names.new) }
{
    match names.digest_of(line.name.as_bytes()) {
        Ok(Some(found)) if found == line.digest => Ok(Found::Good),
        Ok(Some(_)) => Ok(Found::Bad),
        Ok(None) => Ok(Found::Missing),
        Err(NameFault::Unreadable) => Ok(Found::Unreadable),
        Err(NameFault::NoMemory) => Err(AllocError),
    }
}
