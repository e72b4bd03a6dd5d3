//! The engine of `check`.

ghost use Rattle.std.specs.Prelude.{◌≡◌, ◌↔◌, IfErr, IfOk, IfSome, OnOk, true};
ghost use Rattle.b3_check.specs.Reports.{passes};
ghost use Rattle.std.specs.Io.KnownBytes.{Appends, IsAtEnd};
ghost use Rattle.hash_engines.specs.Checks.{IsChecked, IsStopped, IsUntouched};

use b3_check::{CheckFile, Counts, Names, ReportOptions, verify};
use edge::{Cause, Verdict, read_all, read_cause};
use std::alloc::Global;
use std::io::{Read, Write};

fn verdict_of(options: ReportOptions, counts: Counts) -> Verdict
    ensures { (result ≡ Verdict.Good) ↔ (passes options counts ≡ true) }
{
    if counts.passes(options) {
        Verdict::Good
    } else {
        Verdict::Refused
    }
}

/// Verifies a check file, and writes what is shown of the report.
///
/// It reads all its input as a check file, and then asks `names` for the digest of each line without a fault. It writes what is shown of a
/// line before it asks for the next, and the counts, if they are shown, at the end. Returns `Good` if the report passes.
///
/// It stops at the first failed read or write, or if it or `names` is out of memory. It writes and asks nothing before it has read
/// everything.
pub fn check<R: Read, W: Write, N: Names>(
    alloc: Global,
    options: ReportOptions,
    names: &mut N,
    reader: &mut R,
    writer: &mut W,
) -> Result<Verdict, Cause>
    ensures checked { IfOk result (λ verdict. IfSome (R.remaining reader.old) (λ input.
        IsChecked N.gives options names.old input verdict names.new (W.contents writer.old) (W.contents writer.new))) }
    ensures end { OnOk result (IsAtEnd (R.remaining reader.new)) }
    ensures stopped { IfErr result (λ cause. IfSome (R.remaining reader.old) (λ input.
        IsStopped N.gives options names.old input cause names.new (W.contents writer.old) (W.contents writer.new))) }
    ensures silent { IfErr result (IsUntouched names.old names.new (W.contents writer.old) (W.contents writer.new)) }
{
    let input = match read_all(alloc, reader) {
        Ok(input) => input,
        Err(error) => return Err(read_cause(&error)),
    };
    let file = CheckFile::read(alloc, &input)?;
    let counts = verify(&file, options, names, writer)?;
    match writer.flush() {
        Ok(()) => Ok(verdict_of(options, counts)),
        Err(_) => Err(Cause::CannotWrite),
    }
}
