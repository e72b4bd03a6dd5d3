//! Reports on check files.

ghost use Rattle.std.specs.Prelude.{◌≡◌, ◌+◌, ◌-◌, ◌^◌, ℕ, List, OnErr, OnOk};
ghost use Rattle.std.specs.Io.KnownBytes.{Appends};
ghost use Rattle.edge.specs.Output.{IsTruncated};
ghost use Rattle.b3_check.specs.Reports.{Verdict, counts_text, fault_line, is_among, passes, shown_counts, shown_line, shows, verdict_text, with_verdict};
ghost use Rattle.b3_check.specs.inner.Reports.{AreAtMost};
ghost use Rattle.b3_check.specs.Reports.Verdict.{faulty, named};

use crate::fault::Fault;
use crate::name::Name;
use crate::output::write_slices;
use crate::writing::write_named;
use itoa::Buffer;
use std::io;
use std::io::Write;

/// Which lines of a report are written.
#[derive(Clone, Copy, Debug, PartialEq, Eq)]
pub enum Shown {
    /// All lines.
    All,
    /// All lines but those of names whose file has its hash. The counts are written only if the report does not pass.
    AllButGood,
    /// No lines, and no counts.
    Nothing,
}

/// What a report has, and when it passes.
#[derive(Clone, Copy, Debug, PartialEq, Eq)]
pub struct ReportOptions {
    /// Which lines are written.
    pub shown: Shown,
    /// Whether a name without a file has no line, and the report can pass all the same, if some file has its hash.
    pub ignores_missing: bool,
}

/// The result for a name.
#[derive(Clone, Copy, Debug, PartialEq, Eq)]
pub(crate) enum Found {
    /// The file has the digest of the line.
    Good,
    /// The file has another digest.
    Bad,
    /// There is no such file.
    Missing,
    /// The file could not be read.
    Unreadable,
}

/// The number of verdicts of each kind.
#[derive(Clone, Copy, Debug, Default, PartialEq, Eq)]
pub struct Counts {
    /// Files with the digest of their line.
    pub good: u64,
    /// Files with another digest.
    pub bad: u64,
    /// Names without a file.
    pub missing: u64,
    /// Files that could not be read.
    pub unreadable: u64,
    /// Lines that are not check lines.
    pub faults: u64,
}

impl Counts {
    /// Whether a report with these counts passes: no file has another hash or could not be read, no line has a fault, and each name has a file;
    /// or names without one are ignored, and some file has its hash.
    pub fn passes(self, options: ReportOptions) -> bool
        ensures { result ≡ passes options self }
    {
        (self.missing == 0 || (options.ignores_missing && 0 < self.good))
            && (self.bad == 0 && (self.unreadable == 0 && self.faults == 0))
    }

    /// Counts the result for a name.
    pub(crate) fn add_found(&mut self, found: Found)
        requires { AreAtMost (2 ^ 64 - 2) self.old }
        ensures { (name : List ℕ) → self.new ≡ with_verdict (named found name) self.old }
    {
        match found {
            Found::Good => self.good += 1,
            Found::Bad => self.bad += 1,
            Found::Missing => self.missing += 1,
            Found::Unreadable => self.unreadable += 1,
        }
    }

    /// Counts a line with a fault.
    pub(crate) fn add_fault(&mut self)
        requires { AreAtMost (2 ^ 64 - 2) self.old }
        ensures { (line : ℕ) (fault : Fault) → self.new ≡ with_verdict (faulty line fault) self.old }
    {
        self.faults += 1;
    }
}

/// Writes the line for a name, if it is shown.
pub(crate) fn write_found<W: Write>(
    options: ReportOptions,
    found: Found,
    name: &Name,
    writer: &mut W,
) -> io::Result<()>
    ensures written { OnOk result (Appends (W.contents writer.old) (W.contents writer.new) (shown_line options (named found name.now))) }
    ensures failed { OnErr result (IsTruncated (W.contents writer.old) (W.contents writer.new) (shown_line options (named found name.now))) }
{
    if shows_found(options, found) {
        write_found_line(found, name, writer)
    } else {
        Ok(())
    }
}

// Writes the line for a name.
fn write_found_line<W: Write>(found: Found, name: &Name, writer: &mut W) -> io::Result<()>
    ensures written { OnOk result (Appends (W.contents writer.old) (W.contents writer.new) (verdict_text (named found name.now))) }
    ensures failed { OnErr result (IsTruncated (W.contents writer.old) (W.contents writer.new) (verdict_text (named found name.now))) }
{
    match found {
        Found::Good => write_named(b"good", b" ", name, writer),
        Found::Bad => write_named(b"bad", b" ", name, writer),
        Found::Missing => write_named(b"missing", b" ", name, writer),
        Found::Unreadable => write_named(b"unreadable", b" ", name, writer),
    }
}

// Whether the line for a name with this result is shown.
fn shows_found(options: ReportOptions, found: Found) -> bool
    ensures { (name : List ℕ) → result ≡ shows options (named found name) }
{
    !(options.ignores_missing && found == Found::Missing) && is_among(options.shown, found)
}

// Whether the line for a name with this result is among those that are written.
fn is_among(shown: Shown, found: Found) -> bool
    ensures { (name : List ℕ) → result ≡ is_among shown (named found name) }
{
    match shown {
        Shown::All => true,
        Shown::AllButGood => found != Found::Good,
        Shown::Nothing => false,
    }
}

/// Writes the line for a fault, if it is shown.
pub(crate) fn write_fault<W: Write>(
    options: ReportOptions,
    line: u64,
    fault: Fault,
    writer: &mut W,
) -> io::Result<()>
    ensures written { OnOk result (Appends (W.contents writer.old) (W.contents writer.new) (shown_line options (faulty line fault))) }
    ensures failed { OnErr result (IsTruncated (W.contents writer.old) (W.contents writer.new) (shown_line options (faulty line fault))) }
{
    match options.shown {
        Shown::All | Shown::AllButGood => write_fault_line(line, fault, writer),
        Shown::Nothing => Ok(()),
    }
}

// Writes the line for a fault.
fn write_fault_line<W: Write>(line: u64, fault: Fault, writer: &mut W) -> io::Result<()>
    ensures written { OnOk result (Appends (W.contents writer.old) (W.contents writer.new) (fault_line line fault)) }
    ensures failed { OnErr result (IsTruncated (W.contents writer.old) (W.contents writer.new) (fault_line line fault)) }
{
    let mut number = Buffer::new();
    let number = number.format(line).as_bytes();
    let code = fault.code().as_bytes();
    write_slices(writer, &[b"fault ", number, b" ", code, b"\n"])
}

/// Writes the line of the counts, if it is shown.
pub(crate) fn write_counts<W: Write>(
    options: ReportOptions,
    counts: Counts,
    writer: &mut W,
) -> io::Result<()>
    ensures written { OnOk result (Appends (W.contents writer.old) (W.contents writer.new) (shown_counts options counts)) }
    ensures failed { OnErr result (IsTruncated (W.contents writer.old) (W.contents writer.new) (shown_counts options counts)) }
{
    let is_written = match options.shown {
        Shown::All => true,
        Shown::AllButGood => !counts.passes(options),
        Shown::Nothing => false,
    };
    if is_written {
        write_counts_line(counts, writer)
    } else {
        Ok(())
    }
}

// Writes the line of the counts.
fn write_counts_line<W: Write>(counts: Counts, writer: &mut W) -> io::Result<()>
    ensures written { OnOk result (Appends (W.contents writer.old) (W.contents writer.new) (counts_text counts)) }
    ensures failed { OnErr result (IsTruncated (W.contents writer.old) (W.contents writer.new) (counts_text counts)) }
{
    let mut good = Buffer::new();
    let mut bad = Buffer::new();
    let mut missing = Buffer::new();
    let mut unreadable = Buffer::new();
    let mut faults = Buffer::new();
    let slices: [&[u8]; 11] = [
        b"good ",
        good.format(counts.good).as_bytes(),
        b" bad ",
        bad.format(counts.bad).as_bytes(),
        b" missing ",
        missing.format(counts.missing).as_bytes(),
        b" unreadable ",
        unreadable.format(counts.unreadable).as_bytes(),
        b" faults ",
        faults.format(counts.faults).as_bytes(),
        b"\n",
    ];
    write_slices(writer, &slices)
}
