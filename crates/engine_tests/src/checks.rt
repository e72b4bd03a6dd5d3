//! The engine of `check`: over the output of `sum`, and without memory for a name.

use crate::fakes::NoNames;
use b3_check::{CheckFile, Line, ReportOptions, Shown, verify, write};
use b3_core::Work;
use hash_engines::{Cause, HashThreads, SumLine, SumMode, SumRequest, Verdict, check, sum};
use std::test::Fail;

#[test]
fn check_reads_the_line_that_sum_writes(rt: HostRuntime) -> Result<(), Fail> {
    let alloc = rt.alloc();
    let mut work = Work::new(&rt);
    let mut reader = b"abc".as_slice();
    let mut names = NoNames::new(true);
    let mut report = Vec::new(alloc);
    let threads = HashThreads {
        rt: &rt,
        alloc,
        count: None,
    };
    let request = SumRequest {
        line: SumLine {
            name: b"notes.txt",
            length: None,
        },
        mode: SumMode::Hash,
    };
    let mut line = Vec::new(alloc);
    sum(&threads, &request, &mut reader, &mut line, &mut work)?;
    let mut list = line.as_slice();
    let options = ReportOptions {
        shown: Shown::All,
        ignores_missing: false,
    };
    let verdict = check(alloc, options, &mut names, &mut list, &mut report)?;
    let wanted: &[u8] = b"missing notes.txt\ngood 0 bad 0 missing 1 unreadable 0 faults 0\n";
    assert!(rt; verdict == Verdict::Refused);
    assert!(rt; report.as_slice() == wanted);
    Ok(())
}

#[test]
fn verify_reads_the_lines_that_write_writes(rt: HostRuntime) -> Result<(), Fail> {
    let alloc = rt.alloc();
    let Ok(line) = Line::new([0; 32], Vec::from_slice(alloc, b"f")?) else {
        return Err(Fail::new("no line"));
    };
    let lines = vec![in alloc; line]?;
    let mut names = NoNames::new(true);
    let mut report: Vec<u8> = Vec::new(alloc);
    let mut text = Vec::new(alloc);
    write(lines.as_slice(), &mut text)?;
    let file = CheckFile::read(alloc, text.as_slice())?;
    let options = ReportOptions {
        shown: Shown::All,
        ignores_missing: false,
    };
    let counts = verify(&file, options, &mut names, &mut report)?;
    let has_passed = counts.passes(options);
    let wanted: &[u8] = b"missing f\ngood 0 bad 0 missing 1 unreadable 0 faults 0\n";
    assert!(rt; !has_passed && report.as_slice() == wanted);
    Ok(())
}

#[test]
fn check_ends_at_a_name_without_memory(rt: HostRuntime) -> Result<(), Fail> {
    let mut reader =
        b"6437b3ac38465133ffb63b75273a8db548c558465d79db03fd359c6cd5bd9d85  f\n6437b3ac38465133ffb63b75273a8db548c558465d79db03fd359c6cd5bd9d85  g\n".as_slice();
    let mut names = NoNames::new(false);
    let mut writer: Vec<u8> = Vec::new(rt.alloc());
    let options = ReportOptions {
        shown: Shown::All,
        ignores_missing: false,
    };
    let ended = check(rt.alloc(), options, &mut names, &mut reader, &mut writer);
    assert!(rt; ended == Err(Cause::OutOfMemory));
    assert!(rt; names.calls == 1);
    assert!(rt; writer.is_empty());
    Ok(())
}
