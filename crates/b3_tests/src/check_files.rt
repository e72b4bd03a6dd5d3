//! What the program cannot show about check files: single names, the order in which names are looked up, and failed writes. Lines and
//! reports are in tests/cases/check-*.table.

use crate::fakes::FailingWriter;
use crate::helpers::{ABC, digest};
use b3_check::{
    CheckFile, Fault, Line, NameFault, Names, NumberedLine, ReadError, ReportOptions, Shown,
    verify, write,
};
use std::alloc::Global;
use std::io::ErrorKind;
use std::marker::Model;
use std::slice;

// A check file of two lines and a bad one between them. They start at the bytes 0, 68 and 74, and the first byte of a name comes 66 bytes
// later.
const THREE_LINES: &[u8] =
    b"6437b3ac38465133ffb63b75273a8db548c558465d79db03fd359c6cd5bd9d85  f\nshort\naf1349b9f5f9a1a6a0404dea36dcc9499bcb25c9adc112b7cc9a93cae41f3262  g";

// Names without files, which record the calls: for each hint the numbers of its lines, each after a space, and a semicolon; for each lookup
// the name and a question mark. Contracts do not see the record.
#[derive(Drop)]
struct Hinted {
    asked: Vec<u8>,
}

impl Model for Hinted {
    ghost use Rattle.std.specs.Prelude.{ℕ};

    ghost Value = { ℕ };

    ghost view = { λ _. 0 };
}

impl Hinted {
    // Whether these were the calls.
    fn was_asked(&self, calls: &[u8]) -> bool {
        self.asked.as_slice() == calls
    }
}

impl Names for Hinted {
    ghost gives = { λ _ _ _ _. Unit {0} };

    fn expect(&mut self, lines: &[NumberedLine]) {
        for line in lines {
            let _ = self.asked.push(b' ');
            let _ = self.asked.push((line.number % 10) as u8 + b'0');
        }
        let _ = self.asked.push(b';');
    }

    fn digest_of(&mut self, name: &[u8]) -> Result<Option<[u8; 32]>, NameFault> {
        let _ = self.asked.extend_from_slice(name);
        let _ = self.asked.push(b'?');
        Ok(None)
    }
}

// The line with the hash of `abc` and the name `x`.
fn line_of_abc(alloc: Global) -> Option<Line> {
    let Ok(name) = Vec::from_slice(alloc, b"x") else {
        return None;
    };
    Line::new(digest(ABC), name).ok()
}

// Whether the text of the line has the digits, two spaces and the name.
fn is_written(alloc: Global, line: &Line) -> bool {
    let mut text = Vec::new(alloc);
    let is_ok = write(slice::from_ref(line), &mut text).is_ok();
    let (digits, rest) = text.as_slice().split_at(text.len().min(64));
    is_ok && digits == ABC.as_bytes() && rest == b"  x\n".as_slice()
}

// Whether writing a line ends with the call that fails.
fn is_written_until(line: &Line, fails: u64) -> bool {
    let mut writer = FailingWriter { calls: 0, fails };
    match write(slice::from_ref(line), &mut writer) {
        Ok(()) => false,
        Err(error) => error.kind() == ErrorKind::Other && writer.calls == fails,
    }
}

// Whether the report on three lines ends with the call that fails, after these calls for names. The whole report has 76 bytes.
fn is_reported_until(alloc: Global, file: &CheckFile, fails: u64, calls: &[u8]) -> bool {
    let mut writer = FailingWriter { calls: 0, fails };
    let options = ReportOptions {
        shown: Shown::All,
        ignores_missing: false,
    };
    let mut names = Hinted {
        asked: Vec::new(alloc),
    };
    let has_failed = verify(file, options, &mut names, &mut writer).is_err();
    has_failed == (fails < 77) && writer.calls == fails.min(76) && names.was_asked(calls)
}

// Whether a line keeps a name without a zero byte, and returns the bytes of any other by C7.
fn is_kept_or_back(alloc: Global, name: &[u8], is_kept: bool) -> bool {
    let Ok(bytes) = Vec::from_slice(alloc, name) else {
        return false;
    };
    match Line::new([0; 32], bytes) {
        Ok(line) => is_kept && line.name.into_bytes().as_slice() == name,
        Err(refused) => !is_kept && refused.bytes.as_slice() == name && refused.code() == "C7",
    }
}

#[test]
fn names_are_kept_or_come_back(rt: HostRuntime) {
    let is_kept = is_kept_or_back(rt.alloc(), b"a\\b", true);
    assert!(rt; is_kept && is_kept_or_back(rt.alloc(), b"a\0", false));
}

#[test]
fn faults_have_texts(rt: HostRuntime) {
    let (short, none) = (ReadError::Fault(Fault::Short), ReadError::NoMemory);
    let text = format!(in rt.alloc(); "{short}; {none}").expect(&rt, "memory for the texts");
    assert!(rt;
        text.as_str() == "C2: the line is too short for digits and two spaces; out of memory"
    );
}

#[test]
fn a_line_is_written_up_to_a_failed_write(rt: HostRuntime) {
    let line = line_of_abc(rt.alloc()).expect(&rt, "a line");
    assert!(rt; is_written(rt.alloc(), &line));
    for fails in 1..68u64 {
        assert!(rt; is_written_until(&line, fails));
    }
}

#[test]
fn lines_are_reported_before_they_are_asked_for(rt: HostRuntime) {
    let file = CheckFile::read(rt.alloc(), THREE_LINES).expect(&rt, "memory for the lines");
    for fails in 1..=77u64 {
        let calls: &[u8] = match fails {
            ..=10 => b" 1 2 3;f?",
            11..=21 => b" 1 2 3;f? 2 3;",
            _ => b" 1 2 3;f? 2 3; 3;g?",
        };
        assert!(rt; is_reported_until(rt.alloc(), &file, fails, calls));
    }
}
