//! Check files.

ghost use Rattle.std.specs.Prelude.{◌≡◌, ◌++◌, [], IfOk, OnOk, map};
ghost use Rattle.b3_check.specs.Files.{with_line, file_at, read_of};

use crate::fault::{Fault, ReadError};
use crate::line::Line;
use crate::reading::{read_line, without_returns};
use bstr::ByteSlice;
use std::alloc::{AllocError, Global};
use std::marker::Model;

/// A numbered line of a check file, or why it is not a check line.
#[derive(Debug, Drop)]
pub struct NumberedLine {
    /// The number of the line in the file, counted from 1.
    pub number: u64,
    pub line: Result<Line, Fault>,
}

/// The numbered lines of a check file. In contracts it is their list.
#[derive(Debug, Drop)]
pub struct CheckFile {
    lines: Vec<NumberedLine>,
}

impl Model for CheckFile {
    ghost use Rattle.std.specs.Prelude.{List};
    ghost use Rattle.b3_check.specs.declared.file.NumberedLine.{NumberedLine as Item};

    ghost Value = { List Item };

    ghost view = { λ f. f.lines.items };
}

impl CheckFile {
    /// Reads the lines of a file. Each line ends with a newline, which may be missing on the last line. A line that consists only of
    /// carriage returns is skipped, but counted.
    pub fn read(alloc: Global, bytes: &[u8]) -> Result<CheckFile, AllocError>
        ensures { IfOk result (λ file. file ≡ file_at bytes.now) }
    {
        let mut lines = Vec::new(alloc);
        let mut number = 0u64;
        for text in bytes.lines() {
            number += 1;
            push_line(alloc, &mut lines, number, text)?;
        }
        Ok(CheckFile { lines })
    }

    /// The lines in file order.
    pub fn lines(&self) -> &[NumberedLine]
        ensures { result.now ≡ self.now }
    {
        self.lines.as_slice()
    }
}

// Adds a line, unless it consists only of carriage returns.
fn push_line(
    alloc: Global,
    lines: &mut Vec<NumberedLine>,
    number: u64,
    text: &[u8],
) -> Result<(), AllocError>
    ensures { OnOk result (lines.new.items ≡ lines.old.items ++ map read_of (with_line number text.now [])) }
{
    if without_returns(text).is_empty() {
        return Ok(());
    }
    let line = match read_line(alloc, text) {
        Ok(line) => Ok(line),
        Err(ReadError::Fault(fault)) => Err(fault),
        Err(ReadError::NoMemory) => return Err(AllocError),
    };
    lines.push(NumberedLine { number, line })?;
    Ok(())
}
