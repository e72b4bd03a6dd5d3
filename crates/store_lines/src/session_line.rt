//! The lines of scripts and sessions.

ghost use Rattle.store_lines.specs.inner.Requests.{IsFound, IsScriptFound, IsScriptLine};

use crate::answer::{MAX_LINE, without_end};
use crate::bad_lines::{LineFault, line_fault};
use crate::parsing::read_script_request;
use crate::request::{Request, request_of};
use edge::LineRead;
use std::alloc::Global;

/// What a line is.
#[derive(Drop)]
pub(crate) enum Line {
    /// It has no bytes before its newline.
    Empty,
    /// It is outside the grammar.
    Bad(LineFault),
    /// An allocation failed for it.
    NoMemory,
    /// It has this request.
    Has(Request),
}

/// What the line is that was read like this: a session's own, or one that a script has too.
pub(crate) fn line_of(alloc: Global, line: &[u8], read: LineRead) -> Line
    ensures { IsFound read line.now result }
{
    match request_of(line, read) {
        Some(request) => Line::Has(request),
        None => script_line(alloc, line, read),
    }
}

/// What a line is that is not a session's own, or one of a script.
pub(crate) fn script_line(alloc: Global, line: &[u8], read: LineRead) -> Line
    ensures { IsScriptFound read line.now result }
{
    if !read.is_kept {
        return Line::NoMemory;
    }
    if read.count > MAX_LINE {
        return Line::Bad(line_fault(line));
    }
    kept_line(alloc, without_end(line))
}

// What a line of a script is, without its newline.
fn kept_line(alloc: Global, line: &[u8]) -> Line
    ensures { IsScriptLine line.now result }
{
    if line.is_empty() {
        return Line::Empty;
    }
    match read_script_request(alloc, line) {
        Ok(Ok(request)) => Line::Has(request),
        Ok(Err(fault)) => Line::Bad(fault),
        Err(_) => Line::NoMemory,
    }
}
