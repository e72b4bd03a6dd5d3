//! The standard streams.

use hash_engines::{FileSystem, Standing, SystemFile};
use std::io::{ErrorKind, Printer, Read, Write};
use std::rt::Stdin;
use std::sync::atomic::{AtomicBool, Ordering};
use std::{fs, io};

// The name by which the system opens standard input as a file, and the file that contains its position.
const PATH: &str = "/dev/stdin";

const PLACE: &str = "/proc/self/fdinfo/0";

/// Standard input, which may be an open file.
#[derive(Drop)]
pub(crate) struct StandardInput<'a> {
    rt: &'a HostRuntime,
    stdin: Stdin,
    is_taken: bool,
}

impl<'a> StandardInput<'a> {
    pub(crate) fn new(rt: &'a HostRuntime) -> StandardInput<'a> {
        StandardInput {
            rt,
            stdin: rt.stdin(),
            is_taken: false,
        }
    }

    /// The number of remaining bytes in the file that standard input is, if it is one.
    pub(crate) fn len_left(&self) -> Option<u64> {
        let found = fs::metadata(self.rt, PATH).ok()?;
        if !found.is_file() {
            return None;
        }
        Some(found.len().saturating_sub(self.place()?))
    }

    // The position of standard input in its file, as reported by the system.
    fn place(&self) -> Option<u64> {
        let text = fs::read_to_string(self.rt, PLACE).ok()?;
        let line = text.lines().next()?;
        line.strip_prefix("pos:")?.trim().parse().ok()
    }
}

impl Read for StandardInput<'_> {
    fn read(&mut self, buf: &mut [u8]) -> io::Result<usize> {
        if self.is_taken {
            return Ok(0);
        }
        self.stdin.read(buf)
    }
}

impl Standing<SystemFile> for StandardInput<'_> {
    fn as_file(&self) -> Option<(SystemFile, u64)> {
        let found = fs::metadata(self.rt, PATH).ok()?;
        if self.is_taken || !found.is_file() {
            return None;
        }
        let place = self.place()?;
        let file = self.rt.open(PATH).ok()?;
        Some((file, place))
    }

    fn take_all(&mut self) {
        self.is_taken = true;
    }
}

/// A writer that writes nothing more after a failed write, so that a buffer dropped with bytes left in it does not write them again.
#[derive(Drop)]
pub(crate) struct LastingFailure<W> {
    writer: W,
    has_failed: bool,
}

impl<W> LastingFailure<W> {
    pub(crate) fn new(writer: W) -> LastingFailure<W> {
        LastingFailure {
            writer,
            has_failed: false,
        }
    }
}

impl<W: Write> Write for LastingFailure<W> {
    fn write(&mut self, buf: &[u8]) -> io::Result<usize> {
        if self.has_failed {
            return Err(ErrorKind::Other.into());
        }
        let written = self.writer.write(buf);
        self.has_failed = match &written {
            Ok(count) => *count == 0 && !buf.is_empty(),
            Err(error) => error.kind() != ErrorKind::Interrupted,
        };
        written
    }

    fn flush(&mut self) -> io::Result<()> {
        self.writer.flush()
    }
}

/// Standard output.
pub(crate) type StandardOutput<'a> = LastingFailure<Printer<'a, HostRuntime>>;

/// Standard output, with nothing written yet.
pub(crate) fn standard_output(rt: &HostRuntime) -> StandardOutput<'_> {
    LastingFailure::new(io::writer(rt))
}

/// A writer of the answer, before which the line of progress is erased.
#[derive(Drop)]
pub(crate) struct AnswerOutput<'a> {
    errors: StandardError<'a>,
    writer: StandardOutput<'a>,
}

/// Standard output, for an answer while progress is shown.
pub(crate) fn answer_output(errors: StandardError<'_>) -> AnswerOutput<'_> {
    AnswerOutput {
        errors,
        writer: standard_output(errors.runtime()),
    }
}

impl Write for AnswerOutput<'_> {
    fn write(&mut self, buf: &[u8]) -> io::Result<usize> {
        self.errors.end_progress();
        self.writer.write(buf)
    }

    fn flush(&mut self) -> io::Result<()> {
        self.writer.flush()
    }
}

// Erases the rest of a terminal's line, from the cursor on.
const ERASE: &str = "\x1b[K";

/// A line of progress on the terminal that standard error is.
#[derive(Drop)]
pub(crate) struct ProgressLine {
    is_shown: AtomicBool,
    is_over: AtomicBool,
}

impl ProgressLine {
    /// A line that is not shown.
    pub(crate) fn new() -> ProgressLine {
        ProgressLine {
            is_shown: AtomicBool::new(false),
            is_over: AtomicBool::new(false),
        }
    }
}

/// Standard error, and the line of progress that it may show, which the next message erases.
#[derive(Clone, Copy)]
pub(crate) struct StandardError<'a> {
    rt: &'a HostRuntime,
    progress: &'a ProgressLine,
}

impl<'a> StandardError<'a> {
    pub(crate) fn new(rt: &'a HostRuntime, progress: &'a ProgressLine) -> StandardError<'a> {
        StandardError { rt, progress }
    }

    /// The runtime that it was given.
    pub(crate) fn runtime(self) -> &'a HostRuntime {
        self.rt
    }

    /// Shows progress in place of what the line shows. The cursor is left at its start, so that the next output overwrites it.
    pub(crate) fn show_progress(self, text: &str) {
        if self.progress.is_over.load(Ordering::SeqCst) {
            return;
        }
        let _ = eprint!(self.rt; "{text}{ERASE}\r");
        self.progress.is_shown.store(true, Ordering::SeqCst);
    }

    /// Erases the line of progress, if it is shown. Returns the runtime, which then writes a message.
    pub(crate) fn cleared(self) -> &'a HostRuntime {
        if self.progress.is_shown.swap(false, Ordering::SeqCst) {
            let _ = eprint!(self.rt; "{ERASE}");
        }
        self.rt
    }

    /// Erases the line of progress, and shows no more of it.
    pub(crate) fn end_progress(self) {
        self.progress.is_over.store(true, Ordering::SeqCst);
        let _rt = self.cleared();
    }
}

impl Write for StandardError<'_> {
    fn write(&mut self, buf: &[u8]) -> io::Result<usize> {
        self.cleared().stderr().write(buf)
    }

    fn flush(&mut self) -> io::Result<()> {
        Ok(())
    }
}
