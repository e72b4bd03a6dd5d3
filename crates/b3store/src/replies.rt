//! The streams of a session. Answers are written together: when their buffer is full, and before the session waits for input.

use crate::standard::LastingFailure;
use b3_core::Work;
use edge::{Cause, Verdict};
use std::cell::{Cell, RefCell};
use std::io::{self, BufReader, BufWriter, ErrorKind, Read, Write};
use store_lines::{Access, UploadsAtEnd, serve_over};

// The number of bytes that a session reads at a time.
const AT_A_TIME: usize = 1 << 16;

/// The answers of a session, in a buffer before its output.
#[derive(Drop)]
pub(crate) struct Replies<W: Write + Drop> {
    buffer: RefCell<BufWriter<LastingFailure<W>>>,
    has_failed: Cell<bool>,
}

impl<W: Write + Drop> Replies<W> {
    pub(crate) fn new(rt: &HostRuntime, output: W) -> Result<Replies<W>, Cause> {
        let Ok(buffer) = BufWriter::new(rt.alloc(), LastingFailure::new(output)) else {
            return Err(Cause::OutOfMemory);
        };
        Ok(Replies {
            buffer: RefCell::new(buffer),
            has_failed: Cell::new(false),
        })
    }

    /// The lines of an input, and the writer of their answers.
    pub(crate) fn streams<R: Read + Drop>(
        &self,
        rt: &HostRuntime,
        input: R,
    ) -> Result<(BufReader<AwaitedInput<'_, R, W>>, ReplyWriter<'_, W>), Cause> {
        let input = AwaitedInput {
            input,
            replies: self,
        };
        match BufReader::with_capacity(rt.alloc(), AT_A_TIME, input) {
            Ok(lines) => Ok((lines, ReplyWriter { replies: self })),
            Err(_) => Err(Cause::OutOfMemory),
        }
    }

    // Writes what the buffer has.
    fn send(&self) -> io::Result<()> {
        let Ok(mut buffer) = self.buffer.try_borrow_mut() else {
            return Err(ErrorKind::Other.into());
        };
        let sent = buffer.flush();
        if sent.is_err() {
            self.has_failed.set(true);
        }
        sent
    }

    /// Writes the last answers. Returns how the session ended: a failed write is reported as such, also if it happened before a read.
    pub(crate) fn finish(&self, ended: Result<Verdict, Cause>) -> Result<Verdict, Cause> {
        if self.send().is_err() || self.has_failed.get() {
            return Err(Cause::CannotWrite);
        }
        ended
    }
}

/// The writer of answers. They are written later than `flush`, but before the session waits for input.
#[derive(Drop)]
pub(crate) struct ReplyWriter<'a, W: Write + Drop> {
    replies: &'a Replies<W>,
}

impl<W: Write + Drop> Write for ReplyWriter<'_, W> {
    fn write(&mut self, buf: &[u8]) -> io::Result<usize> {
        match self.replies.buffer.try_borrow_mut() {
            Ok(mut buffer) => buffer.write(buf),
            Err(_) => Err(ErrorKind::Other.into()),
        }
    }

    fn flush(&mut self) -> io::Result<()> {
        Ok(())
    }
}

/// Input that a session waits for: the answers so far are written before each read.
#[derive(Drop)]
pub(crate) struct AwaitedInput<'a, R, W: Write + Drop> {
    input: R,
    replies: &'a Replies<W>,
}

impl<R: Read, W: Write + Drop> Read for AwaitedInput<'_, R, W> {
    fn read(&mut self, buf: &mut [u8]) -> io::Result<usize> {
        self.replies.send()?;
        self.input.read(buf)
    }
}

/// Serves a session over these streams.
pub(crate) fn serve_streams<A: Access, R: Read + Drop, W: Write + Drop>(
    rt: &HostRuntime,
    access: &mut A,
    at_end: UploadsAtEnd,
    input: R,
    output: W,
) -> Result<Verdict, Cause> {
    let replies = Replies::new(rt, output)?;
    let (mut lines, mut answers) = replies.streams(rt, input)?;
    let mut work = Work::new(rt);
    let ended = serve_over(
        rt.alloc(),
        access,
        at_end,
        &mut lines,
        &mut answers,
        &mut work,
    );
    replies.finish(ended)
}
