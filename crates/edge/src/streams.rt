//! Writing an output.

ghost use Rattle.std.specs.Prelude.{◌≡◌, ◌<◌, [], OnErr, OnOk, IfErr, IfSome, length};
ghost use Rattle.std.specs.Io.KnownBytes.{Appends, Keeps};
ghost use Rattle.edge.specs.Output.{IsTruncated, WroteSome};

use crate::outcome::Cause;
use std::fmt::{Display, InlineText, Write as _};
use std::io;
use std::io::{ErrorKind, Write};

/// Writes all of `bytes`, and flushes. After a failed write or flush a prefix of them was written.
pub fn write_all<W: Write>(writer: &mut W, bytes: &[u8]) -> Result<(), Cause>
    ensures written { OnOk result (Appends (W.contents writer.old) (W.contents writer.new) bytes.now) }
    ensures failed { OnErr result (WroteSome (W.contents writer.old) (W.contents writer.new) bytes.now) }
    ensures cause { IfErr result (λ cause. cause ≡ Cause.CannotWrite) }
{
    write_bytes(writer, bytes)?;
    flush(writer)
}

/// Writes all of `bytes`, without flushing, as more follow. After a failed write a prefix of them was written.
pub fn write_bytes<W: Write>(writer: &mut W, bytes: &[u8]) -> Result<(), Cause>
    ensures written { OnOk result (Appends (W.contents writer.old) (W.contents writer.new) bytes.now) }
    ensures failed { OnErr result (IsTruncated (W.contents writer.old) (W.contents writer.new) bytes.now) }
    ensures cause { IfErr result (λ cause. cause ≡ Cause.CannotWrite) }
{
    write_whole(writer, bytes).map_err(|_| Cause::CannotWrite)
}

// Room for a text that is formatted before it is written.
const TEXT_ROOM: usize = 192;

/// Writes a text of at most 192 bytes. After an error a prefix of it was written, a proper one if it has any bytes. The text is formatted
/// first, because a failing `Display` does not say what it wrote; if it is too long, nothing is written, and the error is `Other`.
pub fn write_text<D: Display + Drop, W: Write>(text: D, writer: &mut W) -> io::Result<()>
    ensures written { OnOk result (IfSome (D.output text) (Appends (W.contents writer.old) (W.contents writer.new))) }
    ensures failed { OnErr result (IfSome (D.output text) (WroteSome (W.contents writer.old) (W.contents writer.new))) }
    ensures cut { OnErr result (IfSome (D.output text) (λ text. 0 < length text → IsTruncated (W.contents writer.old) (W.contents writer.new) text)) }
{
    let mut room = InlineText::<TEXT_ROOM>::new();
    match write!(room, "{text}") {
        Ok(()) => write_whole(writer, room.as_str().as_bytes()),
        Err(_) => Err(ErrorKind::Other.into()),
    }
}

/// Writes all of `bytes`. An error is that of the writer, after it accepted a proper prefix of them: the error that it returned,
/// `WriteZero` if it accepted nothing, or `Interrupted` if it was interrupted 2^64-1 times.
pub fn write_whole<W: Write>(writer: &mut W, bytes: &[u8]) -> io::Result<()>
    ensures written { OnOk result (Appends (W.contents writer.old) (W.contents writer.new) bytes.now) }
    ensures failed { OnErr result (IsTruncated (W.contents writer.old) (W.contents writer.new) bytes.now) }
{
    let mut rest = bytes;
    for _ in 0..u64::MAX {
        if rest.is_empty() {
            break;
        }
        match writer.write(rest) {
            Ok(0) => return Err(ErrorKind::WriteZero.into()),
            Ok(count) => rest = &rest[count..],
            Err(error) if error.kind() == ErrorKind::Interrupted => {}
            Err(error) => return Err(error),
        }
    }
    if rest.is_empty() {
        Ok(())
    } else {
        Err(ErrorKind::Interrupted.into())
    }
}

/// Flushes what was written.
pub fn flush<W: Write>(writer: &mut W) -> Result<(), Cause>
    ensures written { OnOk result (Appends (W.contents writer.old) (W.contents writer.new) []) }
    ensures failed { OnErr result (Keeps (W.contents writer.old) (W.contents writer.new)) }
    ensures cause { IfErr result (λ cause. cause ≡ Cause.CannotWrite) }
{
    writer.flush().map_err(|_| Cause::CannotWrite)
}
