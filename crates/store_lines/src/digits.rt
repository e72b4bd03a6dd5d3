//! The digits of objects.

ghost use Rattle.std.specs.Prelude.{◌≡◌, ◌≤◌, ◌++◌, codes, length, IfErr, OnErr, OnOk};
ghost use Rattle.std.specs.Io.KnownBytes.{Appends};
ghost use Rattle.edge.specs.Output.{WroteSome};
ghost use Rattle.store_lines.specs.inner.Digits.{digits_of};

use crate::texts::write_made;
use b3_forest::Segment;
use edge::{Cause, write_encoded};
use std::io::Write;

// The number of digits written at a time.
const ROOM: usize = 1 << 14;

/// Writes the digits of the segments' bytes, in order, and a newline. They are made as they are written, so an answer can hold an object of
/// any size.
pub(crate) fn write_digits<W: Write>(writer: &mut W, segments: &[Segment]) -> Result<(), Cause>
    ensures wrote { OnOk result (Appends (W.contents writer.old) (W.contents writer.new) (digits_of segments.now ++ codes "\n")) }
    ensures failed { OnErr result (WroteSome (W.contents writer.old) (W.contents writer.new) (digits_of segments.now ++ codes "\n")) }
    ensures cause { IfErr result (λ cause. cause ≡ Cause.CannotWrite) }
{
    let mut room = [0; ROOM];
    write_segment_digits(writer, segments, &mut room)?;
    write_made(writer, "\n")
}

fn write_segment_digits<W: Write>(
    writer: &mut W,
    segments: &[Segment],
    room: &mut [u8],
) -> Result<(), Cause>
    requires { 2 ≤ length room.old }
    ensures wrote { OnOk result (Appends (W.contents writer.old) (W.contents writer.new) (digits_of segments.now)) }
    ensures failed { OnErr result (WroteSome (W.contents writer.old) (W.contents writer.new) (digits_of segments.now)) }
    ensures cause { IfErr result (λ cause. cause ≡ Cause.CannotWrite) }
{
    for segment in segments {
        write_encoded(writer, segment.bytes.as_slice(), room)?;
    }
    Ok(())
}
