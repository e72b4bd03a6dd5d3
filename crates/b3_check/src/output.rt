//! Writing bytes.

ghost use Rattle.std.specs.Prelude.{OnErr, OnOk};
ghost use Rattle.std.specs.Io.KnownBytes.{Appends};
ghost use Rattle.std.specs.List.{flat_map};
ghost use Rattle.edge.specs.Output.{IsTruncated};

use edge::write_whole;
use std::io;
use std::io::Write;

/// Writes slices, one after the other.
pub(crate) fn write_slices<W: Write>(writer: &mut W, slices: &[&[u8]]) -> io::Result<()>
    ensures written { OnOk result (Appends (W.contents writer.old) (W.contents writer.new) (flat_map (λ slice. slice.now) slices.now)) }
    ensures failed { OnErr result (IsTruncated (W.contents writer.old) (W.contents writer.new) (flat_map (λ slice. slice.now) slices.now)) }
{
    for slice in slices {
        write_whole(writer, slice)?;
    }
    Ok(())
}
