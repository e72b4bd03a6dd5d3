//! Writing lines.

ghost use Rattle.std.specs.Prelude.{◌≡◌, ◌++◌, length, IfOk, OnErr, OnOk};
ghost use Rattle.std.specs.Io.KnownBytes.{Appends};
ghost use Rattle.hex.specs.Hex.{IsBytes, encode_lower};
ghost use Rattle.b3_check.specs.Files.{all_good, file_at};
ghost use Rattle.b3_check.specs.Lines.{IsLawful, written_line, written_lines};
ghost use Rattle.b3_check.specs.Names.{IsName, escaped, mark_of, needs_escapes, unit_of};
ghost use Rattle.edge.specs.Output.{IsTruncated};
ghost use Rattle.b3_check.specs.Reports.{named_text};

use crate::line::Line;
use crate::name::Name;
use crate::output::write_slices;
use edge::write_whole;
use std::alloc::{AllocError, Global};
use std::io;
use std::io::Write;

impl Line {
    /// The line of a digest and a name as it is written, with its newline.
    pub fn text_of(alloc: Global, digest: [u8; 32], name: &[u8]) -> Result<Vec<u8>, AllocError>
        requires { IsName name.now }
        ensures { IfOk result (λ text. text.items ≡ written_line (record { digest = digest; name = name.now })) }
    {
        let name = Vec::from_slice(alloc, name)?;
        let line = Line::new(digest, name).unwrap();
        line.text(alloc)
    }

    /// The line as it is written, with its newline.
    pub fn text(&self, alloc: Global) -> Result<Vec<u8>, AllocError>
        ensures written { IfOk result (λ text. text.items ≡ written_line self.now) }
        // A line has 32 bytes and a name.
        ensures lawful { OnOk result (IsLawful self.now) }
    {
        let mut text = Vec::new(alloc);
        // Writing to a vector fails only if it has no room.
        match write_line(self, &mut text) {
            Ok(()) => Ok(text),
            Err(_) => Err(AllocError),
        }
    }
}

/// Writes lines, one after the other. The only error is that of the writer, before it has accepted all of them.
pub fn write<W: Write>(lines: &[Line], writer: &mut W) -> io::Result<()>
    ensures written { OnOk result (Appends (W.contents writer.old) (W.contents writer.new) (written_lines lines.now)) }
    // What was written before an error is a prefix of the lines.
    ensures failed { OnErr result (IsTruncated (W.contents writer.old) (W.contents writer.new) (written_lines lines.now)) }
    // Reading what is written returns the same lines.
    ensures read_back { OnOk result (file_at (written_lines lines.now) ≡ all_good 1 lines.now) }
{
    for line in lines {
        write_line(line, writer)?;
    }
    Ok(())
}

fn write_line<W: Write>(line: &Line, writer: &mut W) -> io::Result<()>
    ensures written { OnOk result (Appends (W.contents writer.old) (W.contents writer.new) (written_line line.now)) }
    ensures failed { OnErr result (IsTruncated (W.contents writer.old) (W.contents writer.new) (written_line line.now)) }
    ensures lawful { IsLawful line.now }
{
    let digits = digits_of(&line.digest);
    write_named(&digits, b"  ", &line.name, writer)
}

// The 64 digits of a digest.
fn digits_of(digest: &[u8; 32]) -> [u8; 64]
    ensures digits { result ≡ encode_lower digest.now }
    ensures long { length digest.now ≡ 32 }
    ensures bytes { IsBytes digest.now }
{
    let mut digits = [0; 64];
    hex::encode_to_slice(*digest, &mut digits).unwrap();
    digits
}

/// Writes a line about a name: it begins with a backslash if the name has to be escaped.
pub(crate) fn write_named<'a, W: Write>(
    what: &'a [u8],
    gap: &'a [u8],
    name: &'a Name,
    writer: &mut W,
) -> io::Result<()>
    ensures written { OnOk result (Appends (W.contents writer.old) (W.contents writer.new) (named_text (what.now ++ gap.now) name.now)) }
    ensures failed { OnErr result (IsTruncated (W.contents writer.old) (W.contents writer.new) (named_text (what.now ++ gap.now) name.now)) }
    ensures named { IsName name.now }
{
    let name = name.as_bytes();
    write_slices(writer, &[mark_of(name), what, gap])?;
    write_escaped(name, writer)?;
    write_whole(writer, b"\n")
}

// The backslash at the start of a line whose name is escaped.
fn mark_of(name: &[u8]) -> &[u8]
    ensures { result.now ≡ mark_of name.now }
{
    if needs_escapes(name) { b"\\" } else { b"" }
}

// Whether the name has to be escaped.
fn needs_escapes(name: &[u8]) -> bool
    ensures { result ≡ needs_escapes name.now }
{
    name.iter()
        .any(|&byte| byte == b'\\' || byte == b'\n' || byte == b'\r')
}

// Writes a name: literally if it needs no escapes, otherwise byte by byte.
fn write_escaped<W: Write>(name: &[u8], writer: &mut W) -> io::Result<()>
    ensures written { OnOk result (Appends (W.contents writer.old) (W.contents writer.new) (escaped name.now)) }
    ensures failed { OnErr result (IsTruncated (W.contents writer.old) (W.contents writer.new) (escaped name.now)) }
{
    if needs_escapes(name) {
        write_units(name, writer)
    } else {
        write_whole(writer, name)
    }
}

fn write_units<W: Write>(name: &[u8], writer: &mut W) -> io::Result<()>
    ensures written { OnOk result (Appends (W.contents writer.old) (W.contents writer.new) (escaped name.now)) }
    ensures failed { OnErr result (IsTruncated (W.contents writer.old) (W.contents writer.new) (escaped name.now)) }
{
    for &byte in name {
        write_unit(byte, writer)?;
    }
    Ok(())
}

fn write_unit<W: Write>(byte: u8, writer: &mut W) -> io::Result<()>
    ensures written { OnOk result (Appends (W.contents writer.old) (W.contents writer.new) (unit_of byte)) }
    ensures failed { OnErr result (IsTruncated (W.contents writer.old) (W.contents writer.new) (unit_of byte)) }
{
    match byte {
        b'\\' => write_whole(writer, b"\\\\"),
        b'\n' => write_whole(writer, b"\\n"),
        b'\r' => write_whole(writer, b"\\r"),
        _ => write_whole(writer, &[byte]),
    }
}
