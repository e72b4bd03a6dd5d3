//! Reading a line.

ghost use Rattle.std.specs.Prelude.{◌≡◌, ◌≤◌, ℕ, List, length, IfOk};
ghost use Rattle.b3_check.specs.Lines.{Gives, IsLine, name_bytes_at, has_two_spaces, line_at, marked_at, rest_at, without_returns};
ghost use Rattle.b3_check.specs.Names.{escape_value, unescaped};

use crate::fault::{Fault, ReadError};
use crate::line::Line;
use bstr::ByteSlice;
use hex::FromHex;
use std::alloc::Global;

// The start of a line that `b3sum --tag` writes.
const TAG: &[u8] = b"BLAKE3 (";

const DIGITS: usize = 64;

// The length of the digits and two spaces.
const BEFORE_NAME: usize = 66;

/// Reads a line of a check file, without its newline.
pub fn read_line(alloc: Global, line: &[u8]) -> Result<Line, ReadError>
    // What is returned is what the line says.
    ensures found { IfOk result (λ read. IsLine line.now read.digest read.name) }
    // What the line says is returned, unless memory runs out.
    ensures only { (digest name : List ℕ) → IsLine line.now digest name → Gives (λ l. l) result (Ok (record { digest = digest; name = name })) }
    // Which fault is returned.
    ensures exact { Gives (λ l. l) result (line_at line.now) }
{
    read_marked(alloc, without_returns(line))
}

/// The line without the carriage returns at its end.
pub(crate) fn without_returns(line: &[u8]) -> &[u8]
    ensures { result.now ≡ without_returns line.now }
{
    match line.rfind_not_byteset(b"\r") {
        Some(last) => &line[..last + 1],
        None => &line[..0],
    }
}

fn read_marked(alloc: Global, line: &[u8]) -> Result<Line, ReadError>
    ensures { Gives (λ l. l) result (marked_at line.now) }
{
    match line {
        [b'\\', rest @ ..] => read_rest(alloc, true, rest),
        _ => read_rest(alloc, false, line),
    }
}

fn read_rest(alloc: Global, is_escaped: bool, rest: &[u8]) -> Result<Line, ReadError>
    ensures { Gives (λ l. l) result (rest_at is_escaped rest.now) }
{
    if rest.starts_with(TAG) {
        return Err(ReadError::Fault(Fault::Tagged));
    }
    if rest.len() < BEFORE_NAME {
        return Err(ReadError::Fault(Fault::Short));
    }
    let (digits, _) = rest.split_at(DIGITS);
    let Ok(digest) = <[u8; 32]>::from_hex(digits) else {
        return Err(ReadError::Fault(Fault::BadHex));
    };
    if !has_two_spaces(rest) {
        return Err(ReadError::Fault(Fault::BadSpaces));
    }
    let name = name_bytes(alloc, is_escaped, &rest[BEFORE_NAME..])?;
    match Line::new(digest, name) {
        Ok(line) => Ok(line),
        Err(refused) => Err(ReadError::Fault(refused.fault)),
    }
}

// Whether two spaces follow the digits.
fn has_two_spaces(rest: &[u8]) -> bool
    requires { 66 ≤ length rest.now }
    ensures { result ≡ has_two_spaces rest.now }
{
    rest[DIGITS] == b' ' && rest[DIGITS + 1] == b' '
}

// The bytes of a name: unescaped in an escaped line, otherwise literal.
fn name_bytes(alloc: Global, is_escaped: bool, text: &[u8]) -> Result<Vec<u8>, ReadError>
    ensures { Gives (λ bytes. bytes.items) result (name_bytes_at is_escaped text.now) }
{
    if is_escaped {
        unescape(alloc, text)
    } else {
        Ok(Vec::from_slice(alloc, text)?)
    }
}

// Unescapes a name.
fn unescape(alloc: Global, units: &[u8]) -> Result<Vec<u8>, ReadError>
    ensures { Gives (λ name. name.items) result (unescaped units.now) }
{
    let mut name = Vec::with_capacity(alloc, units.len())?;
    let mut after_backslash = false;
    for &byte in units {
        if after_backslash {
            let Some(value) = escape_value(byte) else {
                return Err(ReadError::Fault(Fault::BadEscape));
            };
            name.push(value)?;
            after_backslash = false;
        } else if byte == b'\\' {
            after_backslash = true;
        } else {
            name.push(byte)?;
        }
    }
    if after_backslash {
        return Err(ReadError::Fault(Fault::BadEscape));
    }
    Ok(name)
}

// The byte that a backslash followed by `byte` represents.
fn escape_value(byte: u8) -> Option<u8>
    ensures { result ≡ escape_value byte }
{
    match byte {
        b'\\' => Some(b'\\'),
        b'n' => Some(b'\n'),
        b'r' => Some(b'\r'),
        _ => None,
    }
}
