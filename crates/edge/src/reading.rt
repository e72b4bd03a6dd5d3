//! Reading an input.

ghost use Rattle.std.specs.Prelude.{◌≡◌, ◌≢◌, ◌↔◌, IfSome, OnOk, IfOk};
ghost use Rattle.std.specs.Io.KnownBytes.{IsAtEnd};
ghost use Rattle.std.specs.IoError.{error_kind};

use crate::outcome::Cause;
use std::alloc::Global;
use std::io::{self, Error, ErrorKind, Read};

/// Why a read failed.
pub fn read_cause(error: &Error) -> Cause
    ensures memory { (result ≡ Cause.OutOfMemory) ↔ (error_kind error.now ≡ ErrorKind.OutOfMemory) }
    ensures cause { result ≢ Cause.CannotWrite }
{
    if error.kind() == ErrorKind::OutOfMemory {
        Cause::OutOfMemory
    } else {
        Cause::CannotRead
    }
}

/// All bytes that the reader has left, or its error.
pub fn read_all<R: Read>(alloc: Global, reader: &mut R) -> io::Result<Vec<u8>>
    ensures bytes { IfOk result (λ input. IfSome (R.remaining reader.old) (λ left. input.items ≡ left)) }
    ensures end { OnOk result (IsAtEnd (R.remaining reader.new)) }
{
    let mut input: Vec<u8> = Vec::new(alloc);
    reader.read_to_end(&mut input)?;
    Ok(input)
}
