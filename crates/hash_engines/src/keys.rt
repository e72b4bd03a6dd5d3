//! Reading a key from a file.

ghost use Rattle.std.specs.Prelude.{◌≡◌, ◌≢◌, IfErr, IfOk, IfSome, OnOk};
ghost use Rattle.std.specs.Io.KnownBytes.{IsAtEnd};
ghost use Rattle.hash_engines.specs.Keys.{key_at, without_feed};

use edge::{Cause, read_all, read_cause};
use hex::FromHex;
use std::alloc::Global;
use std::io::Read;

/// The key in the input: 32 raw bytes, or 64 hexadecimal digits of either case, optionally followed by one newline. `None` if it is
/// neither. It stops at the first failed read, or if out of memory.
pub fn read_key<R: Read>(alloc: Global, reader: &mut R) -> Result<Option<[u8; 32]>, Cause>
    ensures key { IfOk result (λ key. IfSome (R.remaining reader.old) (λ text. key ≡ key_at text)) }
    ensures end { OnOk result (IsAtEnd (R.remaining reader.new)) }
    ensures cause { IfErr result (λ cause. cause ≢ Cause.CannotWrite) }
{
    let text = match read_all(alloc, reader) {
        Ok(text) => text,
        Err(error) => return Err(read_cause(&error)),
    };
    Ok(key_of(text.as_slice()))
}

// The key in a text.
fn key_of(text: &[u8]) -> Option<[u8; 32]>
    ensures { result ≡ key_at text.now }
{
    if text.len() == 32 {
        let mut key = [0; 32];
        key.copy_from_slice(text);
        return Some(key);
    }
    match <[u8; 32] as FromHex>::from_hex(without_feed(text)) {
        Ok(key) => Some(key),
        Err(_) => None,
    }
}

// The digits, without the newline that may follow 64 of them.
fn without_feed(text: &[u8]) -> &[u8]
    ensures { result.now ≡ without_feed text.now }
{
    if text.len() != 65 {
        return text;
    }
    if text[64] != b'\n' {
        return text;
    }
    let (digits, _) = text.split_at(64);
    digits
}
