//! Reading names from a list.

ghost use Rattle.std.specs.Prelude.{◌≡◌, ◌≢◌, ◌++◌, ℕ, All, List, [], Option, Ok, None, true, false, IfErr, IfOk, IfSome, OnOk, map, option_map};
ghost use Rattle.std.specs.Io.KnownBytes.{IsAtEnd};
ghost use Rattle.b3_check.specs.Names.{IsName};
ghost use Rattle.hash_engines.specs.Lists.{name_in_front, end_of, names_at, names_from};

use b3_check::{Fault, Name};
use edge::{Cause, read_all, read_cause};
use std::alloc::{AllocError, Global};
use std::io::Read;

/// The names in the input, each ending with a newline, or with a zero byte if `has_nuls`; the last may lack it. Empty names are skipped.
/// `None` if a name contains a zero byte. It stops at the first failed read, or if out of memory.
pub fn read_names<R: Read>(
    alloc: Global,
    reader: &mut R,
    has_nuls: bool,
) -> Result<Option<Vec<Name>>, Cause>
    ensures names { IfOk result (λ names. IfSome (R.remaining reader.old) (λ text. option_map (λ v. v.items) names ≡ names_at has_nuls text)) }
    ensures end { OnOk result (IsAtEnd (R.remaining reader.new)) }
    ensures cause { IfErr result (λ cause. cause ≢ Cause.CannotWrite) }
{
    let text = match read_all(alloc, reader) {
        Ok(text) => text,
        Err(error) => return Err(read_cause(&error)),
    };
    let end = if has_nuls { 0 } else { b'\n' };
    Ok(names_in(alloc, end, text.as_slice())?)
}

/// The arguments as names.
pub fn names_of(alloc: Global, words: &[&str]) -> Result<Vec<Name>, AllocError>
    requires { All (λ word. IsName word.now) words.now }
    ensures { IfOk result (λ names. names.items ≡ map (λ word. word.now) words.now) }
{
    let mut names = Vec::new(alloc);
    for word in words {
        let bytes = Vec::from_slice(alloc, word.as_bytes())?;
        names.push(Name::new(bytes).unwrap())?;
    }
    Ok(names)
}

// The names that end with this byte.
fn names_in(alloc: Global, end: u8, text: &[u8]) -> Result<Option<Vec<Name>>, AllocError>
    ensures { IfOk result (λ names. option_map (λ v. v.items) names ≡ names_from end [] text.now) }
{
    let mut names = Vec::new(alloc);
    let mut front = Vec::new(alloc);
    for &byte in text {
        if byte == end {
            let name = front;
            front = Vec::new(alloc);
            if !push_name(&mut names, name)? {
                return Ok(None);
            }
        } else {
            front.push(byte)?;
        }
    }
    if push_name(&mut names, front)? {
        Ok(Some(names))
    } else {
        Ok(None)
    }
}

// Adds a name, unless it is empty. Returns `false` if it contains a zero byte.
fn push_name(names: &mut Vec<Name>, bytes: Vec<u8>) -> Result<bool, AllocError>
    ensures good { result ≡ Ok true → (rest : Option (List (List ℕ))) → option_map (λ r. names.old.items ++ r) (name_in_front bytes.items rest) ≡ option_map (λ r. names.new.items ++ r) rest }
    ensures bad { result ≡ Ok false → (rest : Option (List (List ℕ))) → name_in_front bytes.items rest ≡ None }
{
    match Name::new(bytes) {
        Ok(name) => {
            names.push(name)?;
            Ok(true)
        }
        Err(refused) => Ok(refused.fault == Fault::EmptyName),
    }
}
