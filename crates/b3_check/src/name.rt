//! The names of check lines.

ghost use Rattle.std.specs.Prelude.{◌≡◌, IfOk, IfErr, None, Some};
ghost use Rattle.b3_check.specs.Faults.{code_of, sentence_of};
ghost use Rattle.b3_check.specs.Names.{IsName, name_fault};

use crate::fault::Fault;
use std::error::Error;
use std::fmt;
use std::marker::Model;

/// The name in a check line: nonempty bytes without a zero byte. In contracts it is the list of its bytes.
#[derive(Clone, Debug, Drop)]
pub struct Name {
    bytes: Vec<u8>,
}

impl Model for Name {
    ghost use Rattle.std.specs.Prelude.{ℕ, List};

    ghost Value = { List ℕ };

    ghost use Rattle.b3_check.specs.Names.{IsName};

    ghost view = { λ n. n.bytes.items };

    ghost invariant = { λ n. IsName n.bytes.items };
}

/// Bytes that are not a name, and why.
#[derive(Debug, Drop)]
pub struct RefusedName {
    pub fault: Fault,
    pub bytes: Vec<u8>,
}

impl RefusedName {
    /// The code of the fault, `C5` or `C7`.
    pub fn code(&self) -> &'static str
        ensures { result.now ≡ code_of self.now.fault }
    {
        self.fault.code()
    }
}

/// The fault's sentence.
impl fmt::Display for RefusedName {
    ghost output = { λ refused. Some (sentence_of refused.fault) };

    fn fmt<W: fmt::Write>(&self, f: &mut fmt::Formatter<W>) -> fmt::Result {
        write!(f, "{}", self.fault)
    }
}

impl Error for RefusedName {}

impl Name {
    /// The bytes as a name. Returns the bytes if they are not a name.
    pub fn new(bytes: Vec<u8>) -> Result<Name, RefusedName>
        ensures named { IfOk result (λ name. (name_fault bytes.items ≡ None) × (name ≡ bytes.items)) }
        ensures refused { IfErr result (λ refused. (name_fault bytes.items ≡ Some refused.fault) × (refused.bytes.items ≡ bytes.items)) }
    {
        if bytes.is_empty() {
            return Err(RefusedName {
                fault: Fault::EmptyName,
                bytes,
            });
        }
        if bytes.contains(&0) {
            return Err(RefusedName {
                fault: Fault::NulInName,
                bytes,
            });
        }
        Ok(Name { bytes })
    }

    /// The bytes of the name.
    pub fn as_bytes(&self) -> &[u8]
        ensures value { result.now ≡ self.now }
        ensures named { IsName result.now }
    {
        self.bytes.as_slice()
    }

    /// The bytes of the name. Allocates nothing.
    pub fn into_bytes(self) -> Vec<u8>
        ensures value { result.items ≡ self }
        ensures named { IsName result.items }
    {
        let Name { bytes } = self;
        bytes
    }
}
