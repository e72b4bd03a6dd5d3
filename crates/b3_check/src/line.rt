//! One line of a check file.

ghost use Rattle.std.specs.Prelude.{◌≡◌, IfOk, IfErr, None, Some};
ghost use Rattle.b3_check.specs.Names.{name_fault};

use crate::name::{Name, RefusedName};

/// The statement of a check line: the file of that name has the digest.
#[derive(Clone, Debug, Drop)]
pub struct Line {
    pub digest: [u8; 32],
    pub name: Name,
}

impl Line {
    /// A digest and a name. Returns the bytes if they are not a name.
    pub fn new(digest: [u8; 32], name: Vec<u8>) -> Result<Line, RefusedName>
        ensures named { IfOk result (λ line. (name_fault name.items ≡ None) × (line ≡ record { digest = digest; name = name.items })) }
        ensures refused { IfErr result (λ refused. (name_fault name.items ≡ Some refused.fault) × (refused.bytes.items ≡ name.items)) }
    {
        let name = Name::new(name)?;
        Ok(Line { digest, name })
    }
}
