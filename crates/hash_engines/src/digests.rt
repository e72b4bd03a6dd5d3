//! The digests that `check` compares, from sources.

ghost use Rattle.std.specs.Prelude.{◌≡◌};

use crate::sources::{FileFault, Reason, Sources};
use b3_check::{NameFault, Names, NumberedLine};
use b3_core::Work;

/// The digests of names, by the roots that sources return for them. Why a name cannot be read is reported to the sources.
#[derive(Drop)]
pub struct Digests<S: Sources + Drop> {
    sources: S,
    work: Work,
}

impl<S: Sources + Drop> Digests<S> {
    /// The digests by these sources; the compressions for roots are counted in `work`, which is dropped with them.
    pub fn new(sources: S, work: Work) -> Digests<S>
        ensures { result.sources ≡ sources }
    {
        Digests { sources, work }
    }
}

impl<S: Sources + Drop> Names for Digests<S> {
    ghost use Rattle.hash_engines.specs.Checks.{IsDigestBy};

    ghost gives = { λ old name answer new. IsDigestBy S.gives S.reports old.sources name answer new.sources };

    fn expect(&mut self, lines: &[NumberedLine]) {
        self.sources.expect_lines(lines);
    }

    /// The hash of all bytes of the name. If the sources report that there is no such file, the result is `None`; any other failure is
    /// `Unreadable`.
    fn digest_of(&mut self, name: &[u8]) -> Result<Option<[u8; 32]>, NameFault> {
        match self.sources.root_of(name) {
            Ok(root) => Ok(Some(root.root32(&mut self.work))),
            Err(FileFault::NoMemory) => Err(NameFault::NoMemory),
            Err(FileFault::Failed(Reason::Missing)) => Ok(None),
            Err(FileFault::Failed(reason)) => {
                self.sources.report(name, reason);
                Err(NameFault::Unreadable)
            }
        }
    }
}
