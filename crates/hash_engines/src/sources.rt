//! Sources of the bytes to hash.

ghost use Rattle.std.specs.Prelude.{◌≡◌, ℕ, List, Result, IfSome};
ghost use Rattle.std.specs.Io.KnownBytes.{IsAtEnd};
ghost use Rattle.b3_core.specs.Tree.{ModelTop};
ghost use Rattle.b3_parallel.specs.Sources.{known_from};
ghost use Rattle.hash_engines.specs.Sums.{reason_text};
ghost use Rattle.hash_engines.specs.declared.sources.FileFault.{FileFault as Refusal};
ghost use Rattle.hash_engines.specs.declared.sources.Reason.{Reason as Cause};

use crate::file_system::SourceFile;
use b3_check::{Name, NumberedLine};
use b3_core::Top;
use b3_parallel::Source;
use std::io;
use std::io::{ErrorKind, Read};

/// Why the bytes of a name are not available.
#[derive(Clone, Copy, Debug, PartialEq, Eq)]
pub enum Reason {
    /// There is no such file.
    Missing,
    /// It is a directory.
    IsFolder,
    /// There is no permission.
    NoPermission,
    /// The name is not UTF-8, and the program cannot open such files.
    NotUtf8,
    /// Something else, such as a loop of links, or a failed read.
    Unreadable,
}

impl Reason {
    /// The reason as a message.
    pub fn text(self) -> &'static str
        ensures { result.now ≡ reason_text self }
    {
        match self {
            Reason::Missing => "no such file",
            Reason::IsFolder => "it is a folder",
            Reason::NoPermission => "no permission",
            Reason::NotUtf8 => "the name is not UTF-8",
            Reason::Unreadable => "it can't be read",
        }
    }
}

/// Why there is no root for a name.
#[derive(Clone, Copy, Debug, PartialEq, Eq)]
pub enum FileFault {
    /// Its bytes are not available.
    Failed(Reason),
    /// Out of memory.
    NoMemory,
}

/// Returns the roots of names, such as those of files, and reports why there is none.
pub trait Sources {
    // Whether a call in the state before, with this name, may return this result and leave the state after.
    ghost gives: { Self → List ℕ → Result ModelTop Refusal → Self → Type 0 };

    // Whether a call that reports why there is no root may leave the state after.
    ghost reports: { Self → List ℕ → Cause → Self → Type 0 };

    /// Announces the following names, in their order, so that they can be looked up ahead. It is a hint: no result depends on it, and any
    /// other name may be asked for.
    fn expect(&mut self, _names: &[Name])
        ensures { self.new ≡ self.old }
    {}

    /// Announces the names in the following lines, in the same way.
    fn expect_lines(&mut self, _lines: &[NumberedLine])
        ensures { self.new ≡ self.old }
    {}

    /// The root of all bytes of the file with this name.
    fn root_of(&mut self, name: &[u8]) -> Result<Top, FileFault>
        ensures { gives self.old name.now result self.new };

    /// Reports to the user why there is no root for a name.
    fn report(&mut self, name: &[u8], reason: Reason)
        ensures { reports self.old name.now reason self.new };
}

/// The bytes of a source, starting at an offset.
#[derive(Drop)]
pub struct SourceFrom<S> {
    pub source: S,
    pub start: u64,
}

impl<S: Source> Source for SourceFrom<S> {
    ghost bytes = { λ f. known_from (S.bytes f.source) f.start };

    fn again(&self) -> io::Result<SourceFrom<S>> {
        Ok(SourceFrom {
            source: self.source.again()?,
            start: self.start,
        })
    }

    fn read_at(&self, buf: &mut [u8], start: u64) -> io::Result<usize> {
        match self.start.checked_add(start) {
            Some(place) => self.source.read_at(buf, place),
            None => Err(io::Error::from(ErrorKind::FileTooLarge)),
        }
    }
}

/// An input that may be an open file, such as standard input redirected from a file.
pub trait Standing<F: SourceFile>: Read {
    /// The file, opened for reading, and the current position of the input in it.
    fn as_file(&self) -> Option<(F, u64)>
        ensures { IfSome result (λ opened. Self.remaining self.now ≡ known_from (F.bytes opened.0) opened.1) };

    /// Consumes all bytes of the file from that position on: the input returns none of them any more.
    fn take_all(&mut self)
        ensures { IsAtEnd (Self.remaining self.new) };

    /// The remaining bytes and their number, if the input is an open regular file.
    fn as_source(&self) -> Option<(SourceFrom<F>, u64)>
    where
        F: Sized + Drop,
        ensures { IfSome result (λ found. known_from (F.bytes found.0.source) found.0.start ≡ Self.remaining self.now) }
    {
        let (source, start) = self.as_file()?;
        let len = source.regular_len()?.saturating_sub(start);
        Some((SourceFrom { source, start }, len))
    }
}
