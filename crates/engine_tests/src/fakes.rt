//! A reader and a writer that process one byte per call and may be interrupted, names without files, and sources that record the calls.

use b3_check::{Name, NameFault, Names};
use b3_core::Top;
use hash_engines::{FileFault, Reason, Sources};
use std::alloc::Global;
use std::io;
use std::io::{ErrorKind, Read, Write};
use std::marker::Model;

/// Returns one byte per call. With `is_interrupted` it returns `Interrupted` before each byte and before the end.
#[derive(Drop)]
pub struct ByteReader<'a> {
    pub bytes: &'a [u8],
    pub is_interrupted: bool,
    pub gives_next: bool,
}

impl<'a> ByteReader<'a> {
    pub fn new(bytes: &'a [u8], is_interrupted: bool) -> ByteReader<'a> {
        ByteReader {
            bytes,
            is_interrupted,
            gives_next: false,
        }
    }
}

impl Read for ByteReader<'_> {
    fn read(&mut self, buf: &mut [u8]) -> io::Result<usize> {
        self.gives_next = !self.gives_next;
        if self.is_interrupted && self.gives_next {
            return Err(io::Error::from(ErrorKind::Interrupted));
        }
        if buf.is_empty() || self.bytes.is_empty() {
            return Ok(0);
        }
        buf[0] = self.bytes[0];
        self.bytes = &self.bytes[1..];
        Ok(1)
    }
}

/// Accepts one byte per write. The call with the number `fails_at`, from 0, a write or a flush, and all later ones fail. With
/// `is_interrupted` it returns `Interrupted` before it accepts a byte.
#[derive(Drop)]
pub struct ByteWriter {
    pub taken: Vec<u8>,
    pub calls: u64,
    pub fails_at: u64,
    pub failed: u64,
    pub is_interrupted: bool,
    pub takes_next: bool,
}

impl ByteWriter {
    pub fn new(alloc: Global, fails_at: u64) -> ByteWriter {
        ByteWriter {
            taken: Vec::new(alloc),
            calls: 0,
            fails_at,
            failed: 0,
            is_interrupted: false,
            takes_next: false,
        }
    }

    /// Whether a call failed, no call came after it, and what was accepted is a prefix of a text.
    pub fn has_stopped_in(&self, text: &[u8]) -> bool {
        self.calls == self.fails_at && self.failed == 1 && text.starts_with(self.taken.as_slice())
    }

    // Counts a call, and returns the error from call `fails_at` on.
    fn count(&mut self) -> io::Result<()> {
        if self.calls >= self.fails_at {
            self.failed = self.failed.saturating_add(1);
            return Err(io::Error::from(ErrorKind::Other));
        }
        self.calls += 1;
        Ok(())
    }
}

impl Write for ByteWriter {
    fn write(&mut self, buf: &[u8]) -> io::Result<usize> {
        self.count()?;
        self.takes_next = !self.takes_next;
        if self.is_interrupted && self.takes_next {
            return Err(io::Error::from(ErrorKind::Interrupted));
        }
        if buf.is_empty() {
            return Ok(0);
        }
        self.taken.push(buf[0])?;
        Ok(1)
    }

    fn flush(&mut self) -> io::Result<()> {
        self.count()
    }
}

/// Names without files, or without memory for a lookup.
#[derive(Drop)]
pub struct NoNames {
    pub has_memory: bool,
    pub calls: u64,
}

impl NoNames {
    pub fn new(has_memory: bool) -> NoNames {
        NoNames {
            has_memory,
            calls: 0,
        }
    }
}

impl Names for NoNames {
    ghost gives = { λ _ _ _ _. Unit {0} };

    fn digest_of(&mut self, _name: &[u8]) -> Result<Option<[u8; 32]>, NameFault> {
        self.calls = self.calls.saturating_add(1);
        if self.has_memory {
            Ok(None)
        } else {
            Err(NameFault::NoMemory)
        }
    }
}

/// Sources that all have this root, or that are all missing. They record the calls: for each hint its names, each after a space, and a
/// semicolon; for each lookup the name and a question mark. Contracts do not see the record.
#[derive(Drop)]
pub struct HintedSources {
    root: Option<Top>,
    asked: Vec<u8>,
}

impl Model for HintedSources {
    ghost use Rattle.std.specs.Prelude.{ℕ};

    ghost Value = { ℕ };

    ghost view = { λ _. 0 };
}

impl HintedSources {
    pub fn new(alloc: Global, root: Option<Top>) -> HintedSources {
        HintedSources {
            root,
            asked: Vec::new(alloc),
        }
    }

    /// Whether these were the calls.
    pub fn was_asked(&self, calls: &[u8]) -> bool {
        self.asked.as_slice() == calls
    }
}

impl Sources for HintedSources {
    ghost gives = { λ _ _ _ _. Unit {0} };

    ghost reports = { λ _ _ _ _. Unit {0} };

    fn expect(&mut self, names: &[Name]) {
        for name in names {
            let _ = self.asked.push(b' ');
            let _ = self.asked.extend_from_slice(name.as_bytes());
        }
        let _ = self.asked.push(b';');
    }

    fn root_of(&mut self, name: &[u8]) -> Result<Top, FileFault> {
        let _ = self.asked.extend_from_slice(name);
        let _ = self.asked.push(b'?');
        match self.root {
            Some(root) => Ok(root),
            None => Err(FileFault::Failed(Reason::Missing)),
        }
    }

    fn report(&mut self, _name: &[u8], _reason: Reason) {}
}
