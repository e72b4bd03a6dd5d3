//! How much there is to hash, and how much of it remains.

use crate::standard::StandardInput;
use b3_check::{Name, NumberedLine};
use b3_core::Top;
use hash_engines::{FileFault, Reason, Sources};
use std::fs;
use std::sync::atomic::{AtomicU64, Ordering};

/// The numbers of files and bytes to hash, if they are known, and the number of files that remain.
#[derive(Drop)]
pub(crate) struct Extent {
    is_reported: bool,
    files: AtomicU64,
    left: AtomicU64,
    bytes: AtomicU64,
}

impl Extent {
    /// Nothing is known yet. Sizes are looked up only if progress is shown.
    pub(crate) fn new(is_reported: bool) -> Extent {
        Extent {
            is_reported,
            files: AtomicU64::new(0),
            left: AtomicU64::new(0),
            bytes: AtomicU64::new(0),
        }
    }

    /// Records the number of remaining bytes of standard input, if it is known.
    pub(crate) fn note_input(&self, input: &StandardInput<'_>) {
        if self.is_reported {
            self.note_bytes(input.len_left());
        }
    }

    // Records the number of bytes, if it is known.
    fn note_bytes(&self, bytes: Option<u64>) {
        self.bytes.store(bytes.unwrap_or(0), Ordering::Relaxed);
    }

    // Records the number of files that remain. Returns whether these are all files and their sizes have to be looked up.
    fn note_left(&self, left: usize) -> bool {
        self.left.store(left as u64, Ordering::Relaxed);
        if self.files.load(Ordering::Relaxed) > 0 {
            return false;
        }
        self.files.store(left as u64, Ordering::Relaxed);
        self.is_reported
    }

    /// The number of files that are done, and the number of all files, if there is more than one.
    pub(crate) fn files(&self) -> Option<(u64, u64)> {
        let files = self.files.load(Ordering::Relaxed);
        let left = self.left.load(Ordering::Relaxed);
        if files > 1 {
            Some((files.saturating_sub(left), files))
        } else {
            None
        }
    }

    /// The number of bytes, if it is known.
    pub(crate) fn bytes(&self) -> Option<u64> {
        match self.bytes.load(Ordering::Relaxed) {
            0 => None,
            bytes => Some(bytes),
        }
    }
}

/// Files by name, whose numbers are recorded in an extent.
#[derive(Drop)]
pub(crate) struct Metered<'a, S: Drop> {
    rt: &'a HostRuntime,
    extent: &'a Extent,
    within: S,
}

impl<'a, S: Drop> Metered<'a, S> {
    pub(crate) fn new(rt: &'a HostRuntime, extent: &'a Extent, within: S) -> Metered<'a, S> {
        Metered { rt, extent, within }
    }

    // The sum of `bytes` and the size of the named file, if it is a regular file.
    fn with_file(&self, bytes: u64, name: &Name) -> Option<u64> {
        let path = str::from_utf8(name.as_bytes()).ok()?;
        let found = fs::metadata(self.rt, path).ok()?;
        if found.is_file() {
            bytes.checked_add(found.len())
        } else {
            None
        }
    }

    // The total size of the named files, if all are regular files.
    fn bytes_of(&self, names: &[Name]) -> Option<u64> {
        let mut bytes = 0;
        for name in names {
            bytes = self.with_file(bytes, name)?;
        }
        Some(bytes)
    }

    // The total size of the files that lines without a fault name, if all are regular files.
    fn bytes_of_lines(&self, lines: &[NumberedLine]) -> Option<u64> {
        let mut bytes = 0;
        for line in lines {
            if let Ok(named) = &line.line {
                bytes = self.with_file(bytes, &named.name)?;
            }
        }
        Some(bytes)
    }
}

impl<S: Sources + Drop> Sources for Metered<'_, S> {
    ghost gives = { λ old name answer new. S.gives old.within name answer new.within };

    ghost reports = { λ old name reason new. S.reports old.within name reason new.within };

    fn expect(&mut self, names: &[Name]) {
        if self.extent.note_left(names.len()) {
            self.extent.note_bytes(self.bytes_of(names));
        }
        self.within.expect(names);
    }

    fn expect_lines(&mut self, lines: &[NumberedLine]) {
        if self.extent.note_left(lines.len()) {
            self.extent.note_bytes(self.bytes_of_lines(lines));
        }
        self.within.expect_lines(lines);
    }

    fn root_of(&mut self, name: &[u8]) -> Result<Top, FileFault> {
        self.within.root_of(name)
    }

    fn report(&mut self, name: &[u8], reason: Reason) {
        self.within.report(name, reason);
    }
}
