//! The system's own files. Contracts say nothing of their bytes.

ghost use Rattle.std.specs.Prelude.{None};

use crate::file_system::{FileSystem, SourceFile};
use b3_parallel::Source;
use std::fs::{File, Metadata};
use std::io::Read;
use std::os::unix::fs::FileExt;
use std::rt::HostRuntime;
use std::{fs, io};

/// An open file of the system. Reads at an offset do not move its position.
#[derive(Drop)]
pub struct SystemFile {
    file: File,
}

impl Read for SystemFile {
    fn read(&mut self, buf: &mut [u8]) -> io::Result<usize> {
        self.file.read(buf)
    }
}

impl Source for SystemFile {
    ghost bytes = { λ _. None };

    fn again(&self) -> io::Result<SystemFile> {
        let file = self.file.try_clone()?;
        Ok(SystemFile { file })
    }

    fn read_at(&self, buf: &mut [u8], start: u64) -> io::Result<usize> {
        self.file.read_at(buf, start)
    }
}

impl SourceFile for SystemFile {
    fn regular_len(&self) -> Option<u64> {
        len_in(self.file.metadata())
    }
}

impl FileSystem for HostRuntime {
    type File = SystemFile;

    ghost use Rattle.hash_engines.specs.Files.{system_bytes};

    ghost bytes_at = { λ _ path. system_bytes path };

    fn regular_len_at(&self, path: &str) -> Option<u64> {
        len_in(fs::metadata(self, path))
    }

    fn open(&self, path: &str) -> io::Result<SystemFile> {
        let file = File::open(self, path)?;
        Ok(SystemFile { file })
    }
}

// The length of a regular file, from what the system reports about it.
fn len_in(found: io::Result<Metadata>) -> Option<u64> {
    match found {
        Ok(found) if found.is_file() => Some(found.len()),
        _ => None,
    }
}
