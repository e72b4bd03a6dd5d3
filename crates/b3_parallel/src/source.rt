//! Bytes that can be read at any offset.

ghost use Rattle.std.specs.Prelude.{◌≡◌, ◌+◌, ◌<◌, ℕ, List, Option, IfOk, length, take};
ghost use Rattle.std.specs.Io.{ReadsAtMost};
ghost use Rattle.std.specs.Io.KnownBytes.{Consumes, IsAtEnd};
ghost use Rattle.b3_parallel.specs.Sources.{known_from};

use std::io;
use std::io::{Error, ErrorKind, Read};

/// Bytes that several threads read, each at its own offsets, such as those of an open file.
pub trait Source {
    /// The bytes, if they are known.
    ghost bytes: { Self → Option (List ℕ) };

    /// The same source, for another thread.
    ///
    /// The error is the system's, for example too many open files.
    fn again(&self) -> io::Result<Self>
    where
        Self: Sized,
        ensures { IfOk result (λ other. bytes other ≡ bytes self.now) };

    /// Reads once, at most as many bytes as fit the buffer, starting at the byte at `start`, counted from 0. It reads 0 bytes only if there
    /// are none at `start` or the buffer is empty.
    ///
    /// The error is the system's, for example if the source cannot be read at an offset.
    fn read_at(&self, buf: &mut [u8], start: u64) -> io::Result<usize>
        ensures bound { ReadsAtMost result buf.new }
        ensures bytes { IfOk result (λ n. Consumes (known_from (bytes self.now) start) (known_from (bytes self.now) (start + n)) (take n buf.new)) }
        ensures end { IfOk result (λ n. n ≡ 0 → 0 < length buf.new → IsAtEnd (known_from (bytes self.now) start)) };
}

/// A reader of a source, starting at an offset.
#[derive(Drop)]
pub(crate) struct Places<'a, S> {
    source: &'a S,
    place: u64,
}

impl<'a, S: Source> Places<'a, S> {
    /// A reader starting at the byte at `place`.
    pub(crate) fn new(source: &'a S, place: u64) -> Places<'a, S>
        ensures source { result.source.now ≡ source.now }
        ensures place { result.place ≡ place }
    {
        Places { source, place }
    }
}

impl<S: Source> Read for Places<'_, S> {
    ghost remaining = { λ s. known_from (S.bytes s.source.now) s.place };

    fn read(&mut self, buf: &mut [u8]) -> io::Result<usize> {
        let count = match self.source.read_at(buf, self.place) {
            Ok(count) => count,
            Err(error) => return Err(error),
        };
        match self.place.checked_add(count as u64) {
            Some(place) => {
                self.place = place;
                Ok(count)
            }
            None => Err(Error::from(ErrorKind::FileTooLarge)),
        }
    }
}
