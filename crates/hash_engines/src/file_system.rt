//! Files that are opened by their paths.

ghost use Rattle.std.specs.Prelude.{◌≡◌, ℕ, IfOk, List, Option};

use b3_parallel::Source;
use std::io;
use std::io::Read;

/// A file that is open for reading, as a stream and at any offset.
pub trait SourceFile: Read + Source {
    /// The length of a regular file, as the system reports it. `None` for any other file.
    fn regular_len(&self) -> Option<u64>;
}

/// Opens files by their paths.
pub trait FileSystem {
    /// An open file.
    type File: SourceFile + Drop + Send + 'static;

    /// The bytes of the file at a path, if they are known.
    ghost bytes_at: { Self → List ℕ → Option (List ℕ) };

    /// The length of the regular file at a path, as the system reports it. `None` for any other file. The file is not opened.
    fn regular_len_at(&self, path: &str) -> Option<u64>;

    /// Opens the file at a path for reading, from its start.
    fn open(&self, path: &str) -> io::Result<Self::File>
        ensures bytes { IfOk result (λ file. Self.File.bytes file ≡ bytes_at self.now path.now) }
        ensures remaining { IfOk result (λ file. Self.File.remaining file ≡ bytes_at self.now path.now) };
}
