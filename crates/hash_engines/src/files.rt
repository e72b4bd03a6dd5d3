//! Files of the file system, by name.

ghost use Rattle.std.specs.Prelude.{◌≡◌, ◌≢◌, ◌↔◌, ℕ, List, Ok, IfErr, IfNone, IfOk, IfSome, OnOk};
ghost use Rattle.std.specs.Io.KnownBytes.{IsAtEnd};
ghost use Rattle.std.specs.IoError.{error_kind};
ghost use Rattle.b3_core.specs.Tree.{tree_top};
ghost use Rattle.b3_parallel.specs.Sources.{known_from};
ghost use Rattle.hash_engines.specs.Files.{IsRootAt, IsRootOf};
ghost use Rattle.hash_engines.specs.Sums.{IsReadFault, IsRootOfFile, IsRootOfLeft, IsRootOfSome, sum_mode};
ghost use Rattle.hash_engines.specs.declared.sources.FileFault.TheVariants.{Failed, NoMemory};
ghost use Rattle.hash_engines.specs.declared.sources.Reason.TheVariants.{IsFolder, Missing, NoPermission, Unreadable};

use crate::ahead::{NamedRoot, hash_groups, is_small, names_of_lines, next_names, root_at_once};
use crate::file_system::{FileSystem, SourceFile};
use crate::sources::{FileFault, Reason, Sources, Standing};
use crate::summing::{SumMode, mode_of};
use crate::system::SystemFile;
use b3_check::{Name, NumberedLine};
use b3_core::{Mode, Runtime, Top, Work};
use b3_parallel::{HashThreads, Source, hash_all, hash_source, thread_count};
use std::io;
use std::io::{ErrorKind, Read, Write};
use std::marker::Model;
use std::rt::HostRuntime;
use std::thread::Threads;

// Hashes files, one at a time.
#[derive(Drop)]
struct FileHasher<'a, T, F> {
    file_system: F,
    threads: &'a HashThreads<'a, T>,
    mode: Mode,
    room: Vec<u8>,
    work: Work,
}

/// Why an open or a read failed.
pub fn fault_of(error: &io::Error) -> FileFault
    ensures memory { (result ≡ NoMemory) ↔ (error_kind error.now ≡ ErrorKind.OutOfMemory) }
    ensures missing { (result ≡ Failed Missing) ↔ (error_kind error.now ≡ ErrorKind.NotFound) }
    ensures folder { (result ≡ Failed IsFolder) ↔ (error_kind error.now ≡ ErrorKind.IsADirectory) }
    ensures permission { (result ≡ Failed NoPermission) ↔ (error_kind error.now ≡ ErrorKind.PermissionDenied) }
    ensures other { error_kind error.now ≢ ErrorKind.OutOfMemory → error_kind error.now ≢ ErrorKind.NotFound → error_kind error.now ≢ ErrorKind.IsADirectory
        → error_kind error.now ≢ ErrorKind.PermissionDenied → result ≡ Failed Unreadable }
{
    match error.kind() {
        ErrorKind::OutOfMemory => FileFault::NoMemory,
        ErrorKind::NotFound => FileFault::Failed(Reason::Missing),
        ErrorKind::IsADirectory => FileFault::Failed(Reason::IsFolder),
        ErrorKind::PermissionDenied => FileFault::Failed(Reason::NoPermission),
        _ => FileFault::Failed(Reason::Unreadable),
    }
}

impl<T: Threads + Runtime, F: FileSystem> FileHasher<'_, T, F> {
    // The root of the bytes of a stream.
    fn stream_root<I: Read>(&mut self, input: &mut I) -> Result<Top, FileFault>
        ensures root { IsRootOfSome self.old.mode result }
        ensures same { (self.new.mode ≡ self.old.mode) × (self.new.file_system ≡ self.old.file_system) }
        ensures end { OnOk result (IsAtEnd (I.remaining input.new)) }
        ensures left { IsRootOfLeft (I.remaining input.old) self.old.mode result }
        ensures read { IfErr result IsReadFault }
    {
        let mode = self.mode;
        match hash_all(self.threads, &mode, input, &mut self.work) {
            Ok(root) => Ok(root),
            Err(error) => Err(fault_of(&error)),
        }
    }

    // Opens the file at a path.
    fn open_file(&self, path: &str) -> Result<F::File, FileFault>
        ensures bytes { IfOk result (λ file. F.File.bytes file ≡ F.bytes_at self.now.file_system path.now) }
        ensures remaining { IfOk result (λ file. F.File.remaining file ≡ F.bytes_at self.now.file_system path.now) }
        ensures read { IfErr result IsReadFault }
    {
        match self.file_system.open(path) {
            Ok(file) => Ok(file),
            Err(error) => Err(fault_of(&error)),
        }
    }

    // The root of all bytes of a source of `len` bytes by threads that read it at any offset, if that is possible.
    fn source_root<S: Source + Send + Drop + 'static>(
        &mut self,
        source: &S,
        len: u64,
    ) -> Option<Top>
        ensures root { IfSome result (IsRootOf (S.bytes source.now) self.old.mode) }
        ensures same { (self.new.mode ≡ self.old.mode) × (self.new.file_system ≡ self.old.file_system) }
    {
        let mode = self.mode;
        hash_source(self.threads, &mode, source, len, &mut self.work)
    }

    // The root of all bytes of a regular file that is not small. Threads read it at any offset if it has at least 16 MiB, each the blocks
    // that it takes; that does not move its position. If it cannot be read in that way, this thread reads it from its start.
    fn large_root(&mut self, file: F::File, len: u64) -> Result<Top, FileFault>
        requires { F.File.remaining file ≡ F.File.bytes file }
        ensures root { IsRootOfSome self.old.mode result }
        ensures same { (self.new.mode ≡ self.old.mode) × (self.new.file_system ≡ self.old.file_system) }
        ensures left { IsRootOfLeft (F.File.bytes file) self.old.mode result }
        ensures read { IfErr result IsReadFault }
    {
        let mut file = file;
        match self.source_root(&file, len) {
            Some(root) => Ok(root),
            None => self.stream_root(&mut file),
        }
    }

    // The root of all bytes of the small file at a path, which is open and has `len` bytes. They are read at once. If that fails, or the
    // file has another length by now, it is opened again, and this thread reads it as a stream.
    fn small_root(&mut self, path: &str, file: F::File, len: u64) -> Result<Top, FileFault>
        requires { F.File.remaining file ≡ F.bytes_at self.old.file_system path.now }
        ensures root { IsRootOfSome self.old.mode result }
        ensures same { (self.new.mode ≡ self.old.mode) × (self.new.file_system ≡ self.old.file_system) }
        ensures left { IsRootOfLeft (F.bytes_at self.old.file_system path.now) self.old.mode result }
        ensures read { IfErr result IsReadFault }
    {
        let (mode, mut file) = (self.mode, file);
        if let Some(root) = root_at_once(&mut file, len, &mode, &mut self.room, &mut self.work) {
            return Ok(root);
        }
        let mut again = self.open_file(path)?;
        self.stream_root(&mut again)
    }

    // The root of all bytes of the file with this name. A file that is not regular is read as a stream, as `sum` reads its input.
    fn file_root(&mut self, name: &[u8]) -> Result<Top, FileFault>
        ensures root { IsRootOfSome self.old.mode result }
        ensures same { (self.new.mode ≡ self.old.mode) × (self.new.file_system ≡ self.old.file_system) }
        ensures left { IsRootOfLeft (F.bytes_at self.old.file_system name.now) self.old.mode result }
        ensures name { IsRootOfFile name.now result }
    {
        let Ok(path) = str::from_utf8(name) else {
            return Err(FileFault::Failed(Reason::NotUtf8));
        };
        let mut file = self.open_file(path)?;
        match file.regular_len() {
            Some(len) if is_small(len) => self.small_root(path, file, len),
            Some(len) => self.large_root(file, len),
            None => self.stream_root(&mut file),
        }
    }

    // The root of all remaining bytes of an input. Then no bytes remain.
    fn input_root<I: Standing<F::File>>(&mut self, input: &mut I) -> Result<Top, FileFault>
        ensures root { IsRootOfSome self.old.mode result }
        ensures same { (self.new.mode ≡ self.old.mode) × (self.new.file_system ≡ self.old.file_system) }
        ensures end { OnOk result (IsAtEnd (I.remaining input.new)) }
        ensures left { IsRootOfLeft (I.remaining input.old) self.old.mode result }
        ensures read { IfErr result IsReadFault }
    {
        match self.standing_root(input) {
            Some(root) => Ok(root),
            None => self.stream_root(input),
        }
    }

    // The root of all remaining bytes of an input, if it is an open file that threads can read at any offset. Then no bytes remain.
    fn standing_root<I: Standing<F::File>>(&mut self, input: &mut I) -> Option<Top>
        ensures root { IfSome result (IsRootOf (I.remaining input.old) self.old.mode) }
        ensures same { (self.new.mode ≡ self.old.mode) × (self.new.file_system ≡ self.old.file_system) }
        ensures end { IfSome result (λ _. IsAtEnd (I.remaining input.new)) }
        ensures none { IfNone result (input.new ≡ input.old) }
    {
        let (source, len) = input.as_source()?;
        let root = self.source_root(&source, len)?;
        input.take_all();
        Some(root)
    }
}

/// The files of a file system. A name is a path, and so is `-` here. In contracts this is the file system, the mode that the files are hashed
/// in, and the number of threads.
///
/// Names that are expected are looked up ahead, 1024 at a time: several threads hash the regular files among them that are not empty and
/// smaller than 1 MiB. No other file is opened before it is asked for, and whatever fails ahead is tried again when it is asked for.
#[derive(Drop)]
pub struct SystemFiles<'a, T, F: FileSystem> {
    hasher: FileHasher<'a, T, F>,
    workers: usize,
    known: Vec<NamedRoot>,
    next: usize,
}

impl<'a, T, F: FileSystem> Model for SystemFiles<'a, T, F> {
    ghost use Rattle.std.specs.Prelude.{All};
    ghost use Rattle.hash_engines.specs.Files.{IsNamedRoot, Setting};

    ghost Value = { Setting F };

    ghost view = { λ f. record { file_system = f.hasher.file_system; mode = f.hasher.mode; threads = f.hasher.threads.now.count } };

    ghost invariant = { λ f. All (IsNamedRoot (F.bytes_at f.hasher.file_system) f.hasher.mode) f.known.items };
}

impl<'a, T: Threads + Runtime, F: FileSystem + Copy + Send + 'static> SystemFiles<'a, T, F> {
    /// The files of a file system, hashed in a mode. At most `threads.count` threads hash a file, and at most as many files at a time.
    pub fn new(
        file_system: F,
        threads: &'a HashThreads<'a, T>,
        mode: SumMode<'_>,
    ) -> SystemFiles<'a, T, F>
        ensures file_system { result.file_system ≡ file_system }
        ensures mode { result.mode ≡ sum_mode mode.entry }
        ensures threads { result.threads ≡ threads.entry.now.count }
    {
        let mut work = Work::new(threads.rt);
        let hasher = FileHasher {
            file_system,
            threads,
            mode: mode_of(mode, &mut work),
            room: Vec::new(threads.alloc),
            work,
        };
        SystemFiles {
            hasher,
            workers: thread_count(threads.rt, threads.count),
            known: Vec::new(threads.alloc),
            next: 0,
        }
    }

    /// The root of all remaining bytes of an input, if it is an open file that several threads can read at any offset: a regular file, with
    /// at least 16 MiB remaining. Then no bytes remain.
    pub fn root_of_file_input<I: Standing<F::File>>(&mut self, input: &mut I) -> Option<Top>
        ensures root { IfSome result (λ top. (bytes : List ℕ) × (top ≡ tree_top bytes 0 self.old.mode)) }
        ensures left { IfSome result (λ top. IsRootOfLeft (I.remaining input.old) self.old.mode (Ok top)) }
        ensures mode { self.new.mode ≡ self.old.mode }
        ensures file_system { self.new.file_system ≡ self.old.file_system }
        ensures end { IfSome result (λ _. IsAtEnd (I.remaining input.new)) }
        ensures none { IfNone result (input.new ≡ input.old) }
    {
        self.hasher.standing_root(input)
    }

    // Whether several names follow, several threads may hash, and nothing that was looked up before remains.
    fn looks_ahead(&self, coming: usize) -> bool {
        1 < coming && 1 < self.workers && self.known.len() <= self.next
    }

    // Hashes files ahead, and replaces what was known by the result.
    fn look_up(&mut self, names: Vec<NamedRoot>)
        ensures { self.new ≡ self.old }
    {
        let size = names.len().div_ceil(self.workers.max(1)).max(1);
        let FileHasher {
            file_system,
            threads,
            mode,
            ..
        } = &self.hasher;
        self.known = hash_groups(threads, file_system, *mode, size, names);
        self.next = 0;
    }

    // Looks the first of these names up ahead.
    fn expect_names(&mut self, names: &[Name])
        ensures { self.new ≡ self.old }
    {
        if !self.looks_ahead(names.len()) {
            return;
        }
        if let Ok(names) = next_names(self.hasher.threads.alloc, names) {
            self.look_up(names);
        }
    }

    // Looks the names in the first of these lines up ahead.
    fn expect_lines(&mut self, lines: &[NumberedLine])
        ensures { self.new ≡ self.old }
    {
        if !self.looks_ahead(lines.len()) {
            return;
        }
        if let Ok(names) = names_of_lines(self.hasher.threads.alloc, lines) {
            self.look_up(names);
        }
    }

    // What is known of the next name, if it is this one. If it is another, everything that is known is dropped.
    fn known_root(&mut self, name: &[u8]) -> Option<Top>
        ensures root { IfSome result (IsRootAt (F.bytes_at self.old.file_system) self.old.mode name.now) }
        ensures same { self.new ≡ self.old }
    {
        match self.known.get(self.next) {
            Some(known) if known.name.as_slice() == name => {
                self.next += 1;
                known.root
            }
            _ => {
                self.known.clear();
                None
            }
        }
    }

    /// The root of all bytes of the file with this name, as it was hashed ahead or as it is now.
    pub fn root_of_file(&mut self, name: &[u8]) -> Result<Top, FileFault>
        ensures root { IsRootOfSome self.old.mode result }
        ensures mode { self.new.mode ≡ self.old.mode }
        ensures file_system { self.new.file_system ≡ self.old.file_system }
        ensures left { IsRootOfLeft (F.bytes_at self.old.file_system name.now) self.old.mode result }
        ensures name { IsRootOfFile name.now result }
    {
        match self.known_root(name) {
            Some(root) => Ok(root),
            None => self.hasher.file_root(name),
        }
    }
}

/// The files of a file system, with an input for the name `-`, and a writer for messages. Without an input, `-` is a file like others.
#[derive(Drop)]
pub struct SystemInputs<'a, T, F: FileSystem, I: Standing<F::File> + Drop, E: Write + Drop> {
    files: SystemFiles<'a, T, F>,
    input: Option<I>,
    reported: E,
}

impl<'a, T, F: FileSystem, I: Standing<F::File> + Drop, E: Write + Drop> SystemInputs<
    'a,
    T,
    F,
    I,
    E,
> {
    /// These files, and this input for the name `-`, if there is one; messages are written to `reported`.
    pub fn new(
        files: SystemFiles<'a, T, F>,
        input: Option<I>,
        reported: E,
    ) -> SystemInputs<'a, T, F, I, E>
        ensures files { result.files ≡ files.entry }
        ensures input { result.input ≡ input }
    {
        SystemInputs {
            files,
            input,
            reported,
        }
    }
}

// Writes the reason in one line, with the literal name.
fn write_reason<E: Write>(name: &[u8], reason: Reason, reported: &mut E) -> io::Result<()> {
    reported.write_all(b"b3store: ")?;
    reported.write_all(name)?;
    reported.write_all(b": ")?;
    reported.write_all(reason.text().as_bytes())?;
    reported.write_all(b"\n")?;
    reported.flush()
}

impl<T: Threads + Runtime, I: Standing<SystemFile> + Drop, E: Write + Drop> Sources
    for SystemInputs<'_, T, HostRuntime, I, E> {
    ghost use Rattle.std.specs.Prelude.{◌≡◌, ◌≢◌, codes};
    ghost use Rattle.hash_engines.specs.Files.{system_bytes};
    ghost use Rattle.hash_engines.specs.Sums.{IsRootOfInput, IsRootOfNamed, IsRootOfSome};

    // For a name other than `-` the input is not read; after a root for `-` it is at its end. No message is written.
    ghost gives = { λ old name answer new. IsRootOfSome old.files.mode answer
        × (name ≢ codes "-" → IsRootOfNamed system_bytes old.files.mode name answer × (new.input ≡ old.input))
        × (name ≡ codes "-" → IsRootOfInput I.remaining old.files.mode (IsRootOfNamed system_bytes old.files.mode name) old.input answer new.input)
        × (new.files.file_system ≡ old.files.file_system) × (new.files.mode ≡ old.files.mode) × (new.reported ≡ old.reported) };

    ghost reports = { λ old name reason new. (new.files ≡ old.files) × (new.input ≡ old.input) };

    fn expect(&mut self, names: &[Name]) {
        self.files.expect_names(names);
    }

    fn expect_lines(&mut self, lines: &[NumberedLine]) {
        self.files.expect_lines(lines);
    }

    fn root_of(&mut self, name: &[u8]) -> Result<Top, FileFault> {
        if name != b"-".as_slice() || self.input.is_none() {
            return self.files.root_of_file(name);
        }
        // It may have been looked up as a path.
        let _ahead = self.files.known_root(name);
        match &mut self.input {
            Some(input) => self.files.hasher.input_root(input),
            None => unreachable!(),
        }
    }

    /// A failed write is ignored.
    fn report(&mut self, name: &[u8], reason: Reason) {
        let _ = write_reason(name, reason, &mut self.reported);
    }
}
