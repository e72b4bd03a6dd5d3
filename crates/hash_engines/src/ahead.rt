//! Files that several threads hash before they are asked for.

ghost use Rattle.std.specs.Prelude.{◌≡◌, ◌<◌, ℕ, All, IfErr, IfOk, IfSome, List, Option};
ghost use Rattle.b3_core.specs.Tree.{ModelMode};
ghost use Rattle.hash_engines.specs.Files.{IsNamedRoot, IsRootAt, IsRootOf};

use crate::file_system::FileSystem;
use b3_check::{Name, NumberedLine};
use b3_core::{Mode, Runtime, Top, Work};
use b3_parallel::HashThreads;
use std::alloc::{AllocError, Global};
use std::io::Read;
use std::thread;
use std::thread::{Promise, PromisedHandle, Threads};

// Files smaller than this many bytes are small.
const LIMIT: u64 = 1 << 20;

// The number of names that are looked up ahead at a time.
const STRETCH: usize = 1024;

/// A name, and the root of its file, if that is known.
#[derive(Drop)]
pub(crate) struct NamedRoot {
    pub(crate) name: Vec<u8>,
    pub(crate) root: Option<Top>,
}

/// Whether a regular file of this length is small and not empty. A file of length 0 may be a special file of the system, and reading it may
/// block.
pub(crate) fn is_small(len: u64) -> bool {
    0 < len && len < LIMIT
}

/// The root of the remaining bytes of an input, if there are `len` of them, which are read at once. `None` if that fails, or there are fewer
/// or more; then some of them may have been read. `room` is memory for the bytes; it grows to fit them.
pub(crate) fn root_at_once<R: Read>(
    input: &mut R,
    len: u64,
    mode: &Mode,
    room: &mut Vec<u8>,
    work: &mut Work,
) -> Option<Top>
    ensures { IfSome result (IsRootOf (R.remaining input.old) mode.now) }
{
    let count = len as usize;
    if room.len() < count {
        room.resize(count, 0).ok()?;
    }
    let bytes = &mut room[..count];
    input.read_exact(bytes).ok()?;
    match input.read(&mut [0]) {
        Ok(0) => Some(Top::of_input(mode, bytes, work)),
        _ => None,
    }
}

// The root of all bytes of a nonempty regular file of less than 1 MiB. `None` for any other file, which is not opened, and if the file
// cannot be read: it is then read when it is asked for, like any other file.
fn small_root<F: FileSystem>(
    file_system: &F,
    mode: &Mode,
    name: &[u8],
    room: &mut Vec<u8>,
    work: &mut Work,
) -> Option<Top>
    ensures { IfSome result (IsRootAt (F.bytes_at file_system.now) mode.now name.now) }
{
    let path = str::from_utf8(name).ok()?;
    let len = file_system.regular_len_at(path)?;
    if !is_small(len) {
        return None;
    }
    root_at_once(&mut file_system.open(path).ok()?, len, mode, room, work)
}

// Hashes the small files among the named ones, one after the other.
fn hash_each<F: FileSystem>(
    file_system: &F,
    alloc: Global,
    mode: &Mode,
    names: &mut [NamedRoot],
    work: &mut Work,
)
    ensures { All (IsNamedRoot (F.bytes_at file_system.now) mode.now) names.new }
{
    let mut room = Vec::new(alloc);
    for i in 0..names.len() {
        hash_known(file_system, mode, &mut names[i], &mut room, work);
    }
}

// Hashes a small file.
fn hash_known<F: FileSystem>(
    file_system: &F,
    mode: &Mode,
    known: &mut NamedRoot,
    room: &mut Vec<u8>,
    work: &mut Work,
)
    ensures { IsNamedRoot (F.bytes_at file_system.now) mode.now known.new }
{
    known.root = small_root(file_system, mode, known.name.as_slice(), room, work);
}

// Hashes the small files among the named ones on this thread.
fn hash_group<F: FileSystem + Copy>(
    file_system: F,
    alloc: Global,
    mode: Mode,
    names: Vec<NamedRoot>,
    work: Work,
) -> Vec<NamedRoot>
    ensures { All (IsNamedRoot (F.bytes_at file_system) mode) result.items }
{
    let mut known = names;
    let mut work = work;
    hash_each(&file_system, alloc, &mode, known.as_mut_slice(), &mut work);
    known
}

// The promise that what is known holds of these files in this mode.
#[derive(Drop)]
struct KnownIn<F> {
    file_system: F,
    mode: Mode,
}

impl<F: FileSystem> Promise<Vec<NamedRoot>> for KnownIn<F> {
    ghost kept_by = { λ p r. All (IsNamedRoot (F.bytes_at p.file_system) p.mode) r.items };
}

type Handle<F> = PromisedHandle<Vec<NamedRoot>, KnownIn<F>>;

// Hashes the small files among the named ones on a new thread, or on this one if none can be started.
fn start<T: Threads + Runtime, F: FileSystem + Copy + Send + 'static>(
    threads: &HashThreads<'_, T>,
    file_system: &F,
    mode: Mode,
    names: Vec<NamedRoot>,
) -> Result<Handle<F>, Vec<NamedRoot>>
    ensures started { IfOk result (λ h. (h.promise.file_system ≡ file_system.now) × (h.promise.mode ≡ mode)) }
    ensures here { IfErr result (λ known. All (IsNamedRoot (F.bytes_at file_system.now) mode) known.items) }
{
    let (file_system, alloc) = (*file_system, threads.alloc);
    let work = Work::new(threads.rt);
    match thread::spawn_with(
        threads.rt,
        KnownIn { file_system, mode },
        move || hash_group(file_system, alloc, mode, names, work),
    ) {
        Ok(handle) => Ok(handle),
        Err(refused) => Err((refused.value)()),
    }
}

// What is known of some names, followed by what is known of others; the others are dropped if an allocation fails.
fn joined(first: Vec<NamedRoot>, others: Vec<NamedRoot>) -> Vec<NamedRoot>
    ensures { (contents : List ℕ → Option (List ℕ)) (mode : ModelMode) → All (IsNamedRoot contents mode) first.items
        → All (IsNamedRoot contents mode) others.items → All (IsNamedRoot contents mode) result.items }
{
    let mut all = first;
    let mut others = others;
    let _ = all.append(&mut others);
    all
}

/// Hashes the small files among the named ones, with a thread for each run of `size` names; this thread hashes the last run. If an
/// allocation fails or a thread cannot be started, fewer threads hash.
pub(crate) fn hash_groups<T: Threads + Runtime, F: FileSystem + Copy + Send + 'static>(
    threads: &HashThreads<'_, T>,
    file_system: &F,
    mode: Mode,
    size: usize,
    names: Vec<NamedRoot>,
) -> Vec<NamedRoot>
    requires { 0 < size }
    ensures { All (IsNamedRoot (F.bytes_at file_system.now) mode) result.items }
{
    let mut mine = names;
    if mine.len() <= size {
        return hash_group(
            *file_system,
            threads.alloc,
            mode,
            mine,
            Work::new(threads.rt),
        );
    }
    let Ok(others) = mine.split_off(size) else {
        return hash_group(
            *file_system,
            threads.alloc,
            mode,
            mine,
            Work::new(threads.rt),
        );
    };
    let started = start(threads, file_system, mode, mine);
    let others = hash_groups(threads, file_system, mode, size, others);
    match started {
        Ok(handle) => joined(handle.join(threads.rt), others),
        Err(known) => joined(known, others),
    }
}

// Adds a name with an unknown root.
fn push_name(known: &mut Vec<NamedRoot>, alloc: Global, name: &[u8]) -> Result<(), AllocError> {
    let name = Vec::from_slice(alloc, name)?;
    known.push(NamedRoot { name, root: None })?;
    Ok(())
}

/// The next names, up to 1024, with unknown roots.
pub(crate) fn next_names(alloc: Global, names: &[Name]) -> Result<Vec<NamedRoot>, AllocError> {
    let mut known = Vec::new(alloc);
    for name in &names[..names.len().min(STRETCH)] {
        push_name(&mut known, alloc, name.as_bytes())?;
    }
    Ok(known)
}

/// The names in the next lines, up to 1024, with unknown roots.
pub(crate) fn names_of_lines(
    alloc: Global,
    lines: &[NumberedLine],
) -> Result<Vec<NamedRoot>, AllocError> {
    let mut known = Vec::new(alloc);
    for line in &lines[..lines.len().min(STRETCH)] {
        if let Ok(line) = &line.line {
            push_name(&mut known, alloc, line.name.as_bytes())?;
        }
    }
    Ok(known)
}
