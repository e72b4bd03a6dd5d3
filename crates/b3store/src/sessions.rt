//! Clients of one store. Without a door, that is the one of standard input and output. Each client of a door writes its number to the door,
//! a named pipe, and has two named pipes of its own: the server reads its lines from one and writes the answers to the other. Standard
//! input and output are a session too; the program exits when that ends. A session aborts at its end the uploads that it began itself and
//! that are open still, unless these are kept.

ghost use Rattle.std.specs.Prelude.{◌≡◌, ◌<◌};
ghost use Rattle.store_command_line.specs.CommandLine.{max_sessions};
ghost use Rattle.store_command_line.specs.Ranges.{IsDoorInRange, IsWithin};
ghost use Rattle.store_ledger.specs.Shares.{all_parts};
ghost use Rattle.store_shared.specs.Made.{full_limits};

use crate::logs::{Log, run_log};
use crate::replies::serve_streams;
use crate::reporting::{misused, status, unopened};
use crate::standard::{ProgressLine, StandardError};
use edge::{Cause, Verdict, number, read_line};
use std::alloc::{AllocError, Global};
use std::fs::{File, OpenOptions};
use std::io::{BufReader, ErrorKind};
use std::marker::Brand;
use std::os::unix::fs::FileTypeExt;
use std::sync::{Arc, Mutex, Wait};
use std::thread::Threads;
use std::{fs, io, thread};
use store_command_line::{DoorOptions, ServeOptions};
use store_core::{Limits, Store};
use store_engines::SharedAccess;
use store_ledger::{Ledgers, Share};
use store_lines::{Access, UploadsAtEnd};
use store_shared::{Front, Shared, UnnamedLedgers};

// The maximum length in bytes of a line with a number: 20 digits and a newline.
const MAX_NUMBER_LINE: usize = 21;

// The named pipe for new clients, and room for a line of it.
#[derive(Drop)]
struct Door {
    numbers: BufReader<File>,
    line: Vec<u8>,
}

impl Door {
    // Opens the door for reading and writing, so that it is not at its end after a client has closed it.
    fn open(rt: &HostRuntime, path: &str) -> io::Result<Door> {
        let file = OpenOptions::new().read(true).write(true).open(rt, path)?;
        Ok(Door {
            numbers: BufReader::new(rt.alloc(), file)?,
            line: Vec::with_capacity(rt.alloc(), MAX_NUMBER_LINE)?,
        })
    }

    // Waits for the next line, and returns its number, or `None` if it is not a number.
    fn next_number(&mut self) -> Result<Option<u64>, Cause> {
        let read = read_line(&mut self.numbers, &mut self.line, MAX_NUMBER_LINE)?;
        if read.count == 0 {
            return Err(Cause::CannotRead);
        }
        if read.count > MAX_NUMBER_LINE {
            return Ok(None);
        }
        match self.line.as_slice().strip_suffix(b"\n") {
            Some(digits) => Ok(number(digits)),
            None => Ok(None),
        }
    }
}

// What the threads of a server share.
#[derive(Drop)]
struct Server<L: Ledgers> {
    store: Shared<L>,
    path: String,
    at_end: UploadsAtEnd,
    door: Mutex<Door>,
}

// Opens a named pipe for reading without waiting for a writer. If there is no writer any more, its input is at its end.
fn open_input(rt: &HostRuntime, path: &str) -> io::Result<File> {
    let _writer = OpenOptions::new().read(true).write(true).open(rt, path)?;
    File::open(rt, path)
}

// Opens a named pipe for writing without waiting for a reader. If there is no reader any more, writes fail.
fn open_output(rt: &HostRuntime, path: &str) -> io::Result<File> {
    let _reader = OpenOptions::new().read(true).write(true).open(rt, path)?;
    OpenOptions::new().write(true).open(rt, path)
}

// Serves a client until its input ends, or an answer cannot be written. An error means that the session could not begin.
fn serve_files<A: Access>(
    rt: &HostRuntime,
    access: &mut A,
    at_end: UploadsAtEnd,
    input: File,
    output: File,
) -> io::Result<()> {
    match serve_streams(rt, access, at_end, input, output) {
        Err(Cause::OutOfMemory) => Err(ErrorKind::OutOfMemory.into()),
        _ => Ok(()),
    }
}

// The path of one of the two pipes of a client.
fn pipe_path(alloc: Global, path: &str, number: u64, end: &str) -> Result<String, AllocError> {
    format!(in alloc; "{path}.{number}.{end}")
}

// Serves the client whose pipes have these paths. A failure is reported with the path.
fn serve_pipes<A: Access>(
    errors: StandardError<'_>,
    access: &mut A,
    at_end: UploadsAtEnd,
    input_path: &str,
    output_path: &str,
) -> io::Result<()> {
    let rt = errors.runtime();
    let input = match open_input(rt, input_path) {
        Ok(input) => input,
        Err(error) => {
            let _status = unopened(errors, input_path, &error);
            return Ok(());
        }
    };
    match open_output(rt, output_path) {
        Ok(output) => serve_files(rt, access, at_end, input, output),
        Err(error) => {
            let _status = unopened(errors, output_path, &error);
            Ok(())
        }
    }
}

// Serves the client of this number.
fn serve_client<A: Access>(
    errors: StandardError<'_>,
    access: &mut A,
    at_end: UploadsAtEnd,
    path: &str,
    number: u64,
) -> io::Result<()> {
    let alloc = errors.runtime().alloc();
    let input_path = pipe_path(alloc, path, number, "in")?;
    let output_path = pipe_path(alloc, path, number, "out")?;
    serve_pipes(
        errors,
        access,
        at_end,
        input_path.as_str(),
        output_path.as_str(),
    )
}

// Serves the client whose number was read at the door. Failures are reported. Returns false if the door cannot be read.
fn serve_next<A: Access>(
    errors: StandardError<'_>,
    access: &mut A,
    at_end: UploadsAtEnd,
    path: &str,
    next: Result<Option<u64>, Cause>,
) -> bool {
    match next {
        Ok(Some(number)) => {
            if serve_client(errors, access, at_end, path, number).is_err() {
                let _ = eprintln!(errors.cleared();
                    "b3store: {path}: out of memory for client {number}"
                );
            }
            true
        }
        Ok(None) => {
            let _ = eprintln!(errors.cleared(); "b3store: {path}: a line is not a client's number");
            true
        }
        Err(cause) => {
            let _ = eprintln!(errors.cleared(); "b3store: {path}: {cause}");
            false
        }
    }
}

// Serves clients, one after the other, for as long as the door can be read.
fn serve_clients<L: Ledgers, T: Wait>(
    rt: HostRuntime,
    threads: &T,
    server: &Server<L>,
    share: Share<L>,
    front: Front<L>,
) {
    let progress = ProgressLine::new();
    let errors = StandardError::new(&rt, &progress);
    let path = server.path.as_str();
    let mut access = SharedAccess::new(threads, &server.store, share, front);
    for _ in threads.forever() {
        let next = server.door.lock(threads).next_number();
        if !serve_next(errors, &mut access, server.at_end, path, next) {
            return;
        }
    }
}

// Starts a thread that serves clients. It is not joined: it ends with the program.
fn start<L: Ledgers + Send + Sync + 'static, T: Threads + Wait + Copy + Send + 'static>(
    rt: HostRuntime,
    threads: T,
    server: Arc<Server<L>>,
    share: Share<L>,
    front: Front<L>,
) -> Result<(), AllocError> {
    let job = move || serve_clients(rt, &threads, &*server, share, front);
    let _detached = thread::spawn(&threads, job)?;
    Ok(())
}

// Starts a thread for each of `sessions` clients at a time. Each has a part of the share.
fn start_all<L: Ledgers + Send + Sync + 'static, T: Threads + Wait + Copy + Send + 'static>(
    rt: HostRuntime,
    threads: T,
    server: &Arc<Server<L>>,
    share: Share<L>,
    sessions: u32,
) -> Result<(), AllocError>
    requires { sessions < share.parts }
{
    let mut share = share;
    'sessions: for _i in 0..sessions {
        let own = share.split(1);
        let front = server.store.lock(&threads).front();
        start(rt, threads, Arc::try_clone(server)?, own, front)?;
    }
    Ok(())
}

// What a session does at its end with the uploads that it began itself.
fn at_end(options: &DoorOptions<'_>) -> UploadsAtEnd {
    if options.keep_uploads {
        UploadsAtEnd::Kept
    } else {
        UploadsAtEnd::Aborted
    }
}

// Serves the clients of a door, and those of standard input and output, until the latter end; before them, the log is run.
fn serve_all<L: Ledgers + Send + Sync + 'static, T: Threads + Wait + Copy + Send + 'static>(
    rt: HostRuntime,
    threads: T,
    door: Door,
    options: &DoorOptions<'_>,
    log: Option<Log<'_>>,
    ledgers: UnnamedLedgers,
) -> Result<Verdict, Cause>
    requires bytes { (ledgers.bytes.name ≡ L.bytes_name) × (ledgers.bytes.parts ≡ L.bytes_parts) × (ledgers.bytes.parts ≡ all_parts) }
    requires calls { (ledgers.calls.name ≡ L.calls_name) × (ledgers.calls.parts ≡ L.calls_parts) × (ledgers.calls.parts ≡ all_parts) }
    requires history { ledgers.history ≡ L.history }
    requires limits { L.limits ≡ full_limits }
    requires sessions { IsWithin max_sessions options.now.sessions }
{
    let alloc: Global = rt.alloc();
    let (store, mut share) = Shared::<L>::new(alloc, Limits::full(), ledgers);
    let own = share.split(1);
    let server = Server {
        store,
        path: String::from_str(alloc, options.path)?,
        at_end: at_end(options),
        door: Mutex::new(door),
    };
    let Ok(server) = Arc::new(alloc, server) else {
        return Err(Cause::OutOfMemory);
    };
    let front = server.store.lock(&threads).front();
    let mut access = SharedAccess::new(&threads, &server.store, own, front);
    let progress = ProgressLine::new();
    let errors = StandardError::new(&rt, &progress);
    if run_log(errors, &mut access, log)? == Verdict::Refused {
        return Ok(Verdict::Refused);
    }
    start_all(rt, threads, &server, share, options.sessions)?;
    serve_streams(&rt, &mut access, server.at_end, rt.stdin(), io::writer(&rt))
}

// Serves the clients of a door, with names for the ledgers and the history of their store.
fn serve_named<T: Threads + Wait + Copy + Send + 'static>(
    rt: HostRuntime,
    threads: T,
    door: Door,
    options: &DoorOptions<'_>,
    log: Option<Log<'_>>,
) -> Result<Verdict, Cause>
    requires { IsWithin max_sessions options.now.sessions }
{
    let ledgers = UnnamedLedgers::new(rt.alloc())?;
    serve_all::<Brand, _>(rt, threads, door, options, log, ledgers)
}

// Serves a session over standard input and output, on a store that no other client has.
fn serve_alone(errors: StandardError<'_>, log: Option<Log<'_>>) -> Result<Verdict, Cause> {
    let rt = errors.runtime();
    let mut store = Store::new(rt.alloc(), Limits::full());
    if run_log(errors, &mut store, log)? == Verdict::Refused {
        return Ok(Verdict::Refused);
    }
    serve_streams(
        rt,
        &mut store,
        UploadsAtEnd::Kept,
        rt.stdin(),
        io::writer(rt),
    )
}

// Whether a path is that of a named pipe, according to the system.
fn is_pipe(rt: &HostRuntime, path: &str) -> bool {
    match fs::metadata(rt, path) {
        Ok(found) => found.file_type().is_fifo(),
        Err(_) => true,
    }
}

// Serves many clients, and returns the exit status.
fn door_status<T: Threads + Wait + Copy + Send + 'static>(
    errors: StandardError<'_>,
    threads: &T,
    options: &DoorOptions<'_>,
    log: Option<Log<'_>>,
) -> u8
    requires { IsWithin max_sessions options.now.sessions }
{
    let rt = errors.runtime();
    if !is_pipe(rt, options.path) {
        return misused(
            errors,
            "--at takes a named pipe, which mkfifo makes; see b3store serve --help",
        );
    }
    match Door::open(rt, options.path) {
        Ok(door) => status(errors, serve_named(*rt, *threads, door, options, log)),
        Err(error) => unopened(errors, options.path, &error),
    }
}

/// Keeps a store for one client or many, and returns the exit status.
pub(crate) fn serve_status<T: Threads + Wait + Copy + Send + 'static>(
    errors: StandardError<'_>,
    threads: &T,
    options: &ServeOptions<'_>,
) -> u8
    requires { IsDoorInRange options.now.door }
{
    let log = match Log::open(errors, options.log) {
        Ok(log) => log,
        Err(status) => return status,
    };
    match &options.door {
        Some(door) => door_status(errors, threads, door, log),
        None => status(errors, serve_alone(errors, log)),
    }
}
