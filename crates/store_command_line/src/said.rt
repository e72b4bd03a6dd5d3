//! The options of a command line.

ghost use Rattle.std.specs.Prelude.{◌≡◌};
ghost use Rattle.store_command_line.specs.Stated.{NamesInput};
ghost use Rattle.store_command_line.specs.declared.said.Fault.TheVariants.{NoMemory};

use b3_check::ReportOptions;
use std::alloc::AllocError;

/// An input given by arguments.
#[derive(Clone, Copy, Debug)]
pub enum Input<'a> {
    /// Standard input, which is named `-`, and is the default.
    Standard,
    /// The file of this path.
    File(&'a str),
}

impl<'a> Input<'a> {
    /// The input that this text names.
    pub fn of(text: &'a str) -> Input<'a>
        ensures { NamesInput result text.entry.now }
    {
        if text == "-" {
            Input::Standard
        } else {
            Input::File(text)
        }
    }
}

/// The mode requested of `sum`.
#[derive(Clone, Copy)]
pub enum AskedMode<'a> {
    /// The default hash, without a key.
    Hash,
    /// The keyed hash with this key.
    Keyed([u8; 32]),
    /// The keyed hash with the key in the file of this path.
    KeyFile(&'a str),
    /// A key derived in this context.
    Derive(&'a str),
}

/// The names of files, from a list.
#[derive(Clone, Copy)]
pub struct NameList<'a> {
    /// The input with the list.
    pub list: Input<'a>,
    /// Whether each name ends with a zero byte instead of a newline.
    pub has_nuls: bool,
}

/// What `sum` hashes.
#[derive(Drop)]
pub enum SumInputs<'a> {
    /// Standard input, whose check line has this name.
    Standard(&'a str),
    /// The files with these names; `-` is standard input.
    Named(Vec<&'a str>),
    /// The files named in a list.
    Listed(NameList<'a>),
}

/// The options of `sum`.
#[derive(Drop)]
pub struct SumOptions<'a> {
    /// What is hashed.
    pub inputs: SumInputs<'a>,
    /// The mode to hash in.
    pub mode: AskedMode<'a>,
    /// The number of bytes of extended output to write instead of the check line.
    pub length: Option<u32>,
    /// The maximum number of threads that hash an input; `None` for as many as the machine has processors.
    pub threads: Option<u32>,
    /// Whether no progress is shown on standard error.
    pub no_progress: bool,
}

/// The options of `upload`.
#[derive(Clone, Copy, Debug)]
pub struct AskedUpload {
    /// The number of workers that hash parts.
    pub workers: u32,
    /// The number of chunks, of 1024 bytes, in a part.
    pub part_chunks: u32,
    /// Whether the journal's text is written too.
    pub journal: bool,
    /// Whether no progress is shown on standard error.
    pub no_progress: bool,
}

/// The options of `check`.
#[derive(Drop)]
pub struct CheckOptions<'a> {
    /// The paths of the files with the check lines; `-` is standard input, and so is no path at all.
    pub lists: Vec<&'a str>,
    /// Which lines of a report are written, and when it passes.
    pub report: ReportOptions,
    /// The maximum number of threads that hash a file; `None` for as many as the machine has processors.
    pub threads: Option<u32>,
    /// Whether no progress is shown on standard error.
    pub no_progress: bool,
}

/// How clients of a shared store connect, how many are served at a time, and what becomes of their open uploads.
#[derive(Clone, Copy, Debug)]
pub struct DoorOptions<'a> {
    /// The path of the named pipe to which a client writes its number.
    pub path: &'a str,
    /// The maximum number of clients served at a time.
    pub sessions: u32,
    /// Whether an upload that a client began stays open when the client's session ends; otherwise it is aborted.
    pub keep_uploads: bool,
}

/// A log whose lines are run before the first client is served.
#[derive(Clone, Copy, Debug)]
pub struct LogOptions<'a> {
    /// The path of its file.
    pub path: &'a str,
    /// Whether a last line that is truncated is left out.
    pub torn: bool,
}

/// What a store has at first, and whom it serves.
#[derive(Clone, Copy, Debug)]
pub struct ServeOptions<'a> {
    /// The log that is run on it, if any.
    pub log: Option<LogOptions<'a>>,
    /// How clients connect, if a named pipe is given.
    pub door: Option<DoorOptions<'a>>,
}

/// A subcommand with its options.
#[derive(Drop)]
pub enum Options<'a> {
    /// `sum`.
    Sum(SumOptions<'a>),
    /// `run`.
    Run,
    /// `serve`.
    Serve(ServeOptions<'a>),
    /// `upload`.
    Upload(AskedUpload),
    /// `check`.
    Check(CheckOptions<'a>),
    /// `audit`.
    Audit,
    /// `migrate`.
    Migrate,
}

/// Why a command line has no options.
#[derive(Debug, Drop)]
pub enum Fault {
    /// The arguments are wrong, or ask for help: the text to print.
    Usage(String),
    /// The arguments ask for the version: the text to print.
    Version(String),
    /// Out of memory.
    NoMemory,
}

impl From<AllocError> for Fault {
    ghost from_gives = { λ _ fault. fault ≡ NoMemory };

    fn from(_: AllocError) -> Fault {
        Fault::NoMemory
    }
}
