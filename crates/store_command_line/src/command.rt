//! The command line as it is declared to clap: a table of subcommands, each with a table of its arguments.

ghost use Rattle.std.specs.Prelude.{◌≡◌, IfOk, false};
ghost use Rattle.clap.specs.Words.{app_of, new_app, rule_of};
ghost use Rattle.clap.specs.declared.builder.command.Command.TheViews.{out-Command as fields_of};
ghost use Rattle.store_command_line.specs.CommandLine.{command_line};
ghost use Rattle.store_command_line.specs.inner.Declared.{bare_program, rule_for, with_arguments, with_subcommands};

use clap::{Arg, ArgAction, Command};
use std::alloc::{AllocError, Global};

// An argument of a subcommand, with its line in the help.
#[derive(Clone, Copy)]
struct Argument {
    id: &'static str,
    takes: Takes,
    help: &'static str,
}

// What an argument takes. A value has a name in the help.
#[derive(Clone, Copy)]
enum Takes {
    // Any number of values, without an option.
    Values(&'static str),
    // `--ID VALUE`.
    Value(&'static str),
    // `--ID`.
    Nothing,
    // `--ID`, or `-` and this letter.
    NothingOr(char),
}

impl Argument {
    // The argument as clap has it.
    fn declared<'a>(&self, alloc: Global) -> Arg<'a>
        ensures rule { rule_of result ≡ rule_for self.now }
        ensures local { result.global ≡ false }
    {
        let argument = Arg::new(alloc, self.id).help(self.help);
        match self.takes {
            Takes::Values(name) => argument.value_name(name).action(ArgAction::Append),
            Takes::Value(name) => argument.long(self.id).value_name(name),
            Takes::Nothing => argument.long(self.id).action(ArgAction::SetTrue),
            Takes::NothingOr(letter) => argument
                .long(self.id)
                .short(letter)
                .action(ArgAction::SetTrue),
        }
    }
}

// A subcommand, with what its help begins and ends with.
#[derive(Clone, Copy)]
struct Subcommand {
    name: &'static str,
    about: &'static str,
    after_help: &'static str,
    arguments: &'static [Argument],
}

impl Subcommand {
    // The subcommand as clap has it.
    fn declared<'a>(&self, alloc: Global) -> Result<Command<'a>, AllocError>
        ensures shape { IfOk result (λ c. app_of c ≡ with_arguments (new_app self.now.name.now) self.now.arguments.now) }
        ensures local { IfOk result (λ c. (fields_of c).has_globals ≡ false) }
    {
        let mut command = Command::new(alloc, self.name)
            .about(self.about)
            .after_help(self.after_help);
        for argument in self.arguments {
            command = command.arg(argument.declared(alloc))?;
        }
        Ok(command)
    }
}

const THREADS: Argument = Argument {
    id: "threads",
    takes: Takes::Value("T"),
    help: "Hash with at most this many threads (1 to 16, by default one for each processor)",
};

const NO_PROGRESS: Argument = Argument {
    id: "no-progress",
    takes: Takes::Nothing,
    help: "Show no progress, even if standard error is a terminal",
};

#[rattlefmt::skip]
const SUM: [Argument; 10] = [
    Argument { id: "file", takes: Takes::Values("FILE"), help: "Hash these files, in this order; - is standard input" },
    Argument { id: "name", takes: Takes::Value("NAME"), help: "Write this name in the check line of standard input" },
    Argument { id: "files-from", takes: Takes::Value("LIST"), help: "Read the files' names from this list, one on each line; - is standard input" },
    Argument { id: "null", takes: Takes::NothingOr('0'), help: "Names in the list end with a byte 0 instead of a newline" },
    Argument { id: "key", takes: Takes::Value("HEX64"), help: "Hash with this key: 32 bytes, as 64 hexadecimal digits; other processes can see it" },
    Argument { id: "key-file", takes: Takes::Value("FILE"), help: "Hash with the key in this file: 32 bytes, or 64 hexadecimal digits" },
    Argument { id: "context", takes: Takes::Value("TEXT"), help: "Derive a key from the input, with this context; not with a key" },
    Argument { id: "length", takes: Takes::Value("N"), help: "Write this many bytes of extended output as digits, and no name (1 to 65536)" },
    THREADS,
    NO_PROGRESS,
];

#[rattlefmt::skip]
const SERVE: [Argument; 5] = [
    Argument { id: "at", takes: Takes::Value("PATH"), help: "Serve the same store to clients that write their number to this named pipe" },
    Argument { id: "sessions", takes: Takes::Value("N"), help: "With --at: serve this many clients at a time (1 to 64, 16 by default)" },
    Argument { id: "keep-uploads", takes: Takes::Nothing, help: "With --at: keep the open uploads of a client that ends, instead of aborting them" },
    Argument { id: "load", takes: Takes::Value("FILE"), help: "First run the lines of this file, such as those that `redo` answers; end if one is refused" },
    Argument { id: "torn", takes: Takes::Nothing, help: "With --load: go on if the file's last line is truncated, without that line" },
];

#[rattlefmt::skip]
const UPLOAD: [Argument; 4] = [
    Argument { id: "workers", takes: Takes::Value("W"), help: "Hash parts with this many threads (1 to 16, 4 by default)" },
    Argument { id: "part-chunks", takes: Takes::Value("P"), help: "Split the input into parts of this many chunks of 1024 bytes (1 to 16384, 64 by default)" },
    Argument { id: "journal", takes: Takes::Nothing, help: "Write the journal's text too" },
    NO_PROGRESS,
];

#[rattlefmt::skip]
const CHECK: [Argument; 6] = [
    Argument { id: "list", takes: Takes::Values("LIST"), help: "Read the check lines from these files; standard input if none is named, or for -" },
    Argument { id: "quiet", takes: Takes::Nothing, help: "Write no lines for good files, and no counts if the report passes" },
    Argument { id: "status", takes: Takes::Nothing, help: "Write no report: only the exit status says whether the reports pass" },
    Argument { id: "ignore-missing", takes: Takes::Nothing, help: "Write no lines for missing files; a report can pass without them" },
    THREADS,
    NO_PROGRESS,
];

// The lines that a store answers, each with its effect: those of a script, followed by those passed to the macro.
macro_rules! listed_lines {
    ($($more:literal),*) => {
        concat!(
            "Commands, each on a line of its own:\n",
            "  tenant LIMIT        a new tenant with this limit in bytes\n",
            "  limit T LIMIT       another limit of tenant T\n",
            "  begin T LEN         a new upload of LEN bytes\n",
            "  open T ATMOST       a new upload of at most ATMOST bytes\n",
            "  fix U LEN           the length of such an upload\n",
            "  put U OFFSET DATA   a part of upload U: x: and digits, or p:LEN for a pattern\n",
            "  seal U              file its bytes as an object\n",
            "  sealas U ADDRESS    the same, if that is its address\n",
            "  abort U             remove the upload and its parts\n",
            "  forget T ADDRESS    stop holding the object\n",
            "  fetch T ADDRESS     the object's bytes, as digits\n",
            "  usage T             what the tenant uses\n",
            "  list T              the objects that it holds\n",
            "  stat                the store's totals\n",
            "  journal             the journal's entries",
            $($more),*
        )
    };
}

// The end of the help of a subcommand that reads a journal, with an example.
macro_rules! journal_codes {
    ($example:literal) => {
        concat!(
            "Refusals of a journal:\n",
            "  J2 N  line N is outside the grammar\n",
            "  J1 N  otherwise: entry N is not legal\n",
            "\n",
            "Example:\n  ",
            $example
        )
    };
}

const SUBCOMMANDS: [Subcommand; 7] = [
    Subcommand {
        name: "sum",
        about: "Write the check line of each file, or of standard input: its BLAKE3 hash and its name",
        after_help: "Examples:\n  b3store sum *.iso > SUMS\n  tar c src | b3store sum --name src.tar",
        arguments: &SUM,
    },
    Subcommand {
        name: "run",
        about: "Run a script of commands on an empty store, and answer each line as soon as it is read",
        after_help: listed_lines!(
            "\n\nExample:\n  printf 'tenant 4096\\nbegin 0 3\\nput 0 0 x:616263\\nseal 0\\n' | b3store run"
        ),
        arguments: &[],
    },
    Subcommand {
        name: "serve",
        about: "Keep a store for a program, and answer its commands line by line",
        after_help: listed_lines!(
            "\n  putb U OFFSET LEN   a part of upload U: the LEN raw bytes after the line",
            "\n  file T LEN          file the LEN raw bytes after the line; fileas T ADDRESS LEN, if that is their address",
            "\n  fetchb T ADDRESS    the object's bytes, raw; with FROM LEN, those of a range",
            "\n  has T ADDRESS       the object's length",
            "\n  uploads T           the tenant's open uploads",
            "\n  objects T FROM COUNT",
            "\n                      the tenant's objects with numbers from FROM on, at most COUNT of them",
            "\n  tenants             what each tenant uses",
            "\n  counts              the numbers of entries and tenants, and the store's totals",
            "\n  redo FROM COUNT     lines that redo on another store what the entries from number FROM on did",
            "\n  entries FROM        the journal's entries from number FROM on; with COUNT, at most COUNT of them",
            "\n\nExample:\n  b3store serve --at /tmp/door --sessions 4"
        ),
        arguments: &SERVE,
    },
    Subcommand {
        name: "upload",
        about: "Upload standard input in parts to a store that lasts as long as the command, and write its check line",
        after_help: "Example:\n  b3store upload --journal < disk.img",
        arguments: &UPLOAD,
    },
    Subcommand {
        name: "check",
        about: "Check files against their hashes",
        after_help: concat!(
            "Faults of a line, of which the first is reported:\n",
            "  C1  a tagged line\n",
            "  C2  too short\n",
            "  C3  not a hexadecimal digit\n",
            "  C4  not two spaces\n",
            "  C5  no name\n",
            "  C6  a wrong escape\n",
            "  C7  a byte 0 in the name\n",
            "\n",
            "Example:\n  b3store check SUMS"
        ),
        arguments: &CHECK,
    },
    Subcommand {
        name: "audit",
        about: "Replay a journal, and write its totals and how many bytes and parts were accepted",
        after_help: journal_codes!("b3store audit < journal"),
        arguments: &[],
    },
    Subcommand {
        name: "migrate",
        about: "Read a journal of either version, and write it in version 2",
        after_help: journal_codes!("b3store migrate < old > new"),
        arguments: &[],
    },
];

// The program's version, and that of the logic that it is proved with.
const VERSION: &str = "1.0.0 (proved with a Rattle kit of logic dac8208d650f15bf)";

// The program's command without its subcommands.
fn bare_program<'a>(alloc: Global) -> Command<'a>
    ensures shape { app_of result ≡ bare_program }
    ensures local { (fields_of result).has_globals ≡ false }
{
    Command::new(alloc, "b3store")
        .about(
            "Hash and check files, and serve a store that keeps each content once, in memory, until its process ends",
        )
        .version(VERSION)
}

// Adds subcommands, one after another.
fn with_subcommands<'a>(
    alloc: Global,
    program: Command<'a>,
    subcommands: &[Subcommand],
) -> Result<Command<'a>, AllocError>
    requires { (fields_of program).has_globals ≡ false }
    ensures shape { IfOk result (λ c. app_of c ≡ with_subcommands (app_of program.entry) subcommands.now) }
    ensures local { IfOk result (λ c. (fields_of c).has_globals ≡ false) }
{
    let mut program = program;
    for subcommand in subcommands {
        let command = subcommand.declared(alloc)?;
        program = program.subcommand(command)?;
    }
    Ok(program)
}

// The program's subcommands.
fn subcommands() -> [Subcommand; 7]
    ensures { with_subcommands bare_program result ≡ command_line }
{
    SUBCOMMANDS
}

/// The command line of the program.
pub(crate) fn program<'a>(alloc: Global) -> Result<Command<'a>, AllocError>
    ensures shape { IfOk result (λ c. app_of c ≡ command_line) }
    ensures local { IfOk result (λ c. (fields_of c).has_globals ≡ false) }
{
    with_subcommands(alloc, bare_program(alloc), &subcommands())
}
