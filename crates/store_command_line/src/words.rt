//! Parsing the arguments of the command line.

ghost use Rattle.std.specs.Prelude.{◌≡◌, ◌↔◌, ◌^◌, ◌≤◌, ℕ, All, true, List, Option, Some, None, IfErr, IfOk, IfSome, IsErr, OnOk, codes, map, option_map};
ghost use Rattle.clap.specs.Values.{kind_of};
ghost use Rattle.clap.specs.Words.{all_of, found_of, first_of, one_of, rows_of, subcommand_of, subcommand_rows_of};
ghost use Rattle.b3_check.specs.Names.{IsName};
ghost use Rattle.store_command_line.specs.CommandLine.{IsTaken, command_line, max_threads};
ghost use Rattle.store_command_line.specs.Ranges.{AreNamed, AreWithin, InRange, IsDoorInRange, IsSumInRange, IsWithin};
ghost use Rattle.store_command_line.specs.Stated.{IsFaultAt, IsNotUsage, IsNumber, NamesInput, Says, SaysCheck, SaysDoor, SaysLog, SaysServe};
ghost use Rattle.store_command_line.specs.Stated.{SaysFlag, SaysLists, SaysInputs, SaysMode, SaysName, SaysShown, SaysSum, SaysUpload};
ghost use Rattle.store_command_line.specs.Stated.{SaysNumber, SpellsOr};
ghost use Rattle.store_command_line.specs.inner.Faults.{IsNoUsage, IsNoVersion, ReportsKind};
ghost use Rattle.store_command_line.specs.declared.said.AskedMode.{AskedMode as SaidMode};
ghost use Rattle.store_command_line.specs.declared.said.AskedUpload.{AskedUpload as SaidUpload};
ghost use Rattle.store_command_line.specs.declared.said.CheckOptions.{CheckOptions as SaidCheck};
ghost use Rattle.store_command_line.specs.declared.said.DoorOptions.{DoorOptions as SaidDoor};
ghost use Rattle.store_command_line.specs.declared.said.ServeOptions.{ServeOptions as SaidServe};
ghost use Rattle.store_command_line.specs.declared.said.Fault.TheVariants.{NoMemory, Usage};
ghost use Rattle.store_command_line.specs.declared.said.SumInputs.{SumInputs as SaidInputs};
ghost use Rattle.store_command_line.specs.declared.said.Options.{Options as Said};
ghost use Rattle.store_command_line.specs.declared.said.SumOptions.{SumOptions as SaidSum};

use crate::command::program;
use crate::said::{
    AskedMode, AskedUpload, CheckOptions, DoorOptions, Fault, Input, LogOptions, NameList, Options,
    ServeOptions, SumInputs, SumOptions,
};
use b3_check::{ReportOptions, Shown};
use clap::error::ErrorKind;
use clap::{ArgMatches, Error};
use hex::FromHex;
use std::alloc::{AllocError, Global};
use std::convert::AsStr;
use store_upload::MAX_PART_CHUNKS;

// The maximum number of threads that hash an input, and of workers of an upload.
const MAX_THREADS: u32 = 16;

// The default number of workers of an upload, and of chunks of its parts.
const DEFAULT_WORKERS: u32 = 4;

const DEFAULT_PART_CHUNKS: u32 = 64;

// The maximum number of clients served at a time, and its default.
const MAX_SESSIONS: u32 = 64;

const DEFAULT_SESSIONS: u32 = 16;

// The maximum number of bytes of extended output that are written as digits.
const MAX_OUTPUT_LEN: u32 = 65536;

// The text of a usage fault, if there was memory for it.
fn reported(text: Result<String, AllocError>) -> Fault
    ensures usage { IfOk text (λ t. result ≡ Usage t) }
    ensures memory { IsErr text → result ≡ NoMemory }
    ensures no_version { IsNoVersion result }
{
    match text {
        Ok(text) => Fault::Usage(text),
        Err(_) => Fault::NoMemory,
    }
}

// clap's text for a fault, with a pointer to the help of the given subcommand at its end.
fn error_text<S: AsStr>(alloc: Global, error: &Error, words: &[S]) -> Result<String, AllocError> {
    let text = error.to_string(alloc)?;
    let Some(front) = text.as_str().strip_suffix("'--help'.\n") else {
        return Ok(text);
    };
    match words.get(1).map(|word| word.as_str()) {
        Some(name @ ("sum" | "run" | "serve" | "upload" | "check" | "audit" | "migrate")) =>
            format!(in alloc; "{front}'b3store {name} --help'.\n"),
        _ => format!(in alloc; "{front}'b3store --help'.\n"),
    }
}

// Why there are no options if clap finds a fault in the arguments.
fn fault_of<S: AsStr>(alloc: Global, error: &Error, words: &[S]) -> Fault
    ensures memory { kind_of error.now ≡ ErrorKind.OutOfMemory → result ≡ NoMemory }
    ensures version { ReportsKind (kind_of error.now) result }
{
    match error.kind() {
        ErrorKind::OutOfMemory => Fault::NoMemory,
        ErrorKind::DisplayVersion => version_reported(error.to_string(alloc)),
        _ => reported(error_text(alloc, error, words)),
    }
}

// The text of the version, if there was memory for it.
fn version_reported(text: Result<String, AllocError>) -> Fault
    ensures { IsNoUsage result }
{
    match text {
        Ok(text) => Fault::Version(text),
        Err(_) => Fault::NoMemory,
    }
}

// The fault for a wrong option of a subcommand.
fn usage(alloc: Global, subcommand: &str, wrong: &str) -> Fault
    ensures { IsNoVersion result }
{
    reported(format!(in alloc; "b3store: {wrong}; see b3store {subcommand} --help\n"))
}

fn help_text(alloc: Global) -> Result<String, AllocError> {
    let mut program = program(alloc)?;
    program.render_help()
}

// The text of an argument, if it is given.
fn text_of<'a>(found: &ArgMatches<'a>, id: &str) -> Option<&'a str>
    ensures { option_map (λ s. s.now) result ≡ first_of id.now (rows_of (found_of found.now)) }
{
    found.get_str(id)
}

// The number with these decimal digits, without a sign.
fn digits(text: &str) -> Option<u32>
    ensures found { IfSome result (IsNumber text.now) }
    ensures none { result ≡ None → (n : ℕ) → IsNumber text.now n → 2 ^ 32 ≤ n }
{
    if text.as_bytes().first() == Some(&b'+') {
        return None;
    }
    text.parse::<u32>().ok()
}

// The fault for a number that is not within the range of an option.
fn number_usage(alloc: Global, subcommand: &str, id: &str, most: u32) -> Fault
    ensures { IsNoVersion result }
{
    reported(format!(in alloc;
        "b3store: --{id} takes a number from 1 to {most}, without a sign; see b3store {subcommand} --help\n"
    ))
}

// A number from 1 to `most`.
fn number_within(
    alloc: Global,
    found: &ArgMatches<'_>,
    subcommand: &str,
    id: &str,
    most: u32,
) -> Result<Option<u32>, Fault>
    ensures spells { IfOk result (λ n. SaysNumber (first_of id.now (rows_of (found_of found.now))) n) }
    ensures range { IfOk result (λ n. IfSome n (IsWithin most)) }
    ensures only { (n : Option ℕ) → SaysNumber (first_of id.now (rows_of (found_of found.now))) n → IfSome n (IsWithin most)
        → IsNotUsage result }
    ensures no_version { IfErr result IsNoVersion }
{
    let Some(text) = text_of(found, id) else {
        return Ok(None);
    };
    match digits(text) {
        Some(n) if n >= 1 && n <= most => Ok(Some(n)),
        _ => Err(number_usage(alloc, subcommand, id, most)),
    }
}

// The requested mode.
fn asked_mode<'a>(alloc: Global, found: &ArgMatches<'a>) -> Result<AskedMode<'a>, Fault>
    ensures says { IfOk result (λ m. let rows = rows_of (found_of found.now) in
        SaysMode m (first_of (codes "key") rows) (first_of (codes "key-file") rows) (first_of (codes "context") rows)) }
    ensures only { let rows = rows_of (found_of found.now) in (m : SaidMode)
        → SaysMode m (first_of (codes "key") rows) (first_of (codes "key-file") rows) (first_of (codes "context") rows) → IsNotUsage result }
    ensures no_version { IfErr result IsNoVersion }
{
    let key = text_of(found, "key");
    let key_file = text_of(found, "key-file");
    let wrong = match (key, key_file, text_of(found, "context")) {
        (None, None, None) => return Ok(AskedMode::Hash),
        (None, None, Some(context)) => return Ok(AskedMode::Derive(context)),
        (None, Some(path), None) => return Ok(AskedMode::KeyFile(path)),
        (Some(digits), None, None) => match <[u8; 32] as FromHex>::from_hex(digits) {
            Ok(key) => return Ok(AskedMode::Keyed(key)),
            Err(_) => "--key takes 64 hexadecimal digits",
        },
        (Some(_), None, Some(_)) => "--key and --context exclude each other",
        _ => "--key, --key-file and --context exclude each other",
    };
    Err(usage(alloc, "sum", wrong))
}

// Whether the name can be in a check line.
fn is_name(text: &str) -> bool
    ensures { (result ≡ true) ↔ IsName text.now }
{
    !text.is_empty() && !text.as_bytes().contains(&0)
}

// The name for a check line: `-` if none is given.
fn sum_name<'a>(alloc: Global, found: &ArgMatches<'a>) -> Result<&'a str, Fault>
    ensures says { IfOk result (λ name. SaysName name.now (first_of (codes "name") (rows_of (found_of found.now)))) }
    ensures lawful { IfOk result (λ name. IsName name.now) }
    ensures only { (name : List ℕ) → SaysName name (first_of (codes "name") (rows_of (found_of found.now))) → IsName name
        → IsNotUsage result }
    ensures no_version { IfErr result IsNoVersion }
{
    let Some(name) = text_of(found, "name") else {
        return Ok("-");
    };
    if !is_name(name) {
        return Err(usage(
            alloc,
            "sum",
            "--name takes a name that is not empty and has no byte 0",
        ));
    }
    Ok(name)
}

// Whether each of the names can be in a check line.
fn are_names(texts: &[&str]) -> bool
    ensures { (result ≡ true) ↔ All (λ text. IsName text.now) texts.now }
{
    texts.iter().all(|text| is_name(text))
}

// The texts of the positional arguments.
fn words_of<'a, 'b>(found: &'b ArgMatches<'a>, id: &str) -> Option<&'b [&'a str]>
    ensures { option_map (λ texts. map (λ text. text.now) texts.now) result ≡ all_of id.now (rows_of (found_of found.now)) }
{
    found.get_strs(id)
}

// Files by their names.
fn named_inputs<'a>(alloc: Global, files: &[&'a str]) -> Result<SumInputs<'a>, Fault>
    ensures says { IfOk result (λ inputs. (null : Option (List ℕ)) → SaysInputs inputs (Some (map (λ name. name.now) files.now)) None None null) }
    ensures lawful { IfOk result AreNamed }
    ensures only { All (λ name. IsName name.now) files.now → IsNotUsage result }
    ensures no_version { IfErr result IsNoVersion }
{
    if !are_names(files) {
        return Err(usage(alloc, "sum", "a file's name is not empty and has no byte 0"));
    }
    Ok(SumInputs::Named(Vec::from_slice(alloc, files)?))
}

// The inputs to hash.
fn sum_inputs<'a>(alloc: Global, found: &ArgMatches<'a>) -> Result<SumInputs<'a>, Fault>
    ensures says { IfOk result (λ i. let rows = rows_of (found_of found.now) in
        SaysInputs i (all_of (codes "file") rows) (first_of (codes "name") rows) (first_of (codes "files-from") rows) (one_of (codes "null") rows)) }
    ensures lawful { IfOk result AreNamed }
    ensures only { let rows = rows_of (found_of found.now) in (i : SaidInputs)
        → SaysInputs i (all_of (codes "file") rows) (first_of (codes "name") rows) (first_of (codes "files-from") rows) (one_of (codes "null") rows)
        → AreNamed i → IsNotUsage result }
    ensures no_version { IfErr result IsNoVersion }
{
    let files = words_of(found, "file");
    let list = text_of(found, "files-from");
    if let (None, None) = (files, list) {
        return Ok(SumInputs::Standard(sum_name(alloc, found)?));
    }
    match (files, list, text_of(found, "name")) {
        (Some(files), None, None) => named_inputs(alloc, files),
        (None, Some(list), None) => Ok(SumInputs::Listed(NameList {
            list: Input::of(list),
            has_nuls: flag(found, "null"),
        })),
        _ => Err(usage(
            alloc,
            "sum",
            "files' names, --files-from and --name exclude each other",
        )),
    }
}

fn sum_options<'a>(alloc: Global, found: &ArgMatches<'a>) -> Result<SumOptions<'a>, Fault>
    ensures says { IfOk result (λ o. SaysSum o (rows_of (found_of found.now))) }
    ensures range { IfOk result IsSumInRange }
    ensures only { (o : SaidSum) → SaysSum o (rows_of (found_of found.now)) → IsSumInRange o → IsNotUsage result }
    ensures no_version { IfErr result IsNoVersion }
{
    let mode = asked_mode(alloc, found)?;
    let length = number_within(alloc, found, "sum", "length", MAX_OUTPUT_LEN)?;
    let threads = number_within(alloc, found, "sum", "threads", MAX_THREADS)?;
    let inputs = sum_inputs(alloc, found)?;
    Ok(SumOptions {
        inputs,
        mode,
        length,
        threads,
        no_progress: flag(found, "no-progress"),
    })
}

// Which lines of a report are written.
fn shown(found: &ArgMatches<'_>) -> Shown
    ensures { let rows = rows_of (found_of found.now) in SaysShown result (one_of (codes "quiet") rows) (one_of (codes "status") rows) }
{
    let is_quiet = flag(found, "quiet");
    let is_status = flag(found, "status");
    if is_status {
        Shown::Nothing
    } else if is_quiet {
        Shown::AllButGood
    } else {
        Shown::All
    }
}

// The paths of lists.
fn lists_of<'a>(alloc: Global, found: &ArgMatches<'a>) -> Result<Vec<&'a str>, AllocError>
    ensures { IfOk result (λ lists. SaysLists lists.items (all_of (codes "list") (rows_of (found_of found.now)))) }
{
    match words_of(found, "list") {
        Some(lists) => Vec::from_slice(alloc, lists),
        None => Ok(Vec::new(alloc)),
    }
}

fn check_options<'a>(alloc: Global, found: &ArgMatches<'a>) -> Result<CheckOptions<'a>, Fault>
    ensures says { IfOk result (λ o. SaysCheck o (rows_of (found_of found.now))) }
    ensures range { IfOk result (λ o. IfSome o.threads (IsWithin max_threads)) }
    ensures only { (o : SaidCheck) → SaysCheck o (rows_of (found_of found.now)) → IfSome o.threads (IsWithin max_threads) → IsNotUsage result }
    ensures no_version { IfErr result IsNoVersion }
{
    let lists = lists_of(alloc, found)?;
    let threads = number_within(alloc, found, "check", "threads", MAX_THREADS)?;
    Ok(CheckOptions {
        lists,
        report: ReportOptions {
            shown: shown(found),
            ignores_missing: flag(found, "ignore-missing"),
        },
        threads,
        no_progress: flag(found, "no-progress"),
    })
}

// The greatest number that an option takes, and its default.
#[derive(Clone, Copy)]
struct NumberOption {
    most: u32,
    default: u32,
}

// A number from 1 to `option.most` of an option of a subcommand, or its default.
fn number_or(
    alloc: Global,
    found: &ArgMatches<'_>,
    subcommand: &str,
    id: &str,
    option: NumberOption,
) -> Result<u32, Fault>
    requires { IsWithin option.most option.default }
    ensures spells { IfOk result (λ n. SpellsOr option.default (first_of id.now (rows_of (found_of found.now))) n) }
    ensures range { IfOk result (IsWithin option.most) }
    ensures only { (n : ℕ) → SpellsOr option.default (first_of id.now (rows_of (found_of found.now))) n → IsWithin option.most n
        → IsNotUsage result }
    ensures no_version { IfErr result IsNoVersion }
{
    match number_within(alloc, found, subcommand, id, option.most)? {
        Some(n) => Ok(n),
        None => Ok(option.default),
    }
}

fn flag(found: &ArgMatches<'_>, id: &str) -> bool
    ensures { SaysFlag (one_of id.now (rows_of (found_of found.now))) result }
{
    found.get_flag(id)
}

fn upload_options(alloc: Global, found: &ArgMatches<'_>) -> Result<AskedUpload, Fault>
    ensures says { IfOk result (λ asked. SaysUpload asked (rows_of (found_of found.now))) }
    ensures range { IfOk result AreWithin }
    ensures only { (asked : SaidUpload) → SaysUpload asked (rows_of (found_of found.now)) → AreWithin asked → IsNotUsage result }
    ensures no_version { IfErr result IsNoVersion }
{
    let workers = NumberOption {
        most: MAX_THREADS,
        default: DEFAULT_WORKERS,
    };
    let part_chunks = NumberOption {
        most: MAX_PART_CHUNKS as u32,
        default: DEFAULT_PART_CHUNKS,
    };
    let workers = number_or(alloc, found, "upload", "workers", workers)?;
    let part_chunks = number_or(alloc, found, "upload", "part-chunks", part_chunks)?;
    Ok(AskedUpload {
        workers,
        part_chunks,
        journal: flag(found, "journal"),
        no_progress: flag(found, "no-progress"),
    })
}

// How clients connect, if a named pipe is given.
fn door<'a>(alloc: Global, found: &ArgMatches<'a>) -> Result<Option<DoorOptions<'a>>, Fault>
    ensures says { IfOk result (λ d. let rows = rows_of (found_of found.now) in SaysDoor d (first_of (codes "at") rows) (first_of (codes "sessions") rows) (one_of (codes "keep-uploads") rows)) }
    ensures range { IfOk result IsDoorInRange }
    ensures only { let rows = rows_of (found_of found.now) in (d : Option SaidDoor)
        → SaysDoor d (first_of (codes "at") rows) (first_of (codes "sessions") rows) (one_of (codes "keep-uploads") rows) → IsDoorInRange d → IsNotUsage result }
    ensures no_version { IfErr result IsNoVersion }
{
    let Some(path) = text_of(found, "at") else {
        return match text_of(found, "sessions") {
            None => Ok(None),
            Some(_) => Err(usage(alloc, "serve", "--sessions takes --at beside it")),
        };
    };
    let sessions = NumberOption {
        most: MAX_SESSIONS,
        default: DEFAULT_SESSIONS,
    };
    let sessions = number_or(alloc, found, "serve", "sessions", sessions)?;
    Ok(Some(DoorOptions {
        path,
        sessions,
        keep_uploads: flag(found, "keep-uploads"),
    }))
}

// The log that is run first, if one is given.
fn log<'a>(found: &ArgMatches<'a>) -> Option<LogOptions<'a>>
    ensures { let rows = rows_of (found_of found.now) in SaysLog result (first_of (codes "load") rows) (one_of (codes "torn") rows) }
{
    let path = text_of(found, "load")?;
    Some(LogOptions {
        path,
        torn: flag(found, "torn"),
    })
}

fn serve_options<'a>(alloc: Global, found: &ArgMatches<'a>) -> Result<ServeOptions<'a>, Fault>
    ensures says { IfOk result (λ o. SaysServe o (rows_of (found_of found.now))) }
    ensures range { IfOk result (λ o. IsDoorInRange o.door) }
    ensures only { (o : SaidServe) → SaysServe o (rows_of (found_of found.now)) → IsDoorInRange o.door → IsNotUsage result }
    ensures no_version { IfErr result IsNoVersion }
{
    let door = door(alloc, found)?;
    Ok(ServeOptions {
        log: log(found),
        door,
    })
}

// The given subcommand and its arguments.
fn entered<'a, 'b>(matches: &'b ArgMatches<'a>) -> Option<(&'a str, &'b ArgMatches<'a>)>
    ensures { option_map (λ p. (p.0.now, rows_of (found_of p.1.now))) result ≡ subcommand_rows_of matches.now }
{
    matches.subcommand()
}

// The options of the subcommand and its arguments.
fn options_of<'a>(alloc: Global, matches: &ArgMatches<'a>) -> Result<Options<'a>, Fault>
    ensures says { IfOk result (λ o. Says o (subcommand_rows_of matches.now)) }
    ensures range { IfOk result InRange }
    ensures only { (o : Said) → Says o (subcommand_rows_of matches.now) → InRange o → IsNotUsage result }
    ensures no_version { IfErr result IsNoVersion }
{
    match entered(matches) {
        Some(("sum", found)) => Ok(Options::Sum(sum_options(alloc, found)?)),
        Some(("run", _)) => Ok(Options::Run),
        Some(("serve", found)) => Ok(Options::Serve(serve_options(alloc, found)?)),
        Some(("upload", found)) => Ok(Options::Upload(upload_options(alloc, found)?)),
        Some(("check", found)) => Ok(Options::Check(check_options(alloc, found)?)),
        Some(("audit", _)) => Ok(Options::Audit),
        Some(("migrate", _)) => Ok(Options::Migrate),
        _ => Err(reported(help_text(alloc))),
    }
}

/// Parses the arguments; the first of them is the program's name.
///
/// Returns the subcommand with the values that clap finds in the arguments, if clap finds no fault in them, each number is decimal digits
/// without a sign and within its range, names are not empty and have no zero byte, and no options are given that exclude each other. The
/// fault is `Version` if the arguments ask for the version, and `NoMemory` if an allocation fails. For all other arguments it is `Usage`;
/// this includes requests for help, and no argument besides the program's name.
pub fn options<'a, S: AsStr>(alloc: Global, words: &'a [S]) -> Result<Options<'a>, Fault>
    ensures says { IfOk result (λ o. Says o (subcommand_of command_line (map S.text words.entry.now))) }
    ensures range { IfOk result InRange }
    ensures taken { OnOk result (IsTaken (map S.text words.entry.now)) }
    // If clap finds no fault in the arguments, and they mean options within their ranges, the only possible fault is running out of memory.
    ensures only { (o : Said) → IsTaken (map S.text words.entry.now) → Says o (subcommand_of command_line (map S.text words.entry.now)) → InRange o
        → IsNotUsage result }
    // The version is returned if it is asked for, and only then.
    ensures version { IfErr result (IsFaultAt (map S.text words.entry.now)) }
{
    let matches = match program(alloc)?.try_get_matches_from(words) {
        Ok(matches) => matches,
        Err(error) => return Err(fault_of(alloc, &error, words)),
    };
    options_of(alloc, &matches)
}
