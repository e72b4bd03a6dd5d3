//! The program `b3store`: it parses the command line, calls the engine of the subcommand, and turns its result into the exit status.
#![tactic(auto)]

ghost use Rattle.store_command_line.specs.Ranges.{InRange};

mod explaining;
mod extent;
mod inputs;
mod logs;
mod progress;
mod replies;
mod reporting;
mod sessions;
mod standard;
mod words;

use b3_core::{Runtime, Work};
use explaining::Refusals;
use extent::Extent;
use hash_engines::SystemFile;
use inputs::{check_status, sum_status};
use progress::with_progress;
use reporting::{GOOD, REFUSED, USAGE, status, stopped};
use sessions::serve_status;
use standard::{ProgressLine, StandardError, StandardInput, answer_output, standard_output};
use std::io::{BufReader, BufWriter, IsTerminal};
use std::marker::Brand;
use std::process::ExitCode;
use std::sync::Wait;
use std::thread::Threads;
use store_command_line::{AskedUpload, Fault, Input, Options, SumInputs, SumOptions, options};
use store_engines::{
    Cause, JournalFault, UnnamedLedgers, UploadOptions, Verdict, audit, migrate, upload_input,
};
use store_lines::run;
use words::{Words, not_text};

// Answers a script.
fn run_script(errors: StandardError<'_>) -> Result<Verdict, Cause> {
    let rt = errors.runtime();
    let Ok(mut lines) = BufReader::new(rt.alloc(), rt.stdin()) else {
        return Err(Cause::OutOfMemory);
    };
    let Ok(mut answers) = BufWriter::new(rt.alloc(), standard_output(rt)) else {
        return Err(Cause::OutOfMemory);
    };
    let mut refusals = Refusals::new(errors, Input::Standard);
    let mut work = Work::new(rt);
    let ended = run(
        rt.alloc(),
        &mut lines,
        &mut answers,
        &mut refusals,
        &mut work,
    );
    refusals.finish();
    ended
}

// Uploads standard input.
fn upload_standard_input<T: Threads + Wait + Sync + Runtime>(
    errors: StandardError<'_>,
    threads: &T,
    extent: &Extent,
    asked: &AskedUpload,
) -> Result<Verdict, Cause> {
    let rt = errors.runtime();
    let (mut input, mut writer) = (StandardInput::new(rt), answer_output(errors));
    extent.note_input(&input);
    let ledgers = UnnamedLedgers::new(rt.alloc())?;
    let options = UploadOptions {
        workers: asked.workers,
        part_chunks: asked.part_chunks,
        journal: asked.journal,
    };
    upload_input::<Brand, _, SystemFile, _, _>(
        threads,
        rt.alloc(),
        options,
        ledgers,
        &mut input,
        &mut writer,
    )
}

// Reports why a journal is refused, if it is, and returns the exit status.
fn journal_status(errors: StandardError<'_>, ended: Result<Option<JournalFault>, Cause>) -> u8 {
    match ended {
        Ok(None) => GOOD,
        Ok(Some(fault)) => {
            let _ = eprintln!(errors.cleared(); "b3store: standard input: {fault}");
            REFUSED
        }
        Err(cause) => stopped(errors, cause),
    }
}

// Performs the subcommand, and returns the exit status.
fn perform<T: Threads + Wait + Copy + Send + Sync + Runtime + 'static>(
    errors: StandardError<'_>,
    threads: &T,
    extent: &Extent,
    options: &Options<'_>,
    words: &Words,
) -> u8
    requires { InRange options.now }
{
    let rt = errors.runtime();
    let alloc = rt.alloc();
    let (mut reader, mut writer) = (rt.stdin(), standard_output(rt));
    match options {
        Options::Sum(options) => sum_status(errors, threads, extent, options, words),
        Options::Run => status(errors, run_script(errors)),
        Options::Serve(options) => serve_status(errors, threads, options),
        Options::Upload(asked) => status(
            errors,
            upload_standard_input(errors, threads, extent, asked),
        ),
        Options::Check(options) => check_status(errors, threads, extent, options),
        Options::Audit => journal_status(errors, audit(alloc, &mut reader, &mut writer)),
        Options::Migrate => journal_status(errors, migrate(alloc, &mut reader, &mut writer)),
    }
}

// Whether standard error is a terminal on which a line can be erased.
fn can_erase(rt: &HostRuntime) -> bool {
    let is_dumb = match std::env::var(rt, "TERM") {
        Ok(kind) => kind.as_str() == "dumb",
        Err(_) => false,
    };
    !is_dumb && rt.stderr().is_terminal()
}

// Whether progress is shown: if it is not turned off, it can be erased, and no lines are written to a terminal meanwhile.
fn reports_progress(rt: &HostRuntime, options: &Options<'_>) -> bool {
    let (is_unwanted, writes_lines) = match options {
        Options::Sum(options) => (
            options.no_progress,
            !matches!(options.inputs, SumInputs::Standard(_)),
        ),
        Options::Check(options) => (options.no_progress, true),
        Options::Upload(asked) => (asked.no_progress, false),
        _ => return false,
    };
    !is_unwanted && can_erase(rt) && !(writes_lines && rt.stdout().is_terminal())
}

// Performs the subcommand, with progress if it is wanted, and returns the exit status.
fn perform_reporting<T: Threads + Wait + Copy + Send + Sync + Runtime + 'static>(
    errors: StandardError<'_>,
    threads: &T,
    options: &Options<'_>,
    words: &Words,
) -> u8
    requires { InRange options.now }
{
    let is_reported = reports_progress(errors.runtime(), options);
    let extent = &Extent::new(is_reported);
    if !is_reported {
        return perform(errors, threads, extent, options, words);
    }
    with_progress(
        errors,
        threads,
        extent,
        move || -> u8
            requires { InRange options.now }
        { perform(errors, threads, extent, options, words) },
    )
}

// Reports why there are no options, and returns the exit status.
fn unusable(errors: StandardError<'_>, fault: Fault) -> u8 {
    match fault {
        Fault::Usage(text) => {
            let _ = eprint!(errors.cleared(); "{text}");
            USAGE
        }
        Fault::Version(text) => match print!(errors.runtime(); "{text}") {
            Ok(()) => GOOD,
            Err(_) => stopped(errors, Cause::CannotWrite),
        },
        Fault::NoMemory => stopped(errors, Cause::OutOfMemory),
    }
}

// Whether each word that is not UTF-8 names a file to hash.
fn are_files(words: &Words, options: &Options<'_>) -> bool {
    match options {
        Options::Sum(
            SumOptions {
                inputs: SumInputs::Named(files),
                ..
            },
        ) => words.has_all_foreign(files.as_slice()),
        _ => words.has_all_foreign(&[]),
    }
}

fn main(rt: HostRuntime) -> ExitCode {
    let progress = ProgressLine::new();
    let errors = StandardError::new(&rt, &progress);
    let words = match Words::of_process(&rt) {
        Ok(words) => words,
        Err(fault) => return ExitCode::from(unusable(errors, fault)),
    };
    let status = match options(rt.alloc(), words.texts.as_slice()) {
        Ok(options) if are_files(&words, &options) => {
            perform_reporting(errors, &rt, &options, &words)
        }
        Ok(_) => unusable(errors, not_text(rt.alloc())),
        Err(Fault::Usage(_)) if !words.has_all_foreign(&[]) => {
            unusable(errors, not_text(rt.alloc()))
        }
        Err(fault) => unusable(errors, fault),
    };
    ExitCode::from(status)
}
