//! `sum` and `check`, over standard input and files.

ghost use Rattle.b3_check.specs.Names.{IsName};
ghost use Rattle.store_command_line.specs.Ranges.{IsSumInRange};

use crate::explaining::{ExplainedNames, Refusals};
use crate::extent::{Extent, Metered};
use crate::reporting::{GOOD, misused, opened, status, stopped};
use crate::standard::{StandardError, StandardInput, answer_output, standard_output};
use crate::words::Words;
use b3_check::Name;
use b3_core::{Runtime, Work};
use hash_engines::{
    Cause, Digests, HashThreads, SumLine, SumLines, SumMode, SumRequest, SystemFiles, SystemInputs,
    Verdict, check, read_key, read_names, sum, sum_files, write_root,
};
use std::io::{LineWriter, Read};
use std::thread::Threads;
use store_command_line::{AskedMode, CheckOptions, Input, NameList, SumInputs, SumOptions};

// The requested mode, or the exit status if its key is not available.
fn mode_of<'a>(errors: StandardError<'_>, asked: AskedMode<'a>) -> Result<SumMode<'a>, u8> {
    let path = match asked {
        AskedMode::Hash => return Ok(SumMode::Hash),
        AskedMode::Keyed(key) => return Ok(SumMode::Keyed(key)),
        AskedMode::Derive(context) => return Ok(SumMode::Derive(context)),
        AskedMode::KeyFile(path) => path,
    };
    let mut file = opened(errors, path)?;
    match read_key(errors.runtime().alloc(), &mut file) {
        Ok(Some(key)) => Ok(SumMode::Keyed(key)),
        Ok(None) => Err(misused(
            errors,
            "--key-file takes a file of 32 bytes or of 64 hexadecimal digits; see b3store sum --help",
        )),
        Err(cause) => Err(stopped(errors, cause)),
    }
}

// The names that a reader returns, or the exit status if they are not available.
fn names_from<R: Read>(
    errors: StandardError<'_>,
    reader: &mut R,
    has_nuls: bool,
) -> Result<Vec<Name>, u8> {
    match read_names(errors.runtime().alloc(), reader, has_nuls) {
        Ok(Some(names)) => Ok(names),
        Ok(None) => Err(misused(
            errors,
            "a name in the list has a byte 0; --null takes names that are ended by one",
        )),
        Err(cause) => Err(stopped(errors, cause)),
    }
}

// The names in a list, or the exit status if they are not available.
fn names_in(errors: StandardError<'_>, names: &NameList<'_>) -> Result<Vec<Name>, u8> {
    match names.list {
        Input::Standard => names_from(errors, &mut errors.runtime().stdin(), names.has_nuls),
        Input::File(path) => names_from(errors, &mut opened(errors, path)?, names.has_nuls),
    }
}

// Writes the hash of standard input.
fn sum_standard<T: Threads + Runtime>(
    errors: StandardError<'_>,
    threads: &HashThreads<'_, T>,
    extent: &Extent,
    request: &SumRequest<'_>,
) -> Result<Verdict, Cause>
    requires { IsName request.now.line.name.now }
{
    let rt = errors.runtime();
    let mut work = Work::new(rt);
    let (mut input, mut writer) = (StandardInput::new(rt), answer_output(errors));
    extent.note_input(&input);
    let mut files = SystemFiles::new(*rt, threads, request.mode);
    match files.root_of_file_input(&mut input) {
        Some(root) => write_root(rt.alloc(), &request.line, root, &mut writer, &mut work)?,
        None => sum(threads, request, &mut input, &mut writer, &mut work)?,
    }
    Ok(Verdict::Good)
}

// Writes the hash of each named file.
fn sum_named<T: Threads + Runtime>(
    errors: StandardError<'_>,
    threads: &HashThreads<'_, T>,
    extent: &Extent,
    mode: SumMode<'_>,
    lines: &SumLines<'_>,
) -> Result<Verdict, Cause> {
    let rt = errors.runtime();
    let Ok(mut writer) = LineWriter::new(rt.alloc(), standard_output(rt)) else {
        return Err(Cause::OutOfMemory);
    };
    let files = SystemFiles::new(*rt, threads, mode);
    let input = Some(StandardInput::new(rt));
    let inputs = SystemInputs::new(files, input, errors);
    let mut inputs = Metered::new(rt, extent, inputs);
    let mut work = Work::new(rt);
    sum_files(rt.alloc(), lines, &mut inputs, &mut writer, &mut work)
}

// The exit status of `sum`, or that of something it needs and cannot get.
fn sum_inputs<T: Threads + Runtime>(
    errors: StandardError<'_>,
    threads: &T,
    extent: &Extent,
    options: &SumOptions<'_>,
    words: &Words,
) -> Result<u8, u8>
    requires { IsSumInRange options.now }
{
    let rt = errors.runtime();
    let mode = mode_of(errors, options.mode)?;
    let length = options.length;
    let threads = HashThreads {
        rt: threads,
        alloc: rt.alloc(),
        count: options.threads,
    };
    let names = match &options.inputs {
        SumInputs::Standard(name) => {
            let name = name.as_bytes();
            let line = SumLine { name, length };
            let request = SumRequest { line, mode };
            let ended = sum_standard(errors, &threads, extent, &request);
            return Ok(status(errors, ended));
        }
        SumInputs::Named(files) => match words.names(rt.alloc(), files.as_slice()) {
            Ok(names) => names,
            Err(_) => return Err(stopped(errors, Cause::OutOfMemory)),
        },
        SumInputs::Listed(names) => names_in(errors, names)?,
    };
    let names = names.as_slice();
    let lines = SumLines { names, length };
    let ended = sum_named(errors, &threads, extent, mode, &lines);
    Ok(status(errors, ended))
}

/// The exit status of `sum`.
pub(crate) fn sum_status<T: Threads + Runtime>(
    errors: StandardError<'_>,
    threads: &T,
    extent: &Extent,
    options: &SumOptions<'_>,
    words: &Words,
) -> u8
    requires { IsSumInRange options.now }
{
    match sum_inputs(errors, threads, extent, options, words) {
        Ok(status) => status,
        Err(status) => status,
    }
}

// Verifies the check lines that a reader returns, and explains those with faults. The name `-` in a line is standard input, unless the lines
// come from there; then it is a file.
fn check_lines<T: Threads + Runtime, R: Read>(
    threads: &T,
    extent: &Extent,
    options: &CheckOptions<'_>,
    refusals: &Refusals<'_>,
    reader: &mut R,
) -> Result<Verdict, Cause> {
    let errors = refusals.errors();
    let rt = errors.runtime();
    let Ok(mut writer) = LineWriter::new(rt.alloc(), standard_output(rt)) else {
        return Err(Cause::OutOfMemory);
    };
    let input = if refusals.is_standard() {
        None
    } else {
        Some(StandardInput::new(rt))
    };
    let threads = HashThreads {
        rt: threads,
        alloc: rt.alloc(),
        count: options.threads,
    };
    let files = SystemFiles::new(*rt, &threads, SumMode::Hash);
    let inputs = SystemInputs::new(files, input, errors);
    let digests = Digests::new(Metered::new(rt, extent, inputs), Work::new(rt));
    let mut names = ExplainedNames::new(refusals, digests);
    let verdict = check(rt.alloc(), options.report, &mut names, reader, &mut writer)?;
    refusals.finish_list();
    Ok(verdict)
}

// Verifies one list, and returns the exit status.
fn list_status<T: Threads + Runtime>(
    threads: &T,
    extent: &Extent,
    options: &CheckOptions<'_>,
    refusals: &Refusals<'_>,
    list: Input<'_>,
) -> u8 {
    let errors = refusals.errors();
    let ended = match list {
        Input::Standard => {
            let mut reader = errors.runtime().stdin();
            check_lines(threads, extent, options, refusals, &mut reader)
        }
        Input::File(path) => match opened(errors, path) {
            Ok(mut file) => check_lines(threads, extent, options, refusals, &mut file),
            Err(status) => return status,
        },
    };
    status(errors, ended)
}

/// The exit status of `check`: the highest among those of its lists.
pub(crate) fn check_status<T: Threads + Runtime>(
    errors: StandardError<'_>,
    threads: &T,
    extent: &Extent,
    options: &CheckOptions<'_>,
) -> u8 {
    if options.lists.is_empty() {
        let refusals = Refusals::new(errors, Input::Standard);
        return list_status(threads, extent, options, &refusals, Input::Standard);
    }
    let mut highest = GOOD;
    for text in options.lists.as_slice() {
        let list = Input::of(text);
        let refusals = Refusals::new(errors, list);
        highest = highest.max(list_status(threads, extent, options, &refusals, list));
    }
    highest
}
