//! Exit statuses and messages on standard error. A standard error that cannot be written changes no status.

use crate::standard::StandardError;
use hash_engines::{Cause, FileFault, Verdict, fault_of};
use std::fs::File;
use std::io;
use std::io::ErrorKind;

pub(crate) const GOOD: u8 = 0;

pub(crate) const REFUSED: u8 = 1;

pub(crate) const USAGE: u8 = 2;

pub(crate) const STOPPED: u8 = 3;

/// Reports the cause, and returns the exit status.
pub(crate) fn stopped(errors: StandardError<'_>, cause: Cause) -> u8 {
    let _ = eprintln!(errors.cleared(); "b3store: {cause}");
    STOPPED
}

/// Reports a text, and returns the exit status of usage.
pub(crate) fn misused(errors: StandardError<'_>, text: &str) -> u8 {
    let _ = eprintln!(errors.cleared(); "b3store: {text}");
    USAGE
}

/// The exit status of an engine's end.
pub(crate) fn status(errors: StandardError<'_>, ended: Result<Verdict, Cause>) -> u8 {
    match ended {
        Ok(Verdict::Good) => GOOD,
        Ok(Verdict::Refused) => REFUSED,
        Err(cause) => stopped(errors, cause),
    }
}

/// Reports why a file cannot be opened, and returns the exit status.
pub(crate) fn unopened(errors: StandardError<'_>, path: &str, error: &io::Error) -> u8 {
    match fault_of(error) {
        FileFault::NoMemory => stopped(errors, Cause::OutOfMemory),
        FileFault::Failed(reason) => {
            let reason = reason.text();
            let _ = eprintln!(errors.cleared(); "b3store: {path}: {reason}");
            STOPPED
        }
    }
}

/// Opens a file for reading; if that fails, or it is a folder, reports why and returns the exit status.
pub(crate) fn opened(errors: StandardError<'_>, path: &str) -> Result<File, u8> {
    let file = match File::open(errors.runtime(), path) {
        Ok(file) => file,
        Err(error) => return Err(unopened(errors, path, &error)),
    };
    match file.metadata() {
        Ok(found) if found.is_dir() => {
            Err(unopened(errors, path, &ErrorKind::IsADirectory.into()))
        }
        _ => Ok(file),
    }
}
