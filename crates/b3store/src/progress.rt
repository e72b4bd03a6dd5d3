//! Shows the progress of work on standard error.

use crate::extent::Extent;
use crate::standard::StandardError;
use std::alloc::Global;
use std::sync::Wait;
use std::sync::atomic::{AtomicBool, Ordering};
use std::thread::{Parker, Threads};
use std::time::{Duration, Instant};
use std::{fs, thread};

// The interval between two reports of progress, in milliseconds.
const PAUSE: u64 = 200;

// Signals to the thread that reports progress that the work is done.
#[derive(Drop)]
struct Signal {
    parker: Parker,
    is_over: AtomicBool,
}

impl Signal {
    fn new() -> Signal {
        Signal {
            parker: Parker::new(),
            is_over: AtomicBool::new(false),
        }
    }

    // Waits, and returns whether the work continues.
    fn wait<T: Wait>(&self, waiter: &T) -> bool {
        self.parker
            .park_timeout(waiter, Duration::from_millis(PAUSE));
        !self.is_over.load(Ordering::SeqCst)
    }

    fn end(&self) {
        self.is_over.store(true, Ordering::SeqCst);
        self.parker.unpark();
    }
}

// The number of bytes that this process has read, as counted by the system.
fn bytes_read(rt: &HostRuntime) -> Option<u64> {
    let text = fs::read_to_string(rt, "/proc/self/io").ok()?;
    let line = text.lines().next()?;
    line.strip_prefix("rchar: ")?.parse().ok()
}

// What is known about the files; it is shown before the bytes.
fn files_text(alloc: Global, extent: &Extent) -> Option<String> {
    let text = match extent.files() {
        Some((done, files)) => format!(in alloc; "{done} of {files} files, "),
        None => Ok(String::new(alloc)),
    };
    text.ok()
}

// The number of MiB read, and of how many if that is known.
fn bytes_text(alloc: Global, extent: &Extent, mib: u64) -> Option<String> {
    let text = match extent.bytes() {
        Some(bytes) => {
            let all = bytes >> 20;
            let read = mib.min(all);
            format!(in alloc; "{read} of {all} MiB")
        }
        None => format!(in alloc; "{mib} MiB"),
    };
    text.ok()
}

// Shows what was done since the work began.
fn report(errors: StandardError<'_>, extent: &Extent, start: Instant) -> Option<()> {
    let rt = errors.runtime();
    let elapsed = start.elapsed(rt).ok()?;
    let seconds = elapsed.as_secs();
    if seconds == 0 {
        return None;
    }
    let mib = bytes_read(rt)? >> 20;
    let rate = mib / seconds;
    let files = files_text(rt.alloc(), extent)?;
    let bytes = bytes_text(rt.alloc(), extent, mib)?;
    let text = format!(in rt.alloc(); "b3store: {files}{bytes} in {seconds} s, {rate} MiB/s").ok()?;
    errors.show_progress(text.as_str());
    Some(())
}

// Reports progress until the work is done, and leaves the line empty.
fn report_on<T: Wait>(errors: StandardError<'_>, waiter: &T, extent: &Extent, signal: &Signal) {
    let Ok(start) = Instant::now(errors.runtime()) else {
        return;
    };
    for _ in waiter.forever() {
        if !signal.wait(waiter) {
            errors.end_progress();
            return;
        }
        let _ = report(errors, extent, start);
    }
}

/// Does some work. Meanwhile another thread reports the numbers of files done and bytes read, and of how many if that is known: after the
/// first second, five times a second, until the answer is written. If no thread can be started, or the system does not report the bytes read,
/// no progress is shown.
pub(crate) fn with_progress<T: Threads + Wait + Sync, F: FnOnce() -> u8>(
    errors: StandardError<'_>,
    threads: &T,
    extent: &Extent,
    work: F,
) -> u8
    requires { F.pre work }
{
    let signal = &Signal::new();
    thread::scope(
        thread::scope_env(),
        threads,
        move |scope| -> u8
            requires { F.pre work }
        {
            let teller = scope.spawn(move || report_on(errors, threads, extent, signal));
            let status = work();
            signal.end();
            if let Ok(teller) = teller {
                teller.join(threads);
            }
            status
        },
    )
}
