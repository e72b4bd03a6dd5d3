//! The result of an upload, as text.

use std::alloc::{AllocError, Global};
use store_core::{Entry, Store};
use store_ledger::Accepted;
use store_shared::UploadFault;

// A fault, and the upload that it leaves.
fn fault_text(alloc: Global, fault: &UploadFault) -> Result<String, AllocError> {
    match fault.left {
        Some(upload) => format!(in alloc; "{} left {upload}", fault.kind),
        None => fault.kind.to_string(alloc),
    }
}

/// The result of an upload that returns whether its bytes were new, and by how much its share rose.
pub(crate) fn reported_text(
    alloc: Global,
    answer: Result<bool, UploadFault>,
    put: Accepted,
) -> Result<String, AllocError> {
    let reported = match answer {
        Ok(true) => String::from_str(alloc, "new")?,
        Ok(false) => String::from_str(alloc, "known")?,
        Err(fault) => fault_text(alloc, &fault)?,
    };
    format!(in alloc; "{} {} {}", reported.as_str(), put.bytes, put.calls)
}

// The number of entries, and their lines in order.
fn journal_text(alloc: Global, entries: &[Entry]) -> Result<String, AllocError> {
    let mut text = format!(in alloc; "entries {}", entries.len())?;
    let mut mark = ": ";
    for entry in entries {
        text.push_str(mark)?;
        text.push_str(entry.to_string(alloc)?.as_str())?;
        mark = " / ";
    }
    Ok(text)
}

/// What was accepted, what the store holds, and its journal.
pub(crate) fn store_text(
    alloc: Global,
    accepted: Accepted,
    store: &Store,
) -> Result<String, AllocError> {
    let Accepted { bytes, calls } = accepted;
    let totals = store.totals();
    let journal = journal_text(alloc, store.journal())?;
    format!(in alloc; "accepted {bytes} {calls}, {totals}, {}", journal.as_str())
}

// Length and entry of a part of the pattern of 2049 bytes, split into parts of one chunk.
fn part_of(digit: u8) -> (u64, &'static str) {
    match digit {
        b'0' => (1024, "put 1 0 1024 / "),
        b'1' => (1024, "put 1 1024 1024 / "),
        _ => (1, "put 1 2048 1 / "),
    }
}

/// The result of an upload of the pattern of 2049 bytes in three parts, with its neighbour, that failed and was aborted after these parts
/// were put in this order. Each part is named by its digit.
pub(crate) fn aborted_after(alloc: Global, fault: &str, parts: &str) -> Result<String, AllocError> {
    let mut bytes = 0u64;
    let mut puts = String::new(alloc);
    for digit in parts.as_bytes() {
        let (len, entry) = part_of(*digit);
        bytes = bytes.saturating_add(len);
        puts.push_str(entry)?;
    }
    let calls = parts.len() as u64;
    let (all_bytes, all_calls) = (bytes.saturating_add(1), calls.saturating_add(1));
    let entries = calls.saturating_add(5);
    let left = "objects 0 bytes 0 uploads 1 held 1 parts 1";
    let begun = "tenant 0 6147 / begin 0 0 2049 / put 0 2048 1 / begin 1 0 2049";
    format!(in alloc;
        "{fault} {bytes} {calls}, accepted {all_bytes} {all_calls}, {left}, entries {entries}: {begun} / {}abort 1",
        puts.as_str()
    )
}
