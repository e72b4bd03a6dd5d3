//! Entries, the text of a journal, and what it leaves. What is outside the grammar is in tests/cases/journal-lines.table, journals that are not
//! legal are in journal-entries.table, and sums in audit-totals.table.

use b3_tests::FailingWriter;
use std::alloc::Global;
use std::collections::BTreeMap;
use std::io::{self, ErrorKind, Write};
use std::slice;
use std::test::Fail;
use store_journal::{
    Address, Entry, IllegalEntry, JournalWriter, ObjectLabel, ReadError, ReplayError, Replayed,
    ReplayedUpload, TenantId, UploadId, entry_lines, read_entry, read_journal, replay, write_entry,
    write_journal,
};

// Has every kind of entry; leaves an upload with a closed plan, one without an end, and one whose end is below its bound.
const ENTRIES: &str = "b3store-journal 2
tenant 0 50
tenant 1 9000
begin 0 1 5
put 0 0 5
seal 0 0000000000000000000000000000000000000000000000000000000000000000 new
begin 1 0 0
seal 1 1111111111111111111111111111111111111111111111111111111111111111 new
begin 2 0 5
put 2 0 5
seal 2 0000000000000000000000000000000000000000000000000000000000000000 known
begin 3 1 2049
put 3 2048 1
put 3 0 1024
begin 4 0 0
abort 4
open 5 1 2048
open 6 1 2049
fix 6 1025
begin 7 0 0
seal 7 2222222222222222222222222222222222222222222222222222222222222222 new
forget 0 2222222222222222222222222222222222222222222222222222222222222222
limit 0 5
";

// An upload that is left: its number, tenant, bound and end, and its parts: lengths by offset.
struct Begun(u64, u64, u64, Option<u64>, &'static [(u64, u64)]);

const UPLOADS: &[Begun] = &[
    Begun(3, 1, 2049, Some(2049), &[(0, 1024), (2048, 1)]),
    Begun(5, 1, 2048, None, &[]),
    Begun(6, 1, 2049, Some(1025), &[]),
];

// Whether the limits of all tenants are those that the journal leaves.
fn are_limits(replayed: &Replayed) -> bool {
    let (first, second) = (TenantId::new(0), TenantId::new(1));
    let are_limits = replayed.limit(first) == Some(5) && replayed.limit(second) == Some(9000);
    replayed.tenants() == 2 && are_limits
}

fn is_held(alloc: Global, replayed: &Replayed, address: Address, by: &[u64]) -> bool {
    match replayed.holders_of(alloc, address) {
        Ok(holders) => holders.as_slice() == by,
        Err(_) => false,
    }
}

// Whether the objects and their holders are those that the journal leaves.
fn are_objects(alloc: Global, replayed: &Replayed) -> bool {
    let Ok(objects) = replayed.objects(alloc) else {
        return false;
    };
    let [first, second] = objects.as_slice() else {
        return false;
    };
    let (zeros, ones) = (Address::new([0; 32]), Address::new([0x11; 32]));
    let are_held = is_held(alloc, replayed, zeros, &[0, 1]) && is_held(alloc, replayed, ones, &[0]);
    let are_labels = is_label(first, zeros, 5) && is_label(second, ones, 0);
    are_held && are_labels
}

fn is_label(label: &ObjectLabel, address: Address, len: u64) -> bool {
    label.address == address && label.len == len
}

fn are_parts(parts: &BTreeMap<u64, u64>, wanted: &[(u64, u64)]) -> bool {
    let mut are_same = parts.len() == wanted.len();
    for (offset, len) in wanted {
        are_same = are_same && parts.get(offset) == Some(len);
    }
    are_same
}

fn is_upload(number: u64, left: &ReplayedUpload, wanted: &Begun) -> bool {
    let Begun(upload, tenant, bound, end, parts) = wanted;
    let open = left.upload();
    let is_begun = number == *upload && left.tenant() == *tenant;
    let is_plan = open.plan().bound() == *bound && open.end() == *end;
    is_begun && is_plan && are_parts(open.parts(), parts)
}

fn are_uploads(replayed: &Replayed) -> bool {
    let mut count = 0usize;
    let mut are_same = true;
    for (number, left) in replayed.uploads() {
        are_same = are_same
            && match UPLOADS.get(count) {
                Some(wanted) => is_upload(*number, left, wanted),
                None => false,
            };
        count = count.saturating_add(1);
    }
    are_same && count == UPLOADS.len()
}

// Whether everything that is left is what the journal leaves.
fn is_left(alloc: Global, replayed: &Replayed) -> bool {
    let accepted = replayed.accepted();
    let are_sums = accepted.bytes == 1035 && accepted.calls == 4;
    are_sums && are_limits(replayed) && are_objects(alloc, replayed) && are_uploads(replayed)
}

#[test]
fn all_that_a_journal_leaves_is_listed(rt: HostRuntime) {
    let entries = read_journal(rt.alloc(), ENTRIES.as_bytes()).expect(&rt, "a journal");
    let replayed = replay(rt.alloc(), entries.as_slice()).expect(&rt, "a legal journal");
    assert!(rt; is_left(rt.alloc(), &replayed));
}

#[test]
fn a_journal_is_written_again(rt: HostRuntime) -> Result<(), Fail> {
    let alloc = rt.alloc();
    let text = ENTRIES.as_bytes();
    let entries = read_journal(alloc, text)?;
    let replayed = replay(alloc, entries.as_slice())?;
    let totals = replayed.totals();
    let mut copy = Vec::new(alloc);
    write_journal(entries.as_slice(), &mut copy)?;
    assert!(rt; copy.as_slice() == text && totals.object_bytes == 5);
    Ok(())
}

// Whether the text of an entry is read as the entry.
fn is_read_back(alloc: Global, entry: &Entry) -> bool {
    match entry.to_string(alloc) {
        Ok(line) => read_entry(line.as_bytes()) == Ok(*entry),
        Err(_) => false,
    }
}

// The text of the entries, written one by one.
fn written(alloc: Global, entries: &[Entry]) -> Option<Vec<u8>> {
    let mut text = Vec::new(alloc);
    for entry in entries {
        if !is_read_back(alloc, entry) || write_entry(entry, &mut text).is_err() {
            return None;
        }
    }
    Some(text)
}

// The text of a journal that was written as it grew.
fn kept(alloc: Global, entries: &[Entry]) -> Option<Vec<u8>> {
    let Ok(mut log) = JournalWriter::new(Vec::new(alloc)) else {
        return None;
    };
    for entry in entries {
        if log.append(entry).is_err() || log.flush().is_err() {
            return None;
        }
    }
    Some(log.into_writer())
}

// Whether the entries are the journal's, whichever call writes them.
fn are_written(alloc: Global, entries: &[Entry]) -> bool {
    let Some((_, lines)) = ENTRIES.split_once('\n') else {
        return false;
    };
    let lines = lines.as_bytes();
    written(alloc, entries).is_some_and(|text| text.as_slice() == lines)
        && entry_lines(alloc, entries).is_ok_and(|text| text.as_slice() == lines)
        && kept(alloc, entries).is_some_and(|text| text.as_slice() == ENTRIES.as_bytes())
}

#[test]
fn entries_are_read_and_written(rt: HostRuntime) {
    let entries = read_journal(rt.alloc(), ENTRIES.as_bytes()).expect(&rt, "a journal");
    assert!(rt; are_written(rt.alloc(), entries.as_slice()));
}

// Whether the line is no entry.
fn is_refused(line: &[u8]) -> bool {
    match read_entry(line) {
        Ok(_entry) => false,
        Err(bad) => bad.line == 1 && bad.code() == "J2",
    }
}

#[test]
fn refusals_are_reported(rt: HostRuntime) {
    let illegal = IllegalEntry { number: 7 };
    assert!(rt; is_refused(b"begin 0") && is_refused(b"abort 0\n") && illegal.code() == "J1");
    let (read, replayed) = (ReadError::NoMemory, ReplayError::NoMemory);
    let text = format!(in rt.alloc(); "{read}, {replayed}").expect(&rt, "memory for the text");
    assert!(rt; text.as_str() == "out of memory, out of memory");
}

// A put of one byte, whose line has 13 bytes after the header's 18.
fn put() -> Entry {
    Entry::Put {
        upload: UploadId::new(0),
        offset: 1024,
        len: 1,
    }
}

// Whether writing a journal with one entry ends with the call that fails.
fn is_written_until(entry: &Entry, fails: u64) -> bool {
    let mut writer = FailingWriter { calls: 0, fails };
    write_journal(slice::from_ref(entry), &mut writer).is_err() && writer.calls == fails
}

// Whether the header or the entry is the last call of a journal that grows.
fn is_kept_until(entry: &Entry, fails: u64) -> bool {
    let Ok(mut log) = JournalWriter::new(FailingWriter { calls: 0, fails }) else {
        return fails <= 18;
    };
    log.append(entry).is_err() && log.into_writer().calls == fails
}

#[test]
fn a_failed_write_is_the_last(rt: HostRuntime) {
    let entry = put();
    for fails in 1..32u64 {
        assert!(rt; is_written_until(&entry, fails) && is_kept_until(&entry, fails));
    }
}

// A writer that records whether it was flushed, and may fail then.
#[derive(Drop)]
struct Flushed {
    is_flushed: bool,
    fails: bool,
}

impl Write for Flushed {
    fn write(&mut self, bytes: &[u8]) -> io::Result<usize> {
        Ok(bytes.len())
    }

    fn flush(&mut self) -> io::Result<()> {
        self.is_flushed = true;
        if self.fails {
            Err(ErrorKind::WriteZero.into())
        } else {
            Ok(())
        }
    }
}

// Whether a flush reaches a writer, and fails if the writer's does.
fn is_flushed(fails: bool) -> bool {
    let writer = Flushed {
        is_flushed: false,
        fails,
    };
    let Ok(mut log) = JournalWriter::new(writer) else {
        return false;
    };
    log.flush().is_err() == fails && log.into_writer().is_flushed
}

#[test]
fn a_flush_reaches_the_writer_and_its_failure_is_reported(rt: HostRuntime) {
    assert!(rt; is_flushed(false) && is_flushed(true));
}
