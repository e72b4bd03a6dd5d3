//! The engine of `upload`.

ghost use Rattle.std.specs.Prelude.{◌≡◌, ◌≢◌, ◌<◌, ◌++◌, codes, false, true, IfErr, IfOk, IfSome, OnErr, OnOk, Err, Ok};
ghost use Rattle.std.specs.Io.KnownBytes.{Appends, IsAtEnd};
ghost use Rattle.b3_forest.specs.Borrowed.{borrowed_bytes};
ghost use Rattle.store_books.specs.Books.{max_workers};
ghost use Rattle.store_ledger.specs.Shares.{all_parts};
ghost use Rattle.store_shared.specs.Cuts.{IsBadCut};
ghost use Rattle.store_shared.specs.Gates.{IsOwnFault};
ghost use Rattle.store_engines.specs.Uploads.{MayFail, SomeRefusal, WrotePrefix, WroteMemory, WroteUpload, failed_text, is_memory, journal_part, uploaded_text};
ghost use Rattle.edge.specs.Output.{WroteSome};
ghost use Rattle.store_engines.specs.inner.Uploads.{IsFiled, IsFiledInput, IsUploadReport};
ghost use Rattle.store_shared.specs.Made.{full_limits};

use crate::auditing::accepted_line;
use crate::journals::text_of;
use crate::streams::{input_stretches, read_stretches};
use b3_check::Line;
use b3_core::{CHUNK_LEN, Runtime};
use b3_forest::{BorrowedBytes, MAX_PART_BYTES, Stretches};
use edge::{Cause, Verdict, write_all};
use hash_engines::{SourceFile, Standing};
use std::alloc::{AllocError, Global};
use std::io::{Read, Write};
use std::sync::Wait;
use std::thread::Threads;
use store_core::{Address, Entry, Limits, Refusal, TenantId};
use store_ledger::{Accepted, Ledgers, Share};
use store_shared::{
    Locked, PassAll, Shared, UnnamedLedgers, UploadFaultKind, UploadRequest, lent_open_tenant,
};

/// How `upload` splits its input, and what it writes.
#[derive(Clone, Copy, Debug)]
pub struct UploadOptions {
    /// The number of workers that hash parts.
    pub workers: u32,
    /// The number of chunks, of 1024 bytes, in a part.
    pub part_chunks: u32,
    /// Whether the journal's text is written too.
    pub journal: bool,
}

// The tenant's limit, in bytes.
const LIMIT: u64 = 1 << 40;

// Whether it ran out of memory, in the store or elsewhere.
fn is_memory(kind: &UploadFaultKind) -> bool
    ensures { result ≡ is_memory kind.now }
{
    *kind == UploadFaultKind::NoMemory || *kind == UploadFaultKind::Refused(Refusal::NoMemory)
}

// Reports a failed upload. Out of memory is the engine's cause, even if the write of the report fails; everything else is a refusal.
fn refuse<W: Write>(alloc: Global, kind: UploadFaultKind, writer: &mut W) -> Result<Verdict, Cause>
    ensures reported { OnOk result (Appends (W.contents writer.old) (W.contents writer.new) (failed_text kind)) }
    ensures failed { OnErr result (WroteSome (W.contents writer.old) (W.contents writer.new) (failed_text kind)) }
    ensures verdict { IfOk result (λ verdict. verdict ≡ Verdict.Refused) }
    ensures memory { is_memory kind ≡ true → result ≡ Err Cause.OutOfMemory }
    ensures other { is_memory kind ≡ false → result ≡ Err Cause.OutOfMemory → W.contents writer.new ≡ W.contents writer.old }
    ensures cause { IfErr result (λ cause. cause ≢ Cause.CannotRead) }
{
    let memory = is_memory(&kind);
    let text = format!(in alloc; "refused {kind}\n")?;
    let written = write_all(writer, text.as_bytes());
    if memory {
        return Err(Cause::OutOfMemory);
    }
    written?;
    Ok(Verdict::Refused)
}

// A journal's text, if it is requested.
fn journal_part(alloc: Global, wanted: bool, entries: &[Entry]) -> Result<Vec<u8>, AllocError>
    ensures { IfOk result (λ text. text.items ≡ journal_part wanted entries.now) }
{
    if wanted {
        text_of(alloc, entries)
    } else {
        Ok(Vec::new(alloc))
    }
}

// A line with its newline, a line without one, and more text.
fn joined(line: Vec<u8>, second: &[u8], more: &[u8]) -> Result<Vec<u8>, AllocError>
    ensures { IfOk result (λ text. text.items ≡ line.items ++ (second.now ++ (codes "\n" ++ more.now))) }
{
    let mut text = line;
    text.extend_from_slice(second)?;
    text.extend_from_slice(b"\n")?;
    text.extend_from_slice(more)?;
    Ok(text)
}

// Whether the tenant holds an object of `len` bytes at the address: U1 with the store's refusal, U6 if it has another length.
fn held<L: Ledgers>(
    locked: &Locked<L>,
    tenant: TenantId,
    address: Address,
    len: u64,
) -> Result<(), UploadFaultKind>
    ensures filed { OnOk result (IsFiled locked.now.store.state address len) }
    ensures own { IfErr result IsOwnFault }
{
    match locked.store().fetch(tenant, address) {
        Ok(object) if object.len() == len => Ok(()),
        Ok(_object) => Err(UploadFaultKind::StrangePart),
        Err(refusal) => Err(UploadFaultKind::Refused(refusal)),
    }
}

// What is written about an upload: the check line of its address, what was accepted, and the journal's text if it is requested.
fn uploaded_text(
    alloc: Global,
    journal: bool,
    address: Address,
    accepted: Accepted,
    entries: &[Entry],
) -> Result<Vec<u8>, AllocError>
    ensures { IfOk result (λ text. text.items ≡ uploaded_text journal address accepted.bytes accepted.calls entries.now) }
{
    let line = Line::text_of(alloc, address.bytes(), b"-")?;
    let accepted = accepted_line(alloc, accepted.bytes, accepted.calls)?;
    let entries = journal_part(alloc, journal, entries)?;
    joined(line, accepted.as_bytes(), entries.as_slice())
}

// What is written about a filed upload, from the store, which is no longer shared.
fn report_of<L: Ledgers>(
    alloc: Global,
    journal: bool,
    address: Address,
    locked: Locked<L>,
    share: Share<L>,
) -> Result<Vec<u8>, AllocError>
    requires whole { share.parts ≡ all_parts }
    requires filed { IsFiled locked.store.state address share.bytes }
    ensures { IfOk result (λ text. IsUploadReport journal address share locked.store text.items) }
{
    let mut locked = locked;
    let mut share = share;
    let Ok(accepted) = locked.settle(&mut share) else {
        unreachable!()
    };
    uploaded_text(alloc, journal, address, accepted, locked.store().journal())
}

// Uploads bytes into a new store with one tenant, and checks that the tenant holds an object of that length at the address. The store that is
// returned is no longer shared.
fn filed<L: Ledgers, T: Threads + Wait + Sync + Runtime>(
    rt: &T,
    alloc: Global,
    options: UploadOptions,
    ledgers: UnnamedLedgers,
    bytes: BorrowedBytes<'_>,
) -> Result<(Address, Locked<L>, Share<L>), UploadFaultKind>
    requires bytes { (ledgers.bytes.name ≡ L.bytes_name) × (ledgers.bytes.parts ≡ L.bytes_parts) × (ledgers.bytes.parts ≡ all_parts) }
    requires calls { (ledgers.calls.name ≡ L.calls_name) × (ledgers.calls.parts ≡ L.calls_parts) × (ledgers.calls.parts ≡ all_parts) }
    requires history { ledgers.history ≡ L.history }
    requires limits { L.limits ≡ full_limits }
    ensures filed { IfOk result (λ filed. IsFiledInput options.part_chunks (borrowed_bytes bytes.entry) filed.0 filed.1.store filed.2) }
    ensures fault { IfErr result (λ kind. MayFail options kind) }
    ensures cut { OnOk result (IsBadCut options.part_chunks options.workers max_workers → ⊥) }
{
    let (shared, share): (Shared<L>, Share<L>) = Shared::new(alloc, Limits::full(), ledgers);
    let tenant = match lent_open_tenant(&mut *shared.lock(rt), LIMIT) {
        Ok(tenant) => tenant,
        Err(refusal) => return Err(UploadFaultKind::Refused(refusal)),
    };
    let request = UploadRequest {
        tenant,
        bytes,
        part_chunks: options.part_chunks as u64,
        workers: options.workers as u64,
        gate: &PassAll,
    };
    let (share, uploaded) = request.upload(rt, alloc, &shared, share);
    let address = match uploaded {
        Ok(sealed) => sealed.address,
        Err(fault) => return Err(fault.kind),
    };
    let locked = shared.close();
    held(&locked, tenant, address, request.bytes.len())?;
    Ok((address, locked, share))
}

// The number of bytes in a stretch: those of a part; if no part can have `part_chunks` chunks, those of the nearest part size.
fn stretch_len(part_chunks: u32) -> usize
    ensures { 0 < result }
{
    let len = part_chunks as usize * CHUNK_LEN;
    len.clamp(CHUNK_LEN, MAX_PART_BYTES as usize)
}

/// Uploads all its input into a store of one tenant, and finally checks that the store has it.
///
/// The upload uses the number of workers and the size of parts given in the options. Then it writes the input's check line, what was
/// accepted, and the journal's text if it is requested. A failed upload is reported as `refused` and its code: U1 with the store's refusal,
/// U2 to U6.
///
/// Numbers of workers or chunks that are out of range are reported as U2 and nothing else, unless the store refuses its tenant with S2 or
/// S13.
///
/// It stops at the first failed read or write, or if out of memory. `refused U5` and `refused U1 S14` are written first; the result is out
/// of memory even if that write fails. It writes nothing before it has read everything. If out of memory, it has written at most a prefix
/// of such a line; after a failed write, a prefix of its output.
pub fn upload<L: Ledgers, T: Threads + Wait + Sync + Runtime, R: Read, W: Write>(
    rt: &T,
    alloc: Global,
    options: UploadOptions,
    ledgers: UnnamedLedgers,
    reader: &mut R,
    writer: &mut W,
) -> Result<Verdict, Cause>
    requires bytes { (ledgers.bytes.name ≡ L.bytes_name) × (ledgers.bytes.parts ≡ L.bytes_parts) × (ledgers.bytes.parts ≡ all_parts) }
    requires calls { (ledgers.calls.name ≡ L.calls_name) × (ledgers.calls.parts ≡ L.calls_parts) × (ledgers.calls.parts ≡ all_parts) }
    requires history { ledgers.history ≡ L.history }
    requires limits { L.limits ≡ full_limits }
    ensures written { result ≡ Ok Verdict.Good → IfSome (R.remaining reader.old) (λ input.
        WroteUpload options input (W.contents writer.old) (W.contents writer.new)) }
    ensures refused { result ≡ Ok Verdict.Refused → SomeRefusal options (W.contents writer.old) (W.contents writer.new) }
    ensures bad_cut { IsBadCut options.part_chunks options.workers max_workers → result ≢ Ok Verdict.Good }
    ensures end { OnOk result (IsAtEnd (R.remaining reader.new)) }
    ensures silent { result ≡ Err Cause.CannotRead → W.contents writer.new ≡ W.contents writer.old }
    ensures memory { result ≡ Err Cause.OutOfMemory → WroteMemory (W.contents writer.old) (W.contents writer.new) }
    ensures failed { result ≡ Err Cause.CannotWrite → IfSome (R.remaining reader.old) (λ input.
        WrotePrefix options input (W.contents writer.old) (W.contents writer.new)) }
{
    let input = read_stretches(alloc, reader, stretch_len(options.part_chunks))?;
    upload_stretches::<L, T, W>(rt, alloc, options, ledgers, &input, writer)
}

/// Uploads all that an input has left, as `upload` does. If it is an open regular file with at least 16 MiB left, several threads read it:
/// as many as the machine has processors, and at most 16. If one of them cannot read, one thread reads everything.
pub fn upload_input<
    L: Ledgers,
    T: Threads + Wait + Sync + Runtime,
    F: SourceFile + Drop + Sync,
    I: Standing<F>,
    W: Write,
>(
    rt: &T,
    alloc: Global,
    options: UploadOptions,
    ledgers: UnnamedLedgers,
    input: &mut I,
    writer: &mut W,
) -> Result<Verdict, Cause>
    requires bytes { (ledgers.bytes.name ≡ L.bytes_name) × (ledgers.bytes.parts ≡ L.bytes_parts) × (ledgers.bytes.parts ≡ all_parts) }
    requires calls { (ledgers.calls.name ≡ L.calls_name) × (ledgers.calls.parts ≡ L.calls_parts) × (ledgers.calls.parts ≡ all_parts) }
    requires history { ledgers.history ≡ L.history }
    requires limits { L.limits ≡ full_limits }
    ensures written { result ≡ Ok Verdict.Good → IfSome (I.remaining input.old) (λ bytes.
        WroteUpload options bytes (W.contents writer.old) (W.contents writer.new)) }
    ensures refused { result ≡ Ok Verdict.Refused → SomeRefusal options (W.contents writer.old) (W.contents writer.new) }
    ensures bad_cut { IsBadCut options.part_chunks options.workers max_workers → result ≢ Ok Verdict.Good }
    ensures end { OnOk result (IsAtEnd (I.remaining input.new)) }
    ensures silent { result ≡ Err Cause.CannotRead → W.contents writer.new ≡ W.contents writer.old }
    ensures memory { result ≡ Err Cause.OutOfMemory → WroteMemory (W.contents writer.old) (W.contents writer.new) }
    ensures failed { result ≡ Err Cause.CannotWrite → IfSome (I.remaining input.old) (λ bytes.
        WrotePrefix options bytes (W.contents writer.old) (W.contents writer.new)) }
{
    let bytes = input_stretches(rt, alloc, input, stretch_len(options.part_chunks))?;
    upload_stretches::<L, T, W>(rt, alloc, options, ledgers, &bytes, writer)
}

// Uploads the bytes in stretches, as `upload` does.
fn upload_stretches<L: Ledgers, T: Threads + Wait + Sync + Runtime, W: Write>(
    rt: &T,
    alloc: Global,
    options: UploadOptions,
    ledgers: UnnamedLedgers,
    input: &Stretches,
    writer: &mut W,
) -> Result<Verdict, Cause>
    requires bytes { (ledgers.bytes.name ≡ L.bytes_name) × (ledgers.bytes.parts ≡ L.bytes_parts) × (ledgers.bytes.parts ≡ all_parts) }
    requires calls { (ledgers.calls.name ≡ L.calls_name) × (ledgers.calls.parts ≡ L.calls_parts) × (ledgers.calls.parts ≡ all_parts) }
    requires history { ledgers.history ≡ L.history }
    requires limits { L.limits ≡ full_limits }
    ensures written { result ≡ Ok Verdict.Good → WroteUpload options input.now.bytes (W.contents writer.old) (W.contents writer.new) }
    ensures refused { result ≡ Ok Verdict.Refused → SomeRefusal options (W.contents writer.old) (W.contents writer.new) }
    ensures bad_cut { IsBadCut options.part_chunks options.workers max_workers → result ≢ Ok Verdict.Good }
    ensures read { result ≢ Err Cause.CannotRead }
    ensures memory { result ≡ Err Cause.OutOfMemory → WroteMemory (W.contents writer.old) (W.contents writer.new) }
    ensures failed { result ≡ Err Cause.CannotWrite → WrotePrefix options input.now.bytes (W.contents writer.old) (W.contents writer.new) }
{
    let bytes = BorrowedBytes::Stretches(input);
    let (address, locked, share) = match filed::<L, T>(rt, alloc, options, ledgers, bytes) {
        Ok(filed) => filed,
        Err(kind) => return refuse(alloc, kind, writer),
    };
    let text = report_of(alloc, options.journal, address, locked, share)?;
    write_all(writer, text.as_slice())?;
    Ok(Verdict::Good)
}
