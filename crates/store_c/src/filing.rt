//! Filing bytes in one call.

ghost use Rattle.std.specs.Prelude.{◌≡◌, ◌⊎◌, IfErr, IfOk};
ghost use Rattle.b3_core.specs.Work.{NeverFalls};
ghost use Rattle.store_c.specs.Calls.{Refuses, outcome};
ghost use Rattle.store_c.specs.Filing.{Aborts, Files, FilesIn, IsUnfiled, Puts, SealedThen, Seals, no_upload, part_for};
ghost use Rattle.store_core.specs.Commands.{StepsAs, seal_in};
ghost use Rattle.store_core.specs.Seen.{sealed_seen};

use crate::answers::{
    NO_PART_MEMORY, NO_VALUE, SealedObject, TOO_LONG, Why, refuse, report, sealed_object,
};
use crate::keeping::{put_store, take_store};
use crate::parts::put_prepared;
use b3_core::Work;
use b3_forest::{Plan, Prepared};
use std::alloc::Global;
use store_core::{Refusal, Sealed, Store, TenantId, UploadId};
use store_handle::Handle;

/// A part of more than 2^24 bytes.
const PART_TOO_LONG: u32 = 38;

/// The number that stands for no upload.
const NO_UPLOAD: u64 = u64::MAX;

/// Files up to 2^24 bytes for a tenant: begins an upload, puts the bytes, and seals it. If a step after the begin is refused, the upload is
/// aborted; if that is refused too, its number is stored in `left`, and otherwise 2^64-1. Returns 33 or 38 if there are more bytes, 41 if
/// there is no memory for them, 64 if the handle keeps no store; then nothing changes. Refusals: those of begin, put and seal.
#[unsafe(no_mangle)]
pub extern "C" fn b3store_file(
    alloc: Global,
    store: &mut Handle,
    tenant: u64,
    bytes: &[u8],
    sealed: &mut SealedObject,
    left: &mut u64,
    why: &mut Why,
    work: &mut Work,
) -> u32
    ensures files { IsUnfiled result ⊎ FilesIn store.old.kept tenant bytes.now (outcome result sealed.old sealed.new why.old why.new) left.new store.new.kept }
    ensures unfiled { IsUnfiled result → (store.new.kept ≡ store.old.kept) × Refuses result (outcome result sealed.old sealed.new why.old why.new) × (left.new ≡ left.old) }
    ensures never_falls { NeverFalls work.old work.new }
{
    let part = match part_of(alloc, bytes, work) {
        Ok(part) => part,
        Err(answer) => return answer,
    };
    let Some(mut taken) = take_store(store, alloc) else {
        return NO_VALUE;
    };
    let len = bytes.len() as u64;
    let answer = file(&mut taken.store, tenant, len, part, sealed, left, why, work);
    put_store(store, taken, alloc);
    answer
}

// The bytes as the only part of their upload, or none if there are no bytes.
fn part_of(alloc: Global, bytes: &[u8], work: &mut Work) -> Result<Option<Prepared>, u32>
    ensures part { IfOk result (λ part. part ≡ part_for bytes.now) }
    ensures unfiled { IfErr result (λ answer. IsUnfiled answer) }
    ensures never_falls { NeverFalls work.old work.new }
{
    if bytes.is_empty() {
        return Ok(None);
    }
    let Ok(plan) = Plan::new(bytes.len() as u64) else {
        return Err(TOO_LONG);
    };
    if plan.part_fault(0, bytes.len() as u64).is_some() {
        return Err(PART_TOO_LONG);
    }
    let Ok(copied) = Vec::from_slice(alloc, bytes) else {
        return Err(NO_PART_MEMORY);
    };
    match Prepared::make(alloc, &plan, 0, copied, work) {
        Ok(part) => Ok(Some(part)),
        Err(_) => Err(NO_PART_MEMORY),
    }
}

fn file(
    store: &mut Store,
    tenant: u64,
    len: u64,
    part: Option<Prepared>,
    sealed: &mut SealedObject,
    left: &mut u64,
    why: &mut Why,
    work: &mut Work,
) -> u32
    ensures files { Files tenant len part store.old (outcome result sealed.old sealed.new why.old why.new) left.new store.new }
    ensures never_falls { NeverFalls work.old work.new }
{
    *left = NO_UPLOAD;
    match store.begin(TenantId::new(tenant), len) {
        Ok((upload, _plan)) => put_and_seal(store, upload.number(), part, sealed, left, why, work),
        Err(refusal) => refuse(refusal, why),
    }
}

fn put_and_seal(
    store: &mut Store,
    upload: u64,
    part: Option<Prepared>,
    sealed: &mut SealedObject,
    left: &mut u64,
    why: &mut Why,
    work: &mut Work,
) -> u32
    requires { left.old ≡ no_upload }
    ensures puts { Puts upload part store.old (outcome result sealed.old sealed.new why.old why.new) left.new store.new }
    ensures never_falls { NeverFalls work.old work.new }
{
    if let Some(part) = part {
        if let Err(refused) = put_prepared(store, upload, part, work) {
            undo(store, upload, left);
            return refuse(refused.reason, why);
        }
    }
    seal_or_undo(store, upload, sealed, left, why, work)
}

fn seal_or_undo(
    store: &mut Store,
    upload: u64,
    sealed: &mut SealedObject,
    left: &mut u64,
    why: &mut Why,
    work: &mut Work,
) -> u32
    requires { left.old ≡ no_upload }
    ensures seals { Seals upload store.old (outcome result sealed.old sealed.new why.old why.new) left.new store.new }
    ensures never_falls { NeverFalls work.old work.new }
{
    let filed = seal(store, upload, work);
    undo_unless(&filed, store, upload, left);
    report(sealed_object(filed), sealed, why)
}

fn seal(store: &mut Store, upload: u64, work: &mut Work) -> Result<Sealed, Refusal>
    ensures step { StepsAs sealed_seen (seal_in store.old.state upload) store.old result store.new }
    ensures never_falls { NeverFalls work.old work.new }
{
    store.seal(UploadId::new(upload), work)
}

// Aborts an upload, unless it was sealed.
fn undo_unless(filed: &Result<Sealed, Refusal>, store: &mut Store, upload: u64, left: &mut u64)
    requires { left.old ≡ no_upload }
    ensures { SealedThen upload filed.now store.old left.new store.new }
{
    match filed {
        Ok(_) => (),
        Err(_) => undo(store, upload, left),
    }
}

// Aborts an upload. If that is refused, the upload's number is stored.
fn undo(store: &mut Store, upload: u64, left: &mut u64)
    requires { left.old ≡ no_upload }
    ensures { Aborts upload store.old left.new store.new }
{
    if store.abort(UploadId::new(upload)).is_err() {
        *left = upload;
    }
}
