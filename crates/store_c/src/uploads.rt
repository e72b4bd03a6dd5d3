//! Uploads.

ghost use Rattle.std.specs.Prelude.{◌≡◌};
ghost use Rattle.b3_core.specs.Work.{counted};
ghost use Rattle.store_c.specs.Answers.{bound_of, sealed_of};
ghost use Rattle.store_c.specs.Calls.{Asks, Commands, nothing, outcome};
ghost use Rattle.store_c.specs.Keeping.{OnStore};
ghost use Rattle.store_core.specs.Commands.{abort_in, as_is, begin_in, begin_open_in, fix_in, seal_as_in, seal_in, seal_work_in};
ghost use Rattle.store_core.specs.Questions.{plan_in};
ghost use Rattle.store_core.specs.Seen.{sealed_seen};

use crate::answers::{
    AddressBytes, NO_VALUE, SealedObject, UploadBound, Why, done, report, report_done,
    sealed_object, upload_bound, upload_number,
};
use crate::keeping::{put_store, take_store};
use b3_core::Work;
use std::alloc::Global;
use store_core::{Address, TenantId, UploadId};
use store_handle::Handle;

/// Begins an upload of `len` bytes, and stores its number. Refusals: 1, 5, 6, 13, 14.
#[unsafe(no_mangle)]
pub extern "C" fn b3store_begin(
    alloc: Global,
    store: &mut Handle,
    tenant: u64,
    len: u64,
    upload: &mut u64,
    why: &mut Why,
) -> u32
    ensures { Commands as_is (λ r. r.0) (λ s. begin_in s tenant len) store.old.kept (outcome result upload.old upload.new why.old why.new) store.new.kept }
{
    let Some(mut taken) = take_store(store, alloc) else {
        return NO_VALUE;
    };
    let begun = taken.store.begin(TenantId::new(tenant), len);
    put_store(store, taken, alloc);
    report(upload_number(begun), upload, why)
}

/// Begins an upload of at most `max_len` bytes, whose length is fixed later, and stores its number. Refusals: 1, 5, 6, 13, 14.
#[unsafe(no_mangle)]
pub extern "C" fn b3store_begin_open(
    alloc: Global,
    store: &mut Handle,
    tenant: u64,
    max_len: u64,
    upload: &mut u64,
    why: &mut Why,
) -> u32
    ensures { Commands as_is (λ r. r.0) (λ s. begin_open_in s tenant max_len) store.old.kept (outcome result upload.old upload.new why.old why.new) store.new.kept }
{
    let Some(mut taken) = take_store(store, alloc) else {
        return NO_VALUE;
    };
    let begun = taken.store.begin_open(TenantId::new(tenant), max_len);
    put_store(store, taken, alloc);
    report(upload_number(begun), upload, why)
}

/// Stores an upload's length, or its maximum length. Refusal: 7.
#[unsafe(no_mangle)]
pub extern "C" fn b3store_plan(
    alloc: Global,
    store: &mut Handle,
    upload: u64,
    plan: &mut UploadBound,
    why: &mut Why,
) -> u32
    ensures { Asks bound_of (λ s answer. answer ≡ plan_in s.state upload) store.old.kept (outcome result plan.old plan.new why.old why.new) store.new.kept }
{
    let Some(taken) = take_store(store, alloc) else {
        return NO_VALUE;
    };
    let found = taken.store.plan(UploadId::new(upload));
    put_store(store, taken, alloc);
    report(upload_bound(found), plan, why)
}

/// Fixes the length of an upload that was begun without one. Refusals: 7, 5, 15, 13, 14.
#[unsafe(no_mangle)]
pub extern "C" fn b3store_fix(
    alloc: Global,
    store: &mut Handle,
    upload: u64,
    len: u64,
    why: &mut Why,
) -> u32
    ensures { Commands as_is as_is (λ s. fix_in s upload len) store.old.kept (outcome result tt tt why.old why.new) store.new.kept }
{
    let Some(mut taken) = take_store(store, alloc) else {
        return NO_VALUE;
    };
    let fixed = taken.store.fix(UploadId::new(upload), len);
    put_store(store, taken, alloc);
    report_done(fixed, why)
}

/// Seals a complete upload, and stores its content's address. Refusals: 7, 16, 10, 6, 13, 14.
#[unsafe(no_mangle)]
pub extern "C" fn b3store_seal(
    alloc: Global,
    store: &mut Handle,
    upload: u64,
    sealed: &mut SealedObject,
    why: &mut Why,
    work: &mut Work,
) -> u32
    ensures step { Commands sealed_seen sealed_of (λ s. seal_in s upload) store.old.kept (outcome result sealed.old sealed.new why.old why.new) store.new.kept }
    ensures count { OnStore store.old.kept (λ s. work.new ≡ counted work.old (seal_work_in s.state upload)) (work.new ≡ work.old) }
{
    let Some(mut taken) = take_store(store, alloc) else {
        return NO_VALUE;
    };
    let filed = taken.store.seal(UploadId::new(upload), work);
    put_store(store, taken, alloc);
    report(sealed_object(filed), sealed, why)
}

/// Seals a complete upload whose content has this address. Refusals: 7, 16, 10, 11, 6, 13, 14.
#[unsafe(no_mangle)]
pub extern "C" fn b3store_seal_as(
    alloc: Global,
    store: &mut Handle,
    upload: u64,
    address: &AddressBytes,
    sealed: &mut SealedObject,
    why: &mut Why,
    work: &mut Work,
) -> u32
    ensures step { Commands sealed_seen sealed_of (λ s. seal_as_in s upload address.now.bytes) store.old.kept (outcome result sealed.old sealed.new why.old why.new) store.new.kept }
    ensures count { OnStore store.old.kept (λ s. work.new ≡ counted work.old (seal_work_in s.state upload)) (work.new ≡ work.old) }
{
    let Some(mut taken) = take_store(store, alloc) else {
        return NO_VALUE;
    };
    let address = Address::new(address.bytes);
    let filed = taken.store.seal_as(UploadId::new(upload), address, work);
    put_store(store, taken, alloc);
    report(sealed_object(filed), sealed, why)
}

/// Aborts an upload, and frees what it holds. Refusals: 7, 13, 14.
#[unsafe(no_mangle)]
pub extern "C" fn b3store_abort(
    alloc: Global,
    store: &mut Handle,
    upload: u64,
    why: &mut Why,
) -> u32
    ensures { Commands as_is nothing (λ s. abort_in s upload) store.old.kept (outcome result tt tt why.old why.new) store.new.kept }
{
    let Some(mut taken) = take_store(store, alloc) else {
        return NO_VALUE;
    };
    let aborted = taken.store.abort(UploadId::new(upload));
    put_store(store, taken, alloc);
    report_done(done(aborted), why)
}
