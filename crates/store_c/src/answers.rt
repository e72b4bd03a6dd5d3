//! What calls return, and the structs that they store. `include/b3store.h` has the same.

ghost use Rattle.std.specs.Prelude.{◌≡◌};
ghost use Rattle.store_c.specs.Answers.{bound_of, fault_number as fault_number_of, flag, progress_of, refusal_number, sealed_of, usage_of, why_of};
ghost use Rattle.store_c.specs.Calls.{Reports, nothing, outcome};
ghost use Rattle.store_core.specs.Commands.{as_is, reply_seen};

use b3_forest::{PartFault, Plan};
use store_core::{Held, Refusal, Sealed, TenantId, UploadId, Usage};

/// Success.
pub(crate) const DONE: u32 = 0;

/// Out of memory.
pub(crate) const NO_MEMORY: u32 = 14;

/// A plan of more than 2^44 bytes.
pub(crate) const TOO_LONG: u32 = 33;

/// Out of memory for a part.
pub(crate) const NO_PART_MEMORY: u32 = 41;

/// The handle is closed, or keeps another kind of value than the call needs.
pub(crate) const NO_VALUE: u32 = 64;

/// The handle is open already.
pub(crate) const IS_OPEN: u32 = 65;

/// No store has such limits.
pub(crate) const BAD_LIMITS: u32 = 66;

/// What a refusal carries: a number of bytes or an offset, or an address.
#[derive(Clone, Copy)]
#[repr(C)]
pub struct Why {
    pub number: u64,
    pub address: [u8; 32],
}

/// An address.
#[derive(Clone, Copy)]
#[repr(C)]
pub struct AddressBytes {
    pub bytes: [u8; 32],
}

/// The number of bytes that an upload holds, and the lowest offset that it doesn't hold, or 0 if `is_whole` is 1: it holds them all.
#[derive(Clone, Copy)]
#[repr(C)]
pub struct Progress {
    pub held: u64,
    pub missing: u64,
    pub is_whole: u32,
}

/// The address of a sealed upload's content. `is_new` is 1 if no object was filed there before, otherwise 0.
#[derive(Clone, Copy)]
#[repr(C)]
pub struct SealedObject {
    pub address: [u8; 32],
    pub is_new: u32,
}

/// A tenant's use, reservation and limit, in bytes.
#[derive(Clone, Copy)]
#[repr(C)]
pub struct TenantUsage {
    pub used: u64,
    pub reserved: u64,
    pub limit: u64,
}

/// An upload's length in bytes, or its maximum length if `is_open` is 1.
#[derive(Clone, Copy)]
#[repr(C)]
pub struct UploadBound {
    pub bound: u64,
    pub is_open: u32,
}

/// Stores a reply and returns 0, or stores what the refusal carries and returns its number.
pub(crate) fn report<C: Copy>(found: Result<C, Refusal>, reply: &mut C, why: &mut Why) -> u32
    ensures { Reports found (outcome result reply.old reply.new why.old why.new) }
{
    match found {
        Ok(found) => {
            *reply = found;
            DONE
        }
        Err(refusal) => refuse(refusal, why),
    }
}

/// Returns 0, or stores what the refusal carries and returns its number.
pub(crate) fn report_done(found: Result<(), Refusal>, why: &mut Why) -> u32
    ensures { Reports found (outcome result tt tt why.old why.new) }
{
    match found {
        Ok(()) => DONE,
        Err(refusal) => refuse(refusal, why),
    }
}

/// Stores what the refusal carries and returns its number.
pub(crate) fn refuse(refusal: Refusal, why: &mut Why) -> u32
    ensures number { result ≡ refusal_number refusal }
    ensures why { why.new ≡ why_of refusal why.old }
{
    match refusal {
        Refusal::NoTenant => 1,
        Refusal::TenantsFull => 2,
        Refusal::LimitTooLarge => 3,
        Refusal::BelowUse { in_use } => {
            why.number = in_use;
            4
        }
        Refusal::TooLong => 5,
        Refusal::OverQuota { free } => {
            why.number = free;
            6
        }
        Refusal::NoUpload => 7,
        Refusal::WrongPlan => 8,
        Refusal::Overlap { at } => {
            why.number = at;
            9
        }
        Refusal::Incomplete { missing } => {
            why.number = missing;
            10
        }
        Refusal::WrongAddress { found } => {
            why.address = found.bytes();
            11
        }
        Refusal::NotHeld => 12,
        Refusal::JournalFull => 13,
        Refusal::NoMemory => NO_MEMORY,
        Refusal::PastLast { end } => {
            why.number = end;
            15
        }
        Refusal::NotFixed => 16,
    }
}

/// The number of a fault of a part.
pub(crate) fn fault_number(fault: PartFault) -> u32
    ensures { result ≡ fault_number_of fault }
{
    match fault {
        PartFault::EmptyPart => 34,
        PartFault::OffAlign => 35,
        PartFault::PastEnd => 36,
        PartFault::Ragged => 37,
        PartFault::PartTooLong => 38,
        PartFault::NoMemory => NO_PART_MEMORY,
    }
}

/// Whether it is accepted, without the reply.
pub(crate) fn done<T: Drop>(found: Result<T, Refusal>) -> Result<(), Refusal>
    ensures { result ≡ reply_seen nothing found }
{
    let _reply = found?;
    Ok(())
}

pub(crate) fn tenant_number(opened: Result<TenantId, Refusal>) -> Result<u64, Refusal>
    ensures { result ≡ reply_seen as_is opened }
{
    Ok(opened?.number())
}

pub(crate) fn upload_number(begun: Result<(UploadId, Plan), Refusal>) -> Result<u64, Refusal>
    ensures { result ≡ reply_seen (λ r. r.0) begun }
{
    let (upload, _plan) = begun?;
    Ok(upload.number())
}

pub(crate) fn sealed_object(sealed: Result<Sealed, Refusal>) -> Result<SealedObject, Refusal>
    ensures { result ≡ reply_seen sealed_of sealed }
{
    let sealed = sealed?;
    Ok(SealedObject {
        address: sealed.address.bytes(),
        is_new: flag(sealed.new),
    })
}

pub(crate) fn upload_progress(held: Held) -> Progress
    ensures { result ≡ progress_of held }
{
    match held.missing {
        Some(missing) => Progress {
            held: held.held,
            missing,
            is_whole: 0,
        },
        None => Progress {
            held: held.held,
            missing: 0,
            is_whole: 1,
        },
    }
}

pub(crate) fn tenant_usage(usage: Result<Usage, Refusal>) -> Result<TenantUsage, Refusal>
    ensures { result ≡ reply_seen usage_of usage }
{
    let usage = usage?;
    Ok(TenantUsage {
        used: usage.used,
        reserved: usage.reserved,
        limit: usage.limit,
    })
}

pub(crate) fn upload_bound(plan: Result<Plan, Refusal>) -> Result<UploadBound, Refusal>
    ensures { result ≡ reply_seen bound_of plan }
{
    let plan = plan?;
    Ok(UploadBound {
        bound: plan.bound(),
        is_open: flag(plan.is_open()),
    })
}

fn flag(value: bool) -> u32
    ensures { result ≡ flag value }
{
    if value { 1 } else { 0 }
}
