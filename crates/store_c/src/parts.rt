//! Parts of uploads.

ghost use Rattle.std.specs.Prelude.{◌≡◌, ◌≢◌, IfErr, None, OnErr, OnOk, Some, if◌then◌else◌, length, nat_lt};
ghost use Rattle.b3_core.specs.Work.{NeverFalls, counted};
ghost use Rattle.b3_forest.specs.Parts.{chunks_of, planned};
ghost use Rattle.b3_forest.specs.Pieces.{part_work, piece_count};
ghost use Rattle.store_c.specs.Answers.{IsPartAnswer, part_refusal, progress_of};
ghost use Rattle.store_c.specs.Calls.{Commands, Refuses, Takes, outcome};
ghost use Rattle.store_c.specs.Keeping.{OnPart, OnStore, IfClosed};
ghost use Rattle.store_core.specs.Commands.{StepsAs, as_is, put_in, put_result, put_work_in};
ghost use Rattle.store_upload.specs.Uploads.{max_bytes};
ghost use Rattle.store_handle.specs.declared.Kept.TheVariants as kept;

use crate::answers::{
    DONE, IS_OPEN, NO_PART_MEMORY, NO_VALUE, Progress, TOO_LONG, Why, fault_number, refuse,
    upload_progress,
};
use crate::keeping::{
    TakenPart, is_open as is_handle_open, put_part, put_store, take_part, take_store,
};
use b3_core::Work;
use b3_forest::{Plan, Prepared};
use std::alloc::Global;
use store_core::{Held, Refusal, Refused, Store, UploadId};
use store_handle::{Handle, Kept};

/// Copies and hashes bytes as the part at an offset of any upload of `bound` bytes or, if `is_open`, of at most `bound` bytes. A closed
/// handle keeps the part. It reads no store. Returns 65 if the handle is open, 33 to 38 (F1 to F6) if these bytes are no part of such an
/// upload, 41 if there is no memory.
#[unsafe(no_mangle)]
pub extern "C" fn b3store_prepare(
    alloc: Global,
    part: &mut Handle,
    bound: u64,
    is_open: bool,
    offset: u64,
    bytes: &[u8],
    work: &mut Work,
) -> u32
    ensures made { result ≡ 0 → part.new.kept ≡ Some (kept.Part (planned (record { bound = bound; is_open = is_open }) offset bytes.now)) }
    ensures unchanged { result ≢ 0 → part.new.kept ≡ part.old.kept }
    ensures why { IfClosed part.old.kept (IsPartAnswer result (part_refusal (record { bound = bound; is_open = is_open }) offset (length bytes.now))) (result ≡ 65) }
    ensures count { result ≡ 0 → work.new ≡ counted work.old (part_work (length bytes.now) (piece_count (chunks_of (record { offset = offset; bytes = bytes.now })))) }
    ensures never_falls { NeverFalls work.old work.new }
{
    if is_handle_open(part, alloc) {
        return IS_OPEN;
    }
    let Some(plan) = plan_of(bound, is_open) else {
        return TOO_LONG;
    };
    if let Some(fault) = plan.part_fault(offset, bytes.len() as u64) {
        return fault_number(fault);
    }
    let Ok(copied) = Vec::from_slice(alloc, bytes) else {
        return NO_PART_MEMORY;
    };
    let Ok(prepared) = Prepared::make(alloc, &plan, offset, copied, work) else {
        return NO_PART_MEMORY;
    };
    match Box::new(alloc, Kept::Part(prepared)) {
        Ok(place) => {
            part.put(place, alloc);
            DONE
        }
        Err(_) => NO_PART_MEMORY,
    }
}

/// Puts a part to an open upload, and stores what the upload then holds. An accepted part is moved out of its handle, which is then closed;
/// a refused one stays in it. Returns 64 if a handle keeps no such value. Refusals: 7, 8, 9, 15, 13, 14.
#[unsafe(no_mangle)]
pub extern "C" fn b3store_put(
    alloc: Global,
    store: &mut Handle,
    upload: u64,
    part: &mut Handle,
    held: &mut Progress,
    why: &mut Why,
    work: &mut Work,
) -> u32
    ensures step { OnPart part.old.kept
        (λ p. Commands as_is progress_of (λ s. put_in s upload p) store.old.kept (outcome result held.old held.new why.old why.new) store.new.kept)
        (Refuses 64 (outcome result held.old held.new why.old why.new) × (store.new.kept ≡ store.old.kept)) }
    ensures moved { result ≡ 0 → part.new.kept ≡ None }
    ensures back { result ≢ 0 → part.new.kept ≡ part.old.kept }
    ensures count { result ≡ 0 → OnStore store.old.kept (λ s. OnPart part.old.kept (λ p. work.new ≡ counted work.old (put_work_in s.state upload p)) ⊥) ⊥ }
    ensures uncounted { result ≢ 0 → work.new ≡ work.old }
{
    let Some(mut taken) = take_store(store, alloc) else {
        return NO_VALUE;
    };
    let answer = put(alloc, &mut taken.store, upload, part, held, why, work);
    put_store(store, taken, alloc);
    answer
}

fn put(
    alloc: Global,
    store: &mut Store,
    upload: u64,
    part: &mut Handle,
    held: &mut Progress,
    why: &mut Why,
    work: &mut Work,
) -> u32
    ensures step { OnPart part.old.kept
        (λ p. Takes as_is progress_of (put_in store.old.state upload p) store.old (outcome result held.old held.new why.old why.new) store.new)
        (Refuses 64 (outcome result held.old held.new why.old why.new) × (store.new ≡ store.old)) }
    ensures moved { result ≡ 0 → part.new.kept ≡ None }
    ensures back { result ≢ 0 → part.new.kept ≡ part.old.kept }
    ensures count { result ≡ 0 → OnPart part.old.kept (λ p. work.new ≡ counted work.old (put_work_in store.old.state upload p)) ⊥ }
    ensures uncounted { result ≢ 0 → work.new ≡ work.old }
{
    let Some(taken) = take_part(part, alloc) else {
        return NO_VALUE;
    };
    let TakenPart {
        part: prepared,
        place,
    } = taken;
    match put_prepared(store, upload, prepared, work) {
        Ok(now) => {
            *held = upload_progress(now);
            DONE
        }
        Err(refused) => {
            put_part(part, refused.value, place, alloc);
            refuse(refused.reason, why)
        }
    }
}

/// Puts a part to the open upload of this number.
pub(crate) fn put_prepared(
    store: &mut Store,
    upload: u64,
    part: Prepared,
    work: &mut Work,
) -> Result<Held, Refused<Refusal, Prepared>>
    ensures step { StepsAs as_is (put_in store.old.state upload part) store.old (put_result result) store.new }
    ensures back { IfErr result (λ refused. refused.value ≡ part) }
    ensures count { OnOk result (work.new ≡ counted work.old (put_work_in store.old.state upload part)) }
    ensures uncounted { OnErr result (work.new ≡ work.old) }
{
    store.put(UploadId::new(upload), part, work)
}

fn plan_of(bound: u64, is_open: bool) -> Option<Plan>
    ensures { result ≡ (if nat_lt max_bytes bound then None else Some (record { bound = bound; is_open = is_open })) }
{
    let plan = if is_open {
        Plan::open(bound)
    } else {
        Plan::new(bound)
    };
    plan.ok()
}
