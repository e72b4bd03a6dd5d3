//! Objects.

ghost use Rattle.std.specs.Prelude.{◌≡◌, ◌++◌, ◌-◌, drop, length, min, take};
ghost use Rattle.store_c.specs.Calls.{Asks, Commands, Fills, nothing, outcome, removed_seen};
ghost use Rattle.store_c.specs.Keeping.{OnBytes};
ghost use Rattle.store_core.specs.Commands.{as_is, forget_in, reply_seen};
ghost use Rattle.store_core.specs.Questions.{AnswersAs, fetch_in, holds_in};
ghost use Rattle.store_handle.specs.declared.Kept.TheVariants as kept;

use crate::answers::{AddressBytes, DONE, IS_OPEN, NO_VALUE, Why, done, report, report_done};
use crate::keeping::{is_open, keep, put_store, take_store};
use std::alloc::Global;
use store_core::{Address, Question, Refusal, Reply, Store, TenantId};
use store_handle::{Handle, Kept};

/// Has a closed handle keep an object that a tenant holds. Returns 65 if the handle is open. Refusals: 1, 12, 14.
#[unsafe(no_mangle)]
pub extern "C" fn b3store_fetch(
    alloc: Global,
    store: &mut Handle,
    tenant: u64,
    address: &AddressBytes,
    object: &mut Handle,
    why: &mut Why,
) -> u32
    ensures { Fills (λ s answer. AnswersAs as_is (reply_seen kept.Object (fetch_in s.state tenant address.now.bytes)) answer) store.old.kept (outcome result object.old.kept object.new.kept why.old why.new) store.new.kept }
{
    if is_open(object, alloc) {
        return IS_OPEN;
    }
    let Some(taken) = take_store(store, alloc) else {
        return NO_VALUE;
    };
    let found = fetch(
        &taken.store,
        TenantId::new(tenant),
        Address::new(address.bytes),
    );
    put_store(store, taken, alloc);
    keep(alloc, found, object, why)
}

fn fetch(store: &Store, tenant: TenantId, address: Address) -> Result<Kept, Refusal>
    ensures { AnswersAs as_is (reply_seen kept.Object (fetch_in store.now.state tenant address)) result }
{
    match store.ask(Question::Fetch { tenant, address }) {
        Ok(Reply::Object(object)) => Ok(Kept::Object(object)),
        Ok(_) => unreachable!(),
        Err(refusal) => Err(refusal),
    }
}

/// Stores the length in bytes of an object that a tenant holds. Refusals: 1, 12.
#[unsafe(no_mangle)]
pub extern "C" fn b3store_has(
    alloc: Global,
    store: &mut Handle,
    tenant: u64,
    address: &AddressBytes,
    len: &mut u64,
    why: &mut Why,
) -> u32
    ensures { Asks as_is (λ s answer. answer ≡ holds_in s.state tenant address.now.bytes) store.old.kept (outcome result len.old len.new why.old why.new) store.new.kept }
{
    let Some(taken) = take_store(store, alloc) else {
        return NO_VALUE;
    };
    let address = Address::new(address.bytes);
    let found = taken.store.holds(TenantId::new(tenant), address);
    put_store(store, taken, alloc);
    report(found, len, why)
}

/// Removes a tenant from the holders of an object. An object without holders is removed. Refusals: 1, 12, 13, 14.
#[unsafe(no_mangle)]
pub extern "C" fn b3store_forget(
    alloc: Global,
    store: &mut Handle,
    tenant: u64,
    address: &AddressBytes,
    why: &mut Why,
) -> u32
    ensures { Commands removed_seen nothing (λ s. forget_in s tenant address.now.bytes) store.old.kept (outcome result tt tt why.old why.new) store.new.kept }
{
    let Some(mut taken) = take_store(store, alloc) else {
        return NO_VALUE;
    };
    let address = Address::new(address.bytes);
    let removed = taken.store.forget(TenantId::new(tenant), address);
    put_store(store, taken, alloc);
    report_done(done(removed), why)
}

/// Copies the bytes of an object or of a text starting at `from`, as many as fit, and stores their number. It reads no store. Returns 64 if
/// the handle keeps neither.
#[unsafe(no_mangle)]
pub extern "C" fn b3store_read(
    alloc: Global,
    handle: &mut Handle,
    from: u64,
    room: &mut [u8],
    copied: &mut usize,
) -> u32
    ensures kept { handle.new.kept ≡ handle.old.kept }
    ensures bytes { OnBytes handle.old.kept
        (λ bytes. (result ≡ 0) × (copied.new ≡ min (length room.old) (length bytes - from)) × (room.new ≡ take (length room.old) (drop from bytes) ++ drop copied.new room.old))
        ((result ≡ 64) × (copied.new ≡ copied.old) × (room.new ≡ room.old)) }
{
    let Some(place) = handle.take(alloc) else {
        return NO_VALUE;
    };
    let answer = match &*place {
        Kept::Object(object) => {
            *copied = object.object().read(from, room);
            DONE
        }
        Kept::Text(text) => {
            *copied = copy(text.as_slice(), from, room);
            DONE
        }
        _ => NO_VALUE,
    };
    handle.put(place, alloc);
    answer
}

// Copies bytes starting at `from` to the front of `room`, as many as fit, and returns how many.
fn copy(bytes: &[u8], from: u64, room: &mut [u8]) -> usize
    ensures count { result ≡ min (length room.old) (length bytes.now - from) }
    ensures bytes { room.new ≡ take (length room.old) (drop from bytes.now) ++ drop result room.old }
{
    let from = from.min(bytes.len() as u64) as usize;
    let later = &bytes[from..];
    let count = later.len().min(room.len());
    room[..count].copy_from_slice(&later[..count]);
    count
}

/// Stores the length in bytes of an object or of a text. It reads no store. Returns 64 if the handle keeps neither.
#[unsafe(no_mangle)]
pub extern "C" fn b3store_len(alloc: Global, handle: &mut Handle, len: &mut u64) -> u32
    ensures kept { handle.new.kept ≡ handle.old.kept }
    ensures len { OnBytes handle.old.kept (λ bytes. (result ≡ 0) × (len.new ≡ length bytes)) ((result ≡ 64) × (len.new ≡ len.old)) }
{
    let Some(place) = handle.take(alloc) else {
        return NO_VALUE;
    };
    let answer = match &*place {
        Kept::Object(object) => {
            *len = object.object().len();
            DONE
        }
        Kept::Text(text) => {
            *len = text.len() as u64;
            DONE
        }
        _ => NO_VALUE,
    };
    handle.put(place, alloc);
    answer
}
