//! Lists of what a store has. A handle keeps a list as it was when it was made, and a program copies its rows in pages.

ghost use Rattle.store_c.specs.Calls.{Fills, outcome};
ghost use Rattle.store_core.specs.Commands.{as_is, reply_seen};
ghost use Rattle.store_core.specs.Questions.{AnswersAs, list_in, tenants_in, uploads_in};
ghost use Rattle.std.specs.Prelude.{Ok};
ghost use Rattle.store_handle.specs.declared.Kept.TheVariants as kept;

use crate::answers::{IS_OPEN, NO_VALUE, Why};
use crate::keeping::{is_open, keep, put_store, take_store};
use std::alloc::Global;
use store_core::{Question, Refusal, Reply, Store, TenantId};
use store_handle::{Handle, Kept};

/// Has a closed handle keep the list of the objects that a tenant holds, in filing order. Returns 65 if the handle is open. Refusals: 1, 14.
#[unsafe(no_mangle)]
pub extern "C" fn b3store_list(
    alloc: Global,
    store: &mut Handle,
    tenant: u64,
    list: &mut Handle,
    why: &mut Why,
) -> u32
    ensures { Fills (λ s answer. AnswersAs as_is (reply_seen kept.Objects (list_in s.state tenant)) answer) store.old.kept (outcome result list.old.kept list.new.kept why.old why.new) store.new.kept }
{
    if is_open(list, alloc) {
        return IS_OPEN;
    }
    let Some(taken) = take_store(store, alloc) else {
        return NO_VALUE;
    };
    let found = objects(&taken.store, TenantId::new(tenant));
    put_store(store, taken, alloc);
    keep(alloc, found, list, why)
}

fn objects(store: &Store, tenant: TenantId) -> Result<Kept, Refusal>
    ensures { AnswersAs as_is (reply_seen kept.Objects (list_in store.now.state tenant)) result }
{
    match store.ask(Question::List { tenant }) {
        Ok(Reply::List(list)) => Ok(Kept::Objects(list)),
        Ok(_) => unreachable!(),
        Err(refusal) => Err(refusal),
    }
}

/// Has a closed handle keep the list of a tenant's open uploads, by number. Returns 65 if the handle is open. Refusals: 1, 14.
#[unsafe(no_mangle)]
pub extern "C" fn b3store_uploads(
    alloc: Global,
    store: &mut Handle,
    tenant: u64,
    list: &mut Handle,
    why: &mut Why,
) -> u32
    ensures { Fills (λ s answer. AnswersAs as_is (reply_seen kept.Uploads (uploads_in s.state tenant)) answer) store.old.kept (outcome result list.old.kept list.new.kept why.old why.new) store.new.kept }
{
    if is_open(list, alloc) {
        return IS_OPEN;
    }
    let Some(taken) = take_store(store, alloc) else {
        return NO_VALUE;
    };
    let found = uploads(&taken.store, TenantId::new(tenant));
    put_store(store, taken, alloc);
    keep(alloc, found, list, why)
}

fn uploads(store: &Store, tenant: TenantId) -> Result<Kept, Refusal>
    ensures { AnswersAs as_is (reply_seen kept.Uploads (uploads_in store.now.state tenant)) result }
{
    match store.ask(Question::Uploads { tenant }) {
        Ok(Reply::Uploads(list)) => Ok(Kept::Uploads(list)),
        Ok(_) => unreachable!(),
        Err(refusal) => Err(refusal),
    }
}

/// Has a closed handle keep the list of every tenant's use, reservation and limit, by number. Returns 65 if the handle is open. Refusal: 14.
#[unsafe(no_mangle)]
pub extern "C" fn b3store_tenants(
    alloc: Global,
    store: &mut Handle,
    list: &mut Handle,
    why: &mut Why,
) -> u32
    ensures { Fills (λ s answer. AnswersAs as_is (Ok (kept.Tenants (tenants_in s.state))) answer) store.old.kept (outcome result list.old.kept list.new.kept why.old why.new) store.new.kept }
{
    if is_open(list, alloc) {
        return IS_OPEN;
    }
    let Some(taken) = take_store(store, alloc) else {
        return NO_VALUE;
    };
    let found = tenants(&taken.store);
    put_store(store, taken, alloc);
    keep(alloc, found, list, why)
}

fn tenants(store: &Store) -> Result<Kept, Refusal>
    ensures { AnswersAs as_is (Ok (kept.Tenants (tenants_in store.now.state))) result }
{
    match store.ask(Question::Tenants) {
        Ok(Reply::Tenants(list)) => Ok(Kept::Tenants(list)),
        Ok(_) => unreachable!(),
        Err(refusal) => Err(refusal),
    }
}
