//! Tenants.

ghost use Rattle.std.specs.Prelude.{◌≡◌, length};
ghost use Rattle.store_books.specs.Questions.{usage_in};
ghost use Rattle.store_c.specs.Answers.{usage_of};
ghost use Rattle.store_c.specs.Calls.{Asks, Commands, outcome};
ghost use Rattle.store_core.specs.Commands.{as_is, open_tenant_in, set_limit_in};

use crate::answers::{
    NO_VALUE, TenantUsage, Why, report, report_done, tenant_number, tenant_usage,
};
use crate::keeping::{put_store, take_store};
use std::alloc::Global;
use store_core::TenantId;
use store_handle::Handle;

/// Opens a tenant with a limit in bytes, and stores its number. Refusals: 2, 3, 13, 14.
#[unsafe(no_mangle)]
pub extern "C" fn b3store_open_tenant(
    alloc: Global,
    store: &mut Handle,
    limit: u64,
    tenant: &mut u64,
    why: &mut Why,
) -> u32
    ensures { Commands as_is as_is (λ s. open_tenant_in s limit) store.old.kept (outcome result tenant.old tenant.new why.old why.new) store.new.kept }
{
    let Some(mut taken) = take_store(store, alloc) else {
        return NO_VALUE;
    };
    let opened = taken.store.open_tenant(limit);
    put_store(store, taken, alloc);
    report(tenant_number(opened), tenant, why)
}

/// Sets a tenant's limit in bytes. Refusals: 1, 3, 4, 13, 14.
#[unsafe(no_mangle)]
pub extern "C" fn b3store_set_limit(
    alloc: Global,
    store: &mut Handle,
    tenant: u64,
    limit: u64,
    why: &mut Why,
) -> u32
    ensures { Commands as_is as_is (λ s. set_limit_in s tenant limit) store.old.kept (outcome result tt tt why.old why.new) store.new.kept }
{
    let Some(mut taken) = take_store(store, alloc) else {
        return NO_VALUE;
    };
    let set = taken.store.set_limit(TenantId::new(tenant), limit);
    put_store(store, taken, alloc);
    report_done(set, why)
}

/// Stores a tenant's use, reservation and limit. Refusal: 1.
#[unsafe(no_mangle)]
pub extern "C" fn b3store_usage(
    alloc: Global,
    store: &mut Handle,
    tenant: u64,
    usage: &mut TenantUsage,
    why: &mut Why,
) -> u32
    ensures { Asks usage_of (λ s answer. answer ≡ usage_in length s.state tenant) store.old.kept (outcome result usage.old usage.new why.old why.new) store.new.kept }
{
    let Some(taken) = take_store(store, alloc) else {
        return NO_VALUE;
    };
    let found = taken.store.usage(TenantId::new(tenant));
    put_store(store, taken, alloc);
    report(tenant_usage(found), usage, why)
}
