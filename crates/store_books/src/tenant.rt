//! Tenants.

ghost use Rattle.std.specs.Prelude.{◌≡◌, ◌<◌, length, slice_set};
ghost use Rattle.store_books.specs.Kept.{limits_of, tenant_at};

// A tenant's limit, and running sums of its use and its reservation, in bytes.
#[derive(Clone, Copy, Debug)]
pub(crate) struct Tenant {
    pub(crate) limit: u64,
    pub(crate) used: u64,
    pub(crate) reserved: u64,
}

/// The tenant `number`.
pub(crate) fn tenant_of(tenants: &Vec<Tenant>, number: u64) -> Tenant
    requires { number < length tenants.now.items }
    ensures { result ≡ tenant_at tenants.now.items number }
{
    tenants[number as usize]
}

/// Changes a tenant's limit.
pub(crate) fn change_limit(tenants: &mut Vec<Tenant>, number: u64, limit: u64)
    requires { number < length tenants.old.items }
    ensures limit { tenants.new.items ≡ slice_set tenants.old.items number (record (tenant_at tenants.old.items number) { limit = limit }) }
    ensures limits { limits_of tenants.new.items ≡ slice_set (limits_of tenants.old.items) number limit }
{
    tenants[number as usize].limit = limit;
}
