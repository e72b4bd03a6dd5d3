//! Commands on tenants.

ghost use Rattle.std.specs.Prelude.{◌≡◌, None, OnErr, OnOk};
ghost use Rattle.store_books.specs.Commands.{limit_refusal, tenant_refusal, with_limit, with_tenant};

use crate::books::Books;
use crate::content::Content;
use crate::index::AddressIndex;
use crate::limits::MAX_LIMIT;
use crate::refusal::Refusal;
use crate::tenant::{Tenant, change_limit};
use std::alloc::AllocError;
use store_upload::HeldParts;

impl<H: HeldParts, O: Content, I: AddressIndex> Books<H, O, I> {
    /// Why a tenant with that limit would not be opened: S2, S3, S13.
    pub fn tenant_refusal(&self, limit: u64) -> Option<Refusal>
        ensures { result ≡ tenant_refusal self.now limit }
    {
        if self.accounts.tenants.len() as u64 >= self.limits.tenants {
            return Some(Refusal::TenantsFull);
        }
        if limit > MAX_LIMIT {
            return Some(Refusal::LimitTooLarge);
        }
        self.full_refusal()
    }

    /// Opens a tenant with a limit in bytes. It gets the next number.
    pub fn open_tenant(&mut self, limit: u64) -> Result<(), AllocError>
        requires { tenant_refusal self.old limit ≡ None }
        ensures opened { OnOk result (self.new ≡ with_tenant self.old limit) }
        ensures unchanged { OnErr result (self.new ≡ self.old) }
    {
        self.accounts.tenants.push(Tenant {
            limit,
            used: 0,
            reserved: 0,
        })?;
        self.accounts.entry_count += 1;
        Ok(())
    }

    /// Why a tenant would not be given that limit: S1, S3, S4, S13.
    pub fn limit_refusal(&self, tenant: u64, limit: u64) -> Option<Refusal>
        ensures { result ≡ limit_refusal O.size self.now tenant limit }
    {
        if tenant >= self.accounts.tenants.len() as u64 {
            return Some(Refusal::NoTenant);
        }
        if limit > MAX_LIMIT {
            return Some(Refusal::LimitTooLarge);
        }
        let found = self.accounts.tenants[tenant as usize];
        let in_use = found.used + found.reserved;
        if limit < in_use {
            return Some(Refusal::BelowUse { in_use });
        }
        self.full_refusal()
    }

    /// Sets a tenant's limit in bytes.
    pub fn set_limit(&mut self, tenant: u64, limit: u64)
        requires { limit_refusal O.size self.old tenant limit ≡ None }
        ensures { self.new ≡ with_limit self.old tenant limit }
    {
        change_limit(&mut self.accounts.tenants, tenant, limit);
        self.accounts.entry_count += 1;
    }
}
