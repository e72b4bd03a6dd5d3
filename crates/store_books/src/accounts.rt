//! The accounts of the tenants, and sums over the books.

ghost use Rattle.std.specs.Prelude.{◌≡◌, ◌+◌, IfSome, IsSome, Some};
ghost use Rattle.std.specs.Map.{lookup, remove_entry};
ghost use Rattle.store_books.specs.Books.{ModelOwnedUpload, is_number};
ghost use Rattle.store_books.specs.Kept.{accounts_of, limits_of};
ghost use Rattle.store_books.specs.inner.Kept.{HasRoom, changed, held_by};

use crate::begun::OwnedUpload;
use crate::tenant::Tenant;
use std::collections::BTreeMap;
use store_upload::{HeldParts, Upload};

// By how much a command changes one tenant's use and reservation, and the running sums.
#[derive(Clone, Copy, Debug)]
pub(crate) struct Amounts {
    pub(crate) used: u64,
    pub(crate) reserved: u64,
    pub(crate) object_bytes: u64,
    pub(crate) held: u64,
    pub(crate) parts: u64,
}

pub(crate) const NONE: Amounts = Amounts {
    used: 0,
    reserved: 0,
    object_bytes: 0,
    held: 0,
    parts: 0,
};

// The tenants, and running sums over the books: the bytes of all objects, the bytes and the number of the parts that open uploads hold,
// and the number of commands accepted.
#[derive(Drop)]
pub(crate) struct Accounts {
    pub(crate) tenants: Vec<Tenant>,
    pub(crate) object_bytes: u64,
    pub(crate) held: u64,
    pub(crate) parts: u64,
    pub(crate) entry_count: u64,
}

impl Accounts {
    /// Counts a command of the tenant that subtracts `less`, and then adds `more`.
    pub(crate) fn change(&mut self, tenant: u64, less: Amounts, more: Amounts)
        requires { HasRoom (accounts_of self.old) tenant less more }
        ensures accounts { accounts_of self.new ≡ changed (accounts_of self.old) tenant less more }
        ensures limits { limits_of self.new.tenants.items ≡ limits_of self.old.tenants.items }
        ensures count { self.new.entry_count ≡ self.old.entry_count + 1 }
    {
        let account = &mut self.tenants[tenant as usize];
        account.used = account.used - less.used + more.used;
        account.reserved = account.reserved - less.reserved + more.reserved;
        self.object_bytes = self.object_bytes - less.object_bytes + more.object_bytes;
        self.held = self.held - less.held + more.held;
        self.parts = self.parts - less.parts + more.parts;
        self.entry_count += 1;
    }

    /// Counts a command that closes an upload and adds `more`: removes the upload, its reservation and what it holds. Returns the upload.
    pub(crate) fn take_out<H: HeldParts>(
        &mut self,
        uploads: &mut BTreeMap<u64, OwnedUpload<H>>,
        number: u64,
        more: Amounts,
    ) -> Upload<H>
        requires there { IsSome (lookup (is_number number) uploads.old.entries) }
        requires room { IfSome (lookup (is_number number) uploads.old.entries)
            (λ u. HasRoom (accounts_of self.old) u.tenant (held_by H.Part.len u.upload) more) }
        ensures accounts { (u : ModelOwnedUpload H.Part) → lookup (is_number number) uploads.old.entries ≡ Some u
            → accounts_of self.new ≡ changed (accounts_of self.old) u.tenant (held_by H.Part.len u.upload) more }
        ensures limits { limits_of self.new.tenants.items ≡ limits_of self.old.tenants.items }
        ensures count { self.new.entry_count ≡ self.old.entry_count + 1 }
        ensures removed { uploads.new.entries ≡ remove_entry (is_number number) uploads.old.entries }
        ensures given { IfSome (lookup (is_number number) uploads.old.entries) (λ u. result ≡ u.upload) }
    {
        let Some(begun) = uploads.remove(&number) else {
            unreachable!();
        };
        let tenant = begun.tenant();
        let upload = begun.into_upload();
        let less = Amounts {
            reserved: upload.length(),
            held: upload.held(),
            parts: upload.count(),
            ..NONE
        };
        self.change(tenant, less, more);
        upload
    }
}
