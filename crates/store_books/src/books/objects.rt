//! Commands on objects.

ghost use Rattle.std.specs.Prelude.{◌≡◌, IfNone, IfOk, IfSome, IsSome, None, OnErr, OnOk, Some, length, nat_le, if◌then◌else◌};
ghost use Rattle.store_books.specs.Books.{Filed, object_at, upload_at};
ghost use Rattle.store_books.specs.Commands.{file_refusal, finish_refused as finish_refused_of, forget_refusal, holding_refusal, ready_refusal, with_filed, with_forgotten, with_joined};
ghost use Rattle.store_upload.specs.Uploads.{length_of};

use crate::accounts::{Amounts, NONE};
use crate::address::Address;
use crate::books::Books;
use crate::content::Content;
use crate::index::AddressIndex;
use crate::refusal::Refusal;
use crate::tenant::tenant_of;
use std::alloc::AllocError;
use store_upload::{FinishFault, HeldParts, Upload};

impl<H: HeldParts, O: Content, I: AddressIndex> Books<H, O, I> {
    /// Why the upload would not be sealed, before its content is read: S7, S16, S10.
    pub fn ready_refusal(&self, number: u64) -> Option<Refusal>
        ensures { result ≡ ready_refusal H.Part.len self.now number }
    {
        let Some(begun) = self.uploads.get(&number) else {
            return Some(Refusal::NoUpload);
        };
        begun.upload().finish_fault().map(finish_refused)
    }

    /// Why a complete upload, whose content has this address, would not be filed: S7, S6, S13.
    pub fn file_refusal(&self, number: u64, address: Address) -> Option<Refusal>
        ensures { result ≡ file_refusal O.size O.address self.now number address }
    {
        let Some(begun) = self.uploads.get(&number) else {
            return Some(Refusal::NoUpload);
        };
        let tenant = begun.tenant();
        let len = begun.upload().length();
        let Some(known) = self.catalog.known(address, tenant) else {
            return self.full_refusal();
        };
        let found = tenant_of(&self.accounts.tenants, tenant);
        let free = found.limit - found.used - found.reserved;
        if known.is_over(len + free) {
            return Some(Refusal::OverQuota { free });
        }
        self.full_refusal()
    }

    /// The object at the address.
    pub fn object(&self, address: Address) -> Option<&O>
        ensures found { IfSome result (λ content. (o : Filed O) × (object_at O.address self.now address ≡ Some o) × (content.now ≡ o.content)) }
        ensures none { IfNone result (object_at O.address self.now address ≡ None) }
    {
        self.catalog.content(address)
    }

    /// Files the content of a complete upload, a new object, as the last one. Returns the upload.
    pub fn seal_new(&mut self, number: u64, content: O) -> Result<Upload<H>, AllocError>
        requires ready { ready_refusal H.Part.len self.old number ≡ None }
        requires free { file_refusal O.size O.address self.old number (O.address content) ≡ None }
        requires new { object_at O.address self.old (O.address content) ≡ None }
        requires size { IfSome (upload_at self.old number) (λ u. O.size content ≡ length_of u.upload) }
        ensures filed { OnOk result (self.new ≡ with_filed self.old number content) }
        ensures given { IfOk result (λ freed. IfSome (upload_at self.old number) (λ u. freed ≡ u.upload)) }
        ensures unchanged { OnErr result (self.new ≡ self.old) }
    {
        let Some(begun) = self.uploads.get(&number) else {
            unreachable!();
        };
        let tenant = begun.tenant();
        let len = begun.upload().length();
        let entry = self.accounts.entry_count;
        self.catalog.file_last(content, tenant, entry)?;
        let more = Amounts {
            used: len,
            object_bytes: len,
            ..NONE
        };
        Ok(self.accounts.take_out(&mut self.uploads, number, more))
    }

    /// Adds the tenant of a complete upload to the holders of the object at its content's address. Returns the upload.
    pub fn seal_known(&mut self, number: u64, address: Address) -> Result<Upload<H>, AllocError>
        requires ready { ready_refusal H.Part.len self.old number ≡ None }
        requires free { file_refusal O.size O.address self.old number address ≡ None }
        requires known { IsSome (object_at O.address self.old address) }
        ensures joined { OnOk result (self.new ≡ with_joined O.address self.old number address) }
        ensures given { IfOk result (λ freed. IfSome (upload_at self.old number) (λ u. freed ≡ u.upload)) }
        ensures unchanged { OnErr result (self.new ≡ self.old) }
    {
        let Some(begun) = self.uploads.get(&number) else {
            unreachable!();
        };
        let tenant = begun.tenant();
        let Some(known) = self.catalog.known(address, tenant) else {
            unreachable!();
        };
        self.catalog.add_holder(address, tenant)?;
        let used = known.more_used();
        let more = Amounts { used, ..NONE };
        Ok(self.accounts.take_out(&mut self.uploads, number, more))
    }

    /// Why a question of the tenant about the object would be refused: S1, S12.
    pub fn holding_refusal(&self, tenant: u64, address: Address) -> Option<Refusal>
        ensures { result ≡ holding_refusal O.address self.now tenant address }
    {
        if tenant >= self.accounts.tenants.len() as u64 {
            return Some(Refusal::NoTenant);
        }
        match self.catalog.known(address, tenant) {
            Some(known) if known.is_holder => None,
            _ => Some(Refusal::NotHeld),
        }
    }

    /// Why the tenant would not be removed from the holders of the object: S1, S12, S13.
    pub fn forget_refusal(&self, tenant: u64, address: Address) -> Option<Refusal>
        ensures { result ≡ forget_refusal O.address self.now tenant address }
    {
        match self.holding_refusal(tenant, address) {
            Some(refusal) => Some(refusal),
            None => self.full_refusal(),
        }
    }

    /// Removes the tenant from the holders of the object. Returns the object if it has no other holder.
    pub fn forget(&mut self, tenant: u64, address: Address) -> Option<O>
        requires { forget_refusal O.address self.old tenant address ≡ None }
        ensures left { self.new ≡ with_forgotten O.address self.old tenant address }
        ensures freed { IfSome (object_at O.address self.old address) (λ o. result ≡ (if nat_le (length o.holders) 1 then Some o.content else None)) }
    {
        let Some(known) = self.catalog.known(address, tenant) else {
            unreachable!();
        };
        let freed = self.catalog.drop_holder(address, tenant, known.is_alone);
        let less = Amounts {
            used: known.size,
            object_bytes: known.freed(),
            ..NONE
        };
        self.accounts.change(tenant, less, NONE);
        freed
    }
}

// The store's refusal for an incomplete upload.
fn finish_refused(fault: FinishFault) -> Refusal
    ensures { result ≡ finish_refused_of fault }
{
    match fault {
        FinishFault::NotFixed => Refusal::NotFixed,
        FinishFault::Incomplete { missing } => Refusal::Incomplete { missing },
    }
}
