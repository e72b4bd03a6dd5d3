//! Questions.

ghost use Rattle.std.specs.Prelude.{◌≡◌, IfOk, map, slice_get};
ghost use Rattle.store_books.specs.Books.{IsRisingFrom, ModelOwnedUpload};
ghost use Rattle.store_books.specs.Forgetting.{label_of};
ghost use Rattle.store_books.specs.Pages.{page_of};
ghost use Rattle.store_books.specs.Questions.{holders_at, listed, open_upload_of, open_uploads, usage_in, usages_of};

use crate::address::Address;
use crate::begun::OwnedUpload;
use crate::books::{Books, UploadStatus, Usage};
use crate::content::{Content, ObjectLabel};
use crate::index::AddressIndex;
use crate::page::ObjectPage;
use crate::refusal::Refusal;
use crate::upload_id::UploadId;
use std::alloc::{AllocError, Global};
use std::collections::btree_map::Iter;
use store_upload::HeldParts;

impl<H: HeldParts, O: Content, I: AddressIndex> Books<H, O, I> {
    /// A tenant's use, reservation and limit. Refusal: S1.
    pub fn usage(&self, tenant: u64) -> Result<Usage, Refusal>
        ensures { result ≡ usage_in O.size self.now tenant }
    {
        if tenant >= self.accounts.tenants.len() as u64 {
            return Err(Refusal::NoTenant);
        }
        let found = self.accounts.tenants[tenant as usize];
        Ok(Usage {
            used: found.used,
            reserved: found.reserved,
            limit: found.limit,
        })
    }

    /// A tenant's limit in bytes; `None` if there is no such tenant.
    pub fn limit(&self, tenant: u64) -> Option<u64>
        ensures { result ≡ slice_get self.now.tenant_limits tenant }
    {
        self.accounts
            .tenants
            .get(tenant as usize)
            .map(|found| found.limit)
    }

    /// The addresses and lengths of all objects, in filing order.
    pub fn labels(&self, alloc: Global) -> Result<Vec<ObjectLabel>, AllocError>
        ensures { IfOk result (λ labels. labels.items ≡ map (λ o. label_of O.size O.address o.content) self.now.objects) }
    {
        self.catalog.labels(alloc)
    }

    /// The tenants that hold the object at the address, by number. The time is linear in the number of all pairs of a tenant and an
    /// object that it holds.
    pub fn holders_of(&self, alloc: Global, address: Address) -> Result<Vec<u64>, AllocError>
        ensures { IfOk result (λ holders. holders.items ≡ holders_at O.address self.now.objects address) }
    {
        self.catalog.holders_of(alloc, address)
    }

    /// The open uploads with their numbers, by number.
    pub fn uploads(&self) -> Iter<'_, u64, OwnedUpload<H>>
        ensures { result ≡ self.now.uploads }
    {
        self.uploads.iter()
    }

    /// The addresses and lengths of the objects that a tenant holds, in filing order.
    pub fn list(&self, alloc: Global, tenant: u64) -> Result<Vec<(Address, u64)>, AllocError>
        ensures { IfOk result (λ list. list.items ≡ listed O.size O.address tenant self.now.objects) }
    {
        self.catalog.list(alloc, tenant)
    }

    /// Those of the objects that a tenant holds whose numbers are at least `from`, and at most `count` of them, in filing order.
    pub fn page(
        &self,
        alloc: Global,
        tenant: u64,
        from: u64,
        count: u64,
    ) -> Result<ObjectPage, AllocError>
        ensures page { IfOk result (λ page. page ≡ page_of O.size O.address tenant from count self.now.objects) }
        ensures rising { IsRisingFrom 0 (map (λ o. o.number) self.now.objects) }
    {
        self.catalog.page(alloc, tenant, from, count)
    }

    /// The open uploads of a tenant, by number. The time is linear in the number of all open uploads.
    pub fn list_uploads(&self, alloc: Global, tenant: u64) -> Result<Vec<UploadStatus>, AllocError>
        ensures { IfOk result (λ list. list.items ≡ open_uploads H.Part.len tenant self.now.uploads) }
    {
        let mut list = Vec::new(alloc);
        for (number, begun) in self.uploads.iter() {
            if begun.tenant() == tenant {
                list.push(open_upload(*number, begun))?;
            }
        }
        Ok(list)
    }

    /// The use, reservation and limit of each tenant, by number.
    pub fn usages(&self, alloc: Global) -> Result<Vec<Usage>, AllocError>
        ensures { IfOk result (λ list. list.items ≡ usages_of O.size self.now) }
    {
        let mut list = Vec::new(alloc);
        for tenant in 0..self.tenants() {
            let Ok(usage) = self.usage(tenant) else {
                unreachable!();
            };
            list.push(usage)?;
        }
        Ok(list)
    }
}

// What is reported about the open upload `number`.
fn open_upload<H: HeldParts>(number: u64, begun: &OwnedUpload<H>) -> UploadStatus
    ensures { result ≡ open_upload_of H.Part.len (number, begun.now) }
{
    let upload = begun.upload();
    UploadStatus {
        upload: UploadId::new(number),
        bound: upload.plan().bound(),
        end: upload.end(),
        held: upload.held(),
    }
}
