//! Commands on open uploads.

ghost use Rattle.std.specs.Prelude.{◌≡◌, IfErr, IfNone, IfSome, None, OnErr, OnOk, Some};
ghost use Rattle.store_books.specs.Books.{ModelOwnedUpload, upload_at};
ghost use Rattle.store_books.specs.Commands.{abort_refusal, add_refused as add_refused_of, begin_refusal, fix_refusal, fix_refused as fix_refused_of};
ghost use Rattle.store_books.specs.Commands.{put_refusal, with_begun, with_fixed, with_put, without_upload};
ghost use Rattle.store_upload.specs.Uploads.{Fits};

use crate::accounts::{Amounts, NONE};
use crate::begun::{self, OwnedUpload};
use crate::books::Books;
use crate::content::Content;
use crate::index::AddressIndex;
use crate::refusal::Refusal;
use std::alloc::AllocError;
use store_upload::{AddFault, FixFault, HeldParts, Length, MAX_BYTES, Plan, Upload};

impl<H: HeldParts, O: Content, I: AddressIndex> Books<H, O, I> {
    /// Why an upload with that bound would not be begun: S1, S5, S6, S13.
    pub fn begin_refusal(&self, tenant: u64, bound: u64) -> Option<Refusal>
        ensures { result ≡ begin_refusal O.size self.now tenant bound }
    {
        if tenant >= self.accounts.tenants.len() as u64 {
            return Some(Refusal::NoTenant);
        }
        if bound > MAX_BYTES {
            return Some(Refusal::TooLong);
        }
        let found = self.accounts.tenants[tenant as usize];
        let free = found.limit - found.used - found.reserved;
        if bound > free {
            return Some(Refusal::OverQuota { free });
        }
        self.full_refusal()
    }

    /// Begins an upload with that plan. It gets the next number, and its bound is reserved.
    pub fn begin(&mut self, tenant: u64, plan: Plan) -> Result<(), AllocError>
        requires { begin_refusal O.size self.old tenant plan.bound ≡ None }
        ensures begun { OnOk result (self.new ≡ with_begun self.old tenant plan) }
        ensures unchanged { OnErr result (self.new ≡ self.old) }
    {
        let reserved = plan.bound();
        let begun = OwnedUpload::new(tenant, Upload::new(self.alloc, plan));
        let Ok(_none) = self.uploads.insert(self.begun, begun) else {
            return Err(AllocError);
        };
        let more = Amounts { reserved, ..NONE };
        self.accounts.change(tenant, NONE, more);
        self.begun += 1;
        Ok(())
    }

    /// Why `len` bytes at `offset`, which fit the upload's plan, would not be put: S7, S9, S15, S13.
    pub fn put_refusal(&self, number: u64, offset: u64, len: u64) -> Option<Refusal>
        requires { (u : ModelOwnedUpload H.Part) → upload_at self.now number ≡ Some u → Fits u.upload.plan offset len }
        ensures { result ≡ put_refusal H.Part.len self.now number offset len }
    {
        let Some(begun) = self.uploads.get(&number) else {
            return Some(Refusal::NoUpload);
        };
        match begun.upload().place_fault(offset, len) {
            Some(fault) => Some(add_refused(fault)),
            None => self.full_refusal(),
        }
    }

    /// Puts a part that fits the upload's plan. If an allocation fails, the part is returned.
    pub fn put(&mut self, number: u64, part: H::Given, work: &mut H::Work) -> Result<(), H::Given>
        requires fits { (u : ModelOwnedUpload H.Part) → upload_at self.old number ≡ Some u → Fits u.upload.plan (H.start part) (H.Part.len (H.kept part)) }
        requires free { put_refusal H.Part.len self.old number (H.start part) (H.Part.len (H.kept part)) ≡ None }
        ensures put { OnOk result (self.new ≡ with_put H.Part.len self.old number (H.start part) (H.kept part)) }
        ensures count { OnOk result (IfSome (upload_at self.old number) (λ u. work.new ≡ H.works u.upload.parts (H.start part) (H.kept part) work.old)) }
        ensures back { IfErr result (λ back. back ≡ part) }
        ensures unchanged { OnErr result (self.new ≡ self.old) }
        ensures uncounted { OnErr result (work.new ≡ work.old) }
    {
        let len = H::len_of(&part);
        let resized = begun::put(&mut self.uploads, number, part, work)?;
        let less = Amounts {
            reserved: resized.before,
            ..NONE
        };
        let more = Amounts {
            reserved: resized.after,
            held: len,
            parts: 1,
            ..NONE
        };
        self.accounts.change(resized.tenant, less, more);
        Ok(())
    }

    /// Why the upload's end would not be fixed at `len`: S7, S5, S15, S13.
    pub fn fix_refusal(&self, number: u64, len: u64) -> Option<Refusal>
        ensures { result ≡ fix_refusal H.Part.len self.now number len }
    {
        let Some(begun) = self.uploads.get(&number) else {
            return Some(Refusal::NoUpload);
        };
        match begun.upload().fix_fault(len) {
            Some(fault) => Some(fix_refused(fault)),
            None => self.full_refusal(),
        }
    }

    /// Fixes the upload's end at `len`. Its tenant then reserves no more than that.
    pub fn fix(&mut self, number: u64, len: u64)
        requires { fix_refusal H.Part.len self.old number len ≡ None }
        ensures { self.new ≡ with_fixed self.old number len }
    {
        let resized = begun::fix(&mut self.uploads, number, len);
        let less = Amounts {
            reserved: resized.before,
            ..NONE
        };
        let more = Amounts {
            reserved: resized.after,
            ..NONE
        };
        self.accounts.change(resized.tenant, less, more);
    }

    /// Why the upload would not be aborted: S7, S13.
    pub fn abort_refusal(&self, number: u64) -> Option<Refusal>
        ensures { result ≡ abort_refusal self.now number }
    {
        match self.uploads.get(&number) {
            Some(_) => self.full_refusal(),
            None => Some(Refusal::NoUpload),
        }
    }

    /// Aborts an upload, and returns it.
    pub fn abort(&mut self, number: u64) -> Upload<H>
        requires { abort_refusal self.old number ≡ None }
        ensures freed { self.new ≡ without_upload self.old number }
        ensures given { IfSome (upload_at self.old number) (λ u. result ≡ u.upload) }
    {
        self.accounts.take_out(&mut self.uploads, number, NONE)
    }
}

// The store's refusal for a part that is not added.
fn add_refused(fault: AddFault) -> Refusal
    ensures { result ≡ add_refused_of fault }
{
    match fault {
        AddFault::WrongPlan => Refusal::WrongPlan,
        AddFault::Overlap { at } => Refusal::Overlap { at },
        AddFault::PastLast { end } => Refusal::PastLast { end },
        AddFault::NoMemory => Refusal::NoMemory,
    }
}

// The store's refusal for an end that is not fixed.
fn fix_refused(fault: FixFault) -> Refusal
    ensures { result ≡ fix_refused_of fault }
{
    match fault {
        FixFault::TooLong => Refusal::TooLong,
        FixFault::PastLast { end } => Refusal::PastLast { end },
    }
}
