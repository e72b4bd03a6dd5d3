//! Open uploads with their tenants, by number.

ghost use Rattle.std.specs.Prelude.{◌≡◌, IfErr, IfOk, IfSome, IsSome, None, OnErr, OnOk, Some};
ghost use Rattle.std.specs.Map.{lookup, set_value};
ghost use Rattle.store_books.specs.Books.{ModelOwnedUpload, is_number};
ghost use Rattle.store_upload.specs.Uploads.{Fits, fix_fault, fixed_at, length_of, place_fault, with_more};

use std::collections::BTreeMap;
use std::marker::Model;
use store_upload::{HeldParts, Upload};

/// An upload that is not closed yet, and the tenant that began it.
#[derive(Drop)]
pub struct OwnedUpload<H: HeldParts> {
    tenant: u64,
    upload: Upload<H>,
}

impl<H: HeldParts> Model for OwnedUpload<H> {
    ghost use Rattle.store_books.specs.Books.{ModelOwnedUpload};

    ghost Value = { ModelOwnedUpload H.Part };

    ghost view = { λ u. record { tenant = u.tenant; upload = u.upload } };
}

impl<H: HeldParts> OwnedUpload<H> {
    /// An upload of `tenant`.
    pub(crate) fn new(tenant: u64, upload: Upload<H>) -> OwnedUpload<H>
        ensures { result ≡ record { tenant = tenant; upload = upload } }
    {
        OwnedUpload { tenant, upload }
    }

    /// The number of the tenant that began it.
    pub fn tenant(&self) -> u64
        ensures { result ≡ self.now.tenant }
    {
        self.tenant
    }

    /// The open upload.
    pub fn upload(&self) -> &Upload<H>
        ensures { result.now ≡ self.now.upload }
    {
        &self.upload
    }

    /// Returns the upload.
    pub(crate) fn into_upload(self) -> Upload<H>
        ensures { result ≡ self.upload }
    {
        let OwnedUpload { upload, .. } = self;
        upload
    }
}

// A command that may change an upload's length: the upload's tenant, and its length before and after.
#[derive(Clone, Copy, Debug)]
pub(crate) struct Resized {
    pub(crate) tenant: u64,
    pub(crate) before: u64,
    pub(crate) after: u64,
}

/// Adds a part to the upload `number`.
pub(crate) fn put<H: HeldParts>(
    uploads: &mut BTreeMap<u64, OwnedUpload<H>>,
    number: u64,
    part: H::Given,
    work: &mut H::Work,
) -> Result<Resized, H::Given>
    requires there { IsSome (lookup (is_number number) uploads.old.entries) }
    requires fits { IfSome (lookup (is_number number) uploads.old.entries) (λ u. Fits u.upload.plan (H.start part) (H.Part.len (H.kept part))) }
    requires free { IfSome (lookup (is_number number) uploads.old.entries) (λ u. place_fault H.Part.len u.upload (H.start part) (H.Part.len (H.kept part)) ≡ None) }
    ensures put { OnOk result ((u : ModelOwnedUpload H.Part) → lookup (is_number number) uploads.old.entries ≡ Some u
        → uploads.new.entries ≡ set_value (is_number number) uploads.old.entries (record u { upload = with_more H.Part.len u.upload (H.start part) (H.kept part) })) }
    ensures resized { IfOk result (λ r. (u : ModelOwnedUpload H.Part) → lookup (is_number number) uploads.old.entries ≡ Some u
        → r ≡ record { tenant = u.tenant; before = length_of u.upload; after = length_of (with_more H.Part.len u.upload (H.start part) (H.kept part)) }) }
    ensures count { OnOk result ((u : ModelOwnedUpload H.Part) → lookup (is_number number) uploads.old.entries ≡ Some u
        → work.new ≡ H.works u.upload.parts (H.start part) (H.kept part) work.old) }
    ensures back { IfErr result (λ back. back ≡ part) }
    ensures unchanged { OnErr result (uploads.new.entries ≡ uploads.old.entries) }
    ensures uncounted { OnErr result (work.new ≡ work.old) }
{
    let Some(begun) = uploads.get_mut(&number) else {
        unreachable!();
    };
    let (tenant, before) = (begun.tenant, begun.upload.length());
    match begun.upload.put(part, work) {
        Ok(()) => {
            let after = begun.upload.length();
            Ok(Resized {
                tenant,
                before,
                after,
            })
        },
        Err(part) => Err(part),
    }
}

/// Fixes the end of the upload `number`.
pub(crate) fn fix<H: HeldParts>(
    uploads: &mut BTreeMap<u64, OwnedUpload<H>>,
    number: u64,
    len: u64,
) -> Resized
    requires there { IsSome (lookup (is_number number) uploads.old.entries) }
    requires may { IfSome (lookup (is_number number) uploads.old.entries) (λ u. fix_fault H.Part.len u.upload len ≡ None) }
    ensures fixed { (u : ModelOwnedUpload H.Part) → lookup (is_number number) uploads.old.entries ≡ Some u
        → uploads.new.entries ≡ set_value (is_number number) uploads.old.entries (record u { upload = fixed_at u.upload len }) }
    ensures resized { (u : ModelOwnedUpload H.Part) → lookup (is_number number) uploads.old.entries ≡ Some u
        → result ≡ record { tenant = u.tenant; before = length_of u.upload; after = len } }
{
    let Some(begun) = uploads.get_mut(&number) else {
        unreachable!();
    };
    let (tenant, before) = (begun.tenant, begun.upload.length());
    begun.upload.fix(len);
    Resized {
        tenant,
        before,
        after: len,
    }
}
