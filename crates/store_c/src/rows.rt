//! The rows of lists, copied in pages.

ghost use Rattle.std.specs.Prelude.{◌≡◌};
ghost use Rattle.store_c.specs.Answers.{object_row, upload_row, usage_of};
ghost use Rattle.store_c.specs.Keeping.{OnObjects, OnTenants, OnUploads};
ghost use Rattle.store_c.specs.Rows.{Copies};

use crate::answers::{DONE, NO_VALUE, TenantUsage};
use std::alloc::Global;
use store_core::{Address, UploadStatus, Usage};
use store_handle::{Handle, Kept};

/// An object in a list: its address, and its length in bytes.
#[derive(Clone, Copy)]
#[repr(C)]
pub struct ListedObject {
    pub address: [u8; 32],
    pub len: u64,
}

/// An open upload in a list: its number, its maximum length, the end that is fixed if `is_fixed` is 1, and the number of bytes that it holds.
#[derive(Clone, Copy)]
#[repr(C)]
pub struct ListedUpload {
    pub upload: u64,
    pub bound: u64,
    pub end: u64,
    pub held: u64,
    pub is_fixed: u32,
}

// What C gets of an item of a list.
trait RowOf<T>: Copy {
    ghost shown: { T → Self };

    fn of(item: &T) -> Self
        ensures { result ≡ shown item.now };
}

impl RowOf<(Address, u64)> for ListedObject {
    ghost shown = { object_row };

    fn of(item: &(Address, u64)) -> ListedObject {
        ListedObject {
            address: item.0.bytes(),
            len: item.1,
        }
    }
}

impl RowOf<UploadStatus> for ListedUpload {
    ghost shown = { upload_row };

    fn of(item: &UploadStatus) -> ListedUpload {
        let (end, is_fixed) = match item.end {
            Some(end) => (end, 1),
            None => (0, 0),
        };
        ListedUpload {
            upload: item.upload.number(),
            bound: item.bound,
            end,
            held: item.held,
            is_fixed,
        }
    }
}

impl RowOf<Usage> for TenantUsage {
    ghost shown = { usage_of };

    fn of(item: &Usage) -> TenantUsage {
        TenantUsage {
            used: item.used,
            reserved: item.reserved,
            limit: item.limit,
        }
    }
}

/// Copies the rows of a list of objects starting at `from`, as many as fit, and stores their number. It reads no store. Returns 64 if the
/// handle keeps no such list.
#[unsafe(no_mangle)]
pub extern "C" fn b3store_object_rows(
    alloc: Global,
    list: &mut Handle,
    from: u64,
    rows: &mut [ListedObject],
    copied: &mut usize,
) -> u32
    ensures kept { list.new.kept ≡ list.old.kept }
    ensures rows { OnObjects list.old.kept (λ items. (result ≡ 0) × Copies object_row items from rows.old rows.new copied.new)
        ((result ≡ 64) × (copied.new ≡ copied.old) × (rows.new ≡ rows.old)) }
{
    let Some(place) = list.take(alloc) else {
        return NO_VALUE;
    };
    let answer = match &*place {
        Kept::Objects(items) => {
            *copied = copy_rows(items.as_slice(), from, rows);
            DONE
        }
        _ => NO_VALUE,
    };
    list.put(place, alloc);
    answer
}

/// Copies the rows of a list of open uploads starting at `from`, as many as fit, and stores their number. It reads no store. Returns 64 if the
/// handle keeps no such list.
#[unsafe(no_mangle)]
pub extern "C" fn b3store_upload_rows(
    alloc: Global,
    list: &mut Handle,
    from: u64,
    rows: &mut [ListedUpload],
    copied: &mut usize,
) -> u32
    ensures kept { list.new.kept ≡ list.old.kept }
    ensures rows { OnUploads list.old.kept (λ items. (result ≡ 0) × Copies upload_row items from rows.old rows.new copied.new)
        ((result ≡ 64) × (copied.new ≡ copied.old) × (rows.new ≡ rows.old)) }
{
    let Some(place) = list.take(alloc) else {
        return NO_VALUE;
    };
    let answer = match &*place {
        Kept::Uploads(items) => {
            *copied = copy_rows(items.as_slice(), from, rows);
            DONE
        }
        _ => NO_VALUE,
    };
    list.put(place, alloc);
    answer
}

/// Copies the rows of a list of tenants starting at `from`, as many as fit, and stores their number. It reads no store. Returns 64 if the
/// handle keeps no such list.
#[unsafe(no_mangle)]
pub extern "C" fn b3store_tenant_rows(
    alloc: Global,
    list: &mut Handle,
    from: u64,
    rows: &mut [TenantUsage],
    copied: &mut usize,
) -> u32
    ensures kept { list.new.kept ≡ list.old.kept }
    ensures rows { OnTenants list.old.kept (λ items. (result ≡ 0) × Copies usage_of items from rows.old rows.new copied.new)
        ((result ≡ 64) × (copied.new ≡ copied.old) × (rows.new ≡ rows.old)) }
{
    let Some(place) = list.take(alloc) else {
        return NO_VALUE;
    };
    let answer = match &*place {
        Kept::Tenants(items) => {
            *copied = copy_rows(items.as_slice(), from, rows);
            DONE
        }
        _ => NO_VALUE,
    };
    list.put(place, alloc);
    answer
}

// Copies the rows of items starting at `from` to the front of `rows`, as many as fit, and returns how many.
fn copy_rows<T, C: RowOf<T>>(items: &[T], from: u64, rows: &mut [C]) -> usize
    ensures { Copies C.shown items.now from rows.old rows.new result }
{
    let from = from.min(items.len() as u64) as usize;
    let later = &items[from..];
    let count = later.len().min(rows.len());
    for i in 0..count {
        rows[i] = C::of(&later[i]);
    }
    count
}
