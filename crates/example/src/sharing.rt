//! A store that threads share.

ghost use Rattle.std.specs.Prelude.{◌≡◌, IfOk, length};
ghost use Rattle.b3_core.specs.Modes.{hash_of};
ghost use Rattle.store_ledger.specs.Shares.{all_parts};
ghost use Rattle.store_shared.specs.Made.{full_limits};

use anyhow::Result;
use b3_core::Runtime;
use b3_forest::BorrowedBytes;
use std::alloc::Global;
use std::marker::Brand;
use std::sync::Wait;
use std::thread::Threads;
use store_core::{Address, Limits};
use store_ledger::{Accepted, Ledgers};
use store_shared::{PassAll, Shared, UnnamedLedgers, UploadRequest, lent_open_tenant};

// The number of chunks, of 1024 bytes, in a part, and the number of threads that hash parts.
const PART_CHUNKS: u64 = 1;

const WORKERS: u64 = 2;

// Files bytes in a new store by two threads, and returns their address and what the store accepted.
pub fn back_up_shared<T: Threads + Wait + Sync + Runtime>(
    threads: &T,
    alloc: Global,
    bytes: &[u8],
) -> Result<(Address, Accepted)>
    ensures { IfOk result (λ reported. (reported.0 ≡ hash_of bytes.now) × (reported.1.bytes ≡ length bytes.now)) }
{
    let ledgers = UnnamedLedgers::new(alloc)?;
    back_up_counted::<Brand, _>(threads, alloc, bytes, ledgers)
}

// The same, with the ledgers of the store as a parameter.
fn back_up_counted<L: Ledgers, T: Threads + Wait + Sync + Runtime>(
    threads: &T,
    alloc: Global,
    bytes: &[u8],
    ledgers: UnnamedLedgers,
) -> Result<(Address, Accepted)>
    requires bytes { (ledgers.bytes.name ≡ L.bytes_name) × (ledgers.bytes.parts ≡ L.bytes_parts) × (ledgers.bytes.parts ≡ all_parts) }
    requires calls { (ledgers.calls.name ≡ L.calls_name) × (ledgers.calls.parts ≡ L.calls_parts) × (ledgers.calls.parts ≡ all_parts) }
    requires history { ledgers.history ≡ L.history }
    requires limits { L.limits ≡ full_limits }
    ensures { IfOk result (λ reported. (reported.0 ≡ hash_of bytes.now) × (reported.1.bytes ≡ length bytes.now)) }
{
    let (shared, share) = Shared::<L>::new(alloc, Limits::full(), ledgers);
    let tenant = lent_open_tenant(&mut *shared.lock(threads), 1 << 40)?;
    let request = UploadRequest {
        tenant,
        bytes: BorrowedBytes::Slice(bytes),
        part_chunks: PART_CHUNKS,
        workers: WORKERS,
        gate: &PassAll,
    };
    let (share, uploaded) = request.upload(threads, alloc, &shared, share);
    let sealed = uploaded?;
    let mut share = share;
    let accepted = shared.close().settle(&mut share)?;
    Ok((sealed.address, accepted))
}
