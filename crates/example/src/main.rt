//! The crates as a library: a small backup tool. It reads standard input, puts it into a store in parts, the last part first, and seals it.
//! Then it does so again, from the first part on, as a stream whose length is known at its end; and once more by two threads, in a store
//! that they share. It writes the address, the totals and counts of the stores, and the bytes returned by the first store.
#![tactic(auto)]

mod calls;
mod sharing;

use anyhow::Result;
use b3_core::{Runtime, Work};
use b3_forest::Prepared;
use calls::{digest_of_pieces, digest_of_reader, stored_len};
use sharing::back_up_shared;
use std::alloc::Global;
use std::io;
use std::io::{Read, Write};
use std::sync::Wait;
use std::thread::Threads;
use store_core::{Address, Limits, Store, TenantId};
use store_ledger::Accepted;

// The bytes of a part. All parts but the last are whole chunks of 1024 bytes.
const PART_LEN: usize = 1024;

// The maximum length of a stream in bytes; a part beyond it is refused.
const MAX_LEN: u64 = 1 << 30;

// Files bytes for a tenant, and returns their address. Each part is hashed, which needs no store, and then put.
fn back_up(
    alloc: Global,
    store: &mut Store,
    tenant: TenantId,
    bytes: &[u8],
    work: &mut Work,
) -> Result<Address> {
    let (upload, plan) = store.begin(tenant, bytes.len() as u64)?;
    let mut rest = bytes;
    while !rest.is_empty() {
        let last = (rest.len() - 1) % PART_LEN + 1;
        let offset = rest.len() - last;
        let (front, part) = rest.split_at(offset);
        let own = Vec::from_slice(alloc, part)?;
        let part = Prepared::make(alloc, &plan, offset as u64, own, work)?;
        let _held = store.put(upload, part, work)?;
        rest = front;
    }
    let sealed = store.seal(upload, work)?;
    Ok(sealed.address)
}

// Files for a tenant what a reader returns, whatever its length, and returns the address.
fn back_up_stream<R: Read>(
    alloc: Global,
    store: &mut Store,
    tenant: TenantId,
    reader: &mut R,
    work: &mut Work,
) -> Result<Address> {
    let (upload, plan) = store.begin_open(tenant, MAX_LEN)?;
    let mut len = 0;
    for _ in 0..u64::MAX {
        let mut bytes = Vec::new(alloc);
        reader
            .by_ref()
            .take(PART_LEN as u64)
            .read_to_end(&mut bytes)?;
        if bytes.is_empty() {
            break;
        }
        let part = Prepared::make(alloc, &plan, len, bytes, work)?;
        len = store.put(upload, part, work)?.held;
    }
    store.fix(upload, len)?;
    let sealed = store.seal(upload, work)?;
    Ok(sealed.address)
}

// Writes the bytes of an object that a tenant holds.
fn give_back<W: Write>(
    store: &Store,
    tenant: TenantId,
    address: Address,
    writer: &mut W,
) -> Result<()> {
    let object = store.fetch(tenant, address)?;
    for segment in object.segments() {
        writer.write_all(segment.bytes.as_slice())?;
    }
    writer.flush()?;
    Ok(())
}

// Prints the hash of some bytes by the first calls of two crates, and their length in a store.
fn show_calls<T: Threads + Runtime>(
    rt: &HostRuntime,
    threads: &T,
    bytes: &[u8],
    store: &mut Store,
    work: &mut Work,
) -> Result<()> {
    let (first, second) = bytes.split_at(bytes.len() / 2);
    let pieces = Address::new(digest_of_pieces(rt, first, second));
    let mut reader = bytes;
    let read = Address::new(digest_of_reader(threads, rt.alloc(), &mut reader)?);
    let own = Vec::from_slice(rt.alloc(), bytes)?;
    let len = stored_len(store, rt.alloc(), own, work)?;
    println!(rt; "{pieces}\n{read}\n{len} bytes")?;
    Ok(())
}

// Prints what the store has, and what it has done.
fn show_store(
    rt: &HostRuntime,
    store: &Store,
    address: Address,
    accepted: &Accepted,
    work: &Work,
) -> Result<()> {
    let totals = store.totals();
    println!(rt; "{address}")?;
    println!(rt;
        "{} object of {} bytes",
        totals.objects, totals.object_bytes
    )?;
    println!(rt;
        "{} journal entries, {} compressions",
        store.journal().len(),
        work.count()
    )?;
    println!(rt; "accepted {} {}", accepted.bytes, accepted.calls)?;
    Ok(())
}

// Backs up some bytes in each way, and writes what the stores then have.
fn back_up_all<T: Threads + Wait + Sync + Runtime>(
    rt: &HostRuntime,
    threads: &T,
    input: &[u8],
    store: &mut Store,
    work: &mut Work,
) -> Result<()> {
    let alloc = rt.alloc();
    let tenant = store.open_tenant(1 << 40)?;
    let address = back_up(alloc, store, tenant, input, work)?;
    let mut stream = input;
    let _known = back_up_stream(alloc, store, tenant, &mut stream, work)?;
    let (_same, accepted) = back_up_shared(threads, alloc, input)?;
    show_store(rt, store, address, &accepted, work)?;
    show_calls(rt, threads, input, store, work)?;
    give_back(store, tenant, address, &mut io::writer(rt))
}

fn main(rt: HostRuntime) -> Result<()> {
    let mut input = Vec::new(rt.alloc());
    rt.stdin().read_to_end(&mut input)?;
    let mut store = Store::new(rt.alloc(), Limits::full());
    back_up_all(&rt, &rt, input.as_slice(), &mut store, &mut Work::new(&rt))
}
