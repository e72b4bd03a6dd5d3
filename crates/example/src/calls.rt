//! The first calls of each crate, as the crates' own pages show them.

use anyhow::Result;
use b3_core::{Hasher, Mode, Runtime, Work};
use b3_forest::Prepared;
use b3_parallel::{HashThreads, hash_all};
use std::alloc::Global;
use std::io::Read;
use std::thread::Threads;
use store_core::Store;

// Hashes bytes that come in two pieces.
pub fn digest_of_pieces(rt: &impl Runtime, first: &[u8], second: &[u8]) -> [u8; 32] {
    let mut work = Work::new(rt);
    let mut hasher = Hasher::new(&Mode::hash());
    hasher.update(first, &mut work);
    hasher.update(second, &mut work);
    hasher.digest(&mut work)
}

// Hashes what a reader has left, by a thread for each processor.
pub fn digest_of_reader<T: Threads + Runtime, R: Read>(
    rt: &T,
    alloc: Global,
    reader: &mut R,
) -> Result<[u8; 32]> {
    let threads = HashThreads {
        rt,
        alloc,
        count: None,
    };
    let mut work = Work::new(rt);
    let top = hash_all(&threads, &Mode::hash(), reader, &mut work)?;
    Ok(top.root32(&mut work))
}

// Stores bytes for a new tenant, and returns the length of the object.
pub fn stored_len(
    store: &mut Store,
    alloc: Global,
    bytes: Vec<u8>,
    work: &mut Work,
) -> Result<u64> {
    let tenant = store.open_tenant(1 << 30)?;
    let (upload, plan) = store.begin(tenant, bytes.len() as u64)?;
    let part = Prepared::make(alloc, &plan, 0, bytes, work)?;
    let _held = store.put(upload, part, work)?;
    let sealed = store.seal(upload, work)?;
    let object = store.fetch(tenant, sealed.address)?;
    Ok(object.len())
}
