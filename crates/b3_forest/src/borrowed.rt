//! Borrowed bytes, in one slice or in shared stretches.

ghost use Rattle.std.specs.Prelude.{◌≡◌, ◌+◌, ◌≤◌, IfErr, IfOk, IfSome, None, OnOk, length, take, drop, unwrap_or, vec_len, true, false};
ghost use Rattle.std.specs.Arc.{arc_value};
ghost use Rattle.b3_core.specs.Work.{NeverFalls, counted};
ghost use Rattle.b3_forest.specs.Borrowed.{borrowed_bytes};
ghost use Rattle.b3_forest.specs.Parts.{chunks_of, planned};
ghost use Rattle.b3_forest.specs.Pieces.{part_work, piece_count};
ghost use Rattle.b3_forest.specs.Stretches.{AreBytesFrom, StandsAt};
ghost use Rattle.store_upload.specs.Uploads.{part_fault};

use crate::prepared::Prepared;
use crate::stretches::Stretches;
use b3_core::Work;
use std::alloc::{AllocError, Global};
use std::sync::Arc;
use store_upload::{PartFault, Plan};

/// Borrowed bytes.
#[derive(Clone, Copy)]
pub enum BorrowedBytes<'a> {
    /// A slice, from which the bytes of parts are copied.
    Slice(&'a [u8]),
    /// Stretches, which parts share.
    Stretches(&'a Stretches),
}

impl<'a> BorrowedBytes<'a> {
    /// The number of bytes.
    pub fn len(self) -> u64
        ensures { result ≡ length (borrowed_bytes self.entry) }
    {
        match self {
            BorrowedBytes::Slice(bytes) => bytes.len() as u64,
            BorrowedBytes::Stretches(stretches) => stretches.len(),
        }
    }

    // Some bytes starting at offset `at`; empty if there are no bytes there.
    fn bytes_from(self, at: u64) -> &'a [u8]
        ensures { AreBytesFrom (borrowed_bytes self.entry) at result.now }
    {
        match self {
            BorrowedBytes::Slice(bytes) if at < bytes.len() as u64 => &bytes[at as usize..],
            BorrowedBytes::Slice(_) => &[],
            BorrowedBytes::Stretches(stretches) => stretches.bytes_from(at),
        }
    }

    /// Whether `bytes` are the bytes at offset `at`.
    pub(crate) fn has(self, at: u64, bytes: &[u8]) -> bool
        requires { at + length bytes.now ≤ length (borrowed_bytes self) }
        ensures yes { result ≡ true → StandsAt (borrowed_bytes self.entry) at bytes.now }
        ensures no { result ≡ false → StandsAt (borrowed_bytes self.entry) at bytes.now → ⊥ }
    {
        // For the proof alone: the number of bytes fits in 64 bits.
        let _len = self.len();
        let (mut at, mut rest) = (at, bytes);
        while !rest.is_empty() {
            let found = self.bytes_from(at);
            let len = found.len().min(rest.len());
            let (front, following) = rest.split_at(len);
            if front != &found[..len] {
                return false;
            }
            at += len as u64;
            rest = following;
        }
        true
    }

    // A copy of `len` bytes, starting at offset `at`.
    fn copied(self, alloc: Global, at: u64, len: usize) -> Result<Vec<u8>, AllocError>
        requires { at + len ≤ length (borrowed_bytes self) }
        ensures { IfOk result (λ copy. copy.items ≡ take len (drop at (borrowed_bytes self.entry))) }
    {
        // For the proof alone: the number of bytes fits in 64 bits.
        let _len = self.len();
        let mut copy = Vec::with_capacity(alloc, len)?;
        while copy.len() < len {
            let found = self.bytes_from(at + copy.len() as u64);
            let more = found.len().min(len - copy.len());
            copy.extend_from_slice(&found[..more])?;
        }
        Ok(copy)
    }

    /// Hashes the part of `len` bytes at `offset`. It shares their stretch if they are exactly one stretch, and otherwise copies them.
    ///
    /// F2 to F6 as for `Prepared::make`, and F9.
    pub fn prepare(
        self,
        alloc: Global,
        plan: &Plan,
        offset: u64,
        len: usize,
        work: &mut Work,
    ) -> Result<Prepared, PartFault>
        requires { offset + len ≤ length (borrowed_bytes self) }
        ensures made { IfOk result (λ p. p ≡ planned plan.now offset (take len (drop offset (borrowed_bytes self.entry)))) }
        ensures fits { OnOk result (part_fault plan.now offset len ≡ None) }
        ensures fault { IfErr result (λ fault. fault ≡ unwrap_or (part_fault plan.now offset len) PartFault.NoMemory) }
        ensures count { OnOk result (work.new ≡ counted work.old (part_work len
            (piece_count (chunks_of (planned plan.now offset (take len (drop offset (borrowed_bytes self.entry)))).part)))) }
        ensures uncounted { IfSome (part_fault plan.now offset len) (λ _. work.new ≡ work.old) }
        ensures never_falls { NeverFalls work.old work.new }
    {
        if let Some(fault) = plan.part_fault(offset, len as u64) {
            return Err(fault);
        }
        if let Some(stretch) = self.shared(offset, len) {
            let Ok(stretch) = Arc::try_clone(stretch) else {
                return Err(PartFault::NoMemory);
            };
            return match Prepared::share(alloc, plan, offset, stretch, work) {
                Ok(part) => Ok(part),
                Err(refused) => Err(refused.reason),
            };
        }
        let Ok(bytes) = self.copied(alloc, offset, len) else {
            return Err(PartFault::NoMemory);
        };
        match Prepared::make(alloc, plan, offset, bytes, work) {
            Ok(part) => Ok(part),
            Err(refused) => Err(refused.reason),
        }
    }

    // The stretch that is exactly the `len` bytes at `offset`, if there is one.
    fn shared(self, offset: u64, len: usize) -> Option<&'a Arc<Vec<u8>>>
        ensures { IfSome result (λ a. (vec_len (arc_value a.now) ≡ len) × StandsAt (borrowed_bytes self.entry) offset (arc_value a.now).items) }
    {
        let BorrowedBytes::Stretches(stretches) = self else {
            return None;
        };
        match stretches.begun_at(offset) {
            Some(stretch) if stretch.len() == len => Some(stretch),
            _ => None,
        }
    }
}
