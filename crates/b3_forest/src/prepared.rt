//! One part, hashed independently.

ghost use Rattle.std.specs.Prelude.{◌≡◌, ◌+◌, ◌≤◌, IfErr, IfOk, IfSome, OnOk, Some, length, unwrap_or, vec_len};
ghost use Rattle.std.specs.Arc.{arc_value};
ghost use Rattle.b3_core.specs.Work.{NeverFalls, counted};
ghost use Rattle.store_upload.specs.Uploads.{Fits, max_bytes, part_fault};
ghost use Rattle.b3_forest.specs.Parts.{ModelPrepared, chunks_of, planned};
ghost use Rattle.b3_forest.specs.Texts.{prepared_text};
ghost use Rattle.b3_forest.specs.Pieces.{IsPrepared, part_work, piece_count, pieces_of, root_level};

use crate::cutting::push_all;
use crate::piece::Piece;
use crate::shared_bytes::SharedBytes;
use b3_core::Work;
use std::alloc::Global;
use std::fmt;
use std::marker::Model;
use std::sync::Arc;
use store_upload::{CHUNK_LEN, PartFault, Plan, Refused};

/// A part of an upload with its pieces: complete subtrees of the tree over the whole upload. It is hashed without any other part.
#[derive(Drop)]
pub struct Prepared {
    plan: Plan,
    offset: u64,
    bytes: Arc<Vec<u8>>,
    pieces: Vec<Piece>,
}

impl Model for Prepared {
    ghost Value = { ModelPrepared };

    ghost view = { λ p. planned p.plan p.offset (arc_value p.bytes).items };

    ghost invariant = { λ p. IsPrepared (planned p.plan p.offset (arc_value p.bytes).items) p.pieces.items };
}

impl Prepared {
    /// Hashes `bytes` as the part of an upload at an offset.
    ///
    /// A refusal returns the bytes. The first matching one of: F2, there are no bytes; F3, the offset is not a multiple of 1024; F4, the
    /// part ends past the plan's bound; F5, its length is not a multiple of 1024 and it does not end at the plan's end (not under an open
    /// plan); F6, there are more than 2^24 bytes. F9 if out of memory.
    ///
    /// For each chunk it makes one compression fewer than the chunk has blocks, and two for each chunk beyond the number of pieces. It
    /// makes none if one of F2 to F6 applies; before F9 it may have made some of them.
    pub fn make(
        alloc: Global,
        plan: &Plan,
        offset: u64,
        bytes: Vec<u8>,
        work: &mut Work,
    ) -> Result<Prepared, Refused<PartFault, Vec<u8>>>
        ensures made { IfOk result (λ p. p ≡ planned plan.now offset bytes.items) }
        ensures fits { OnOk result (part_fault plan.now offset (vec_len bytes) ≡ None) }
        ensures fault { IfErr result (λ r. r.reason ≡ unwrap_or (part_fault plan.now offset (vec_len bytes)) PartFault.NoMemory) }
        ensures back { IfErr result (λ r. r.value.items ≡ bytes.items) }
        ensures count { OnOk result (work.new ≡ counted work.old (part_work (vec_len bytes)
            (piece_count (chunks_of (planned plan.now offset bytes.items).part)))) }
        ensures uncounted { IfSome (part_fault plan.now offset (vec_len bytes)) (λ _. work.new ≡ work.old) }
        ensures never_falls { NeverFalls work.old work.new }
    {
        let pieces = match hashed(alloc, plan, offset, bytes.as_slice(), work) {
            Ok(pieces) => pieces,
            Err(reason) => return Err(Refused {
                reason,
                value: bytes,
            }),
        };
        match Arc::new(alloc, bytes) {
            Ok(bytes) => Ok(Prepared {
                plan: *plan,
                offset,
                bytes,
                pieces,
            }),
            Err(refused) => Err(Refused {
                reason: PartFault::NoMemory,
                value: refused.value,
            }),
        }
    }

    /// Hashes a part of an upload, as `make` does, from bytes that may be shared. They are not copied.
    pub fn share(
        alloc: Global,
        plan: &Plan,
        offset: u64,
        bytes: Arc<Vec<u8>>,
        work: &mut Work,
    ) -> Result<Prepared, Refused<PartFault, Arc<Vec<u8>>>>
        ensures made { IfOk result (λ p. p ≡ planned plan.now offset (arc_value bytes).items) }
        ensures fits { OnOk result (part_fault plan.now offset (vec_len (arc_value bytes)) ≡ None) }
        ensures fault { IfErr result (λ r. r.reason ≡ unwrap_or (part_fault plan.now offset (vec_len (arc_value bytes))) PartFault.NoMemory) }
        ensures back { IfErr result (λ r. (arc_value r.value).items ≡ (arc_value bytes).items) }
        ensures count { OnOk result (work.new ≡ counted work.old (part_work (vec_len (arc_value bytes))
            (piece_count (chunks_of (planned plan.now offset (arc_value bytes).items).part)))) }
        ensures uncounted { IfSome (part_fault plan.now offset (vec_len (arc_value bytes))) (λ _. work.new ≡ work.old) }
        ensures never_falls { NeverFalls work.old work.new }
    {
        match hashed(alloc, plan, offset, bytes.as_slice(), work) {
            Ok(pieces) => Ok(Prepared {
                plan: *plan,
                offset,
                bytes,
                pieces,
            }),
            Err(reason) => Err(Refused {
                reason,
                value: bytes,
            }),
        }
    }

    /// The offset of the part in its upload.
    pub fn offset(&self) -> u64
        ensures { result ≡ self.now.part.offset }
    {
        self.offset
    }

    /// The part's bytes.
    pub fn bytes(&self) -> &[u8]
        ensures { result.now ≡ self.now.part.bytes }
    {
        self.bytes.as_slice()
    }

    /// Returns the part's bytes if nothing else holds them, otherwise the part.
    pub fn into_bytes(self) -> Result<Vec<u8>, Prepared>
        ensures bytes { IfOk result (λ bytes. bytes.items ≡ self.part.bytes) }
        ensures back { IfErr result (λ part. part ≡ self) }
    {
        let Prepared {
            plan,
            offset,
            bytes,
            pieces,
        } = self;
        match Arc::try_unwrap(bytes) {
            Ok(bytes) => Ok(bytes),
            Err(bytes) => Err(Prepared {
                plan,
                offset,
                bytes,
                pieces,
            }),
        }
    }

    /// The offset in its upload at which the part ends.
    pub(crate) fn end(&self) -> u64
        ensures { result ≡ self.now.part.offset + length self.now.part.bytes }
    {
        let start = self.offset();
        start + self.fitting().len() as u64
    }

    /// The plan that the part was made for.
    pub fn plan(&self) -> Plan
        ensures { result ≡ self.now.plan }
    {
        let Prepared { plan, .. } = self;
        *plan
    }

    /// The part's bytes, which fit its plan.
    pub fn fitting(&self) -> &[u8]
        ensures bytes { result.now ≡ self.now.part.bytes }
        ensures fits { Fits self.now.plan self.now.part.offset (length self.now.part.bytes) }
        ensures bounded { self.now.plan.bound ≤ max_bytes }
    {
        // For the proof alone: the bound of a plan is at most 2^44.
        let _most = self.plan.bound();
        self.bytes()
    }

    /// The pieces.
    pub(crate) fn piece_list(&self) -> &[Piece]
        ensures pieces { result.now ≡ pieces_of (chunks_of self.now.part) root_level 0 }
        ensures fits { Fits self.now.plan self.now.part.offset (length self.now.part.bytes) }
    {
        self.pieces.as_slice()
    }

    /// The part's bytes, without the pieces.
    pub(crate) fn into_shared(self) -> SharedBytes
        ensures { result ≡ self.part.bytes }
    {
        let Prepared { bytes, .. } = self;
        SharedBytes::new(bytes)
    }

    /// The number of pieces of the part.
    pub fn pieces(&self) -> usize
        ensures { result ≡ piece_count (chunks_of self.now.part) }
    {
        self.pieces.len()
    }
}

// The pieces of a part of an upload, or why it cannot be one.
fn hashed(
    alloc: Global,
    plan: &Plan,
    offset: u64,
    bytes: &[u8],
    work: &mut Work,
) -> Result<Vec<Piece>, PartFault>
    ensures made { IfOk result (λ pieces. IsPrepared (planned plan.now offset bytes.now) pieces.items) }
    ensures fits { OnOk result (part_fault plan.now offset (length bytes.now) ≡ None) }
    ensures fault { IfErr result (λ fault. fault ≡ unwrap_or (part_fault plan.now offset (length bytes.now)) PartFault.NoMemory) }
    ensures count { OnOk result (work.new ≡ counted work.old (part_work (length bytes.now)
        (piece_count (chunks_of (planned plan.now offset bytes.now).part)))) }
    ensures uncounted { IfSome (part_fault plan.now offset (length bytes.now)) (λ _. work.new ≡ work.old) }
    ensures never_falls { NeverFalls work.old work.new }
{
    if let Some(fault) = plan.part_fault(offset, bytes.len() as u64) {
        return Err(fault);
    }
    let mut pieces = Vec::new(alloc);
    let start = offset / CHUNK_LEN;
    match push_all(start, bytes, &mut pieces, work) {
        Ok(()) => Ok(pieces),
        Err(_) => Err(PartFault::NoMemory),
    }
}

/// Shows the part's offset and the number of its bytes.
impl fmt::Debug for Prepared {
    ghost debug_output = { λ prepared. Some (prepared_text prepared.part) };

    fn fmt<W: fmt::Write>(&self, f: &mut fmt::Formatter<W>) -> fmt::Result {
        let offset = self.offset();
        let len = self.bytes().len();
        write!(f, "Prepared {{ offset: {offset}, bytes: {len} }}")
    }
}
