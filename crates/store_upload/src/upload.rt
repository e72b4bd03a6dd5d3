//! Open uploads.

ghost use Rattle.std.specs.Prelude.{◌≡◌, ◌+◌, ◌^◌, ◌<◌, ◌≤◌, IfErr, IfNone, None, OnErr, OnOk, length};
ghost use Rattle.std.specs.BTreeMap.{is_at};
ghost use Rattle.std.specs.Map.{lookup};
ghost use Rattle.std.specs.Ordering.{nat_cmp};
ghost use Rattle.store_upload.specs.Uploads.{ArePlaced, Fits, IsUpload, end_with, finish_fault, first_gap as first_gap_of};
ghost use Rattle.store_upload.specs.Uploads.{first_missing as first_missing_of, fix_fault, fixed_at, held_bytes, length_of, max_bytes};
ghost use Rattle.store_upload.specs.Uploads.{new_upload, past_last, place_fault, reached, with_more};

use crate::held_parts::HeldParts;
use crate::length::Length;
use crate::plan::{CHUNK_LEN, Plan};
use crate::refusal::{AddFault, FinishFault, FixFault};
use std::alloc::Global;
use std::marker::Model;

/// An upload that is not closed yet: its plan, its end once that is fixed, and the parts that it holds.
#[derive(Drop)]
pub struct Upload<H: HeldParts> {
    plan: Plan,
    end: Option<u64>,
    held: u64,
    parts: H,
}

impl<H: HeldParts> Model for Upload<H> {
    ghost use Rattle.std.specs.Prelude.{◌≡◌};
    ghost use Rattle.store_upload.specs.Uploads.{IsUpload, ModelUpload, held_bytes};

    ghost Value = { ModelUpload H.Part };

    ghost view = { λ u. record { plan = u.plan; end = u.end; parts = H.parts u.parts } };

    ghost invariant = { λ u. IsUpload H.Part.len (record { plan = u.plan; end = u.end; parts = H.parts u.parts })
        × (u.held ≡ held_bytes H.Part.len (H.parts u.parts)) };
}

impl<H: HeldParts> Upload<H> {
    /// An upload that holds nothing. Allocates nothing.
    pub fn new(alloc: Global, plan: Plan) -> Upload<H>
        ensures { result ≡ new_upload plan }
    {
        // For the proof alone: the bound of a plan is at most 2^44.
        let _most = plan.bound();
        let end = plan.end();
        Upload {
            plan,
            end,
            held: 0,
            parts: H::new(alloc),
        }
    }

    /// The plan of the upload. It never changes.
    pub fn plan(&self) -> Plan
        ensures value { result ≡ self.now.plan }
        ensures lawful { IsUpload H.Part.len self.now }
    {
        let Upload { plan, .. } = self;
        *plan
    }

    /// The end of the upload, once it is fixed; under a plan that is not open it is fixed from the start.
    pub fn end(&self) -> Option<u64>
        ensures { result ≡ self.now.end }
    {
        let Upload { end, .. } = self;
        *end
    }

    /// The upload's length: its end if that is fixed, otherwise the plan's bound.
    pub fn length(&self) -> u64
        ensures value { result ≡ length_of self.now }
        ensures within { result ≤ self.now.plan.bound }
    {
        self.end.unwrap_or(self.plan.bound())
    }

    /// The number of bytes held.
    pub fn held(&self) -> u64
        ensures { result ≡ held_bytes H.Part.len self.now.parts }
    {
        let Upload { held, .. } = self;
        *held
    }

    /// The number of parts held.
    pub fn count(&self) -> u64
        ensures { result ≡ length self.now.parts }
    {
        self.parts.count()
    }

    /// The parts, which fit an upload of this length.
    pub fn parts(&self) -> &H
        ensures parts { H.parts result.now ≡ self.now.parts }
        ensures bounded { length_of self.now ≤ max_bytes }
        ensures placed { ArePlaced H.Part.len (length_of self.now) 0 (H.parts result.now) }
    {
        &self.parts
    }

    /// The parts.
    pub fn into_parts(self) -> H
        ensures { H.parts result ≡ self.parts }
    {
        let Upload { parts, .. } = self;
        parts
    }

    /// The lowest offset of the upload that is not held; `None` if all are.
    pub fn first_missing(&self) -> Option<u64>
        ensures { result ≡ first_missing_of H.Part.len self.now }
    {
        let gap = self.parts.first_gap();
        if gap < self.length() { Some(gap) } else { None }
    }

    /// Why the upload is not complete. The first matching one of: F13, its end is not fixed; F10, with the lowest offset that is not held.
    pub fn finish_fault(&self) -> Option<FinishFault>
        ensures { result ≡ finish_fault H.Part.len self.now }
    {
        if self.end.is_none() {
            return Some(FinishFault::NotFixed);
        }
        match self.first_missing() {
            Some(missing) => Some(FinishFault::Incomplete { missing }),
            None => None,
        }
    }

    // How far the upload extends: to its end, or if that is not fixed to the end of the last part.
    fn reached(&self) -> u64
        ensures { result ≡ reached H.Part.len self.now }
    {
        match self.end {
            Some(end) => end,
            None => self.parts.last_end(),
        }
    }

    // How far the upload extends, if `len` bytes at `offset` would end past its end, or would end it at another place.
    fn past_last(&self, offset: u64, len: u64) -> Option<u64>
        requires { offset + len < 2 ^ 64 }
        ensures { result ≡ past_last H.Part.len self.now offset len }
    {
        let end = offset + len;
        let reached = self.reached();
        let is_after = self.end.is_some() && end > reached;
        let is_before = len % CHUNK_LEN != 0 && end < reached;
        if is_after || is_before {
            Some(reached)
        } else {
            None
        }
    }

    /// Why the upload would not take `len` bytes at `offset`, which fit its plan. The first matching one of: F8, some offset is held
    /// already; F12, they end past the upload's end, or their length is not a multiple of 1024 and they end before the upload's end (if
    /// that is not fixed: before the end of the last part).
    pub fn place_fault(&self, offset: u64, len: u64) -> Option<AddFault>
        requires { Fits self.now.plan offset len }
        ensures fault { result ≡ place_fault H.Part.len self.now offset len }
        ensures absent { IfNone result (lookup (is_at (nat_cmp offset)) self.now.parts ≡ None) }
    {
        match self.parts.overlap(offset, len) {
            Some(at) => Some(AddFault::Overlap { at }),
            None => match self.past_last(offset, len) {
                Some(end) => Some(AddFault::PastLast { end }),
                None => None,
            },
        }
    }

    /// Adds a part that fits the plan. If the upload's end is not fixed, a part whose length is not a multiple of 1024 fixes it at the end
    /// of the part. If an allocation fails, the part is returned, and nothing changes.
    pub fn put(&mut self, part: H::Given, work: &mut H::Work) -> Result<(), H::Given>
        requires fits { Fits self.old.plan (H.start part) (H.Part.len (H.kept part)) }
        requires free { place_fault H.Part.len self.old (H.start part) (H.Part.len (H.kept part)) ≡ None }
        ensures put { OnOk result (self.new ≡ with_more H.Part.len self.old (H.start part) (H.kept part)) }
        ensures count { OnOk result (work.new ≡ H.works self.old.parts (H.start part) (H.kept part) work.old) }
        ensures back { IfErr result (λ back. back ≡ part) }
        ensures unchanged { OnErr result (self.new ≡ self.old) }
        ensures uncounted { OnErr result (work.new ≡ work.old) }
    {
        let offset = H::offset_of(&part);
        let len = H::len_of(&part);
        let end = end_with(self.end, offset, len);
        if let Err(part) = self.parts.add(part, work) {
            return Err(part);
        }
        self.held += len;
        self.end = end;
        Ok(())
    }

    /// Why the upload's end would not be fixed at `len`. The first matching one of: F1, `len` exceeds the plan's bound; F12, the upload has
    /// another end, or holds a part that ends after `len`.
    pub fn fix_fault(&self, len: u64) -> Option<FixFault>
        ensures { result ≡ fix_fault H.Part.len self.now len }
    {
        if len > self.plan.bound() {
            return Some(FixFault::TooLong);
        }
        let end = self.reached();
        let is_elsewhere = if self.end.is_some() {
            len != end
        } else {
            len < end
        };
        if is_elsewhere {
            Some(FixFault::PastLast { end })
        } else {
            None
        }
    }

    /// Fixes the upload's end at `len`. The parts are not read.
    pub fn fix(&mut self, len: u64)
        requires { fix_fault H.Part.len self.old len ≡ None }
        ensures { self.new ≡ fixed_at self.old len }
    {
        self.end = Some(len);
    }
}

// The end of an upload that takes `len` more bytes at `offset`: theirs, if there was none and `len` is not a multiple of 1024.
fn end_with(end: Option<u64>, offset: u64, len: u64) -> Option<u64>
    requires { offset + len < 2 ^ 64 }
    ensures { result ≡ end_with end offset len }
{
    match end {
        None if len % CHUNK_LEN != 0 => Some(offset + len),
        _ => end,
    }
}
