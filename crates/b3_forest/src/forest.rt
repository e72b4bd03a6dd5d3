//! The parts that an upload holds, as a forest of pieces.

ghost use Rattle.std.specs.Prelude.{◌≡◌, ◌≤◌, IfErr, IfOk, OnErr, OnOk, None, Some, length, map, unwrap_or};
ghost use Rattle.b3_core.specs.Modes.{hash_mode};
ghost use Rattle.b3_core.specs.Tree.{tree_top};
ghost use Rattle.b3_core.specs.Work.{counted};
ghost use Rattle.store_upload.specs.Uploads.{ArePlaced, IsComplete, IsUpload, finish_fault, first_missing, fix_fault, fixed_at, held_bytes, length_of, new_upload};
ghost use Rattle.store_upload.specs.declared.refusal.AddFault.TheVariants.{NoMemory};
ghost use Rattle.b3_forest.specs.Gaps.{gaps_of};
ghost use Rattle.b3_forest.specs.Texts.{forest_text};
ghost use Rattle.b3_forest.specs.Uploads.{add_fault, content_of, finish_work, merges_of, part_of, put_work, with_more};

use crate::gap::Gap;
use crate::hashed_parts::HashedParts;
use crate::prepared::Prepared;
use crate::segment::Segment;
use crate::shared_bytes::SharedBytes;
use b3_core::{Top, Work};
use std::alloc::{AllocError, Global};
use std::collections::btree_map::Iter;
use std::fmt;
use std::marker::Model;
use store_upload::{AddFault, FinishFault, FixFault, Plan, Refused, Upload};

/// The parts that an upload holds. It keeps their bytes by offset and the pieces of all of them. Neighbouring pieces that are the halves of
/// one aligned range are merged, so a run of held chunks has at most two pieces of each width.
#[derive(Drop)]
pub struct Forest {
    open: Upload<HashedParts>,
}

impl Model for Forest {
    ghost use Rattle.std.specs.Prelude.{ℕ, List};
    ghost use Rattle.store_upload.specs.Uploads.{ModelUpload};

    ghost Value = { ModelUpload (List ℕ) };

    ghost view = { λ f. f.open };
}

impl Forest {
    /// A forest that holds nothing. Allocates nothing.
    pub fn new(alloc: Global, plan: Plan) -> Forest
        ensures { result ≡ new_upload plan }
    {
        Forest {
            open: Upload::new(alloc, plan),
        }
    }

    /// The forest of an open upload.
    pub fn of(upload: Upload<HashedParts>) -> Forest
        ensures { result ≡ upload }
    {
        Forest { open: upload }
    }

    /// The plan of the upload. It never changes.
    pub fn plan(&self) -> Plan
        ensures value { result ≡ self.now.plan }
        ensures lawful { IsUpload length self.now }
    {
        self.open.plan()
    }

    /// The end of the upload, once it is fixed; under a plan that is not open it is fixed from the start.
    pub fn end(&self) -> Option<u64>
        ensures { result ≡ self.now.end }
    {
        self.open.end()
    }

    /// The upload's length: its end if that is fixed, otherwise the plan's bound.
    pub fn length(&self) -> u64
        ensures value { result ≡ length_of self.now }
        ensures within { result ≤ self.now.plan.bound }
    {
        self.open.length()
    }

    /// Why a part would not be added, apart from running out of memory. The first matching one of: F7, the part was made for another plan;
    /// F8, some offset of the part is held already; F12, the part ends past the upload's end, or its length is not a multiple of 1024 and
    /// it ends before the upload's end (if that is not fixed: before the end of the last part).
    pub fn add_fault(&self, part: &Prepared) -> Option<AddFault>
        ensures { result ≡ add_fault self.now part.now }
    {
        if !part.plan().is_same(&self.open.plan()) {
            return Some(AddFault::WrongPlan);
        }
        let len = part.fitting().len() as u64;
        self.open.place_fault(part.offset(), len)
    }

    /// Why the upload's end would not be fixed at `len`. The first matching one of: F1, `len` exceeds the plan's bound; F12, the upload has
    /// another end, or holds a part that ends after `len`.
    pub fn fix_fault(&self, len: u64) -> Option<FixFault>
        ensures { result ≡ fix_fault length self.now len }
    {
        self.open.fix_fault(len)
    }

    /// Fixes the upload's end at `len`. F1 if `len` exceeds the plan's bound, F12 if the upload has another end or holds a part that ends
    /// after `len`. Allocates nothing.
    pub fn fix(&mut self, len: u64) -> Result<(), FixFault>
        ensures fixed { OnOk result (self.new ≡ fixed_at self.old len) }
        ensures allowed { OnOk result (fix_fault length self.old len ≡ None) }
        ensures fault { IfErr result (λ fault. fix_fault length self.old len ≡ Some fault) }
        ensures unchanged { OnErr result (self.new ≡ self.old) }
    {
        match self.open.fix_fault(len) {
            Some(fault) => Err(fault),
            None => {
                self.open.fix(len);
                Ok(())
            }
        }
    }

    /// Adds a part, and returns the number of merges, of two compressions each. If the upload's end is not fixed, a part whose length is
    /// not a multiple of 1024 fixes it at the end of the part.
    ///
    /// A refusal returns the part, leaves the forest unchanged and makes no compression: F7 the part was made for another plan, F8 some
    /// offset of the part is held already, F12 the part ends past the upload's end, or its length is not a multiple of 1024 and it ends
    /// before the upload's end (if that is not fixed: before the end of the last part). F9 if out of memory.
    pub fn add(
        &mut self,
        part: Prepared,
        work: &mut Work,
    ) -> Result<u64, Refused<AddFault, Prepared>>
        ensures added { OnOk result (self.new ≡ with_more self.old part.part) }
        ensures allowed { OnOk result (add_fault self.old part ≡ None) }
        ensures merges { IfOk result (λ n. n ≡ merges_of self.old.parts part.part) }
        ensures count { OnOk result (work.new ≡ counted work.old (put_work self.old.parts part.part)) }
        ensures fault { IfErr result (λ r. r.reason ≡ unwrap_or (add_fault self.old part) NoMemory) }
        ensures back { IfErr result (λ r. r.value ≡ part) }
        ensures unchanged { OnErr result (self.new ≡ self.old) }
        ensures uncounted { OnErr result (work.new ≡ work.old) }
    {
        if let Some(reason) = self.add_fault(&part) {
            return Err(Refused {
                reason,
                value: part,
            });
        }
        // For the proof alone: a prepared part fits its plan.
        let _fitting = part.fitting();
        let pieces = self.open.parts().pieces() + part.pieces();
        match self.open.put(part, work) {
            Ok(()) => Ok((pieces - self.open.parts().pieces()) as u64),
            Err(part) => Err(Refused {
                reason: AddFault::NoMemory,
                value: part,
            }),
        }
    }

    /// The number of bytes held.
    pub fn held(&self) -> u64
        ensures { result ≡ held_bytes length self.now.parts }
    {
        self.open.held()
    }

    /// The lowest offset of the upload that is not held; `None` if the upload is complete.
    pub fn first_missing(&self) -> Option<u64>
        ensures { result ≡ first_missing length self.now }
    {
        self.open.first_missing()
    }

    /// All offsets that are not held, in order, as the smallest number of gaps. If the upload's end is not fixed, the last gap extends to
    /// the plan's bound.
    pub fn gaps(&self, alloc: Global) -> Result<Vec<Gap>, AllocError>
        ensures { IfOk result (λ gaps. gaps.items ≡ gaps_of self.now) }
    {
        self.open.parts().gaps(alloc, self.open.length())
    }

    /// The number of parts held.
    pub fn parts(&self) -> u64
        ensures { result ≡ length self.now.parts }
    {
        self.open.count()
    }

    /// The parts in order of offset: the offset and the bytes of each.
    pub fn segments(&self) -> Iter<'_, u64, SharedBytes>
        ensures parts { result ≡ self.now.parts }
        ensures in_order { ArePlaced length (length_of self.now) 0 result }
    {
        self.open.parts().iter()
    }

    /// The parts in order of offset; their bytes are shared.
    pub fn shared_segments(&self, alloc: Global) -> Result<Vec<Segment>, AllocError>
        ensures { IfOk result (λ segments. map part_of segments.items ≡ self.now.parts) }
    {
        self.open.parts().shared_segments(alloc)
    }

    /// The top of the tree over the whole content; F13 if the upload's end is not fixed, or F10 with the lowest offset that is not held. It
    /// makes two compressions for each piece after the first, and none if it is refused.
    pub fn finish(&self, work: &mut Work) -> Result<Top, FinishFault>
        ensures fault { IfErr result (λ fault. finish_fault length self.now ≡ Some fault) }
        ensures complete { OnOk result (IsComplete length self.now) }
        ensures top { IfOk result (λ top. top ≡ tree_top (content_of self.now.parts) 0 hash_mode) }
        ensures len { OnOk result (length (content_of self.now.parts) ≡ length_of self.now) }
        ensures count { OnOk result (work.new ≡ counted work.old (finish_work self.now.parts)) }
        ensures uncounted { OnErr result (work.new ≡ work.old) }
    {
        match self.open.finish_fault() {
            Some(fault) => Err(fault),
            None => Ok(Forest::top_of(&self.open, work)),
        }
    }

    /// The top of the tree over the whole content of a complete upload. It makes two compressions for each piece after the first.
    pub fn top_of(upload: &Upload<HashedParts>, work: &mut Work) -> Top
        requires { finish_fault length upload.now ≡ None }
        ensures top { result ≡ tree_top (content_of upload.now.parts) 0 hash_mode }
        ensures len { length (content_of upload.now.parts) ≡ length_of upload.now }
        ensures count { work.new ≡ counted work.old (finish_work upload.now.parts) }
    {
        upload.parts().top(work)
    }
}

/// Shows the numbers of parts and bytes held, and the upload's length.
impl fmt::Debug for Forest {
    ghost debug_output = { λ forest. Some (forest_text forest) };

    fn fmt<W: fmt::Write>(&self, f: &mut fmt::Formatter<W>) -> fmt::Result {
        let parts = self.parts();
        let held = self.held();
        let length = self.length();
        write!(
            f,
            "Forest {{ parts: {parts}, held: {held}, length: {length} }}"
        )
    }
}
