//! The parts of an upload of bytes.

ghost use Rattle.std.specs.Prelude.{◌≡◌, IfOk, length, map};
ghost use Rattle.b3_core.specs.Modes.{hash_mode};
ghost use Rattle.b3_core.specs.Tree.{tree_top};
ghost use Rattle.b3_core.specs.Work.{counted};
ghost use Rattle.store_upload.specs.Uploads.{ArePlaced, first_gap, last_end as last_end_of};
ghost use Rattle.b3_forest.specs.Gaps.{gaps_from};
ghost use Rattle.b3_forest.specs.Uploads.{content_of, finish_work, part_of, pieces_held, put_work};

use crate::gap::{Gap, push_between};
use crate::held;
use crate::piece::Subtree;
use crate::prepared::Prepared;
use crate::segment::Segment;
use crate::shared_bytes::SharedBytes;
use b3_core::{Top, Work};
use std::alloc::{AllocError, Global};
use std::collections::BTreeMap;
use std::collections::btree_map::{Entry, Iter};
use std::marker::Model;
use store_upload::{HeldParts, Length};

/// The parts of an upload: their bytes by offset, and the pieces of all of them. The upload's end is not known here: parts that fit an
/// upload of some length also fit one that ends where the last part does.
#[derive(Drop)]
pub struct HashedParts {
    last_end: u64,
    parts: BTreeMap<u64, SharedBytes>,
    subtrees: BTreeMap<u64, Subtree>,
}

impl Model for HashedParts {
    ghost use Rattle.std.specs.Prelude.{List};
    ghost use Rattle.b3_forest.specs.Parts.{HeldPart};
    ghost use Rattle.b3_forest.specs.Subtrees.{AreHashed};

    ghost Value = { List HeldPart };

    ghost view = { λ h. h.parts.entries };

    ghost invariant = { λ h. AreHashed h.last_end h.parts.entries h.subtrees.entries };
}

impl HeldParts for HashedParts {
    type Part = SharedBytes;

    type Given = Prepared;

    type Work = Work;

    ghost parts = { λ h. h };

    ghost start = { λ p. p.part.offset };

    ghost kept = { λ p. p.part.bytes };

    ghost works = { λ ps offset bytes work. counted work (put_work ps (record { offset = offset; bytes = bytes })) };

    fn new(alloc: Global) -> Self {
        HashedParts {
            last_end: 0,
            parts: BTreeMap::new(alloc),
            subtrees: BTreeMap::new(alloc),
        }
    }

    fn offset_of(part: &Prepared) -> u64 {
        part.offset()
    }

    fn len_of(part: &Prepared) -> u64 {
        part.bytes().len() as u64
    }

    fn overlap(&self, offset: u64, len: u64) -> Option<u64> {
        held::overlap(&self.subtrees, offset, len)
    }

    fn last_end(&self) -> u64 {
        let HashedParts { last_end, .. } = self;
        *last_end
    }

    fn first_gap(&self) -> u64 {
        held::least_missing(&self.subtrees, self.last_end)
    }

    fn count(&self) -> u64 {
        self.parts.len() as u64
    }

    fn add(&mut self, part: Prepared, work: &mut Work) -> Result<(), Prepared> {
        let end = part.end();
        // Makes room first, then adds the pieces, which may fail: so nothing has to be taken out again.
        let Ok(place) = self.parts.entry(part.offset()) else {
            return Err(part);
        };
        let Entry::Vacant(room) = place else {
            unreachable!();
        };
        let Ok(_merges) = held::add(&mut self.subtrees, &part, work) else {
            return Err(part);
        };
        room.insert(part.into_shared());
        self.last_end = self.last_end.max(end);
        Ok(())
    }
}

impl HashedParts {
    /// The parts, in order of offset.
    pub fn iter(&self) -> Iter<'_, u64, SharedBytes>
        ensures { result ≡ self.now }
    {
        self.parts.iter()
    }

    /// The parts, in order of offset; their bytes are shared.
    pub fn shared_segments(&self, alloc: Global) -> Result<Vec<Segment>, AllocError>
        ensures { IfOk result (λ segments. map part_of segments.items ≡ self.now) }
    {
        let mut segments = Vec::with_capacity(alloc, self.parts.len())?;
        for (offset, shared) in &self.parts {
            segments.push(shared.at(*offset)?)?;
        }
        Ok(segments)
    }

    /// The number of pieces.
    pub fn pieces(&self) -> usize
        ensures { result ≡ pieces_held self.now }
    {
        self.subtrees.len()
    }

    /// The gaps in an upload of `len` bytes, which the parts fit, in order of offset.
    #[tactic(auto, unfolding(crate::specs::Gaps::gaps_from))]
    pub fn gaps(&self, alloc: Global, len: u64) -> Result<Vec<Gap>, AllocError>
        requires { ArePlaced length len 0 self.now }
        ensures { IfOk result (λ gaps. gaps.items ≡ gaps_from len 0 self.now) }
    {
        let mut gaps = Vec::new(alloc);
        let mut next = 0;
        for (offset, shared) in &self.parts {
            push_between(&mut gaps, next, *offset)?;
            next = *offset + shared.length();
        }
        push_between(&mut gaps, next, len)?;
        Ok(gaps)
    }

    /// The top of the tree over the content, if no offset below the end of the last part is missing. It makes two compressions for each
    /// piece after the first.
    pub fn top(&self, work: &mut Work) -> Top
        requires { first_gap length 0 self.now ≡ last_end_of length self.now }
        ensures top { result ≡ tree_top (content_of self.now) 0 hash_mode }
        ensures len { length (content_of self.now) ≡ last_end_of length self.now }
        ensures count { work.new ≡ counted work.old (finish_work self.now) }
    {
        held::top(&self.subtrees, work)
    }
}
