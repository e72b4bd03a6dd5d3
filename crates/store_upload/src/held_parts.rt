//! The parts of an open upload.

ghost use Rattle.std.specs.Prelude.{◌≡◌, ◌+◌, ◌%◌, ◌<◌, ◌≤◌, ℕ, List, [], IfErr, OnErr, OnOk, length};
ghost use Rattle.std.specs.BTreeMap.{insert_entry};
ghost use Rattle.std.specs.Ordering.{nat_cmp};
ghost use Rattle.store_upload.specs.Uploads.{ArePartsOfSome, MayTake, chunk_len, first_gap as first_gap_of, last_end as last_end_of, max_bytes, max_part_bytes, overlap_at};

use crate::length::Length;
use crate::parts;
use std::alloc::Global;
use std::collections::BTreeMap;

/// Parts by offset, however they are stored.
pub trait HeldParts: Drop {
    /// A part as it is stored.
    type Part: Length;
    /// A part as it is passed in.
    type Given: Drop;
    /// Counts the work of adding a part.
    type Work;

    // The parts, by offset.
    ghost parts: { Self → List (ℕ × Self.Part) };

    // The offset of a part that is passed in, and what is stored of it.
    ghost start: { Self.Given → ℕ };

    ghost kept: { Self.Given → Self.Part };

    // The work after adding a part.
    ghost works: { List (ℕ × Self.Part) → ℕ → Self.Part → Self.Work → Self.Work };

    /// No parts. Allocates nothing.
    fn new(alloc: Global) -> Self
        ensures { parts result ≡ [] };

    /// The offset of a part.
    fn offset_of(part: &Self::Given) -> u64
        ensures { result ≡ start part.now };

    /// The number of bytes of a part.
    fn len_of(part: &Self::Given) -> u64
        ensures { result ≡ Self.Part.len (kept part.now) };

    /// The lowest of the `len` offsets from `offset` on that is held.
    fn overlap(&self, offset: u64, len: u64) -> Option<u64>
        requires positive { 0 < len }
        requires aligned { offset % chunk_len ≡ 0 }
        requires within { offset + len ≤ max_bytes }
        requires short { len ≤ max_part_bytes }
        requires placed { ArePartsOfSome Self.Part.len (parts self.now) }
        ensures { result ≡ overlap_at Self.Part.len offset len (parts self.now) };

    /// The end of the last part; 0 if there is none.
    fn last_end(&self) -> u64
        requires { ArePartsOfSome Self.Part.len (parts self.now) }
        ensures { result ≡ last_end_of Self.Part.len (parts self.now) };

    /// The lowest offset that is not held.
    fn first_gap(&self) -> u64
        requires { ArePartsOfSome Self.Part.len (parts self.now) }
        ensures { result ≡ first_gap_of Self.Part.len 0 (parts self.now) };

    /// The number of parts.
    fn count(&self) -> u64
        ensures { result ≡ length (parts self.now) };

    /// Adds a part. If an allocation fails, the part is returned, and nothing changes.
    fn add(&mut self, part: Self::Given, work: &mut Self::Work) -> Result<(), Self::Given>
        requires { MayTake Self.Part.len (parts self.old) (start part) (kept part) }
        ensures added { OnOk result (parts self.new ≡ insert_entry nat_cmp (parts self.old) (start part) (kept part)) }
        ensures count { OnOk result (work.new ≡ works (parts self.old) (start part) (kept part) work.old) }
        ensures back { IfErr result (λ back. back ≡ part) }
        ensures unchanged { OnErr result (parts self.new ≡ parts self.old) }
        ensures uncounted { OnErr result (work.new ≡ work.old) };
}

/// Parts in an ordered map. They count no work.
impl<P: Length> HeldParts for BTreeMap<u64, P> {
    type Part = P;

    type Given = (u64, P);

    type Work = ();

    ghost parts = { λ m. m.entries };

    ghost start = { λ p. p.0 };

    ghost kept = { λ p. p.1 };

    ghost works = { λ ps offset part work. work };

    fn new(alloc: Global) -> Self {
        BTreeMap::new(alloc)
    }

    fn offset_of(part: &(u64, P)) -> u64 {
        part.0
    }

    fn len_of(part: &(u64, P)) -> u64 {
        part.1.length()
    }

    fn overlap(&self, offset: u64, len: u64) -> Option<u64> {
        parts::overlap(self, offset, len)
    }

    fn last_end(&self) -> u64 {
        parts::last_end(self)
    }

    fn first_gap(&self) -> u64 {
        parts::first_gap(self)
    }

    fn count(&self) -> u64 {
        self.len() as u64
    }

    fn add(&mut self, part: (u64, P), work: &mut ()) -> Result<(), (u64, P)> {
        let _ = work;
        let (offset, part) = part;
        match self.insert(offset, part) {
            Ok(_none) => Ok(()),
            Err(refused) => Err(refused.value),
        }
    }
}
