//! The parts of borrowed bytes, without copies of them. It merges pieces as the upload's forest does, so each merge of an upload by workers
//! is made twice. The address that the caller gets thus depends only on the caller's own bytes, and not on what a store reports.

ghost use Rattle.std.specs.Prelude.{◌≡◌, ◌≢◌, ℕ, ◌*◌, ◌-◌, ◌<◌, ◌↔◌, IfErr, IfNone, IfOk, IfSome, IsErr, OnErr, OnOk, Some, false, length, true};
ghost use Rattle.b3_core.specs.Modes.{hash_mode};
ghost use Rattle.b3_core.specs.Tree.{tree_top};
ghost use Rattle.b3_core.specs.Work.{counted};
ghost use Rattle.b3_forest.specs.Followed.{AllNoted, IsFirstUnnoted, IsNoted, IsNotedWith, IsRefused, MayNote, bytes_at, noting_merges, pieces_noted};
ghost use Rattle.b3_forest.specs.Borrowed.{borrowed_bytes};
ghost use Rattle.store_upload.specs.Uploads.{closed_plan, max_bytes};
ghost use Rattle.b3_forest.specs.Texts.{follow_text};

use crate::borrowed::BorrowedBytes;
use crate::held;
use crate::piece::Subtree;
use crate::prepared::Prepared;
use crate::refusal::{Incomplete, NoteFault};
use crate::shared_bytes::SharedBytes;
use b3_core::{Top, Work};
use std::alloc::Global;
use std::collections::BTreeMap;
use std::fmt;
use std::marker::Model;
use store_upload::{Plan, TooLong, upload_laws};

/// The parts of an upload whose bytes are borrowed: the pieces of the noted parts, without copies of their bytes.
#[derive(Drop)]
pub struct Follow<'a> {
    borrowed: BorrowedBytes<'a>,
    subtrees: BTreeMap<u64, Subtree>,
}

impl<'a> Model for Follow<'a> {
    ghost use Rattle.store_upload.specs.Uploads.{max_bytes};
    ghost use Rattle.b3_forest.specs.Followed.{ModelFollow, Follows, followed};
    ghost use Rattle.b3_forest.specs.Borrowed.{borrowed_bytes};

    ghost Value = { ModelFollow };

    ghost view = { λ f. followed (borrowed_bytes f.borrowed) f.subtrees.entries };

    ghost invariant = { λ f. Follows (borrowed_bytes f.borrowed) f.subtrees.entries };
}

impl<'a> Follow<'a> {
    /// Follows the parts of an upload of `bytes`; no part is noted yet. F1 if there are more than 2^44 bytes. Allocates nothing.
    pub fn new(alloc: Global, bytes: &'a [u8]) -> Result<Follow<'a>, TooLong>
        ensures bytes { IfOk result (λ f. f.bytes ≡ bytes.now) }
        ensures nothing { IfOk result (λ f. (i : ℕ) → IsNoted f i → ⊥) }
        ensures no_pieces { IfOk result (λ f. pieces_noted f ≡ 0) }
        ensures too_long { IsErr result ↔ max_bytes < length bytes.now }
    {
        Follow::of(alloc, BorrowedBytes::Slice(bytes))
    }

    /// Follows the parts of an upload of bytes borrowed as one slice or in stretches, as `new` does.
    pub fn of(alloc: Global, borrowed: BorrowedBytes<'a>) -> Result<Follow<'a>, TooLong>
        ensures bytes { IfOk result (λ f. f.bytes ≡ borrowed_bytes borrowed.entry) }
        ensures nothing { IfOk result (λ f. (i : ℕ) → IsNoted f i → ⊥) }
        ensures no_pieces { IfOk result (λ f. pieces_noted f ≡ 0) }
        ensures too_long { IsErr result ↔ max_bytes < length (borrowed_bytes borrowed.entry) }
    {
        let plan = Plan::new(borrowed.len())?;
        // For the proof alone: the bound of a plan is at most 2^44.
        let _most = plan.bound();
        let subtrees = BTreeMap::new(alloc);
        Ok(Follow { borrowed, subtrees })
    }

    /// Notes a part, and returns the number of merges, of two compressions each.
    ///
    /// A refusal leaves what was noted unchanged and makes no compression: F7 the part was made for another plan, F8 some offset of the
    /// part was noted already, F11 the part's bytes are not the borrowed bytes at its offset. F9 if out of memory.
    pub fn note(&mut self, part: &Prepared, work: &mut Work) -> Result<u64, NoteFault>
        ensures noted { OnOk result (IsNotedWith self.old self.new part.now.part) }
        ensures allowed { OnOk result (MayNote self.old part.now) }
        ensures merges { IfOk result (λ n. n ≡ noting_merges self.old self.new part.now.part) }
        ensures count { IfOk result (λ n. work.new ≡ counted work.old (2 * n)) }
        ensures fault { IfErr result (IsRefused self.old part.now) }
        ensures unchanged { OnErr result (self.new ≡ self.old) }
        ensures uncounted { OnErr result (work.new ≡ work.old) }
    {
        // For the proof alone: the laws of uploads.
        upload_laws::<SharedBytes>();
        if !part.plan().is_of(self.borrowed.len()) {
            return Err(NoteFault::WrongPlan);
        }
        let len = part.fitting().len() as u64;
        if let Some(at) = held::overlap(&self.subtrees, part.offset(), len) {
            return Err(NoteFault::Overlap { at });
        }
        if !has_bytes(self.borrowed, part) {
            return Err(NoteFault::Stranger);
        }
        let Ok(merges) = held::add(&mut self.subtrees, part, work) else {
            return Err(NoteFault::NoMemory);
        };
        Ok(merges)
    }

    /// The lowest offset that was not noted; `None` if all were.
    pub fn first_missing(&self) -> Option<u64>
        ensures found { IfSome result (IsFirstUnnoted self.now) }
        ensures none { IfNone result (AllNoted self.now) }
    {
        // For the proof alone: the laws of uploads.
        upload_laws::<SharedBytes>();
        let len = self.borrowed.len();
        let missing = held::least_missing(&self.subtrees, len);
        if missing < len { Some(missing) } else { None }
    }

    /// The top of the tree over the borrowed bytes, or F10 with the lowest offset that was not noted. It makes two compressions for each
    /// piece after the first, and none if something is missing.
    pub fn finish(&self, work: &mut Work) -> Result<Top, Incomplete>
        ensures missing { IfErr result (λ r. IsFirstUnnoted self.now r.missing) }
        ensures complete { OnOk result (AllNoted self.now) }
        ensures top { IfOk result (λ top. top ≡ tree_top self.now.bytes 0 hash_mode) }
        ensures count { OnOk result (work.new ≡ counted work.old (2 * (pieces_noted self.now - 1))) }
        ensures uncounted { OnErr result (work.new ≡ work.old) }
    {
        // For the proof alone: the laws of uploads.
        upload_laws::<SharedBytes>();
        let len = self.borrowed.len();
        let missing = held::least_missing(&self.subtrees, len);
        if missing < len {
            return Err(Incomplete { missing });
        }
        Ok(held::top(&self.subtrees, work))
    }
}

/// Shows the number of bytes.
impl fmt::Debug for Follow<'_> {
    ghost debug_output = { λ follow. Some (follow_text (length follow.bytes)) };

    fn fmt<W: fmt::Write>(&self, f: &mut fmt::Formatter<W>) -> fmt::Result {
        let len = self.borrowed.len();
        write!(f, "Follow {{ bytes: {len} }}")
    }
}

// Whether the part's bytes are the borrowed bytes at its offset.
fn has_bytes(borrowed: BorrowedBytes<'_>, part: &Prepared) -> bool
    requires plan { part.now.plan ≡ closed_plan (length (borrowed_bytes borrowed)) }
    ensures yes { result ≡ true → part.now.part.bytes ≡ bytes_at (borrowed_bytes borrowed.entry) part.now.part }
    ensures no { result ≡ false → part.now.part.bytes ≢ bytes_at (borrowed_bytes borrowed.entry) part.now.part }
{
    let own = part.fitting();
    borrowed.has(part.offset(), own)
}
