//! What the pieces of an upload say about its parts.

ghost use Rattle.std.specs.Prelude.{◌≡◌, ℕ, ◌%◌, ◌*◌, ◌+◌, ◌<◌, ◌≤◌, List, IfOk, OnErr, OnOk, length};
ghost use Rattle.b3_core.specs.Modes.{hash_mode};
ghost use Rattle.b3_core.specs.Tree.{chunk_len, tree_top};
ghost use Rattle.b3_core.specs.Work.{counted};
ghost use Rattle.store_upload.specs.Uploads.{first_gap as first_gap_of, max_bytes, overlap_at};
ghost use Rattle.b3_forest.specs.Subtrees.{Keeps};
ghost use Rattle.b3_forest.specs.inner.Subtrees.{AreOfUpload, AreWhole, HaveRoom};
ghost use Rattle.b3_forest.specs.Parts.{HeldPart};
ghost use Rattle.b3_forest.specs.Uploads.{content_of, finish_work, merges_of, with_part};

use crate::piece::Subtree;
use crate::prepared::Prepared;
use crate::subtrees::{first_gap, first_held, put_in, settle_all, top_of};
use b3_core::{Mode, Top, Work, tree_laws};
use std::alloc::AllocError;
use std::collections::BTreeMap;
use store_upload::CHUNK_LEN;

/// The lowest of the `len` offsets from `offset` on that is held.
pub(crate) fn overlap(subtrees: &BTreeMap<u64, Subtree>, offset: u64, len: u64) -> Option<u64>
    requires positive { 0 < len }
    requires aligned { offset % chunk_len ≡ 0 }
    requires within { offset + len ≤ max_bytes }
    requires pieces { (n : ℕ) × AreOfUpload n subtrees.now.entries }
    ensures { (n : ℕ) (ps : List HeldPart) → Keeps n ps subtrees.now.entries → result ≡ overlap_at length offset len ps }
{
    let start = offset / CHUNK_LEN;
    let end = (offset + len).div_ceil(CHUNK_LEN);
    match first_held(subtrees, start, end) {
        Some(chunk) => Some(chunk * CHUNK_LEN),
        None => None,
    }
}

/// The lowest offset of an upload of `len` bytes that is not held; `len` if all are.
pub(crate) fn least_missing(subtrees: &BTreeMap<u64, Subtree>, len: u64) -> u64
    requires { AreOfUpload len subtrees.now.entries }
    ensures least { (ps : List HeldPart) → Keeps len ps subtrees.now.entries → result ≡ first_gap_of length 0 ps }
    ensures within { result ≤ len }
{
    (first_gap(subtrees, 0) * CHUNK_LEN).min(len)
}

/// Adds a part's pieces, and returns the number of merges. If an allocation fails, the pieces are unchanged.
pub(crate) fn add(
    subtrees: &mut BTreeMap<u64, Subtree>,
    part: &Prepared,
    work: &mut Work,
) -> Result<u64, AllocError>
    requires { (n : ℕ) × (ps : List HeldPart) × HaveRoom n ps part.now.part subtrees.old.entries }
    ensures kept { (n : ℕ) (ps : List HeldPart) → HaveRoom n ps part.now.part subtrees.old.entries
        → OnOk result (Keeps n (with_part part.now.part ps) subtrees.new.entries) }
    ensures merges { (n : ℕ) (ps : List HeldPart) → HaveRoom n ps part.now.part subtrees.old.entries
        → IfOk result (λ m. m ≡ merges_of ps part.now.part) }
    ensures count { IfOk result (λ n. work.new ≡ counted work.old (2 * n)) }
    ensures unchanged { (n : ℕ) (ps : List HeldPart) → HaveRoom n ps part.now.part subtrees.old.entries
        → OnErr result (subtrees.new.entries ≡ subtrees.old.entries) }
    ensures uncounted { OnErr result (work.new ≡ work.old) }
{
    put_in(subtrees, part.piece_list())?;
    let before = subtrees.len();
    settle_all(subtrees, part.piece_list(), work);
    let merges = before - subtrees.len();
    Ok(merges as u64)
}

/// The top over parts that leave no offset out.
pub(crate) fn top(subtrees: &BTreeMap<u64, Subtree>, work: &mut Work) -> Top
    requires { (n : ℕ) × (ps : List HeldPart) × AreWhole n ps subtrees.now.entries }
    ensures top { (n : ℕ) (ps : List HeldPart) → AreWhole n ps subtrees.now.entries → result ≡ tree_top (content_of ps) 0 hash_mode }
    ensures len { (n : ℕ) (ps : List HeldPart) → AreWhole n ps subtrees.now.entries → length (content_of ps) ≡ n }
    ensures count { (n : ℕ) (ps : List HeldPart) → AreWhole n ps subtrees.now.entries → work.new ≡ counted work.old (finish_work ps) }
{
    // For the proof alone: the laws of the tree.
    tree_laws();
    match top_of(subtrees, work) {
        Some(top) => top,
        None => Top::of_input(&Mode::hash(), &[], work),
    }
}
