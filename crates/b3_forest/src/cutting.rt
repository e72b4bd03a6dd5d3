//! A part is split into pieces from the top: a range of chunks that the part covers is one piece, and any other range that it overlaps is
//! halved.

ghost use Rattle.std.specs.Prelude.{◌≡◌, ℕ, ◌+◌, ◌-◌, ◌*◌, ◌/◌, ◌^◌, ◌<◌, ◌≤◌, ◌++◌, OnOk, length, min, max};
ghost use Rattle.b3_core.specs.Tree.{chunk_len};
ghost use Rattle.b3_core.specs.Work.{NeverFalls, counted};
ghost use Rattle.b3_forest.specs.Parts.{chunks_of};
ghost use Rattle.store_upload.specs.Uploads.{max_part_bytes};
ghost use Rattle.b3_forest.specs.Pieces.{max_chunks, part_work, piece_at, piece_count, pieces_of, root_level};

use crate::piece::{MAX_CHUNKS, Piece, ROOT_LEVEL};
use b3_core::{CHUNK_LEN, Mode, Top, Work};
use std::alloc::AllocError;

// The 2^`level` chunks starting at chunk `first`; `width` is their number.
#[derive(Clone, Copy)]
struct ChunkRange {
    level: u32,
    width: u64,
    first: u64,
}

// The piece of this range of chunks, of a part that starts at chunk `start` and covers them.
fn piece_of(start: u64, bytes: &[u8], range: ChunkRange, work: &mut Work) -> Piece
    requires width { (range.width ≡ 2 ^ range.level) × (0 < range.width) × (range.width ≤ max_chunks) }
    requires len { length bytes.now ≤ max_part_bytes }
    requires aligned { (q : ℕ) × (range.first ≡ q * 2 ^ range.level) }
    requires within { (start ≤ range.first) × (range.first + range.width ≤ start + (length bytes.now + (chunk_len - 1)) / chunk_len) × (range.first < max_chunks) }
    ensures piece { result ≡ piece_at (chunks_of (record { offset = chunk_len * start; bytes = bytes.now })) range.level range.first }
    ensures count { work.new ≡ counted work.old (part_work (min (chunk_len * range.width) (length bytes.now - chunk_len * (range.first - start))) 1) }
{
    let ChunkRange {
        level,
        width,
        first,
    } = range;
    let skip = (first - start) as usize * CHUNK_LEN;
    let end = bytes.len().min(skip + width as usize * CHUNK_LEN);
    let top = Top::of_subtree(&Mode::hash(), &bytes[skip..end], first, work);
    Piece { first, level, top }
}

// Adds the pieces in this range of chunks, of a part that starts at chunk `start`.
fn push_pieces(
    start: u64,
    bytes: &[u8],
    range: ChunkRange,
    pieces: &mut Vec<Piece>,
    work: &mut Work,
) -> Result<(), AllocError>
    requires width { (range.width ≡ 2 ^ range.level) × (0 < range.width) × (range.width ≤ max_chunks) }
    requires len { (length bytes.now ≤ max_part_bytes) × (0 < length bytes.now) }
    requires aligned { (q : ℕ) × (range.first ≡ q * 2 ^ range.level) }
    requires within { (range.first + range.width ≤ max_chunks) × (start ≤ max_chunks) }
    ensures pieces { OnOk result (pieces.new.items ≡ pieces.old.items
        ++ pieces_of (chunks_of (record { offset = chunk_len * start; bytes = bytes.now })) range.level range.first) }
    ensures count { OnOk result (work.new ≡ counted work.old (part_work
        (min (chunk_len * start + length bytes.now) (chunk_len * (range.first + range.width)) - max (chunk_len * start) (chunk_len * range.first))
        (length (pieces_of (chunks_of (record { offset = chunk_len * start; bytes = bytes.now })) range.level range.first)))) }
    ensures never_falls { NeverFalls work.old work.new }
{
    let ChunkRange {
        level,
        width,
        first,
    } = range;
    let end = start + bytes.len().div_ceil(CHUNK_LEN) as u64;
    if end <= first || first + width <= start {
        return Ok(());
    }
    if start <= first && first + width <= end {
        pieces.push(piece_of(start, bytes, range, work))?;
        return Ok(());
    }
    let half = width / 2;
    let left = ChunkRange {
        level: level - 1,
        width: half,
        first,
    };
    let right = ChunkRange {
        first: first + half,
        ..left
    };
    push_pieces(start, bytes, left, pieces, work)?;
    push_pieces(start, bytes, right, pieces, work)?;
    Ok(())
}

/// Adds the pieces of a part that starts at chunk `start`. The search starts with the smallest range that holds the whole part.
pub(crate) fn push_all(
    start: u64,
    bytes: &[u8],
    pieces: &mut Vec<Piece>,
    work: &mut Work,
) -> Result<(), AllocError>
    requires len { (length bytes.now ≤ max_part_bytes) × (0 < length bytes.now) }
    requires within { start + (length bytes.now + (chunk_len - 1)) / chunk_len ≤ max_chunks }
    ensures pieces { OnOk result (pieces.new.items ≡ pieces.old.items ++ pieces_of (chunks_of (record { offset = chunk_len * start; bytes = bytes.now })) root_level 0) }
    ensures count { OnOk result (work.new ≡ counted work.old (part_work (length bytes.now)
        (piece_count (chunks_of (record { offset = chunk_len * start; bytes = bytes.now }))))) }
    ensures never_falls { NeverFalls work.old work.new }
{
    let end = start + bytes.len().div_ceil(CHUNK_LEN) as u64;
    let mut level = ROOT_LEVEL;
    let mut width = MAX_CHUNKS;
    let mut first = 0u64;
    while level > 0 {
        let half = width / 2;
        if start >= first + half {
            first += half;
        } else if end > first + half {
            break;
        }
        width = half;
        level -= 1;
    }
    let range = ChunkRange {
        level,
        width,
        first,
    };
    push_pieces(start, bytes, range, pieces, work)
}
