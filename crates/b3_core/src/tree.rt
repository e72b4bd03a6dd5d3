//! The hash by recursion, as the specification splits an input (section 2.1).

ghost use Rattle.std.specs.Prelude.{◌≡◌, ◌+◌, ◌-◌, ◌/◌, ◌%◌, ◌^◌, ◌<◌, length};
ghost use Rattle.b3_core.specs.Modes.{digest_of};
ghost use Rattle.b3_core.specs.Tree.{chunk_len, left_length, tree_top};
ghost use Rattle.b3_core.specs.Work.{counted, hash_work};

use crate::compression::CHUNK_LEN;
use crate::mode::Mode;
use crate::node::Top;
use crate::work::Work;

/// The length of the left side when an input of `len` bytes, more than one chunk, is split.
pub(crate) fn left_len(len: usize) -> usize
    requires { chunk_len < len }
    ensures value { result ≡ left_length len }
    ensures below { result < len }
    ensures whole { result % chunk_len ≡ 0 }
    ensures above { 0 < result }
{
    let mut side = CHUNK_LEN;
    while side < len - side {
        side *= 2;
    }
    side
}

// The top of the tree over `bytes`, whose first chunk has the number `number`.
fn top_of(mode: &Mode, bytes: &[u8], number: u64, work: &mut Work) -> Top
    requires { number + length bytes.now / chunk_len < 2 ^ 64 }
    ensures node { result ≡ tree_top bytes.now number mode.now }
    ensures count { work.new ≡ counted work.old (hash_work (length bytes.now) - 1) }
{
    if bytes.len() <= CHUNK_LEN {
        return Top::of_chunk(mode, bytes, number, work);
    }
    let middle = left_len(bytes.len());
    let (left, right) = bytes.split_at(middle);
    let left_top = top_of(mode, left, number, work);
    let right_top = top_of(mode, right, number + (middle / CHUNK_LEN) as u64, work);
    Top::parent(mode, &left_top, &right_top, work)
}

/// The hash of `bytes` in a mode, 32 bytes (sections 2.1 to 2.6), by plain recursion. [`hash_wide`](crate::hash_wide) returns the same hash
/// in about a third of the time. Both make one compression for each block of the input and one for each parent, which are one fewer than
/// the chunks.
#[tactic(auto, unfolding(crate::specs::Modes::digest_of))]
pub fn hash(mode: &Mode, bytes: &[u8], work: &mut Work) -> [u8; 32]
    ensures bytes { result ≡ digest_of bytes.now mode.now }
    ensures count { work.new ≡ counted work.old (hash_work (length bytes.now)) }
{
    top_of(mode, bytes, 0, work).root32(work)
}
