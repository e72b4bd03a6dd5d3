//! The incremental hasher.

ghost use Rattle.std.specs.Prelude.{◌≡◌, ◌≢◌, ◌↔◌, ℕ, ◌+◌, ◌-◌, ◌^◌, ◌<◌, ◌++◌, List, [], length};
ghost use Rattle.b3_core.specs.ExtendedOutput.{blocks_touched, output_of};
ghost use Rattle.b3_core.specs.Hashers.{CountsRest};
ghost use Rattle.b3_core.specs.HasherStates.{IsState};
ghost use Rattle.b3_core.specs.Modes.{digest_of};
ghost use Rattle.b3_core.specs.Tree.{ModelMode, tree_top};
ghost use Rattle.b3_core.specs.Work.{NeverFalls, counted, hash_work};
ghost use Rattle.b3_c.specs.Answers.{finalize_refusal, init_answer, read_refusal};
ghost use Rattle.b3_c.specs.Hashers.{HoldsIn, kept_in};
ghost use Rattle.b3_c.specs.Modes.{mode_of, mode_work};

use crate::answers::{BAD_HASHER, BAD_KEY, BAD_OUTPUT, BAD_POSITION, DONE};
use crate::whole::{HASH_LEN, mode_of, read_output};
use b3_core::{HasherState, Work};

/// Initializes a hasher that has been given no bytes, in a mode with its key or context (sections 2.1 to 2.5). Returns 0 on success, 2 if
/// there is no such mode or its key has another length. The previous contents of `hasher` have no meaning.
#[unsafe(no_mangle)]
pub extern "C" fn b3_hasher_init(
    hasher: &mut HasherState,
    mode: u32,
    key: &[u8],
    work: &mut Work,
) -> u32
    ensures answer { result ≡ init_answer mode (length key.now) }
    ensures bytes { result ≡ 0 → HoldsIn hasher.new (mode_of mode key.now) [] }
    ensures kept { result ≡ 0 → kept_in hasher.new ≡ 0 }
    ensures count { result ≡ 0 → work.new ≡ counted work.old (mode_work mode (length key.now)) }
    ensures refused { result ≢ 0 → (hasher.new ≡ hasher.old) × (work.new ≡ work.old) }
{
    let Some(mode) = mode_of(mode, key, work) else {
        return BAD_KEY;
    };
    hasher.init(&mode);
    DONE
}

/// Appends `bytes` to the hasher's input. Returns 0 on success, 5 if the hasher was not made by `b3_hasher_init`. The whole input must be
/// shorter than 2^64 bytes.
#[unsafe(no_mangle)]
pub extern "C" fn b3_hasher_update(hasher: &mut HasherState, bytes: &[u8], work: &mut Work) -> u32
    ensures done { result ≡ 0 ↔ IsState hasher.old }
    ensures why { result ≢ 0 → result ≡ 5 }
    ensures state { IsState hasher.old → IsState hasher.new }
    ensures bytes { (p : ModelMode) (x : List ℕ) → HoldsIn hasher.old p x → length x + length bytes.now < 2 ^ 64
        → HoldsIn hasher.new p (x ++ bytes.now) }
    ensures count { (p : ModelMode) (x : List ℕ) → HoldsIn hasher.old p x → length x + length bytes.now < 2 ^ 64
        → CountsRest (kept_in hasher.old) (kept_in hasher.new) work.old work.new }
    ensures never_falls { NeverFalls work.old work.new }
    ensures refused { result ≢ 0 → (hasher.new ≡ hasher.old) × (work.new ≡ work.old) }
{
    if !hasher.update(bytes, work) {
        return BAD_HASHER;
    }
    DONE
}

/// Writes the hash of all bytes given to the hasher, 32 bytes. Returns 0 on success, 1 if `out` has another length, 5 if the hasher was not
/// made by `b3_hasher_init`. More bytes can be given afterwards.
#[unsafe(no_mangle)]
pub extern "C" fn b3_hasher_finalize(hasher: &HasherState, out: &mut [u8], work: &mut Work) -> u32
    ensures done { result ≡ 0 ↔ ((length out.old ≡ 32) × IsState hasher.now) }
    ensures why { result ≢ 0 → result ≡ finalize_refusal (length out.old) }
    ensures bytes { (p : ModelMode) (x : List ℕ) → HoldsIn hasher.now p x → result ≡ 0 → out.new ≡ digest_of x p }
    ensures count { (p : ModelMode) (x : List ℕ) → HoldsIn hasher.now p x → result ≡ 0
        → CountsRest (kept_in hasher.now) (hash_work (length x)) work.old work.new }
    ensures never_falls { NeverFalls work.old work.new }
    ensures refused { result ≢ 0 → (out.new ≡ out.old) × (work.new ≡ work.old) }
{
    if out.len() != HASH_LEN {
        return BAD_OUTPUT;
    }
    let Some(top) = hasher.top(work) else {
        return BAD_HASHER;
    };
    out.copy_from_slice(&top.root32(work));
    DONE
}

/// Fills `out` with the extended output of all bytes given to the hasher (section 2.6), starting at `position`. Returns 0 on success, 3 if
/// the bytes extend past the 2^64-1 bytes of the output, 5 if the hasher was not made by `b3_hasher_init`. More bytes can be given
/// afterwards.
#[unsafe(no_mangle)]
pub extern "C" fn b3_hasher_extended(
    hasher: &HasherState,
    position: u64,
    out: &mut [u8],
    work: &mut Work,
) -> u32
    ensures done { result ≡ 0 ↔ ((position + length out.old < 2 ^ 64) × IsState hasher.now) }
    ensures why { result ≢ 0 → result ≡ read_refusal position (length out.old) }
    ensures bytes { (p : ModelMode) (x : List ℕ) → HoldsIn hasher.now p x → result ≡ 0
        → out.new ≡ output_of (tree_top x 0 p) position (length out.old) }
    ensures count { (p : ModelMode) (x : List ℕ) → HoldsIn hasher.now p x → result ≡ 0
        → CountsRest (kept_in hasher.now) (hash_work (length x) - 1 + blocks_touched position (length out.old)) work.old work.new }
    ensures never_falls { NeverFalls work.old work.new }
    ensures refused { result ≢ 0 → (out.new ≡ out.old) × (work.new ≡ work.old) }
{
    if out.len() as u64 > u64::MAX - position {
        return BAD_POSITION;
    }
    let Some(top) = hasher.top(work) else {
        return BAD_HASHER;
    };
    read_output(top, position, out, work);
    DONE
}
