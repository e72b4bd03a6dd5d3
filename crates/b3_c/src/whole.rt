//! Hashing bytes in memory. `include/b3.h` has forms of these calls without `work`, which call these with a count of their own: only the
//! runtime makes a count, and a library for C is given none.

ghost use Rattle.std.specs.Prelude.{◌≡◌, ◌≢◌, ◌+◌, ◌-◌, ◌^◌, ◌<◌, false, true, MatchOption, length};
ghost use Rattle.b3_core.specs.ExtendedOutput.{blocks_touched, output_of};
ghost use Rattle.b3_core.specs.Modes.{derive_mode, digest_of, hash_of, keyed_mode};
ghost use Rattle.b3_core.specs.Tree.{tree_top};
ghost use Rattle.b3_core.specs.Work.{counted, hash_work};
ghost use Rattle.b3_c.specs.Answers.{extended_answer, hash_answer, keyed_answer};
ghost use Rattle.b3_c.specs.Modes.{is_mode, mode_of, mode_work};

use crate::answers::{BAD_KEY, BAD_OUTPUT, BAD_POSITION, DONE};
use b3_core::{Mode, OutputReader, Top, Work, hash_wide};

/// The length of a hash in bytes.
pub(crate) const HASH_LEN: usize = 32;

/// The length in bytes of a key of the mode `keyed_hash`.
pub(crate) const KEY_LEN: usize = 32;

// The numbers of the modes.
const HASH: u32 = 0;

const KEYED_HASH: u32 = 1;

const DERIVE_KEY: u32 = 2;

/// Writes the hash of `bytes` (sections 2.1 to 2.5), 32 bytes. Returns 0 on success, 1 if `out` has another length.
#[unsafe(no_mangle)]
pub extern "C" fn b3_hash_counted(bytes: &[u8], out: &mut [u8], work: &mut Work) -> u32
    ensures answer { result ≡ hash_answer (length out.old) }
    ensures bytes { result ≡ 0 → out.new ≡ hash_of bytes.now }
    ensures count { result ≡ 0 → work.new ≡ counted work.old (hash_work (length bytes.now)) }
    ensures refused { result ≢ 0 → (out.new ≡ out.old) × (work.new ≡ work.old) }
{
    if out.len() != HASH_LEN {
        return BAD_OUTPUT;
    }
    out.copy_from_slice(&hash_wide(&Mode::hash(), bytes, work));
    DONE
}

/// Writes the keyed hash of `bytes` (section 2.3), 32 bytes. Returns 0 on success, 2 if `key` does not have 32 bytes, 1 if `out` has
/// another length.
#[unsafe(no_mangle)]
pub extern "C" fn b3_keyed_hash_counted(
    key: &[u8],
    bytes: &[u8],
    out: &mut [u8],
    work: &mut Work,
) -> u32
    ensures answer { result ≡ keyed_answer (length key.now) (length out.old) }
    ensures bytes { result ≡ 0 → out.new ≡ digest_of bytes.now (keyed_mode key.now) }
    ensures count { result ≡ 0 → work.new ≡ counted work.old (hash_work (length bytes.now)) }
    ensures refused { result ≢ 0 → (out.new ≡ out.old) × (work.new ≡ work.old) }
{
    let Some(key) = key.as_array::<KEY_LEN>() else {
        return BAD_KEY;
    };
    if out.len() != HASH_LEN {
        return BAD_OUTPUT;
    }
    out.copy_from_slice(&hash_wide(&Mode::keyed(key), bytes, work));
    DONE
}

/// Writes the key derived from the key material `bytes` in a context (section 2.3), 32 bytes. Returns 0 on success, 1 if `out` has another
/// length.
#[unsafe(no_mangle)]
pub extern "C" fn b3_derive_key_counted(
    context: &[u8],
    bytes: &[u8],
    out: &mut [u8],
    work: &mut Work,
) -> u32
    ensures answer { result ≡ hash_answer (length out.old) }
    ensures bytes { result ≡ 0 → out.new ≡ digest_of bytes.now (derive_mode context.now) }
    ensures count { result ≡ 0 → work.new ≡ counted (counted work.old (hash_work (length context.now))) (hash_work (length bytes.now)) }
    ensures refused { result ≢ 0 → (out.new ≡ out.old) × (work.new ≡ work.old) }
{
    if out.len() != HASH_LEN {
        return BAD_OUTPUT;
    }
    let mode = Mode::derive(context, work);
    out.copy_from_slice(&hash_wide(&mode, bytes, work));
    DONE
}

/// Fills `out` with the extended output of `bytes` (section 2.6), starting at `position`, in a mode with its key or context. Returns 0 on
/// success, 3 if the bytes extend past the 2^64-1 bytes of the output, 2 if there is no such mode or its key has another length.
#[unsafe(no_mangle)]
pub extern "C" fn b3_extended_counted(
    mode: u32,
    key: &[u8],
    bytes: &[u8],
    position: u64,
    out: &mut [u8],
    work: &mut Work,
) -> u32
    ensures answer { result ≡ extended_answer mode (length key.now) position (length out.old) }
    ensures bytes { result ≡ 0 → out.new ≡ output_of (tree_top bytes.now 0 (mode_of mode key.now)) position (length out.old) }
    ensures count { result ≡ 0 → work.new ≡ counted (counted (counted work.old (mode_work mode (length key.now)))
        (hash_work (length bytes.now) - 1)) (blocks_touched position (length out.old)) }
    ensures refused { result ≢ 0 → (out.new ≡ out.old) × (work.new ≡ work.old) }
{
    if out.len() as u64 > u64::MAX - position {
        return BAD_POSITION;
    }
    let Some(mode) = mode_of(mode, key, work) else {
        return BAD_KEY;
    };
    read_output(Top::of_input(&mode, bytes, work), position, out, work);
    DONE
}

/// Fills `out` with the extended output of a root, starting at `position`.
pub(crate) fn read_output(root: Top, position: u64, out: &mut [u8], work: &mut Work)
    requires { position + length out.old < 2 ^ 64 }
    ensures bytes { out.new ≡ output_of root position (length out.old) }
    ensures count { work.new ≡ counted work.old (blocks_touched position (length out.old)) }
{
    let mut reader = OutputReader::new(root);
    reader.set_position(position);
    let Ok(()) = reader.fill(out, work) else {
        unreachable!()
    };
}

/// The mode of this number with its key or context, if there is one.
pub(crate) fn mode_of(number: u32, key: &[u8], work: &mut Work) -> Option<Mode>
    ensures mode { MatchOption result (is_mode number (length key.now) ≡ false)
        (λ mode. (is_mode number (length key.now) ≡ true) × (mode ≡ mode_of number key.now)) }
    ensures count { MatchOption result (work.new ≡ work.old)
        (λ _. work.new ≡ counted work.old (mode_work number (length key.now))) }
{
    match (number, key.as_array::<KEY_LEN>()) {
        (HASH, _) if key.is_empty() => Some(Mode::hash()),
        (KEYED_HASH, Some(key)) => Some(Mode::keyed(key)),
        (DERIVE_KEY, _) => Some(Mode::derive(key, work)),
        _ => None,
    }
}
