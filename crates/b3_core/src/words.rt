//! Conversions between words and bytes, all little endian: blocks, keys and chaining values as words, and words as bytes.

ghost use Rattle.std.specs.Prelude.{◌≡◌, ◌+◌, ◌-◌, ◌≤◌, ◌++◌, length, replicate, map};
ghost use Rattle.std.specs.List.{range_with_len};
ghost use Rattle.b3_core.specs.ExtendedOutput.{byte_of};
ghost use Rattle.b3_core.specs.Modes.{key_words_of};
ghost use Rattle.b3_core.specs.Tree.{word_at, block_words_of, block_size};

use byteorder::{ByteOrder, LittleEndian};

#[inline(always)]
pub(crate) fn word(bytes: &[u8], at: usize) -> u32
    requires { at + 4 ≤ length bytes.now }
    ensures { result ≡ word_at bytes.now at }
{
    LittleEndian::read_u32(&bytes[at..at + 4])
}

// The words of a whole block.
#[inline(always)]
#[rattlefmt::skip]
pub(crate) fn words_of_block(bytes: &[u8]) -> [u32; 16]
    requires { length bytes.now ≡ block_size }
    ensures { result ≡ block_words_of bytes.now }
{
    [
        word(bytes, 0), word(bytes, 4), word(bytes, 8), word(bytes, 12),
        word(bytes, 16), word(bytes, 20), word(bytes, 24), word(bytes, 28),
        word(bytes, 32), word(bytes, 36), word(bytes, 40), word(bytes, 44),
        word(bytes, 48), word(bytes, 52), word(bytes, 56), word(bytes, 60),
    ]
}

// A block, padded with zeros.
fn padded(bytes: &[u8]) -> [u8; 64]
    requires { length bytes.now ≤ block_size }
    ensures { result ≡ bytes.now ++ replicate (block_size - length bytes.now) 0 }
{
    let mut block = [0u8; 64];
    block[..bytes.len()].copy_from_slice(bytes);
    block
}

/// The words of a block, which may be short.
pub(crate) fn words_of_short_block(bytes: &[u8]) -> [u32; 16]
    requires { length bytes.now ≤ block_size }
    ensures { result ≡ block_words_of bytes.now }
{
    let block = padded(bytes);
    words_of_block(&block)
}

/// The key words of 32 bytes.
#[rattlefmt::skip]
pub(crate) fn words_of_key(bytes: &[u8; 32]) -> [u32; 8]
    ensures { result ≡ key_words_of bytes.now }
{
    [
        word(bytes, 0), word(bytes, 4), word(bytes, 8), word(bytes, 12),
        word(bytes, 16), word(bytes, 20), word(bytes, 24), word(bytes, 28),
    ]
}

#[inline(always)]
#[rattlefmt::skip]
pub(crate) fn joined(left: [u32; 8], right: [u32; 8]) -> [u32; 16]
    ensures { result ≡ left ++ right }
{
    [
        left[0], left[1], left[2], left[3], left[4], left[5], left[6], left[7],
        right[0], right[1], right[2], right[3], right[4], right[5], right[6], right[7],
    ]
}

/// The bytes of sixteen words.
pub(crate) fn bytes_of(words: [u32; 16]) -> [u8; 64]
    ensures { result ≡ map (byte_of words) (range_with_len 0 block_size) }
{
    let mut out = [0u8; 64];
    'words: for i in 0..16 {
        out[4 * i..4 * i + 4].copy_from_slice(&words[i].to_le_bytes());
    }
    out
}
