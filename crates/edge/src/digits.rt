//! Hexadecimal digits without a branch for each digit, with the contracts of the crate `hex`.
//!
//! A text of valid digits is decoded in one pass without a test for each: whether every byte is a digit is accumulated, and tested at the
//! end. Any other text is given to `hex`, which returns the first fault.
ghost use Rattle.std.specs.Prelude.{◌≡◌, ◌*◌, ◌%◌, ◌<◌, ◌≤◌, ◌⊎◌, IfErr, IfOk, IfSome, IsTrue, OnErr, OnOk, Err, Ok, length, slice_index};
ghost use Rattle.std.specs.Io.KnownBytes.{Appends};
ghost use Rattle.hex.specs.Hex.{decode_of, decode_pairs, encode_lower, hex_digit_value, is_hex_digit, lower_digits};
ghost use Rattle.edge.specs.Output.{IsTruncated};
ghost use Rattle.hex.specs.declared.error.FromHexError.TheVariants.{OddLength, OutOfMemory};

use crate::outcome::Cause;
use crate::streams::write_bytes;
use hex::FromHexError;
use std::alloc::Global;
use std::io::Write;

/// Decodes digits of either case, two for each byte. Returns the first fault, or `OutOfMemory`.
pub fn decode(alloc: Global, digits: &[u8]) -> Result<Vec<u8>, FromHexError>
    ensures ok { IfOk result (λ bytes. decode_of digits.now ≡ Ok bytes.items) }
    ensures err { IfErr result (λ e. (e ≡ OutOfMemory) ⊎ (decode_of digits.now ≡ Err e)) }
    ensures odd { length digits.now % 2 ≡ 1 → result ≡ Err OddLength }
{
    if digits.len() % 2 != 0 {
        return Err(FromHexError::OddLength);
    }
    let mut bytes = vec![in alloc; 0u8; digits.len() / 2]?;
    if decode_into(digits, bytes.as_mut_slice()) {
        return Ok(bytes);
    }
    hex::decode(alloc, digits)
}

// Writes the bytes of the digits and returns true, if all are digits. Otherwise the contents of `bytes` are unspecified.
fn decode_into(digits: &[u8], bytes: &mut [u8]) -> bool
    requires { length digits.now ≡ 2 * length bytes.old }
    ensures { IsTrue result → decode_pairs 0 digits.now ≡ Ok bytes.new }
{
    let mut good = true;
    'bytes: for i in 0..bytes.len() {
        let high = digits[2 * i];
        let low = digits[2 * i + 1];
        good &= is_digit(high) & is_digit(low);
        bytes[i] = worth(high) * 16 + worth(low);
    }
    good
}

#[inline(always)]
fn is_digit(c: u8) -> bool
    ensures { result ≡ is_hex_digit c }
{
    (c >= b'A') & (c <= b'F') | (c >= b'a') & (c <= b'f') | (c >= b'0') & (c <= b'9')
}

// The value of a digit; for another byte, some number below 16. The low half of a letter is 9 less than its value.
#[inline(always)]
fn worth(c: u8) -> u8
    ensures value { IfSome (hex_digit_value c) (λ value. result ≡ value) }
    ensures bound { result < 16 }
{
    (c % 16 + c / 64 * 9) % 16
}

// Writes two digits for each byte, in lower case.
fn encode_into(bytes: &[u8], digits: &mut [u8])
    requires { length digits.old ≡ 2 * length bytes.now }
    ensures { digits.new ≡ encode_lower bytes.now }
{
    'bytes: for i in 0..bytes.len() {
        let byte = bytes[i];
        digits[2 * i] = digit(byte / 16);
        digits[2 * i + 1] = digit(byte % 16);
    }
}

// The digit of a value, in lower case.
#[inline(always)]
fn digit(value: u8) -> u8
    requires { value < 16 }
    ensures { result ≡ slice_index lower_digits value }
{
    if value < 10 {
        value + b'0'
    } else {
        value - 10 + b'a'
    }
}

/// Writes two digits for each byte, in lower case, through the buffer `room`: half as many bytes at a time as `room` holds digits.
/// Allocates nothing. After a failed write a prefix of the digits was written.
pub fn write_encoded<W: Write>(writer: &mut W, bytes: &[u8], room: &mut [u8]) -> Result<(), Cause>
    requires { 2 ≤ length room.old }
    ensures written { OnOk result (Appends (W.contents writer.old) (W.contents writer.new) (encode_lower bytes.now)) }
    ensures failed { OnErr result (IsTruncated (W.contents writer.old) (W.contents writer.new) (encode_lower bytes.now)) }
    ensures cause { IfErr result (λ cause. cause ≡ Cause.CannotWrite) }
{
    let mut rest = bytes;
    while !rest.is_empty() {
        let (front, following) = rest.split_at(rest.len().min(room.len() / 2));
        write_block(writer, front, room)?;
        rest = following;
    }
    Ok(())
}

// Writes the digits of `bytes`, which fit in `room`.
fn write_block<W: Write>(writer: &mut W, bytes: &[u8], room: &mut [u8]) -> Result<(), Cause>
    requires { 2 * length bytes.now ≤ length room.old }
    ensures written { OnOk result (Appends (W.contents writer.old) (W.contents writer.new) (encode_lower bytes.now)) }
    ensures failed { OnErr result (IsTruncated (W.contents writer.old) (W.contents writer.new) (encode_lower bytes.now)) }
    ensures cause { IfErr result (λ cause. cause ≡ Cause.CannotWrite) }
    ensures room { length room.new ≡ length room.old }
{
    let digits = &mut room[..2 * bytes.len()];
    encode_into(bytes, digits);
    write_bytes(writer, digits)
}
