//! A hash from outside, and digests from digits.

use hex::FromHex;

/// The hash of `abc`, from the reference implementation's command.
pub(crate) const ABC: &str = "6437b3ac38465133ffb63b75273a8db548c558465d79db03fd359c6cd5bd9d85";

/// The digest with these digits; for anything else, zeros.
pub(crate) fn digest(digits: &str) -> [u8; 32] {
    <[u8; 32]>::from_hex(digits).unwrap_or([0; 32])
}
