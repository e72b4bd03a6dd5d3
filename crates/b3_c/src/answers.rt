//! The return values of the calls. `include/b3.h` has the same numbers.

/// Success.
pub(crate) const DONE: u32 = 0;

/// The output does not have the length that the call writes.
pub(crate) const BAD_OUTPUT: u32 = 1;

/// There is no such mode, or its key has another length.
pub(crate) const BAD_KEY: u32 = 2;

/// The requested bytes extend past the 2^64-1 bytes of the output.
pub(crate) const BAD_POSITION: u32 = 3;

/// The bytes are not a subtree at this place of an input of fewer than 2^64 bytes.
pub(crate) const BAD_SUBTREE: u32 = 4;

/// The hasher was not made by `b3_hasher_init`.
pub(crate) const BAD_HASHER: u32 = 5;
