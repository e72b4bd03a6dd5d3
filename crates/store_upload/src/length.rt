//! Lengths in bytes.

ghost use Rattle.std.specs.Prelude.{◌≡◌, ℕ};

/// A type with a length in bytes.
pub trait Length: Drop {
    // The number of bytes.
    ghost len: { Self → ℕ };

    /// The number of bytes.
    fn length(&self) -> u64
        ensures { result ≡ len self.now };
}

/// A plain length.
impl Length for u64 {
    ghost len = { λ n. n };

    fn length(&self) -> u64 {
        *self
    }
}
