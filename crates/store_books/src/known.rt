//! Objects that are already filed.

ghost use Rattle.std.specs.Prelude.{◌≡◌, ◌&&◌, if◌then◌else◌, nat_lt, not};

// The length of a filed object, whether a tenant holds it, and whether it has only one holder.
#[derive(Clone, Copy, Debug)]
pub(crate) struct Known {
    pub(crate) size: u64,
    pub(crate) is_holder: bool,
    pub(crate) is_alone: bool,
}

impl Known {
    /// Whether the tenant does not hold the object yet, and its length exceeds `most`.
    pub(crate) fn is_over(&self, most: u64) -> bool
        ensures { result ≡ (not self.now.is_holder && nat_lt most self.now.size) }
    {
        if self.is_holder {
            return false;
        }
        self.size > most
    }

    /// By how much the tenant's use grows if it holds the object.
    pub(crate) fn more_used(&self) -> u64
        ensures { result ≡ (if not self.now.is_holder then self.now.size else 0) }
    {
        if self.is_holder { 0 } else { self.size }
    }

    /// The bytes that are freed when the tenant stops holding the object.
    pub(crate) fn freed(&self) -> u64
        ensures { result ≡ (if self.now.is_alone then self.now.size else 0) }
    {
        if self.is_alone { self.size } else { 0 }
    }
}
