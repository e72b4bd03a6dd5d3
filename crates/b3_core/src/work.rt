//! Counting compressions.

ghost use Rattle.std.specs.Prelude.{◌≡◌, ℕ};
ghost use Rattle.b3_core.specs.Work.{counted};

use std::marker::Model;

mod sealed {
    use std::rt::HostRuntime;

    // No other crate can name this trait, so none can add an implementor.
    pub trait Sealed {}

    impl Sealed for HostRuntime {}

    impl<R: Sealed> Sealed for &R {}
}

/// The runtime that a program or a test is started with, or a reference to it. Nothing else implements this: an allocator alone, for
/// example in a pair, cannot make a count.
pub trait Runtime: sealed::Sealed {}

impl<R: sealed::Sealed> Runtime for R {}

/// A count of compressions. It saturates at 2^64-1.
///
/// A clause `count` says how much a call adds to the count that it is given. Every compression of the call is included: compressing needs a
/// count, and only the runtime can make one. So a call that is given no runtime makes no other compressions. A call that is given the
/// runtime may make a count of its own; what it compresses under that count is stated only if its own clauses state it.
///
/// The type is one word with C's layout, so that a program in another language can pass a count of its own to the crate `b3_c`. Rattle code
/// cannot obtain a count in this way.
#[derive(Debug, Drop)]
#[repr(C)]
pub struct Work {
    count: u64,
}

impl Model for Work {
    ghost Value = { ℕ };

    ghost view = { λ w. w.count };

    ghost inverse = { λ n. record { count = n } };
}

impl Work {
    /// A count of 0. This is the only way to make one, and it needs the runtime.
    pub fn new(_rt: &impl Runtime) -> Work
        ensures { result ≡ 0 }
    {
        Work { count: 0 }
    }

    /// The number of compressions counted so far.
    pub fn count(&self) -> u64
        ensures { result ≡ self.now }
    {
        self.count
    }

    /// Adds the compressions of another count, such as a thread's, and consumes it.
    pub fn absorb(&mut self, other: Work)
        ensures { self.new ≡ counted self.old other }
    {
        self.add(other.count);
    }

    /// Adds `more` compressions.
    pub(crate) fn add(&mut self, more: u64)
        ensures { self.new ≡ counted self.old more }
    {
        let Work { count } = self;
        *count = count.saturating_add(more);
    }
}
