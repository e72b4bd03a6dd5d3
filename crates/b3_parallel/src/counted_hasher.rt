//! A hasher with the count of its compressions.

ghost use Rattle.std.specs.Prelude.{◌≡◌, ℕ, ◌+◌, ◌-◌, ◌*◌, ◌/◌, ◌^◌, ◌<◌, ◌++◌, List, [], length};
ghost use Rattle.b3_core.specs.Tree.{ModelMode, chunk_len, tree_top};
ghost use Rattle.b3_core.specs.Work.{counted, hash_work};
ghost use Rattle.b3_parallel.specs.inner.Blocks.{IsGiven, IsHashed, IsReady};

use b3_core::{Hasher, Mode, Runtime, Top, Work};

/// A hasher, and the count of the compressions of all bytes that it has been given.
#[derive(Drop)]
pub(crate) struct CountedHasher {
    pub(crate) hasher: Hasher,
    pub(crate) work: Work,
}

impl CountedHasher {
    /// A hasher that has been given no bytes.
    pub(crate) fn new<T: Runtime>(rt: &T, mode: &Mode) -> CountedHasher
        ensures { (k : ℕ) → IsReady mode.now k result [] }
    {
        CountedHasher {
            hasher: Hasher::new(mode),
            work: Work::new(rt),
        }
    }

    /// Appends `bytes` to the input.
    pub(crate) fn update(&mut self, bytes: &[u8])
        ensures mode { self.new.hasher.mode ≡ self.old.hasher.mode }
        ensures given { (x : List ℕ) → IsGiven self.old x → length x + length bytes.now < 2 ^ 64 → IsGiven self.new (x ++ bytes.now) }
    {
        self.hasher.update(bytes, &mut self.work);
    }

    /// Appends a block of 2^`level` chunks to the input: `top` is its node, and `work` the count of its compressions.
    pub(crate) fn append(&mut self, top: &Top, level: u32, work: Work)
        requires { level < 53 }
        ensures { (p : ModelMode) (x mine : List ℕ) → IsReady p level self.old x → length mine ≡ chunk_len * 2 ^ level
            → IsHashed p mine (length x / chunk_len) top.now work → length x + length mine < 2 ^ 64 → IsReady p level self.new (x ++ mine) }
    {
        self.work.absorb(work);
        self.hasher.append(top, level, &mut self.work);
    }

    /// The node of the tree over the input.
    pub(crate) fn top(&mut self) -> Top
        ensures node { (x : List ℕ) → IsGiven self.old x → result ≡ tree_top x 0 self.old.hasher.mode }
        ensures count { (x : List ℕ) → IsGiven self.old x → self.new.work ≡ counted 0 (hash_work (length x) - 1) }
    {
        self.hasher.top(&mut self.work)
    }
}
