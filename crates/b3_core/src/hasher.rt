//! An incremental hasher.

ghost use Rattle.std.specs.Prelude.{◌≡◌, ℕ, ◌+◌, ◌-◌, ◌/◌, ◌^◌, ◌<◌, ◌↔◌, ◌++◌, List, [], ◌∷◌, Some, length, true};
ghost use Rattle.b3_core.specs.Hashers.{HasRoomFor, IsAfter, HasInput, CountsRest, count_of, kept_work};
ghost use Rattle.b3_core.specs.Kept.{max_levels};
ghost use Rattle.b3_core.specs.Modes.{digest_of};
ghost use Rattle.b3_core.specs.Texts.{hasher_text};
ghost use Rattle.b3_core.specs.Tree.{chunk_len, tree_top};
ghost use Rattle.b3_core.specs.Work.{NeverFalls, hash_work};

use crate::kept::Kept;
use crate::mode::Mode;
use crate::node::Top;
use crate::work::Work;
use std::alloc::AllocError;
use std::fmt;
use std::marker::Model;

/// Hashes bytes that arrive in pieces (sections 2.1 to 2.5). It allocates nothing, and its size is fixed: it keeps one node for each level
/// of the tree and the bytes after the last whole chunk. An input must be shorter than 2^64 bytes.
///
/// In contracts a hasher is its mode and what it keeps; `HasInput` says that it was given certain bytes.
#[derive(Drop)]
pub struct Hasher {
    mode: Mode,
    kept: Kept,
}

impl Model for Hasher {
    ghost use Rattle.b3_core.specs.Hashers.{ModelHasher};
    ghost use Rattle.b3_core.specs.Kept.{kept_of};

    ghost Value = { ModelHasher };

    ghost view = { λ h. kept_of h.mode h.kept };
}

impl Hasher {
    /// A hasher that has been given no bytes.
    pub fn new(mode: &Mode) -> Hasher
        ensures { result ≡ record { mode = mode.now; subtrees = []; whole = 0; tail = [] } }
    {
        Hasher {
            mode: *mode,
            kept: Kept::new(),
        }
    }

    /// Appends `bytes` to the input. They are hashed in whole subtrees, each as large as possible.
    pub fn update(&mut self, bytes: &[u8], work: &mut Work)
        ensures mode { self.new.mode ≡ self.old.mode }
        ensures bytes { (x : List ℕ) → HasInput self.old x → length x + length bytes.now < 2 ^ 64 → HasInput self.new (x ++ bytes.now) }
        ensures count { (x : List ℕ) → HasInput self.old x → length x + length bytes.now < 2 ^ 64
            → CountsRest (kept_work self.old.subtrees) (kept_work self.new.subtrees) work.old work.new }
        ensures never_falls { NeverFalls work.old work.new }
    {
        self.kept.update(&self.mode, bytes, work);
    }

    /// The mode of the hasher.
    pub fn mode(&self) -> Mode
        ensures { result ≡ self.now.mode }
    {
        self.mode
    }

    /// The number of the chunk after the whole chunks given so far.
    pub fn number(&self) -> u64
        ensures value { result ≡ self.now.whole / chunk_len }
        ensures below { result < 2 ^ 54 }
    {
        self.kept.number()
    }

    /// Whether a whole subtree of 2^`level` chunks can come next: the input ends with a whole chunk, and the last node kept covers at least
    /// 2^`level` chunks or there is none.
    pub fn fits(&self, level: u32) -> bool
        ensures { result ≡ true ↔ HasRoomFor level self.now }
    {
        self.kept.fits(level)
    }

    /// Appends a whole subtree of 2^`level` chunks to the input, as `update` with its bytes does. `top` is its node, made for a first chunk
    /// with the number that `number` returns. The compressions of the subtree itself are counted where `top` is made.
    pub fn append(&mut self, top: &Top, level: u32, work: &mut Work)
        requires { level < max_levels }
        ensures mode { self.new.mode ≡ self.old.mode }
        ensures bytes { (x mine : List ℕ) → IsAfter self.old level top.now x mine → HasInput self.new (x ++ mine) }
        ensures fits { (x mine : List ℕ) → IsAfter self.old level top.now x mine → HasRoomFor level self.new }
        ensures count { (x mine : List ℕ) → IsAfter self.old level top.now x mine
            → CountsRest (kept_work ((level, top.now) ∷ self.old.subtrees)) (kept_work self.new.subtrees) work.old work.new }
        ensures never_falls { NeverFalls work.old work.new }
    {
        self.kept.append(&self.mode, top, level, work);
    }

    /// The number of bytes given so far, if it is below 2^64.
    pub fn count(&self) -> u64
        ensures value { result ≡ count_of self.now }
        ensures bytes { (x : List ℕ) → HasInput self.now x → length x < 2 ^ 64 → result ≡ length x }
    {
        self.kept.count()
    }

    /// The hash of all bytes given so far, in the hasher's mode. More bytes can be given afterwards.
    pub fn digest(&self, work: &mut Work) -> [u8; 32]
        ensures bytes { (x : List ℕ) → HasInput self.now x → result ≡ digest_of x self.now.mode }
        ensures count { (x : List ℕ) → HasInput self.now x
            → CountsRest (kept_work self.now.subtrees) (hash_work (length x)) work.old work.new }
        ensures never_falls { NeverFalls work.old work.new }
    {
        self.top(work).root32(work)
    }

    /// The node of the tree over all bytes given so far. Its `root32` is their hash, and an `OutputReader` reads their extended output.
    /// More bytes can be given afterwards.
    pub fn top(&self, work: &mut Work) -> Top
        ensures node { (x : List ℕ) → HasInput self.now x → result ≡ tree_top x 0 self.now.mode }
        ensures count { (x : List ℕ) → HasInput self.now x
            → CountsRest (kept_work self.now.subtrees) (hash_work (length x) - 1) work.old work.new }
        ensures never_falls { NeverFalls work.old work.new }
    {
        self.kept.top(&self.mode, work)
    }
}

impl Clone for Hasher {
    ghost is_clone = { λ old new. new ≡ old };

    ghost is_infallible = { λ _. Unit };

    fn clone(&self) -> Result<Hasher, AllocError> {
        let kept = self.kept;
        Ok(Hasher {
            mode: self.mode,
            kept,
        })
    }
}

/// Shows the mode's name and the number of bytes given, as `count` returns it; no bytes and no key.
impl fmt::Debug for Hasher {
    ghost debug_output = { λ hasher. Some (hasher_text hasher) };

    fn fmt<W: fmt::Write>(&self, f: &mut fmt::Formatter<W>) -> fmt::Result {
        let name = self.mode.name();
        let count = self.count();
        write!(f, "Hasher {{ mode: {name}, count: {count} }}")
    }
}
