//! A hasher as plain numbers, for other languages.

ghost use Rattle.std.specs.Prelude.{◌≡◌, ℕ, ◌+◌, ◌-◌, ◌^◌, ◌<◌, ◌↔◌, ◌++◌, List, [], IfNone, IfSome, IsSome, false, length, true};
ghost use Rattle.b3_core.specs.Hashers.{HasInput, CountsRest, kept_work};
ghost use Rattle.b3_core.specs.HasherStates.{IsState, hashing_of};
ghost use Rattle.b3_core.specs.Tree.{tree_top};
ghost use Rattle.b3_core.specs.Work.{NeverFalls, hash_work};

use crate::kept::Kept;
use crate::mode::Mode;
use crate::node::Top;
use crate::work::Work;

/// A [`Hasher`](crate::Hasher) as plain numbers with C's layout, so that a program in another language can own one and call the crate
/// `b3_c` (sections 2.1 to 2.5).
///
/// It may contain any numbers, as uninitialized memory does: each call reports whether they can be those of a hasher. Entries after the nodes
/// and bytes in use have no meaning.
#[derive(Clone, Copy)]
#[repr(C)]
pub struct HasherState {
    key: [u32; 8],
    flag: u32,
    kept: Kept,
}

impl HasherState {
    /// Makes it a hasher that has been given no bytes, whatever it contained before.
    pub fn init(&mut self, mode: &Mode)
        ensures state { IsState self.new }
        ensures empty { hashing_of self.new ≡ record { mode = mode.now; subtrees = []; whole = 0; tail = [] } }
    {
        self.key = mode.key();
        self.flag = mode.flag();
        self.kept.clear();
    }

    // The mode, if the numbers can be those of a hasher.
    fn mode(&self) -> Option<Mode>
        ensures is { IsSome result ↔ IsState self.now }
        ensures mode { IfSome result (λ mode. mode ≡ (hashing_of self.now).mode) }
    {
        if !self.kept.is_within() {
            return None;
        }
        Mode::of_words(self.key, self.flag)
    }

    /// Appends `bytes` to the input, as `Hasher::update` does. Returns false and changes nothing if the numbers cannot be those of a
    /// hasher.
    pub fn update(&mut self, bytes: &[u8], work: &mut Work) -> bool
        ensures is { result ≡ true ↔ IsState self.old }
        ensures state { IsState self.old → IsState self.new }
        ensures mode { (hashing_of self.new).mode ≡ (hashing_of self.old).mode }
        ensures bytes { (x : List ℕ) → result ≡ true → HasInput (hashing_of self.old) x → length x + length bytes.now < 2 ^ 64
            → HasInput (hashing_of self.new) (x ++ bytes.now) }
        ensures count { (x : List ℕ) → result ≡ true → HasInput (hashing_of self.old) x → length x + length bytes.now < 2 ^ 64
            → CountsRest (kept_work (hashing_of self.old).subtrees) (kept_work (hashing_of self.new).subtrees) work.old work.new }
        ensures never_falls { NeverFalls work.old work.new }
        ensures none { result ≡ false → (self.new ≡ self.old) × (work.new ≡ work.old) }
    {
        let Some(mode) = self.mode() else {
            return false;
        };
        self.kept.update(&mode, bytes, work);
        true
    }

    /// The node of the tree over all bytes given so far, as `Hasher::top` returns it. `None` if the numbers cannot be those of a hasher.
    pub fn top(&self, work: &mut Work) -> Option<Top>
        ensures is { IsSome result ↔ IsState self.now }
        ensures node { IfSome result (λ top. (x : List ℕ) → HasInput (hashing_of self.now) x → top ≡ tree_top x 0 (hashing_of self.now).mode) }
        ensures count { IfSome result (λ _. (x : List ℕ) → HasInput (hashing_of self.now) x
            → CountsRest (kept_work (hashing_of self.now).subtrees) (hash_work (length x) - 1) work.old work.new) }
        ensures never_falls { NeverFalls work.old work.new }
        ensures none { IfNone result (work.new ≡ work.old) }
    {
        let mode = self.mode()?;
        Some(self.kept.top(&mode, work))
    }
}
