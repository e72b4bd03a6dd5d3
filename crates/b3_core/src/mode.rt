//! The modes of the hash (section 2.3): the key words and the flag of each compression.

ghost use Rattle.std.specs.Prelude.{◌≡◌, ◌≤◌, MatchOption, Some, false, nat_lt, true};
ghost use Rattle.b3_core.specs.Compression.{derive_key_material_flag};
ghost use Rattle.b3_core.specs.Modes.{hash_mode, keyed_mode};
ghost use Rattle.b3_core.specs.Texts.{mode_name, mode_text};
ghost use Rattle.b3_core.specs.Tree.{ModelMode};

use crate::compression::{DERIVE_KEY_MATERIAL, IV, KEYED_HASH};
use crate::words::words_of_key;
use std::fmt;
use std::marker::Model;

/// One of the three modes (section 2.3), with its key.
#[derive(Clone, Copy, PartialEq, Eq)]
pub struct Mode {
    pub(crate) key: [u32; 8],
    pub(crate) flag: u32,
}

impl Model for Mode {
    ghost Value = { ModelMode };

    ghost view = { λ m. record { key = m.key; flag = m.flag } };

    ghost inverse = { λ k. record { key = k.key; flag = k.flag } };

    ghost invariant = { λ m. m.flag ≤ 64 };
}

impl Mode {
    /// The default mode, `hash`.
    pub fn hash() -> Mode
        ensures { result ≡ hash_mode }
    {
        Mode { key: IV, flag: 0 }
    }

    /// The mode `keyed_hash`, with a key of 32 bytes.
    pub fn keyed(key: &[u8; 32]) -> Mode
        ensures { result ≡ keyed_mode key.now }
    {
        Mode {
            key: words_of_key(key),
            flag: KEYED_HASH,
        }
    }

    /// The mode with these key words and this flag, if a mode can have this flag.
    pub(crate) fn of_words(key: [u32; 8], flag: u32) -> Option<Mode>
        ensures { MatchOption result (nat_lt derive_key_material_flag flag ≡ true)
            (λ mode. (nat_lt derive_key_material_flag flag ≡ false) × (mode ≡ record { key = key; flag = flag })) }
    {
        if flag > DERIVE_KEY_MATERIAL {
            return None;
        }
        Some(Mode { key, flag })
    }

    /// The mode's eight key words.
    pub(crate) fn key(&self) -> [u32; 8]
        ensures { result ≡ self.now.key }
    {
        self.key
    }

    /// The flag set in every compression of the mode, or 0 if there is none.
    pub(crate) fn flag(&self) -> u32
        ensures value { result ≡ self.now.flag }
        ensures below { result ≤ derive_key_material_flag }
    {
        self.flag
    }

    /// The mode's name in the specification.
    pub(crate) fn name(&self) -> &'static str
        ensures { result.now ≡ mode_name self.now.flag }
    {
        match self.flag {
            0 => "hash",
            KEYED_HASH => "keyed_hash",
            _ => "derive_key",
        }
    }
}

/// Shows the mode's name, and nothing of its key.
impl fmt::Debug for Mode {
    ghost debug_output = { λ mode. Some (mode_text mode) };

    fn fmt<W: fmt::Write>(&self, f: &mut fmt::Formatter<W>) -> fmt::Result {
        write!(f, "Mode({})", self.name())
    }
}
