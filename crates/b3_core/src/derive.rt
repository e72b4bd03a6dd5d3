//! The mode `derive_key` (section 2.3), which hashes a context string.

ghost use Rattle.std.specs.Prelude.{◌≡◌, length};
ghost use Rattle.b3_core.specs.Modes.{derive_mode};
ghost use Rattle.b3_core.specs.Work.{counted, hash_work};

use crate::compression::{DERIVE_KEY_CONTEXT, DERIVE_KEY_MATERIAL, IV};
use crate::mode::Mode;
use crate::tree::hash;
use crate::words::words_of_key;
use crate::work::Work;

impl Mode {
    /// The mode `derive_key` with the context `context`. Hashes the context and counts those compressions.
    pub fn derive(context: &[u8], work: &mut Work) -> Mode
        ensures mode { result ≡ derive_mode context.now }
        ensures count { work.new ≡ counted work.old (hash_work (length context.now)) }
    {
        let context_mode = Mode {
            key: IV,
            flag: DERIVE_KEY_CONTEXT,
        };
        let key = hash(&context_mode, context, work);
        Mode {
            key: words_of_key(&key),
            flag: DERIVE_KEY_MATERIAL,
        }
    }
}
