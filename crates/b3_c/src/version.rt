//! The library's version.

ghost use Rattle.std.specs.Prelude.{◌≡◌};

// The version 1.0.0, as `include/b3.h` computes its `B3_VERSION_NUMBER`.
const VERSION_NUMBER: u32 = 1_000_000;

/// The library's version: a million for the major number, a thousand for each minor one, and one for each patch.
#[unsafe(no_mangle)]
pub extern "C" fn b3_version() -> u32
    ensures { result ≡ 1000000 }
{
    VERSION_NUMBER
}
