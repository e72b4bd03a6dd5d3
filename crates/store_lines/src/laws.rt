//! Laws of the definitions.

ghost use Rattle.store_lines.specs.Owning.{OwnWereBegun};
ghost use Rattle.store_lines.specs.Turns.{FramesAlike, StepsAreRun};
ghost use Rattle.store_lines.specs.Spelling.{LongIsNone, PatternIs, ReadCommandIsSpelled, SpelledCommandIsRead, WordsAreKnown};

use crate::access::Access;

/// Facts about the definitions that the contract of `run` uses. The call does nothing.
pub fn script_laws()
    ensures found { ReadCommandIsSpelled }
    ensures only { SpelledCommandIsRead }
    ensures pattern { PatternIs }
    ensures long { LongIsNone }
    ensures words { WordsAreKnown }
{}

/// Facts about the definitions that the contracts of `serve` and `serve_over` use, over any access. The call does nothing.
pub fn session_laws<A: Access>()
    ensures frames { FramesAlike A.reach }
    ensures own { OwnWereBegun }
    ensures run { StepsAreRun }
{}
