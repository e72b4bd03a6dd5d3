//! Laws of check lines and check files.

ghost use Rattle.b3_check.specs.Laws.{FaultsSayNothing, FeedsEndLines, LastLineKept, OneMeaning, OthersKept, ReturnsDropped, WrittenInGrammar, WrittenReadBack};

/// Facts about the definitions that the other contracts use. The call does nothing.
pub fn check_file_laws()
    ensures returns { ReturnsDropped × OthersKept }
    ensures feeds { FeedsEndLines × LastLineKept }
    ensures written { WrittenInGrammar }
    ensures one_meaning { OneMeaning }
    ensures faults { FaultsSayNothing }
    ensures read_back { WrittenReadBack }
{}
