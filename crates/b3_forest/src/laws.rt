//! The laws of canonical forests.

ghost use Rattle.b3_forest.specs.Followed.{NotedAsHeld};
ghost use Rattle.b3_forest.specs.Forests.{OneForest, PiecesAreForest};
ghost use Rattle.b3_forest.specs.Subtrees.{KeptIsForest};

/// States that the pieces kept by a `Forest` or a `Follow` are a canonical forest of what its parts hold, that halving finds one, and that
/// there is no other. So the number of pieces, on which counts of compressions depend, is a function of the held chunks alone; for noted
/// offsets it is the number that an upload holding the same offsets has.
pub fn forest_laws()
    ensures kept { KeptIsForest }
    ensures forest { PiecesAreForest }
    ensures one { OneForest }
    ensures noted { NotedAsHeld }
{}
