//! The laws of the tree.

ghost use Rattle.b3_core.specs.Laws.{OneChunk, TwoSides, GreatestPower, NeighboursJoin};

/// States that the tree is the specification's: an input is one chunk, or it is split into two sides, the left one with the largest
/// possible power of two of chunks; and that two neighbouring subtrees join to one.
pub fn tree_laws()
    ensures one { OneChunk }
    ensures two { TwoSides }
    ensures cut { GreatestPower }
    ensures join { NeighboursJoin }
{}
