//! Laws of the definitions, for the layers above.

ghost use Rattle.cxx_tree.specs.Fits.{LargerLimitsFit};
ghost use Rattle.cxx_tree.specs.Fold.{FoldLaws};
ghost use Rattle.cxx_tree.specs.Map.{MapLaws};
ghost use Rattle.cxx_tree.specs.Nodes.{NodesAreFolded};
ghost use Rattle.cxx_tree.specs.Same.{SameIsEquivalence, SameIsSpelledAlike};
ghost use Rattle.cxx_tree.specs.Walk.{WalkLaws};

/// A map that changes nothing leaves a program as it is, maps compose, and a map keeps each token.
pub fn maps_compose()
    ensures { MapLaws }
{}

/// A mapped program is folded as the program is, with its leaves mapped first; what follows each other is folded part
/// by part.
pub fn folds_go_by_parts<R>()
    ensures { FoldLaws R }
{}

/// A walk changes only what it makes of nodes, and its last state is the fold of what it met.
pub fn walks_fold<S, R>()
    ensures { WalkLaws S R }
{}

/// The nodes of a program are counted by a fold.
pub fn nodes_are_folded()
    ensures { NodesAreFolded }
{}

/// Being the same but for places and numbers of nodes is an equivalence.
pub fn same_is_equivalence()
    ensures { SameIsEquivalence }
{}

/// Programs that are the same but for places and numbers of nodes have the same tokens.
pub fn same_is_spelled_alike()
    ensures { SameIsSpelledAlike }
{}

/// A program that fits some limits fits larger ones.
pub fn larger_limits_fit()
    ensures { LargerLimitsFit }
{}
