//! Laws of grown trees. The functions do nothing: what each ensures is a theorem, which the layers above may cite.

ghost use Rattle.grown_trees.specs.Laws.{BareMatches, EachStepWeighsAtMost, HasNextStep, HasTarget, LastStepIsProof, LastStepWeighs, NamesakeMatches, SearchFinds};

/// A tree comes to each proof of the formula, but for names and the order of branches, by adding one branch after the other.
pub fn growing()
    ensures target { HasTarget }
    ensures bare { BareMatches }
    ensures next { HasNextStep }
    ensures namesake { NamesakeMatches }
{}

/// What a tree has that has come to the last step: its deep formula is a tautology, and its weight is that of the proof, which is
/// the most that it had before.
pub fn ending()
    ensures proof { LastStepIsProof }
    ensures weight { LastStepWeighs }
    ensures light { EachStepWeighsAtMost }
{}

/// A search that goes through the trees of a formula, branch by branch within a weight, comes to a proof where there is one.
pub fn searching()
    ensures { SearchFinds }
{}
