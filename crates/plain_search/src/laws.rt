//! Laws of the proofs that a search finds. The functions do nothing: what each ensures is a theorem, which the layers above may cite.

ghost use Rattle.plain_search.specs.Renaming.{ProofsCanBeRenamed, RenamedStaysInBudget, RenamedStaysLeast};

/// The variables that an expansion proof selects can have other names: it stays an expansion proof of the formula, with the same mating and
/// the same weight, in the same budget.
pub fn names()
    ensures proofs { ProofsCanBeRenamed }
    ensures budget { RenamedStaysInBudget }
    ensures least { RenamedStaysLeast }
{}
