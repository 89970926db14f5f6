//! Laws of the dependency relation. The functions do nothing: what each ensures is a theorem, which the layers above may cite.

ghost use Rattle.dependency.specs.Laws.{HasOrder, HasStages, StagesAreAcyclic, StagesAreOccurrences, StagesWeighAsTree};

/// Where the dependency relation has no closed chain there is an order of the occurrences.
pub fn orders()
    ensures { HasOrder }
{}

/// The branches of a tree can be added step by step, each after those that it waits for, exactly where the dependency relation has no
/// closed chain.
pub fn stages()
    ensures exist { HasStages }
    ensures acyclic { StagesAreAcyclic }
{}

/// The stages of a tree are as many as its occurrences, and their terms weigh as much.
pub fn weights()
    ensures many { StagesAreOccurrences }
    ensures weight { StagesWeighAsTree }
{}
