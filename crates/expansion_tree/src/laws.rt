//! Laws of expansion trees. The functions do nothing: what each ensures is a theorem, which the layers above may cite.

ghost use Rattle.expansion_tree.specs.Laws.{FaultExcludes, HasOneFirstFault, IsTreeInOneWay, StandsInOneWay};

/// A tree stands at a formula in one way at most, and in none where it has a first fault, of which there is at most
/// one.
pub fn standing()
    ensures one { StandsInOneWay }
    ensures tree { IsTreeInOneWay }
    ensures fault { FaultExcludes }
    ensures first { HasOneFirstFault }
{}
