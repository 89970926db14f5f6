//! Laws of deductions that grow. The functions do nothing: what each ensures is a theorem, which the layers above may cite.

ghost use Rattle.nd_steps.specs.Laws.{AssumesOne, AssumesProves, AssumesStays, AssumesWithin, AssumptionsStay, EndsInDerivation, FreeInNoneStays, GrowsOn, NextIsAbove, ProvesFromMore, ProvesOne, ProvesStays};

/// What lines prove and assume stays so when they grow.
pub fn growth()
    ensures again { GrowsOn }
    ensures proves { ProvesStays }
    ensures assumes { AssumesStays }
    ensures assumptions { AssumptionsStay }
    ensures free { FreeInNoneStays }
{}

/// A line has one formula. It proves it from more hypotheses too, and a hypothesis proves it from itself.
pub fn lines()
    ensures proves { ProvesOne }
    ensures assumes { AssumesOne }
    ensures more { ProvesFromMore }
    ensures itself { AssumesProves }
{}

/// The next line's number is above the hypotheses, and a deduction whose last line has no hypotheses is a derivation.
pub fn deductions()
    ensures within { AssumesWithin }
    ensures above { NextIsAbove }
    ensures derivation { EndsInDerivation }
{}
