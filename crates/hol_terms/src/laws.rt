//! Laws of terms. The functions do nothing: what each ensures is a theorem, which the layers above may cite.

ghost use Rattle.hol_terms.specs.Laws.{AtomHoldsInList, BodyKeepsType, FreeOfPut, HasOneBody, HasOneType, HoldsOrNot, InstanceIsReplaced, IsClosedByType, ListsFreeVariables, ListsInOrder, ListsOnce, PutKeepsType, PutOfClosed, PutOfRaised, PutsCommute, RaiseCommutesAbove, RaiseCommutesBelow, RaiseKeepsType, RaiseOfClosed, RaisesCommute, RaisesJoin, ReplaceKeepsType, ReplaceOfNotFree, ReplacesCommute};

/// A term has at most one type and no loose index without a type, and its type stays under raised and replaced indices and in
/// the body over a variable.
pub fn types()
    ensures one { HasOneType }
    ensures closed { IsClosedByType }
    ensures raised { RaiseKeepsType }
    ensures put { PutKeepsType }
    ensures body { BodyKeepsType }
{}

/// How raised and replaced indices change each other's and their own results.
pub fn indices()
    ensures joined { RaisesJoin }
    ensures raises { RaisesCommute }
    ensures put_of_raised { PutOfRaised }
    ensures above { RaiseCommutesAbove }
    ensures below { RaiseCommutesBelow }
    ensures puts { PutsCommute }
    ensures raise_of_closed { RaiseOfClosed }
    ensures put_of_closed { PutOfClosed }
{}

/// Which variables are free in an instance; that the list of free variables has exactly those, each once and in the order of first
/// occurrence; and that a term has one body over a variable.
pub fn free_variables()
    ensures instance { FreeOfPut }
    ensures list { ListsFreeVariables }
    ensures once { ListsOnce }
    ensures order { ListsInOrder }
    ensures body { HasOneBody }
{}

/// A term put for a free variable.
pub fn replacement()
    ensures typed { ReplaceKeepsType }
    ensures commute { ReplacesCommute }
    ensures not_free { ReplaceOfNotFree }
    ensures instance { InstanceIsReplaced }
{}

/// Under each assignment a formula holds or doesn't, and an atom holds exactly where it is in the list.
pub fn truth()
    ensures decided { HoldsOrNot }
    ensures atom { AtomHoldsInList }
{}
