//! Laws of long terms. The functions do nothing: what each ensures is a theorem, which the layers above may cite.

ghost use Rattle.term_lists.specs.Laws.{LongByBody, LongByHead, LongInBudget, LongWeighsSome};

/// A long term is a run of abstractions over a head with long arguments, and weighs one more than these.
pub fn spines()
    ensures body { LongByBody }
    ensures head { LongByHead }
    ensures some { LongWeighsSome }
{}

/// The long terms over a formula's signature and selected variables are those that a budget allows.
pub fn budgets()
    ensures { LongInBudget }
{}
