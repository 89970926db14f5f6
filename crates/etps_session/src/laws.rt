//! Laws of sessions. The functions do nothing: what each ensures is a theorem, which the layers above may cite.

ghost use Rattle.etps_session.specs.Laws.{AcceptedHasFormula, HypothesesRise};

/// Where a command is accepted, the lines that it cites give its formula, if it has none of its own: no other stands for it.
#[tactic(auto, using(crate::proofs::Tabled::accepted_has_formula))]
pub fn tables()
    ensures { AcceptedHasFormula }
{}

/// The hypotheses of a line rise, and are those that its rule gives.
pub fn orders()
    ensures { HypothesesRise }
{}
