//! Laws of expansion proofs. The functions do nothing: what each ensures is a theorem, which the layers above may cite.

ghost use Rattle.exp_check.specs.Laws.{ProofIsTyped, WrittenProofIsRead};

/// The terms of an expansion proof have types, and what is written for one is read again as that proof and no other, within the limits of
/// reading.
pub fn texts()
    ensures typed { ProofIsTyped }
    ensures read { WrittenProofIsRead }
{}
