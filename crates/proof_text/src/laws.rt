//! Laws of proof texts. The functions do nothing: what each ensures is a theorem, which the layers above may cite.

ghost use Rattle.proof_text.specs.Laws.{SaysOneProof, StandingIsTyped, WrittenIsProofText, WrittenIsRead};

/// A text says one proof at most, and what was written for a proof is read again as that proof and no other, within the limits of reading.
#[tactic(auto, using(crate::proofs::Kept::one_proof, crate::proofs::Kept::written_is_text))]
pub fn texts()
    ensures one { SaysOneProof }
    ensures written { WrittenIsProofText }
    ensures read { WrittenIsRead }
{}

/// The terms of a tree that stands at a formula have types.
#[tactic(auto, using(crate::proofs::Kept::standing_is_typed))]
pub fn typed()
    ensures { StandingIsTyped }
{}
