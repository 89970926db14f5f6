//! Laws of derivation texts. The functions do nothing: what each ensures is a theorem, which the layers above may cite.

ghost use Rattle.nd_check.specs.Laws.{SaysOneOutline, WrittenIsDerivationText, WrittenIsRead};

/// A text says one outline at most, and what was written for an outline of at least one line is read again as that outline and no other,
/// within the limits of reading.
#[tactic(auto, using(crate::proofs::Kept::one_outline, crate::proofs::Kept::written_is_text))]
pub fn texts()
    ensures one { SaysOneOutline }
    ensures written { WrittenIsDerivationText }
    ensures read { WrittenIsRead }
{}
