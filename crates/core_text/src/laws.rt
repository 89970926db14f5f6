//! Laws of texts. The functions do nothing: what each ensures is a theorem, which the layers above may cite.

ghost use Rattle.core_text.specs.Laws.{CutIsNoText, HasNoProperFront, HasOneForm, HasOnePlacedForm, HasOneTerm, HasOneType, IsTextWithoutFault, TypedIsWellSpelled, WrittenHasDepth, WrittenIsText, WrittenTermIsRead, WrittenTypeIsRead};

/// A text has one form at most, with one place for each part, and a form stands for one type at most and for one term.
#[tactic(auto, using(crate::proofs::Texts::one_form, crate::proofs::Places::one_placed_form, crate::proofs::Table::same_type, crate::proofs::Table::same_term))]
pub fn uniqueness()
    ensures form { HasOneForm }
    ensures placed { HasOnePlacedForm }
    ensures ty { HasOneType }
    ensures term { HasOneTerm }
{}

/// What was written is read again as the same value, within the limits of reading.
#[tactic(auto, using(crate::proofs::Kept::written_text, crate::proofs::Depths::written_depth, crate::proofs::Kept::type_read_again, crate::proofs::Kept::term_read_again, crate::proofs::Kept::typed_spelled))]
pub fn written()
    ensures form { WrittenIsText }
    ensures depth { WrittenHasDepth }
    ensures ty { WrittenTypeIsRead }
    ensures term { WrittenTermIsRead }
    ensures spelled { TypedIsWellSpelled }
{}

/// A form is never a proper prefix of another, and a text that is cut anywhere before its last closing bracket is the text of no form.
#[tactic(auto, using(crate::proofs::Cuts::no_front, crate::proofs::Cuts::cut))]
pub fn fronts()
    ensures front { HasNoProperFront }
    ensures cut { CutIsNoText }
{}

/// Nothing is wrong with the bytes exactly where they are the text of some form.
#[tactic(auto, using(crate::proofs::Parsing::text_without_fault))]
pub fn without_fault()
    ensures { IsTextWithoutFault }
{}
