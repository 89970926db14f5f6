//! Laws of outlines that grow. The functions do nothing: what each ensures is a theorem, which the layers above may cite.

ghost use Rattle.nd_rules.specs.Laws.{StaysJustified, StaysPutIn, StaysUnderLater, StaysUnderOthers, StaysUnderReasons};

/// A justified line stays justified by lines that say the same up to its number; so where a line with a greater number is added,
/// where another line is added whose number no line has, where it is put in itself, and where a planned line gets a justification.
pub fn justifications()
    ensures same { StaysJustified }
    ensures later { StaysUnderLater }
    ensures others { StaysUnderOthers }
    ensures itself { StaysPutIn }
    ensures reasons { StaysUnderReasons }
{}
