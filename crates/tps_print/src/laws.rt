//! Laws of printed texts. The functions do nothing: what each ensures is a theorem, which the layers above may cite.

ghost use Rattle.tps_print.specs.Laws.{HasBoundNames, HasFormulaText, HasLayout, HasOnlyAnnotation, HasPhrase};

/// The names that binders have are names, and as many as are wanted; no two are equal, and none is free in what is printed.
pub fn bound_names()
    ensures { HasBoundNames }
{}

/// A raw formula that says a printed term has the term as its only annotation with the term's type and no known names, where no name
/// is free at two types.
pub fn annotations()
    ensures { HasOnlyAnnotation }
{}

/// Each term has a layout.
pub fn layouts()
    ensures { HasLayout }
{}

/// Tokens that have the signs of a printed term are one phrase, which has the term as its only annotation with the term's type and no
/// known names, where no name is free at two types.
pub fn phrases()
    ensures { HasPhrase }
{}

/// The printed text of a term is a formula text, which has the term as its only annotation with the term's type and no known names,
/// where no name is free at two types, no word of the text is longer than 64 characters, and the depth is at most 1,000.
pub fn printed_formulas()
    ensures { HasFormulaText }
{}
