//! Laws of formula texts. The functions do nothing: what each ensures is a theorem, which the layers above may cite.

ghost use Rattle.tps_reader.specs.Laws.{HasOneCut, HasOneDepth, SaysOneFormula};

/// A text has one list of tokens and says one raw formula, if any.
pub fn texts()
    ensures tokens { HasOneCut }
    ensures formula { SaysOneFormula }
{}

/// Tokens have one depth: how deep their groups stand in each other, as the tree of the groups has it, is what is counted.
pub fn group_depths()
    ensures { HasOneDepth }
{}
