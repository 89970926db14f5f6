//! Laws of conversion. The functions do nothing: what each ensures is a theorem, which the layers above may cite.

ghost use Rattle.hol_conv.specs.Laws.{ConvertibleByNormalForms, ConvertibleByValues, HasNormalForm, HasOneNormalForm, HereditaryCommutes, LongFormPut, LongIsNormal, NormalAbstraction, NormalApplication, NormalConjunction, NormalDisjunction, NormalExists, NormalForall, NormalImplication, NormalInstance, NormalInstanceWithVariable, NormalNegation, NormalRenamed, NormalReplaced, NormalReplacementsCommute, PutInLongForm, StepKeepsNormalForm};

/// Each typed term has exactly one long normal form, and conversion is equality of long normal forms, and of values.
pub fn normal_forms()
    ensures has { HasNormalForm }
    ensures one { HasOneNormalForm }
    ensures convertible { ConvertibleByNormalForms }
    ensures values { ConvertibleByValues }
    ensures step { StepKeepsNormalForm }
    ensures long { LongIsNormal }
{}

/// Hereditary substitutions commute, and the long form of an index stands for that index.
pub fn hereditary_substitution()
    ensures commutes { HereditaryCommutes }
    ensures of_long_form { LongFormPut }
    ensures in_long_form { PutInLongForm }
{}

/// The long normal form of a term by those of its parts.
pub fn parts()
    ensures application { NormalApplication }
    ensures abstraction { NormalAbstraction }
    ensures negation { NormalNegation }
    ensures conjunction { NormalConjunction }
    ensures disjunction { NormalDisjunction }
    ensures implication { NormalImplication }
    ensures universal { NormalForall }
    ensures existential { NormalExists }
{}

/// The long normal form of an instance, and of a term with another put for a free variable.
pub fn substitution()
    ensures instance { NormalInstance }
    ensures variable { NormalInstanceWithVariable }
    ensures renamed { NormalRenamed }
    ensures replaced { NormalReplaced }
    ensures commute { NormalReplacementsCommute }
{}
