//! Where a term stands in a text.

ghost use Rattle.std.specs.Prelude.{◌≡◌};
ghost use Rattle.tps_print.specs.Pieces.{brackets_application as application_brackets, brackets_compound as compound_brackets, brackets_negation as negation_brackets};

/// Where a term stands: at the top, as a side of a connective, as the function of an application, or as an argument.
#[derive(Clone, Copy, Debug, PartialEq, Eq)]
pub enum Level {
    Top,
    Operand,
    Function,
    Argument,
}

impl Level {
    /// Whether a negation is bracketed there.
    pub(crate) fn brackets_negation(self) -> bool
        ensures { result ≡ negation_brackets self }
    {
        match self {
            Level::Top | Level::Operand => false,
            Level::Function | Level::Argument => true,
        }
    }

    /// Whether a connective with its sides, a quantifier with its scope or an abstraction is bracketed there.
    pub(crate) fn brackets_compound(self) -> bool
        ensures { result ≡ compound_brackets self }
    {
        match self {
            Level::Top => false,
            Level::Operand | Level::Function | Level::Argument => true,
        }
    }

    /// Whether an application is bracketed there.
    pub(crate) fn brackets_application(self) -> bool
        ensures { result ≡ application_brackets self }
    {
        match self {
            Level::Top | Level::Operand | Level::Function => false,
            Level::Argument => true,
        }
    }
}
