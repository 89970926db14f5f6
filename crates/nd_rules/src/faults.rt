//! Why a line is refused.

use hol_terms::lists::Terms;
use hol_terms::terms::Tm;
use std::alloc::{AllocError, AllocFailed};

/// Why a line isn't justified: the first of these, in this order, that holds.
#[derive(Drop)]
pub enum RuleFault {
    /// Memory ran out.
    Memory,
    /// A line of this number is cited, or is a hypothesis, and isn't there. The cited numbers come first.
    NoLine(u64),
    /// A line of this number is cited, or is a hypothesis, and hasn't a smaller number.
    NotEarlier(u64),
    /// The formula isn't as the rule wants it.
    Shape,
    /// A hypothesis is missing, or is no hypothesis line.
    Hyps,
    /// The variable of the rule is free in the line of this number.
    VariableFree(u64),
    /// The line doesn't follow: where exactly these atoms of the cited lines and of the line are true, the cited lines hold and the line
    /// doesn't. Each stands once.
    NotFollows(Terms),
    /// The line isn't convertible with the cited one: the long normal forms of the cited line and of the line.
    NotConvertible(Tm, Tm),
    /// The term hasn't the quantifier's type.
    WrongType,
}

impl From<AllocError> for RuleFault {
    ghost use Rattle.std.specs.Prelude.{◌≡◌};
    ghost use Rattle.nd_rules.specs.declared.faults.RuleFault.TheVariants.{Memory};

    ghost from_gives = { λ _ fault. fault ≡ Memory };

    fn from(_: AllocError) -> Self {
        RuleFault::Memory
    }
}

impl<T: Drop> From<AllocFailed<T>> for RuleFault {
    ghost use Rattle.std.specs.Prelude.{◌≡◌};
    ghost use Rattle.nd_rules.specs.declared.faults.RuleFault.TheVariants.{Memory};

    ghost from_gives = { λ _ fault. fault ≡ Memory };

    fn from(_: AllocFailed<T>) -> Self {
        RuleFault::Memory
    }
}

/// Why a line isn't put in.
#[derive(Clone, Copy, Debug, PartialEq, Eq)]
pub enum InsertFault {
    /// Memory ran out.
    Memory,
    /// A line has this number.
    Present(u64),
}

impl<T: Drop> From<AllocFailed<T>> for InsertFault {
    ghost use Rattle.std.specs.Prelude.{◌≡◌};
    ghost use Rattle.nd_rules.specs.declared.faults.InsertFault.TheVariants.{Memory};

    ghost from_gives = { λ _ fault. fault ≡ Memory };

    fn from(_: AllocFailed<T>) -> Self {
        InsertFault::Memory
    }
}
