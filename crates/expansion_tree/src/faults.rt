//! Why a tree doesn't fit.

use std::alloc::{AllocError, AllocFailed};

/// Why a tree isn't an expansion tree of a formula. Nodes are numbered from 1 in preorder, the branches of an expansion in their order.
#[derive(Clone, Copy, Debug, PartialEq, Eq)]
pub enum FitFault {
    /// Memory ran out.
    Memory,
    /// The node of this number can't stand at its formula and polarity.
    Misfit(u64),
    /// The term of the branch whose tree has this number at its root isn't long normal of the quantifier's type, or has a loose index.
    BadTerm(u64),
    /// The variable that the node of this number selects is free in the formula, or is selected at a node of a lower number.
    BadVariable(u64),
}

impl From<AllocError> for FitFault {
    ghost use Rattle.std.specs.Prelude.{◌≡◌};
    ghost use Rattle.expansion_tree.specs.declared.faults.FitFault.TheVariants.{Memory};

    ghost from_gives = { λ _ e. e ≡ Memory };

    fn from(_: AllocError) -> Self {
        FitFault::Memory
    }
}

impl<T: Drop> From<AllocFailed<T>> for FitFault {
    ghost use Rattle.std.specs.Prelude.{◌≡◌};
    ghost use Rattle.expansion_tree.specs.declared.faults.FitFault.TheVariants.{Memory};

    ghost from_gives = { λ _ e. e ≡ Memory };

    fn from(_: AllocFailed<T>) -> Self {
        FitFault::Memory
    }
}
