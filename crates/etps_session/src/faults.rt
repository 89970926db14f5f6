//! Why a session refuses.

use nd_rules::faults::RuleFault;
use std::alloc::{AllocError, AllocFailed};

/// Why a command isn't accepted: the first of `NoGoal`, `NumberTaken` and `Rule` that holds, or running out of memory.
#[derive(Drop)]
pub enum SessionFault {
    /// No goal was started.
    NoGoal,
    /// A finished line has the number; where a line is to be planned, any line.
    NumberTaken,
    /// The rules refuse the line. This isn't `RuleFault::Memory`.
    Rule(RuleFault),
    /// Memory ran out.
    Memory,
}

impl From<AllocError> for SessionFault {
    ghost use Rattle.std.specs.Prelude.{◌≡◌};
    ghost use Rattle.etps_session.specs.declared.faults.SessionFault.TheVariants.{Memory};

    ghost from_gives = { λ _ fault. fault ≡ Memory };

    fn from(_: AllocError) -> Self {
        SessionFault::Memory
    }
}

impl<T: Drop> From<AllocFailed<T>> for SessionFault {
    ghost use Rattle.std.specs.Prelude.{◌≡◌};
    ghost use Rattle.etps_session.specs.declared.faults.SessionFault.TheVariants.{Memory};

    ghost from_gives = { λ _ fault. fault ≡ Memory };

    fn from(_: AllocFailed<T>) -> Self {
        SessionFault::Memory
    }
}

/// Why nothing is undone.
#[derive(Clone, Copy, Debug, PartialEq, Eq)]
pub enum UndoFault {
    /// No goal was started.
    NoGoal,
    /// No accepted command is left.
    NothingToUndo,
}
