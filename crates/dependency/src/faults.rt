//! Why occurrences have no order.

use hol_terms::lists::Numbers;
use std::alloc::{AllocError, AllocFailed};

/// Why the occurrences have no order.
#[derive(Drop)]
pub enum OrderFault {
    Memory,
    /// Occurrences, each once, each of which is directly before the next, and the last before the first.
    Cycle(Numbers),
}

impl From<AllocError> for OrderFault {
    ghost use Rattle.std.specs.Prelude.{◌≡◌};
    ghost use Rattle.dependency.specs.declared.faults.OrderFault.TheVariants.{Memory};

    ghost from_gives = { λ _ e. e ≡ Memory };

    fn from(_: AllocError) -> Self {
        OrderFault::Memory
    }
}

impl<T: Drop> From<AllocFailed<T>> for OrderFault {
    ghost use Rattle.std.specs.Prelude.{◌≡◌};
    ghost use Rattle.dependency.specs.declared.faults.OrderFault.TheVariants.{Memory};

    ghost from_gives = { λ _ e. e ≡ Memory };

    fn from(_: AllocFailed<T>) -> Self {
        OrderFault::Memory
    }
}
