//! Why a formula text is refused.

use std::alloc::{AllocError, AllocFailed};

/// Why a text is refused. A place is a byte offset from 0. `Memory` comes where memory runs out.
#[derive(Clone, Copy, Debug, PartialEq, Eq)]
pub enum RawFault {
    /// The bytes aren't UTF-8.
    NotUtf8,
    /// No token begins here, after whole tokens and white space.
    BadCharacter(u64),
    /// The depth of the text is this, above 1,000.
    TooDeep(u64),
    /// No formula text begins with the tokens up to the one here; at the length of the text, the tokens only begin one.
    Unexpected(u64),
    /// Memory ran out.
    Memory,
}

impl From<AllocError> for RawFault {
    ghost use Rattle.std.specs.Prelude.{◌≡◌};
    ghost use Rattle.tps_reader.specs.declared.faults.RawFault.TheVariants.{Memory};

    ghost from_gives = { λ _ fault. fault ≡ Memory };

    fn from(_error: AllocError) -> RawFault {
        RawFault::Memory
    }
}

impl<T: Drop> From<AllocFailed<T>> for RawFault {
    ghost use Rattle.std.specs.Prelude.{◌≡◌};
    ghost use Rattle.tps_reader.specs.declared.faults.RawFault.TheVariants.{Memory};

    ghost from_gives = { λ _ fault. fault ≡ Memory };

    fn from(_error: AllocFailed<T>) -> RawFault {
        RawFault::Memory
    }
}
