//! Why a text is refused.

use std::alloc::{AllocError, AllocFailed};

/// Why a text is refused, with the place: a byte offset from 0. `Memory` comes where memory runs out.
#[derive(Clone, Copy, Debug, PartialEq, Eq)]
pub enum TextFault {
    /// The bytes aren't UTF-8.
    NotUtf8,
    /// A word is neither a numeral of at most 64 bits nor 1 to 64 characters that start and continue an identifier.
    BadToken(u64),
    /// A closing bracket with no bracket open, or the end of the text before a form is whole.
    Unbalanced(u64),
    /// An opening bracket that would be the 5,001st open one.
    TooDeep(u64),
    /// A token after the whole form.
    Trailing(u64),
    /// A form that has no place in the table of types and terms.
    BadForm(u64),
    /// An application whose parts have types that don't fit.
    IllTyped(u64),
    /// A bound index with too few abstractions around it.
    LooseIndex(u64),
    /// Memory ran out.
    Memory,
}

impl From<AllocError> for TextFault {
    ghost use Rattle.std.specs.Prelude.{◌≡◌};
    ghost use Rattle.core_text.specs.declared.faults.TextFault.TheVariants.{Memory};

    ghost from_gives = { λ _ fault. fault ≡ Memory };

    fn from(_error: AllocError) -> TextFault {
        TextFault::Memory
    }
}

impl<T: Drop> From<AllocFailed<T>> for TextFault {
    ghost use Rattle.std.specs.Prelude.{◌≡◌};
    ghost use Rattle.core_text.specs.declared.faults.TextFault.TheVariants.{Memory};

    ghost from_gives = { λ _ fault. fault ≡ Memory };

    fn from(_error: AllocFailed<T>) -> TextFault {
        TextFault::Memory
    }
}
