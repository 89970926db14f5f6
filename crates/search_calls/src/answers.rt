//! Answers, and why there are none.

use core_text::faults::TextFault;
use std::alloc::{AllocError, AllocFailed};

/// The answer to a call, as it is printed.
pub type Answer = Result<String, NoAnswer>;

/// Why a call isn't answered.
#[derive(Clone, Copy, Debug)]
pub enum NoAnswer {
    /// No call has that name.
    NoSuchCall,
    /// The formula has no type, or another one than O.
    NoFormula,
    /// A number is greater or smaller than the call takes, or a term is no head.
    Arguments,
    /// The arguments are no form, term or number.
    Text(TextFault),
    /// Memory ran out.
    Memory,
}

impl From<AllocError> for NoAnswer {
    fn from(_error: AllocError) -> NoAnswer {
        NoAnswer::Memory
    }
}

impl<T: Drop> From<AllocFailed<T>> for NoAnswer {
    fn from(_error: AllocFailed<T>) -> NoAnswer {
        NoAnswer::Memory
    }
}

impl From<TextFault> for NoAnswer {
    fn from(fault: TextFault) -> NoAnswer {
        NoAnswer::Text(fault)
    }
}
