//! Answers, and why there are none.

use core_text::faults::TextFault;
use std::alloc::AllocError;

/// The answer to a call, as it is printed.
pub type Answer = Result<String, NoAnswer>;

/// Why a call isn't answered.
#[derive(Clone, Copy, Debug)]
pub enum NoAnswer {
    /// No call has that name.
    NoSuchCall,
    /// The byte is no letter.
    NotALetter,
    /// The text is no name.
    NotAName,
    /// A term has no type, or another one than the call takes.
    NotTyped,
    /// The arguments are no form, type, term or name.
    Text(TextFault),
    /// Memory ran out.
    Memory,
}

impl From<AllocError> for NoAnswer {
    fn from(_error: AllocError) -> NoAnswer {
        NoAnswer::Memory
    }
}

impl From<TextFault> for NoAnswer {
    fn from(fault: TextFault) -> NoAnswer {
        NoAnswer::Text(fault)
    }
}
