//! Answers, and why there are none.

use core_text::faults::TextFault;
use std::alloc::AllocError;
use tps_reader::faults::RawFault;

/// The answer to a call, as it is printed.
pub type Answer = Result<String, NoAnswer>;

/// Why a call isn't answered.
#[derive(Clone, Copy, Debug)]
pub enum NoAnswer {
    /// No call has that name.
    NoSuchCall,
    /// A term has no type.
    NotTyped,
    /// The arguments are no core text.
    Text(TextFault),
    /// What was printed is no formula text.
    Raw(RawFault),
    /// Memory ran out.
    Memory,
}

impl From<AllocError> for NoAnswer {
    fn from(_error: AllocError) -> NoAnswer {
        NoAnswer::Memory
    }
}

impl From<TextFault> for NoAnswer {
    fn from(fault: TextFault) -> NoAnswer {
        NoAnswer::Text(fault)
    }
}

impl From<RawFault> for NoAnswer {
    fn from(fault: RawFault) -> NoAnswer {
        NoAnswer::Raw(fault)
    }
}
