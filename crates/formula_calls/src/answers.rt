//! Answers, and why there are none.

use core_text::faults::TextFault;
use script_text::faults::CommandFault;
use std::alloc::AllocError;
use tps_reader::faults::RawFault;

/// The answer to a call, as it is printed.
pub type Answer = Result<String, NoAnswer>;

/// Why a call isn't answered.
#[derive(Clone, Copy, Debug)]
pub enum NoAnswer {
    /// No call has that name.
    NoSuchCall,
    /// The arguments aren't as many as the call takes, or not of its kind.
    Arguments,
    /// No types fit a formula text, which shows first at this place.
    NoTyping(u64),
    /// The arguments are no core text.
    Text(TextFault),
    /// The arguments are no formula text.
    Raw(RawFault),
    /// The arguments are no line of a script.
    Command(CommandFault),
    /// Memory ran out.
    Memory,
}

impl From<AllocError> for NoAnswer {
    fn from(_error: AllocError) -> NoAnswer {
        NoAnswer::Memory
    }
}

impl From<TextFault> for NoAnswer {
    fn from(fault: TextFault) -> NoAnswer {
        NoAnswer::Text(fault)
    }
}

impl From<RawFault> for NoAnswer {
    fn from(fault: RawFault) -> NoAnswer {
        NoAnswer::Raw(fault)
    }
}

impl From<CommandFault> for NoAnswer {
    fn from(fault: CommandFault) -> NoAnswer {
        NoAnswer::Command(fault)
    }
}
