//! Why a line of a script is refused.

ghost use Rattle.std.specs.Prelude.{◌≡◌};
ghost use Rattle.script_text.specs.Tails.{of_text as fault_of_text};

use std::alloc::{AllocError, AllocFailed};
use tps_reader::faults::RawFault;

/// Why a line isn't that of a command.
#[derive(Clone, Copy, Debug, PartialEq, Eq)]
pub enum CommandFault {
    /// The fault of a formula text, which isn't `RawFault::Memory`. `Unexpected` has the place of the first token such that no command's line begins with the tokens up
    /// to it, or the length of the line where the tokens only begin one; places are bytes from the start of the line.
    Raw(RawFault),
    /// The first token isn't the word of a command.
    Unknown,
    /// Memory ran out.
    Memory,
}

impl From<AllocError> for CommandFault {
    ghost use Rattle.std.specs.Prelude.{◌≡◌};
    ghost use Rattle.script_text.specs.declared.faults.CommandFault.TheVariants.{Memory};

    ghost from_gives = { λ _ fault. fault ≡ Memory };

    fn from(_error: AllocError) -> CommandFault {
        CommandFault::Memory
    }
}

impl<T: Drop> From<AllocFailed<T>> for CommandFault {
    ghost use Rattle.std.specs.Prelude.{◌≡◌};
    ghost use Rattle.script_text.specs.declared.faults.CommandFault.TheVariants.{Memory};

    ghost from_gives = { λ _ fault. fault ≡ Memory };

    fn from(_error: AllocFailed<T>) -> CommandFault {
        CommandFault::Memory
    }
}

/// The fault of a text that is the line, or a part of it.
pub(crate) fn of_text(fault: RawFault) -> CommandFault
    ensures { result ≡ fault_of_text fault }
{
    match fault {
        RawFault::Memory => CommandFault::Memory,
        RawFault::NotUtf8 => CommandFault::Raw(RawFault::NotUtf8),
        RawFault::BadCharacter(place) => CommandFault::Raw(RawFault::BadCharacter(place)),
        RawFault::TooDeep(depth) => CommandFault::Raw(RawFault::TooDeep(depth)),
        RawFault::Unexpected(place) => CommandFault::Raw(RawFault::Unexpected(place)),
    }
}
