//! Why a command of a script is refused, and how that is told.

ghost use Rattle.std.specs.Prelude.{◌≡◌, ◌≢◌, ◌++◌, IfOk, OnOk, decimal};
ghost use Rattle.etps_script.specs.Refusals.{refused_line as refused_line_of, refused_reply, undo_refusal as undo_refusal_of, words};

use etps_session::faults::UndoFault;
use hol_terms::lists::Text;
use nd_rules::faults::RuleFault;
use script_text::faults::CommandFault;
use std::alloc::{AllocError, Global};
use tps_reader::faults::RawFault;

/// Why a command is refused.
#[derive(Drop)]
pub(crate) enum Refusal {
    /// Memory ran out.
    Memory,
    /// No goal was started.
    NoGoal,
    /// A finished line has the number; under PLAN any line.
    NumberTaken,
    /// A phrase stands for no term.
    NoTyping,
    /// A phrase stands for more than one term.
    Ambiguous,
    /// The rules refuse the line.
    Rule(RuleFault),
    /// No accepted command is left.
    NothingToUndo,
}

impl From<AllocError> for Refusal {
    ghost use Rattle.std.specs.Prelude.{◌≡◌};
    ghost use Rattle.etps_script.specs.declared.refusals.Refusal.TheVariants.{Memory};

    ghost from_gives = { λ _ refusal. refusal ≡ Memory };

    fn from(_: AllocError) -> Self {
        Refusal::Memory
    }
}

/// The refusal for which nothing was undone.
pub(crate) fn undo_refusal(fault: UndoFault) -> Refusal
    ensures { result ≡ undo_refusal_of fault }
{
    match fault {
        UndoFault::NoGoal => Refusal::NoGoal,
        UndoFault::NothingToUndo => Refusal::NothingToUndo,
    }
}

/// A text of these bytes.
pub(crate) fn said(alloc: Global, bytes: &[u8]) -> Result<Text, AllocError>
    ensures { IfOk result (λ text. text ≡ bytes.now) }
{
    let mut text = Text::new(alloc);
    text.append(bytes)?;
    Ok(text)
}

/// A text of these bytes and a number in decimal.
pub(crate) fn numbered(alloc: Global, bytes: &[u8], number: u64) -> Result<Text, AllocError>
    ensures { IfOk result (λ text. text ≡ bytes.now ++ decimal number) }
{
    let mut text = said(alloc, bytes)?;
    let digits = format!(in alloc; "{number}")?;
    text.append(digits.as_bytes())?;
    Ok(text)
}

/// Appends the words by which a refusal is told; nothing when memory runs out.
fn append_words(alloc: Global, text: &mut Text, refusal: &Refusal) -> Result<(), AllocError>
    ensures { OnOk result (text.new ≡ text.old ++ words refusal.now) }
{
    match refusal {
        Refusal::Memory => Ok(()),
        Refusal::NoGoal => text.append(b"NOGOAL"),
        Refusal::NumberTaken => text.append(b"NUMBER"),
        Refusal::NoTyping => text.append(b"NOTYPING"),
        Refusal::Ambiguous => text.append(b"AMBIGUOUS"),
        Refusal::Rule(fault) => fault.append_words(alloc, text),
        Refusal::NothingToUndo => text.append(b"UNDO"),
    }
}

/// The reply to a command that is refused. An error comes only where memory runs out, or ran out before.
pub(crate) fn refused(alloc: Global, refusal: &Refusal) -> Result<Text, AllocError>
    ensures told { OnOk result (refusal.now ≢ Refusal.Memory) }
    ensures text { IfOk result (λ text. text ≡ refused_reply refusal.now) }
{
    if matches!(refusal, Refusal::Memory) {
        return Err(AllocError);
    }
    let mut text = said(alloc, b"REFUSED ")?;
    append_words(alloc, &mut text, refusal)?;
    Ok(text)
}

/// The reply to a line that isn't that of a command. An error comes only where memory runs out, or ran out before.
pub(crate) fn refused_line(alloc: Global, fault: CommandFault) -> Result<Text, AllocError>
    ensures told { OnOk result (fault ≢ CommandFault.Memory) }
    ensures text { IfOk result (λ text. text ≡ refused_line_of fault) }
{
    match fault {
        CommandFault::Raw(RawFault::NotUtf8) => said(alloc, b"REFUSED UTF8"),
        CommandFault::Raw(RawFault::TooDeep(_)) => said(alloc, b"REFUSED DEEP"),
        CommandFault::Raw(RawFault::BadCharacter(place)) => numbered(
            alloc,
            b"REFUSED SYNTAX ",
            place,
        ),
        CommandFault::Raw(RawFault::Unexpected(place)) => numbered(
            alloc,
            b"REFUSED SYNTAX ",
            place,
        ),
        CommandFault::Raw(RawFault::Memory) => Err(AllocError),
        CommandFault::Unknown => said(alloc, b"REFUSED COMMAND"),
        CommandFault::Memory => Err(AllocError),
    }
}
