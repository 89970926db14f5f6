//! Accepted commands, and how the outline changes by them.

ghost use Rattle.std.specs.Prelude.{◌≡◌, ◌++◌, ◌∷◌, [], IfOk, IsSome, OnErr, OnOk, false, map};
ghost use Rattle.hol_terms.specs.Terms.{plain_term};
ghost use Rattle.hol_terms.specs.Typing.{IsFormula};
ghost use Rattle.nd_rules.specs.Lines.{line_of, plain_line, plain_why};
ghost use Rattle.nd_rules.specs.Outlines.{HasTypedTerms, IsOutline};
ghost use Rattle.etps_session.specs.Answers.{is_number_taken, judged_line};
ghost use Rattle.etps_session.specs.Commands.{IsTyped, number_of, plain_command};
ghost use Rattle.etps_session.specs.Replays.{put_at, taken};
ghost use Rattle.etps_session.specs.Traces.{change_of, plain_step, taken_back as lines_back};

use crate::commands::Command;
use hol_terms::terms::Tm;
use nd_rules::faults::InsertFault;
use nd_rules::lines::{Line, Why};
use nd_rules::outlines::Outline;
use std::alloc::AllocError;
use std::mem::drop;

/// The number and the formula of the line that is to be proved.
#[derive(Drop)]
pub(crate) struct GoalLine {
    pub(crate) number: u64,
    pub(crate) formula: Tm,
}

/// What became of a command's line: it was added, or a planned line got a justification.
#[derive(Clone, Copy)]
pub(crate) enum Change {
    Added,
    Justified,
}

/// An accepted command with what became of its line.
#[derive(Drop)]
pub(crate) struct Step {
    pub(crate) command: Command,
    pub(crate) change: Change,
}

/// Puts a line in, or gives the line that has its number its justification. An error comes only where memory runs out, and then
/// nothing is changed.
fn put_line(outline: &mut Outline, line: Line) -> Result<Change, AllocError>
    requires formula { IsFormula (plain_term line.formula) }
    requires term { HasTypedTerms (plain_why line.why) }
    ensures ok { OnOk result (outline.new ≡ put_at (line_of outline.old line.number) outline.old (plain_line line)) }
    ensures change { IfOk result (λ change. change ≡ change_of (line_of outline.old line.number)) }
    ensures err { OnErr result (outline.new ≡ outline.old) }
{
    if outline.find(line.number).is_some() {
        let Line {
            number,
            hyps,
            formula,
            why,
        } = line;
        drop(hyps);
        drop(formula);
        drop(outline.set_why(number, why));
        return Ok(Change::Justified);
    }
    match outline.insert(line) {
        Ok(()) => Ok(Change::Added),
        Err(InsertFault::Memory) => Err(AllocError),
        Err(InsertFault::Present(_)) => unreachable!(),
    }
}

/// Takes a change back: the line of the number goes, or is planned again.
pub(crate) fn take_back(outline: &mut Outline, number: u64, change: Change)
    requires { IsSome (line_of outline.old number) }
    ensures lines { outline.new ≡ lines_back change outline.old number }
    ensures outline { IsOutline outline.old }
{
    let _rising = outline.as_slice();
    match change {
        Change::Added => {
            drop(outline.take(number));
        }
        Change::Justified => {
            drop(outline.set_why(number, Why::Planned));
        }
    }
}

/// Adds a command with what became of its line. An error comes only where memory runs out, and then nothing is changed.
fn push_step(steps: &mut Vec<Step>, command: Command, change: Change) -> Result<(), AllocError>
    ensures ok { OnOk result (map plain_step steps.new.items ≡ map plain_step steps.old.items ++ (plain_command command, change) ∷ []) }
    ensures err { OnErr result (steps.new.items ≡ steps.old.items) }
{
    Ok(steps.push(Step { command, change })?)
}

/// The number of a step's line, with what became of it.
pub(crate) fn undone(step: Step) -> (u64, Change)
    ensures number { result.0 ≡ number_of (plain_command step.command) }
    ensures change { result.1 ≡ step.change }
{
    let number = step.command.number();
    let change = step.change;
    drop(step);
    (number, change)
}

/// Takes the command up, whose line was accepted. An error comes only where memory runs out, and then nothing is changed.
pub(crate) fn accept(
    outline: &mut Outline,
    steps: &mut Vec<Step>,
    command: Command,
    line: Line,
) -> Result<(), AllocError>
    requires typed { IsTyped (plain_command command) }
    requires formula { IsFormula (plain_term line.formula) }
    requires line { plain_line line ≡ judged_line outline.old (plain_command command) }
    requires free { is_number_taken outline.old (plain_command command) ≡ false }
    ensures outline { OnOk result (outline.new ≡ taken outline.old (plain_command command)) }
    ensures steps { OnOk result (map plain_step steps.new.items ≡ map plain_step steps.old.items ++ (plain_command command, change_of (line_of outline.old (number_of (plain_command command)))) ∷ []) }
    ensures kept_outline { OnErr result (outline.new ≡ outline.old) }
    ensures kept_steps { OnErr result (steps.new.items ≡ steps.old.items) }
{
    let number = line.number;
    let change = match put_line(&mut *outline, line) {
        Ok(change) => change,
        Err(_) => {
            drop(command);
            return Err(AllocError);
        }
    };
    match push_step(steps, command, change) {
        Ok(()) => Ok(()),
        Err(_) => {
            take_back(outline, number, change);
            Err(AllocError)
        }
    }
}
