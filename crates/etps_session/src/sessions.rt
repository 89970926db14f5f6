//! Sessions.

ghost use Rattle.std.specs.Prelude.{◌≡◌, ◌≢◌, ◌↔◌, ◌∷◌, [], IfErr, IfOk, IsTrue, None, OnErr, OnOk, Some, map};
ghost use Rattle.std.specs.Option.{option_map};
ghost use Rattle.hol_terms.specs.Terms.{plain_term};
ghost use Rattle.hol_terms.specs.Typing.{IsFormula};
ghost use Rattle.nd_rules.specs.Lines.{plain_line, planned};
ghost use Rattle.nd_rules.specs.Outlines.{IsDerivation};
ghost use Rattle.etps_session.specs.Answers.{IsAccepted, IsFirstAnswer, IsStarted};
ghost use Rattle.etps_session.specs.Commands.{IsTyped, plain_command};
ghost use Rattle.etps_session.specs.Progress.{IsDone, IsUndoFault, IsUndone, first_planned_for, first_planned_in, lines_upto};
ghost use Rattle.etps_session.specs.Replays.{Goal, IsIdleWithoutGoal, replay, with_request};

use crate::commands::Command;
use crate::faults::{SessionFault, UndoFault};
use crate::judging::{is_planned, verdict};
use crate::steps::{GoalLine, Step, accept, take_back, undone};
use hol_terms::lists::Hyps;
use hol_terms::terms::{Tm, copy};
use nd_rules::faults::InsertFault;
use nd_rules::lines::{Line, Why};
use nd_rules::outlines::Outline;
use std::alloc::{AllocError, Global};
use std::marker::Model;
use std::mem::drop;

/// A session of a deduction tutor: a goal, the commands that were accepted since it was started, and the outline to which they lead.
/// Contracts see the goal and the list of the commands, which is empty where no goal was started.
#[derive(Drop)]
pub struct Session {
    alloc: Global,
    goal: Option<GoalLine>,
    steps: Vec<Step>,
    outline: Outline,
}

impl Model for Session {
    ghost use Rattle.std.specs.Prelude.{map};
    ghost use Rattle.std.specs.Option.{option_map};
    ghost use Rattle.etps_session.specs.Codes.{state_code};
    ghost use Rattle.etps_session.specs.Replays.{SessionState};
    ghost use Rattle.etps_session.specs.Traces.{IsSession, plain_goal, plain_step, requests_of};

    ghost Value = { SessionState };

    ghost coded = { state_code };

    ghost view = { λ s. record { goal = option_map plain_goal s.goal; requests = requests_of (map plain_step s.steps.items) } };

    ghost invariant = { λ s. IsSession (option_map plain_goal s.goal) (map plain_step s.steps.items) s.outline };
}

/// The outline of a planned line alone, without hypotheses.
fn planned_alone(alloc: Global, number: u64, formula: Tm) -> Result<Outline, AllocError>
    requires { IsFormula (plain_term formula) }
    ensures { IfOk result (λ o. o ≡ record { number = number; hypotheses = []; formula = plain_term formula; why = planned } ∷ []) }
{
    let mut outline = Outline::new(alloc);
    let line = Line {
        number,
        hyps: Hyps::new(alloc),
        formula,
        why: Why::Planned,
    };
    match outline.insert(line) {
        Ok(()) => Ok(outline),
        Err(InsertFault::Memory) => Err(AllocError),
        Err(InsertFault::Present(_)) => unreachable!(),
    }
}

/// The number of the first planned line up to a number.
fn first_planned_upto(lines: &[Line], last: u64) -> Option<u64>
    ensures { result ≡ first_planned_in (lines_upto (map plain_line lines.now) last) }
{
    for line in lines {
        if line.number <= last && is_planned(line) {
            return Some(line.number);
        }
    }
    None
}

impl Session {
    /// The session without a goal.
    pub fn new(alloc: Global) -> Session
        ensures session { result ≡ record { goal = None; requests = [] } }
        ensures idle { IsIdleWithoutGoal result }
    {
        Session {
            alloc,
            goal: None,
            steps: Vec::new(alloc),
            outline: Outline::new(alloc),
        }
    }

    /// Begins anew with the formula for a goal: it is planned at the number, without hypotheses, and no command is accepted yet. An
    /// error comes only where memory runs out, and then nothing is changed.
    pub fn start(&mut self, number: u64, goal: Tm) -> Result<(), AllocError>
        requires { IsFormula (plain_term goal) }
        ensures ok { OnOk result (self.new ≡ record { goal = Some (record { number = number; formula = plain_term goal }); requests = [] }) }
        ensures err { OnErr result (self.new ≡ self.old) }
        ensures idle { IsIdleWithoutGoal self.new }
    {
        let formula = copy(self.alloc, &goal)?;
        let outline = planned_alone(self.alloc, number, formula)?;
        self.outline = outline;
        self.steps = Vec::new(self.alloc);
        self.goal = Some(GoalLine {
            number,
            formula: goal,
        });
        Ok(())
    }

    /// Judges the command, and takes it up where it is accepted: its line is put in, or the planned line of its number gets the
    /// justification. The refusals in their order: `NoGoal`, `NumberTaken`, and then those of the rules on the line. A refusal changes
    /// nothing.
    pub fn apply(&mut self, command: Command) -> Result<(), SessionFault>
        requires { IsTyped (plain_command command) }
        ensures accepted { OnOk result (IsAccepted self.old (plain_command command)) }
        ensures taken { OnOk result (self.new ≡ with_request self.old (plain_command command)) }
        ensures refused { IfErr result (λ e. IsFirstAnswer self.old (plain_command command) e) }
        ensures only { IfErr result (λ e. e ≢ SessionFault.Memory → IsAccepted self.old (plain_command command) → ⊥) }
        ensures kept { OnErr result (self.new ≡ self.old) }
        ensures idle { IsIdleWithoutGoal self.new }
    {
        let verdict = verdict(self.alloc, self.goal.is_some(), &self.outline, &command);
        match verdict {
            Ok(line) => match accept(&mut self.outline, &mut self.steps, command, line) {
                Ok(()) => Ok(()),
                Err(_) => Err(SessionFault::Memory),
            },
            Err(fault) => {
                drop(command);
                Err(fault)
            }
        }
    }

    /// Takes back the accepted command that was made last, and answers its number. `NoGoal` comes exactly where no goal was started, and
    /// `NothingToUndo` where one was and no accepted command is left; these change nothing.
    pub fn undo(&mut self) -> Result<u64, UndoFault>
        ensures undone { IfOk result (λ n. IsUndone self.old self.new n) }
        ensures started { OnOk result (IsStarted self.old) }
        ensures fault { IfErr result (λ e. IsUndoFault self.old e) }
        ensures kept { OnErr result (self.new ≡ self.old) }
        ensures idle { IsIdleWithoutGoal self.new }
    {
        if self.goal.is_none() {
            return Err(UndoFault::NoGoal);
        }
        match self.steps.pop() {
            None => Err(UndoFault::NothingToUndo),
            Some(step) => {
                let (number, change) = undone(step);
                take_back(&mut self.outline, number, change);
                Ok(number)
            }
        }
    }

    /// The outline to which the accepted commands lead.
    pub fn outline(&self) -> &Outline
        ensures lines { result.now ≡ replay self.now }
        ensures idle { IsIdleWithoutGoal self.now }
    {
        &self.outline
    }

    /// The least number of a planned line up to the goal's; `None` exactly where there is none, and where no goal was started.
    pub fn first_planned(&self) -> Option<u64>
        ensures first { result ≡ first_planned_for self.now.goal (replay self.now) }
        ensures idle { IsIdleWithoutGoal self.now }
    {
        match &self.goal {
            Some(goal) => first_planned_upto(self.outline.as_slice(), goal.number),
            None => None,
        }
    }

    /// Whether a goal was started and no line up to the goal's is planned: then these lines are a derivation of the goal.
    pub fn is_done(&self) -> bool
        ensures done { IsTrue result ↔ IsDone self.now }
        ensures derivation { IsTrue result → (g : Goal) → self.now.goal ≡ Some g → IsDerivation (lines_upto (replay self.now) g.number) g.formula }
        ensures idle { IsIdleWithoutGoal self.now }
    {
        match &self.goal {
            Some(goal) => first_planned_upto(self.outline.as_slice(), goal.number).is_none(),
            None => false,
        }
    }
}
