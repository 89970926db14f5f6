//! A command's line, judged by the rules.

ghost use Rattle.std.specs.Prelude.{◌≡◌, ◌↔◌, IfErr, IfOk, IsTrue, List, None, OnOk, Some, true};
ghost use Rattle.std.specs.Option.{option_map};
ghost use Rattle.hol_terms.specs.Terms.{Term, plain_term};
ghost use Rattle.hol_terms.specs.Typing.{IsFormula};
ghost use Rattle.nd_rules.specs.Lines.{DeductionLine, line_of, plain_line, plain_why};
ghost use Rattle.nd_rules.specs.Rules.{IsFirstRefusal, IsJustified};
ghost use Rattle.etps_session.specs.Answers.{Accepts, FitsTable, IsAnswer, IsRefusal, IsRefusalBeside, is_number_taken, is_planned as is_planned_why, judged_line};
ghost use Rattle.etps_session.specs.Commands.{IsTyped, number_of, plain_command, why_of};
ghost use Rattle.etps_session.specs.Tables.{table_formula as table_formula_of};

use crate::commands::Command;
use crate::faults::SessionFault;
use crate::hypotheses::as_hypotheses;
use crate::tables::{table_formula, table_line};
use hol_terms::terms::{Tm, copy, same};
use nd_rules::faults::RuleFault;
use nd_rules::justifying::justify;
use nd_rules::lines::{Line, Why};
use nd_rules::outlines::Outline;
use std::alloc::{AllocError, Global};
use std::mem::drop;

/// Whether the line has no justification yet.
pub(crate) fn is_planned(line: &Line) -> bool
    ensures { result ≡ is_planned_why (plain_why line.now.why) }
{
    matches!(line.why, Why::Planned)
}

/// Whether the command is PLAN.
fn plans(command: &Command) -> bool
    ensures { result ≡ is_planned_why (why_of (plain_command command.now)) }
{
    matches!(command, Command::Plan { .. })
}

/// Whether a finished line has the command's number, or under PLAN any line.
pub(crate) fn has_taken_number(outline: &Outline, command: &Command) -> bool
    ensures { result ≡ is_number_taken outline.now (plain_command command.now) }
{
    match outline.find(command.number()) {
        Some(line) => plans(command) || !is_planned(line),
        None => false,
    }
}

/// Whether the formula is that of the table, where the table has one.
fn fits(table: &Option<Tm>, formula: &Tm) -> bool
    ensures { IsTrue result ↔ ((a : Term) → option_map plain_term table.now ≡ Some a → plain_term formula.now ≡ a) }
{
    match table {
        Some(wanted) => same(formula, wanted),
        None => true,
    }
}

/// Whether the formula is that of the command's table, where this has one.
fn fits_table(
    alloc: Global,
    outline: &Outline,
    command: &Command,
    formula: &Tm,
) -> Result<bool, AllocError>
    requires { IsTyped (plain_command command.now) }
    ensures { IfOk result (λ b. IsTrue b ↔ ((a : Term) → table_formula_of outline.now (plain_command command.now) ≡ Some a → plain_term formula.now ≡ a)) }
{
    let table = table_formula(alloc, outline, command)?;
    let fits = fits(&table, formula);
    drop(table);
    Ok(fits)
}

/// The refusal, or `Shape` where that comes before it.
fn shape_first(fault: RuleFault, fits: bool) -> RuleFault
    ensures { (lines : List DeductionLine) (l : DeductionLine) → IsFirstRefusal lines l fault → IsRefusalBeside (fits ≡ true) lines l result }
{
    match fault {
        RuleFault::Memory => RuleFault::Memory,
        RuleFault::NoLine(number) => RuleFault::NoLine(number),
        RuleFault::NotEarlier(number) => RuleFault::NotEarlier(number),
        fault => { if fits { fault } else { RuleFault::Shape } }
    }
}

/// Judges a line of which beside the rule's form something else is asked, that it fits.
fn judge(alloc: Global, outline: &Outline, line: &Line, fits: bool) -> Result<(), RuleFault>
    requires { IsFormula (plain_term line.now.formula) }
    ensures justified { OnOk result (IsJustified outline.now (plain_line line.now)) }
    ensures fits { OnOk result (fits ≡ true) }
    ensures fault { IfErr result (λ e. IsRefusalBeside (fits ≡ true) outline.now (plain_line line.now) e) }
{
    match justify(alloc, outline, line) {
        Ok(()) => { if fits { Ok(()) } else { Err(RuleFault::Shape) } }
        Err(fault) => Err(shape_first(fault, fits)),
    }
}

/// An equal line with the justification of the command.
fn justified_line(alloc: Global, planned: &Line, command: &Command) -> Result<Line, AllocError>
    ensures { IfOk result (λ l. plain_line l ≡ record (plain_line planned.now) { why = why_of (plain_command command.now) }) }
{
    Ok(Line {
        number: planned.number,
        hyps: as_hypotheses(alloc, planned.hyps.as_slice())?,
        formula: copy(alloc, &planned.formula)?,
        why: command.why(alloc)?,
    })
}

/// The planned line with the justification of the command, judged.
fn judged_planned(
    alloc: Global,
    outline: &Outline,
    planned: &Line,
    command: &Command,
) -> Result<Line, RuleFault>
    requires typed { IsTyped (plain_command command.now) }
    requires formula { IsFormula (plain_term planned.now.formula) }
    requires there { line_of outline.now (number_of (plain_command command.now)) ≡ Some (plain_line planned.now) }
    ensures line { IfOk result (λ l. plain_line l ≡ judged_line outline.now (plain_command command.now)) }
    ensures formed { IfOk result (λ l. IsFormula (plain_term l.formula)) }
    ensures fits { OnOk result (FitsTable outline.now (plain_command command.now)) }
    ensures justified { IfOk result (λ l. IsJustified outline.now (plain_line l)) }
    ensures fault { IfErr result (λ e. IsRefusal outline.now (plain_command command.now) e) }
{
    let fits = fits_table(alloc, outline, command, &planned.formula)?;
    let line = justified_line(alloc, planned, command)?;
    match judge(alloc, outline, &line, fits) {
        Ok(()) => Ok(line),
        Err(fault) => {
            drop(line);
            Err(fault)
        }
    }
}

/// The line of the table, judged.
fn judged_new(alloc: Global, outline: &Outline, command: &Command) -> Result<Line, RuleFault>
    requires typed { IsTyped (plain_command command.now) }
    requires absent { line_of outline.now (number_of (plain_command command.now)) ≡ None }
    ensures line { IfOk result (λ l. plain_line l ≡ judged_line outline.now (plain_command command.now)) }
    ensures formed { IfOk result (λ l. IsFormula (plain_term l.formula)) }
    ensures fits { OnOk result (FitsTable outline.now (plain_command command.now)) }
    ensures justified { IfOk result (λ l. IsJustified outline.now (plain_line l)) }
    ensures fault { IfErr result (λ e. IsRefusal outline.now (plain_command command.now) e) }
{
    let line = table_line(alloc, outline, command)?;
    match judge(alloc, outline, &line, true) {
        Ok(()) => Ok(line),
        Err(fault) => {
            drop(line);
            Err(fault)
        }
    }
}

/// The command's line, where the rules accept it; else the first refusal.
pub(crate) fn judged(alloc: Global, outline: &Outline, command: &Command) -> Result<Line, RuleFault>
    requires { IsTyped (plain_command command.now) }
    ensures line { IfOk result (λ l. plain_line l ≡ judged_line outline.now (plain_command command.now)) }
    ensures formed { IfOk result (λ l. IsFormula (plain_term l.formula)) }
    ensures fits { OnOk result (FitsTable outline.now (plain_command command.now)) }
    ensures justified { IfOk result (λ l. IsJustified outline.now (plain_line l)) }
    ensures fault { IfErr result (λ e. IsRefusal outline.now (plain_command command.now) e) }
{
    match outline.find(command.number()) {
        Some(planned) => judged_planned(alloc, outline, planned, command),
        None => judged_new(alloc, outline, command),
    }
}

/// The command's line, where a goal was started, its number is free and the rules accept it; else the first refusal.
pub(crate) fn verdict(
    alloc: Global,
    started: bool,
    outline: &Outline,
    command: &Command,
) -> Result<Line, SessionFault>
    requires { IsTyped (plain_command command.now) }
    ensures line { IfOk result (λ l. plain_line l ≡ judged_line outline.now (plain_command command.now)) }
    ensures formed { IfOk result (λ l. IsFormula (plain_term l.formula)) }
    ensures started { OnOk result (started ≡ true) }
    ensures accepted { OnOk result (Accepts outline.now (plain_command command.now)) }
    ensures fault { IfErr result (λ e. IsAnswer started outline.now (plain_command command.now) e) }
{
    if !started {
        return Err(SessionFault::NoGoal);
    }
    if has_taken_number(outline, command) {
        return Err(SessionFault::NumberTaken);
    }
    match judged(alloc, outline, command) {
        Ok(line) => Ok(line),
        Err(RuleFault::Memory) => Err(SessionFault::Memory),
        Err(fault) => Err(SessionFault::Rule(fault)),
    }
}
