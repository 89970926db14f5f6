//! What a step of a script asks of the session.

ghost use Rattle.std.specs.Prelude.{◌≡◌, IfErr, IfOk, IsSome};
ghost use Rattle.std.specs.List.Sorted.{IsStrictlyIncreasing};
ghost use Rattle.hol_terms.specs.Terms.{plain_type};
ghost use Rattle.tps_reader.specs.Raws.{plain_raw};
ghost use Rattle.nd_rules.specs.Lines.{plain_why};
ghost use Rattle.etps_session.specs.Answers.{is_planned as is_planned_why};
ghost use Rattle.etps_session.specs.Commands.{IsTyped, deduce, plain_command};
ghost use Rattle.script_text.specs.Commands.{plain_script, say_choose, say_convert, say_follow, say_generalize, say_instantiate, say_plan, say_suppose, say_witness};
ghost use Rattle.etps_script.specs.Known.{AreKnown};
ghost use Rattle.etps_script.specs.Requests.{Asks, AsksNothing, IsNoSource, IsUniversalBefore, is_plan as is_plan_request, is_taken as is_taken_by, line_number as line_number_of};

use crate::phrases::{Context, formula, term};
use crate::refusals::Refusal;
use etps_session::commands::Command;
use hol_terms::lists::{Hyps, Numbers};
use hol_terms::names::Name;
use hol_terms::terms::Tm;
use hol_terms::types::Ty;
use nd_rules::faults::RuleFault;
use nd_rules::lines::{Line, Why};
use nd_rules::naming::with_more;
use nd_rules::outlines::Outline;
use nd_rules::shapes::{existential_body, universal_body};
use script_text::commands::ScriptCommand;
use std::alloc::{AllocError, Global};
use std::mem::drop;
use tps_reader::raws::Raw;

/// The number of the line that the step makes.
fn line_number(script: &ScriptCommand) -> Option<u64>
    ensures { result ≡ line_number_of (plain_script script.now) }
{
    match script {
        ScriptCommand::Blank => None,
        ScriptCommand::Prove { .. } => None,
        ScriptCommand::Plan { number, .. } => Some(*number),
        ScriptCommand::P { number, .. } => Some(*number),
        ScriptCommand::Deduct { number, .. } => Some(*number),
        ScriptCommand::Ui { number, .. } => Some(*number),
        ScriptCommand::Ugen { number, .. } => Some(*number),
        ScriptCommand::Egen { number, .. } => Some(*number),
        ScriptCommand::Rulec { number, .. } => Some(*number),
        ScriptCommand::Lambda { number, .. } => Some(*number),
        ScriptCommand::Rulep { number, .. } => Some(*number),
        ScriptCommand::Undo => None,
        ScriptCommand::Done => None,
    }
}

/// Whether the command is PLAN.
fn is_plan(script: &ScriptCommand) -> bool
    ensures { result ≡ is_plan_request (plain_script script.now) }
{
    matches!(script, ScriptCommand::Plan { .. })
}

/// Whether the line has no justification yet.
fn is_planned(line: &Line) -> bool
    ensures { result ≡ is_planned_why (plain_why line.now.why) }
{
    matches!(line.why, Why::Planned)
}

/// Whether a finished line has the number of the step, or under PLAN any line.
pub(crate) fn is_taken(outline: &Outline, script: &ScriptCommand) -> bool
    ensures { result ≡ is_taken_by outline.now (plain_script script.now) }
{
    let Some(number) = line_number(script) else {
        return false;
    };
    match outline.find(number) {
        Some(line) => is_plan(script) || !is_planned(line),
        None => false,
    }
}

/// Rising numbers as hypotheses.
fn as_hypotheses(alloc: Global, items: &[u64]) -> Result<Hyps, AllocError>
    requires { IsStrictlyIncreasing items.now }
    ensures { IfOk result (λ hyps. hyps ≡ items.now) }
{
    let mut hyps = Hyps::new(alloc);
    for n in items {
        hyps.push(*n)?;
    }
    Ok(hyps)
}

/// The type of the quantifier of a universal line that comes before the line of a number.
fn universal_type(outline: &Outline, number: u64, src: u64) -> Result<&Ty, Refusal>
    ensures source { IfOk result (λ ty. IsUniversalBefore outline.now number src (plain_type ty.now)) }
    ensures fault { IfErr result (λ e. IsNoSource outline.now number src e) }
{
    if src == number {
        return Err(Refusal::Rule(RuleFault::NotEarlier(src)));
    }
    let Some(line) = outline.find(src) else {
        return Err(Refusal::Rule(RuleFault::NoLine(src)));
    };
    if src > number {
        return Err(Refusal::Rule(RuleFault::NotEarlier(src)));
    }
    match universal_body(&line.formula) {
        Some(quantified) => Ok(quantified.ty),
        None => Err(Refusal::Rule(RuleFault::Shape)),
    }
}

/// UI, with the term at the type of the quantifier of the source.
fn instance(
    alloc: Global,
    context: Context<'_>,
    number: u64,
    src: u64,
    raw: &Raw,
) -> Result<Command, Refusal>
    requires { AreKnown context.outline.now context.known.now }
    ensures asks { IfOk result (λ c. Asks context.entry.outline.now (say_instantiate number src (plain_raw raw.now)) (plain_command c)) }
    ensures typed { IfOk result (λ c. IsTyped (plain_command c)) }
    ensures fault { IfErr result (λ e. AsksNothing context.entry.outline.now (say_instantiate number src (plain_raw raw.now)) e) }
{
    let ty = match universal_type(context.outline, number, src) {
        Ok(ty) => ty,
        Err(refusal) => return Err(refusal),
    };
    match term(alloc, context, raw, Some(ty)) {
        Ok(term) => Ok(Command::Ui { number, src, term }),
        Err(refusal) => Err(refusal),
    }
}

/// UGEN, over the variable for which the phrase stands.
fn generalization(
    alloc: Global,
    context: Context<'_>,
    number: u64,
    src: u64,
    raw: &Raw,
) -> Result<Command, Refusal>
    requires { AreKnown context.outline.now context.known.now }
    ensures asks { IfOk result (λ c. Asks context.entry.outline.now (say_generalize number src (plain_raw raw.now)) (plain_command c)) }
    ensures typed { IfOk result (λ c. IsTyped (plain_command c)) }
    ensures fault { IfErr result (λ e. AsksNothing context.entry.outline.now (say_generalize number src (plain_raw raw.now)) e) }
{
    match term(alloc, context, raw, None) {
        Ok(Tm::Free(var, ty)) => Ok(Command::Ugen {
            number,
            src,
            var,
            ty,
        }),
        Ok(other) => {
            drop(other);
            Err(Refusal::Rule(RuleFault::Shape))
        }
        Err(refusal) => Err(refusal),
    }
}

/// EGEN, with the term at the type of the quantifier of the formula.
fn witness(
    alloc: Global,
    context: Context<'_>,
    number: u64,
    src: u64,
    raw: &Raw,
    raw_formula: &Raw,
) -> Result<Command, Refusal>
    requires { AreKnown context.outline.now context.known.now }
    ensures asks { IfOk result (λ c. Asks context.entry.outline.now (say_witness number src (plain_raw raw.now) (plain_raw raw_formula.now)) (plain_command c)) }
    ensures typed { IfOk result (λ c. IsTyped (plain_command c)) }
    ensures fault { IfErr result (λ e. AsksNothing context.entry.outline.now (say_witness number src (plain_raw raw.now) (plain_raw raw_formula.now)) e) }
{
    let formula = match formula(alloc, context, raw_formula) {
        Ok(formula) => formula,
        Err(refusal) => return Err(refusal),
    };
    let Some(quantified) = existential_body(&formula) else {
        return Err(Refusal::Rule(RuleFault::Shape));
    };
    match term(alloc, context, raw, Some(quantified.ty)) {
        Ok(term) => Ok(Command::Egen {
            number,
            src,
            term,
            formula,
        }),
        Err(refusal) => Err(refusal),
    }
}

/// PLAN, of the formula for which the phrase stands.
fn plan(
    alloc: Global,
    context: Context<'_>,
    number: u64,
    hyps: &Hyps,
    raw: &Raw,
) -> Result<Command, Refusal>
    requires { AreKnown context.outline.now context.known.now }
    ensures asks { IfOk result (λ c. Asks context.entry.outline.now (say_plan number hyps.now (plain_raw raw.now)) (plain_command c)) }
    ensures typed { IfOk result (λ c. IsTyped (plain_command c)) }
    ensures fault { IfErr result (λ e. AsksNothing context.entry.outline.now (say_plan number hyps.now (plain_raw raw.now)) e) }
{
    let formula = formula(alloc, context, raw)?;
    let hyps = as_hypotheses(alloc, hyps.as_slice())?;
    Ok(Command::Plan {
        number,
        hyps,
        formula,
    })
}

/// P, of the formula for which the phrase stands.
fn hypothesis(
    alloc: Global,
    context: Context<'_>,
    number: u64,
    raw: &Raw,
) -> Result<Command, Refusal>
    requires { AreKnown context.outline.now context.known.now }
    ensures asks { IfOk result (λ c. Asks context.entry.outline.now (say_suppose number (plain_raw raw.now)) (plain_command c)) }
    ensures typed { IfOk result (λ c. IsTyped (plain_command c)) }
    ensures fault { IfErr result (λ e. AsksNothing context.entry.outline.now (say_suppose number (plain_raw raw.now)) e) }
{
    let formula = formula(alloc, context, raw)?;
    Ok(Command::P { number, formula })
}

/// RULEC, with an equal name.
fn choice(
    alloc: Global,
    context: Context<'_>,
    number: u64,
    some_line: u64,
    hyp: u64,
    src: u64,
    var: &Name,
) -> Result<Command, Refusal>
    ensures asks { IfOk result (λ c. Asks context.entry.outline.now (say_choose number some_line hyp src var.now) (plain_command c)) }
    ensures typed { IfOk result (λ c. IsTyped (plain_command c)) }
    ensures fault { IfErr result (λ e. AsksNothing context.entry.outline.now (say_choose number some_line hyp src var.now) e) }
{
    let var = var.copy(alloc)?;
    Ok(Command::Rulec {
        number,
        some_line,
        hyp,
        src,
        var,
    })
}

/// LAMBDA, of the formula for which the phrase stands.
fn conversion(
    alloc: Global,
    context: Context<'_>,
    number: u64,
    src: u64,
    raw: &Raw,
) -> Result<Command, Refusal>
    requires { AreKnown context.outline.now context.known.now }
    ensures asks { IfOk result (λ c. Asks context.entry.outline.now (say_convert number src (plain_raw raw.now)) (plain_command c)) }
    ensures typed { IfOk result (λ c. IsTyped (plain_command c)) }
    ensures fault { IfErr result (λ e. AsksNothing context.entry.outline.now (say_convert number src (plain_raw raw.now)) e) }
{
    let formula = formula(alloc, context, raw)?;
    Ok(Command::Lambda {
        number,
        src,
        formula,
    })
}

/// RULEP, of the formula for which the phrase stands.
fn consequence(
    alloc: Global,
    context: Context<'_>,
    number: u64,
    src: &Numbers,
    raw: &Raw,
) -> Result<Command, Refusal>
    requires { AreKnown context.outline.now context.known.now }
    ensures asks { IfOk result (λ c. Asks context.entry.outline.now (say_follow number src.now (plain_raw raw.now)) (plain_command c)) }
    ensures typed { IfOk result (λ c. IsTyped (plain_command c)) }
    ensures fault { IfErr result (λ e. AsksNothing context.entry.outline.now (say_follow number src.now (plain_raw raw.now)) e) }
{
    let formula = formula(alloc, context, raw)?;
    let src = with_more(Numbers::new(alloc), src.as_slice())?;
    Ok(Command::Rulep {
        number,
        src,
        formula,
    })
}

/// DEDUCT.
fn deduction(number: u64, src: u64, hyp: u64) -> Command
    ensures { plain_command result ≡ deduce number src hyp }
{
    Command::Deduct { number, src, hyp }
}

/// What the step asks of the session with this outline.
pub(crate) fn request(
    alloc: Global,
    context: Context<'_>,
    script: &ScriptCommand,
) -> Result<Command, Refusal>
    requires step { IsSome (line_number_of (plain_script script.now)) }
    requires known { AreKnown context.outline.now context.known.now }
    ensures asks { IfOk result (λ c. Asks context.entry.outline.now (plain_script script.now) (plain_command c)) }
    ensures typed { IfOk result (λ c. IsTyped (plain_command c)) }
    ensures fault { IfErr result (λ e. AsksNothing context.entry.outline.now (plain_script script.now) e) }
{
    match script {
        ScriptCommand::Blank => unreachable!(),
        ScriptCommand::Prove { .. } => unreachable!(),
        ScriptCommand::Plan {
            number,
            hyps,
            formula,
        } => plan(alloc, context, *number, hyps, formula),
        ScriptCommand::P { number, formula } => hypothesis(alloc, context, *number, formula),
        ScriptCommand::Deduct { number, src, hyp } => Ok(deduction(*number, *src, *hyp)),
        ScriptCommand::Ui { number, src, term } => instance(alloc, context, *number, *src, term),
        ScriptCommand::Ugen { number, src, var } => {
            generalization(alloc, context, *number, *src, var)
        }
        ScriptCommand::Egen {
            number,
            src,
            term,
            formula,
        } => witness(alloc, context, *number, *src, term, formula),
        ScriptCommand::Rulec {
            number,
            some_line,
            hyp,
            src,
            var,
        } => choice(alloc, context, *number, *some_line, *hyp, *src, var),
        ScriptCommand::Lambda {
            number,
            src,
            formula,
        } => conversion(alloc, context, *number, *src, formula),
        ScriptCommand::Rulep {
            number,
            src,
            formula,
        } => consequence(alloc, context, *number, src, formula),
        ScriptCommand::Undo => unreachable!(),
        ScriptCommand::Done => unreachable!(),
    }
}
