//! The line that a command makes.

ghost use Rattle.std.specs.Prelude.{◌≡◌, IfOk, IfSome, Option};
ghost use Rattle.std.specs.Option.{option_map};
ghost use Rattle.hol_terms.specs.Terms.{application, constant, forall, implication as implication_constant, plain_term, plain_type};
ghost use Rattle.hol_terms.specs.Typing.{IsFormula};
ghost use Rattle.nd_rules.specs.Lines.{plain_line};
ghost use Rattle.nd_rules.specs.Rules.{implies};
ghost use Rattle.etps_session.specs.Commands.{IsTyped, plain_command};
ghost use Rattle.etps_session.specs.Tables.{formula_at, generalization_of, implication_of, instance_in, or_truth, table_formula as table_formula_of, table_line as table_line_of, universal_in};

use crate::commands::Command;
use crate::hypotheses::hypotheses;
use hol_terms::indices::{abstract_over, instantiate};
use hol_terms::names::Name;
use hol_terms::terms::{Con, Tm, copy};
use hol_terms::types::Ty;
use nd_rules::lines::Line;
use nd_rules::outlines::Outline;
use nd_rules::shapes::{has_type, universal_body};
use std::alloc::{AllocError, Global};

/// The formula of the line of a number.
fn formula_of(outline: &Outline, number: u64) -> Option<&Tm>
    ensures formula { option_map (λ t. plain_term t.now) result ≡ formula_at outline.now number }
    ensures formed { IfSome result (λ t. IsFormula (plain_term t.now)) }
{
    match outline.find(number) {
        Some(line) => Some(&line.formula),
        None => None,
    }
}

/// IMPLIES applied to a copy of the formula.
fn implication_from(alloc: Global, left: &Tm) -> Result<Tm, AllocError>
    ensures { IfOk result (λ t. plain_term t ≡ application (constant implication_constant) (plain_term left.now)) }
{
    let left = copy(alloc, left)?;
    Tm::app(alloc, Tm::Con(Con::Implies), left)
}

/// The implication between copies of the formulas.
fn implied(alloc: Global, left: &Tm, right: &Tm) -> Result<Tm, AllocError>
    ensures { IfOk result (λ t. plain_term t ≡ implies (plain_term left.now) (plain_term right.now)) }
{
    let half = implication_from(alloc, left)?;
    let right = copy(alloc, right)?;
    Tm::app(alloc, half, right)
}

/// DEDUCT: the source, implied by the hypothesis.
fn implication(
    alloc: Global,
    outline: &Outline,
    source: u64,
    hyp: u64,
) -> Result<Option<Tm>, AllocError>
    ensures formula { IfOk result (λ a. option_map plain_term a ≡ implication_of (formula_at outline.now hyp) (formula_at outline.now source)) }
    ensures formed { IfOk result (λ a. IfSome a (λ t. IsFormula (plain_term t))) }
{
    let Some(left) = formula_of(outline, hyp) else {
        return Ok(None);
    };
    let Some(right) = formula_of(outline, source) else {
        return Ok(None);
    };
    Ok(Some(implied(alloc, left, right)?))
}

/// UI: the instance of a universal source with the term, where this has the type.
fn instance(
    alloc: Global,
    outline: &Outline,
    source: u64,
    term: &Tm,
) -> Result<Option<Tm>, AllocError>
    ensures formula { IfOk result (λ a. option_map plain_term a ≡ instance_in (universal_in (formula_at outline.now source)) (plain_term term.now)) }
    ensures formed { IfOk result (λ a. IfSome a (λ t. IsFormula (plain_term t))) }
{
    let Some(formula) = formula_of(outline, source) else {
        return Ok(None);
    };
    let Some(quantified) = universal_body(formula) else {
        return Ok(None);
    };
    if !has_type(alloc, term, quantified.ty)? {
        return Ok(None);
    }
    Ok(Some(instantiate(alloc, quantified.body, term)?))
}

/// The quantifier ALL of a type.
fn quantifier(alloc: Global, ty: &Ty) -> Result<Tm, AllocError>
    ensures { IfOk result (λ t. plain_term t ≡ constant (forall (plain_type ty.now))) }
{
    Ok(Tm::Con(Con::All(ty.copy(alloc)?)))
}

/// The formula, universal over the variable.
fn universal(alloc: Global, formula: &Tm, name: &Name, ty: &Ty) -> Result<Tm, AllocError>
    requires { IsFormula (plain_term formula.now) }
    ensures formula { IfOk result (λ t. Some (plain_term t) ≡ generalization_of (name.now, plain_type ty.now) (Some (plain_term formula.now))) }
    ensures formed { IfOk result (λ t. IsFormula (plain_term t)) }
{
    let body = abstract_over(alloc, name, ty, formula)?;
    let predicate = Tm::lam_over(alloc, ty, body)?;
    let head = quantifier(alloc, ty)?;
    let formula = Tm::app(alloc, head, predicate)?;
    Ok(formula)
}

/// UGEN: the source, universal over the variable.
fn generalization(
    alloc: Global,
    outline: &Outline,
    source: u64,
    name: &Name,
    ty: &Ty,
) -> Result<Option<Tm>, AllocError>
    ensures formula { IfOk result (λ a. option_map plain_term a ≡ generalization_of (name.now, plain_type ty.now) (formula_at outline.now source)) }
    ensures formed { IfOk result (λ a. IfSome a (λ t. IsFormula (plain_term t))) }
{
    match formula_of(outline, source) {
        Some(formula) => Ok(Some(universal(alloc, formula, name, ty)?)),
        None => Ok(None),
    }
}

/// RULEC: the source.
fn source_formula(alloc: Global, outline: &Outline, source: u64) -> Result<Option<Tm>, AllocError>
    ensures formula { IfOk result (λ a. option_map plain_term a ≡ formula_at outline.now source) }
    ensures formed { IfOk result (λ a. IfSome a (λ t. IsFormula (plain_term t))) }
{
    match formula_of(outline, source) {
        Some(formula) => Ok(Some(copy(alloc, formula)?)),
        None => Ok(None),
    }
}

/// The formula that the command has, or that its rule gives, where the lines cited give one.
pub(crate) fn table_formula(
    alloc: Global,
    outline: &Outline,
    command: &Command,
) -> Result<Option<Tm>, AllocError>
    requires { IsTyped (plain_command command.now) }
    ensures formula { IfOk result (λ a. option_map plain_term a ≡ table_formula_of outline.now (plain_command command.now)) }
    ensures formed { IfOk result (λ a. IfSome a (λ t. IsFormula (plain_term t))) }
{
    match command {
        Command::P { formula, .. } => Ok(Some(copy(alloc, formula)?)),
        Command::Plan { formula, .. } => Ok(Some(copy(alloc, formula)?)),
        Command::Deduct { src, hyp, .. } => implication(alloc, outline, *src, *hyp),
        Command::Ui { src, term, .. } => instance(alloc, outline, *src, term),
        Command::Ugen { src, var, ty, .. } => generalization(alloc, outline, *src, var, ty),
        Command::Egen { formula, .. } => Ok(Some(copy(alloc, formula)?)),
        Command::Rulec { src, .. } => source_formula(alloc, outline, *src),
        Command::Lambda { formula, .. } => Ok(Some(copy(alloc, formula)?)),
        Command::Rulep { formula, .. } => Ok(Some(copy(alloc, formula)?)),
    }
}

/// The formula, or TRUTH where there is none.
fn or_truth_made(formula: Option<Tm>) -> Tm
    requires { IfSome formula (λ t. IsFormula (plain_term t)) }
    ensures formula { plain_term result ≡ or_truth (option_map plain_term formula) }
    ensures formed { IsFormula (plain_term result) }
{
    match formula {
        Some(formula) => formula,
        None => Tm::Con(Con::Truth),
    }
}

/// The command's line, where no line has its number.
pub(crate) fn table_line(
    alloc: Global,
    outline: &Outline,
    command: &Command,
) -> Result<Line, AllocError>
    requires { IsTyped (plain_command command.now) }
    ensures line { IfOk result (λ l. plain_line l ≡ table_line_of outline.now (plain_command command.now)) }
    ensures formed { IfOk result (λ l. IsFormula (plain_term l.formula)) }
{
    let formula = table_formula(alloc, outline, command)?;
    Ok(Line {
        number: command.number(),
        hyps: hypotheses(alloc, outline, command)?,
        formula: or_truth_made(formula),
        why: command.why(alloc)?,
    })
}
