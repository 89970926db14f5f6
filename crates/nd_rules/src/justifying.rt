//! The rules: whether a line is justified by the lines of an outline.

ghost use Rattle.std.specs.Prelude.{◌≡◌, ◌≢◌, ◌↔◌, IfErr, IfOk, IsTrue, MatchOption, OnOk};
ghost use Rattle.hol_terms.specs.Terms.{plain_term};
ghost use Rattle.hol_terms.specs.Typing.{IsFormula};
ghost use Rattle.nd_rules.specs.Lines.{existential, plain_line, plain_why, universal_instance};
ghost use Rattle.nd_rules.specs.Rules.{HasNewVariable, HasNormals, HasTypedTerm, IsConsequence, IsConverted, IsFalsified, IsFirstRefusal, IsJustified, NamesEarlier, RestsWell, formulas_of};

use crate::converting::{Normals, different_normals};
use crate::faults::RuleFault;
use crate::lines::{Line, Why};
use crate::naming::{cited, first_late, first_missing, line_at, with_more};
use crate::outlines::Outline;
use crate::resting::has_hypotheses;
use crate::shapes::{existential_body, has_shape, has_type, universal_body};
use crate::variables::variable_fault;
use hol_terms::lists::Terms;
use hol_terms::terms::Tm;
use rulep_decide::premises::Premises;
use rulep_decide::verdicts::{Verdict, follows};
use std::alloc::{AllocError, Global};

/// The lines that the line names are there, with smaller numbers.
fn names_earlier(alloc: Global, outline: &Outline, line: &Line) -> Result<(), RuleFault>
    ensures ok { OnOk result (NamesEarlier outline.now (plain_line line.now)) }
    ensures fault { IfErr result (λ e. IsFirstRefusal outline.now (plain_line line.now) e) }
{
    let numbers = cited(alloc, &line.why)?;
    let numbers = with_more(numbers, line.hyps.as_slice())?;
    if let Some(number) = first_missing(outline, line, numbers.as_slice()) {
        return Err(RuleFault::NoLine(number));
    }
    if let Some(number) = first_late(line, numbers.as_slice()) {
        return Err(RuleFault::NotEarlier(number));
    }
    Ok(())
}

/// The formula and the hypotheses are as the rule wants them.
fn rests_well(alloc: Global, outline: &Outline, line: &Line) -> Result<(), RuleFault>
    ensures ok { OnOk result (RestsWell outline.now (plain_line line.now)) }
    ensures fault { IfErr result (λ e. IsFirstRefusal outline.now (plain_line line.now) e) }
{
    if let Err(fault) = names_earlier(alloc, outline, line) {
        return Err(fault);
    }
    if !has_shape(alloc, outline, line)? {
        return Err(RuleFault::Shape);
    }
    if !has_hypotheses(outline, line) {
        return Err(RuleFault::Hyps);
    }
    Ok(())
}

/// The formulas of the lines of these numbers.
fn premises_of(
    alloc: Global,
    outline: &Outline,
    line: &Line,
    sources: &[u64],
) -> Result<Premises, AllocError>
    ensures { IfOk result (λ premises. premises ≡ formulas_of outline.now (plain_line line.now) sources.now) }
{
    let mut premises = Premises::new(alloc);
    for n in sources {
        if let Some(found) = line_at(outline, line, *n) {
            premises.add(&found.formula)?;
        }
    }
    Ok(premises)
}

/// RULEP: the true atoms of an assignment where the cited lines hold and the line doesn't; `None` exactly where the line follows, and
/// under each other rule.
fn consequence_fault(
    alloc: Global,
    outline: &Outline,
    line: &Line,
) -> Result<Option<Terms>, AllocError>
    ensures { IfOk result (λ fault. MatchOption fault (IsConsequence outline.now (plain_line line.now) (plain_why line.now.why)) (IsFalsified outline.now (plain_line line.now) (plain_why line.now.why))) }
{
    let Why::Rulep { src } = &line.why else {
        return Ok(None);
    };
    let premises = premises_of(alloc, outline, line, src.as_slice())?;
    match follows(alloc, &premises, &line.formula)? {
        Verdict::Follows => Ok(None),
        Verdict::Falsified(atoms) => Ok(Some(atoms)),
    }
}

/// LAMBDA: the long normal forms of the cited line and of the line, where they differ; `None` exactly where these are convertible, and
/// under each other rule.
fn conversion_fault(
    alloc: Global,
    outline: &Outline,
    line: &Line,
) -> Result<Option<Normals>, AllocError>
    requires formula { IsFormula (plain_term line.now.formula) }
    requires there { NamesEarlier outline.now (plain_line line.now) }
    ensures { IfOk result (λ fault. MatchOption fault (IsConverted outline.now (plain_line line.now) (plain_why line.now.why)) (λ n. HasNormals outline.now (plain_line line.now) (plain_why line.now.why) (plain_term n.first) (plain_term n.second))) }
{
    let Why::Lambda { src } = &line.why else {
        return Ok(None);
    };
    match line_at(outline, line, *src) {
        Some(source) => different_normals(alloc, &source.formula, &line.formula),
        None => unreachable!(),
    }
}

/// UI: whether the term has the type of the quantifier of the cited line.
fn has_instance_type(
    alloc: Global,
    outline: &Outline,
    line: &Line,
    source: u64,
    term: &Tm,
) -> Result<bool, AllocError>
    ensures { IfOk result (λ b. IsTrue b ↔ HasTypedTerm outline.now (plain_line line.now) (universal_instance source (plain_term term.now))) }
{
    let Some(source) = line_at(outline, line, source) else {
        return Ok(false);
    };
    let Some(quantified) = universal_body(&source.formula) else {
        return Ok(false);
    };
    has_type(alloc, term, quantified.ty)
}

/// EGEN: whether the term has the type of the quantifier of the line.
fn has_witness_type(
    alloc: Global,
    outline: &Outline,
    line: &Line,
    source: u64,
    term: &Tm,
) -> Result<bool, AllocError>
    ensures { IfOk result (λ b. IsTrue b ↔ HasTypedTerm outline.now (plain_line line.now) (existential source (plain_term term.now))) }
{
    let Some(quantified) = existential_body(&line.formula) else {
        return Ok(false);
    };
    has_type(alloc, term, quantified.ty)
}

/// Whether the rule's term, where it has one, has the quantifier's type.
fn has_typed_term(alloc: Global, outline: &Outline, line: &Line) -> Result<bool, AllocError>
    ensures { IfOk result (λ b. IsTrue b ↔ HasTypedTerm outline.now (plain_line line.now) (plain_why line.now.why)) }
{
    match &line.why {
        Why::Ui { src, term } => has_instance_type(alloc, outline, line, *src, term),
        Why::Egen { src, term } => has_witness_type(alloc, outline, line, *src, term),
        _ => Ok(true),
    }
}

/// What the rule asks beside lines, form, hypotheses and variable.
fn is_licensed(alloc: Global, outline: &Outline, line: &Line) -> Result<(), RuleFault>
    requires formula { IsFormula (plain_term line.now.formula) }
    requires rests { RestsWell outline.now (plain_line line.now) }
    requires variable { HasNewVariable outline.now (plain_line line.now) }
    ensures consequence { OnOk result (IsConsequence outline.now (plain_line line.now) (plain_why line.now.why)) }
    ensures converted { OnOk result (IsConverted outline.now (plain_line line.now) (plain_why line.now.why)) }
    ensures typed { OnOk result (HasTypedTerm outline.now (plain_line line.now) (plain_why line.now.why)) }
    ensures fault { IfErr result (λ e. IsFirstRefusal outline.now (plain_line line.now) e) }
{
    if let Some(atoms) = consequence_fault(alloc, outline, line)? {
        return Err(RuleFault::NotFollows(atoms));
    }
    if let Some(normals) = conversion_fault(alloc, outline, line)? {
        return Err(RuleFault::NotConvertible(normals.first, normals.second));
    }
    if !has_typed_term(alloc, outline, line)? {
        return Err(RuleFault::WrongType);
    }
    Ok(())
}

/// Whether the lines of the outline, with the line put at its number, justify the line by its rule (Andrews 2002): Ok exactly where they
/// do, and else the first refusal in the order of `RuleFault`. A cited line whose number is missing or late comes before a hypothesis
/// that is, in the order in which they are written. `VariableFree` tells the first of the lines where the variable may not be free:
/// under RULEC the existential line, the line itself and then its hypotheses, under UGEN its hypotheses.
pub fn justify(alloc: Global, outline: &Outline, line: &Line) -> Result<(), RuleFault>
    requires { IsFormula (plain_term line.now.formula) }
    ensures ok { OnOk result (IsJustified outline.now (plain_line line.now)) }
    ensures fault { IfErr result (λ e. IsFirstRefusal outline.now (plain_line line.now) e) }
    ensures refused { IfErr result (λ e. e ≢ RuleFault.Memory → IsJustified outline.now (plain_line line.now) → ⊥) }
{
    if let Err(fault) = rests_well(alloc, outline, line) {
        return Err(fault);
    }
    let fault = variable_fault(alloc, outline, line)?;
    if let Some(number) = fault {
        return Err(RuleFault::VariableFree(number));
    }
    is_licensed(alloc, outline, line)
}
