//! The form of a formula that a rule wants.

ghost use Rattle.std.specs.Prelude.{◌≡◌, ◌↔◌, [], IfNone, IfOk, IfSome, IsTrue};
ghost use Rattle.hol_terms.specs.FreeVariables.{IsBodyOver};
ghost use Rattle.hol_terms.specs.Indices.{instance_of};
ghost use Rattle.hol_terms.specs.Terms.{SimpleType, Term, abstraction, free, plain_term, plain_type};
ghost use Rattle.hol_terms.specs.Typing.{Typed};
ghost use Rattle.nd_rules.specs.Lines.{choice, deduction, existential, generalization, hypothesis, plain_line, plain_why, universal_instance};
ghost use Rattle.nd_rules.specs.Rules.{HasShape, existence, implies, universal};

use crate::lines::{Line, Why};
use crate::naming::line_at;
use crate::outlines::Outline;
use hol_terms::indices::instantiate;
use hol_terms::names::Name;
use hol_terms::terms::{Con, Tm, same};
use hol_terms::types::Ty;
use hol_terms::typing::type_of;
use hol_terms::variables::is_free;
use std::alloc::{AllocError, Global};

/// A quantifier's type, and the body of the abstraction on which it stands.
#[derive(Clone, Copy)]
pub struct Quantified<'a> {
    pub ty: &'a Ty,
    pub body: &'a Tm,
}

/// The quantified body, where a quantifier at this type stands on an abstraction over it.
fn body_over<'a>(ty: &'a Ty, predicate: &'a Tm) -> Option<Quantified<'a>>
    ensures some { IfSome result (λ q. (plain_type q.ty.now ≡ plain_type ty.now) × (plain_term predicate.now ≡ abstraction (plain_type ty.now) (plain_term q.body.now))) }
    ensures none { IfNone result ((b : Term) → plain_term predicate.now ≡ abstraction (plain_type ty.now) b → ⊥) }
{
    match predicate {
        Tm::Lam(bound_ty, body) => {
            if ty.same(bound_ty) {
                Some(Quantified { ty, body })
            } else {
                None
            }
        }
        _ => None,
    }
}

/// The body of a universal formula.
pub fn universal_body(formula: &Tm) -> Option<Quantified<'_>>
    ensures some { IfSome result (λ q. plain_term formula.now ≡ universal (plain_type q.ty.now) (plain_term q.body.now)) }
    ensures none { IfNone result ((s : SimpleType) (b : Term) → plain_term formula.now ≡ universal s b → ⊥) }
{
    let Tm::App(function, predicate) = formula else {
        return None;
    };
    let Tm::Con(Con::All(ty)) = &**function else {
        return None;
    };
    body_over(ty, predicate)
}

/// The body of an existential formula.
pub fn existential_body(formula: &Tm) -> Option<Quantified<'_>>
    ensures some { IfSome result (λ q. plain_term formula.now ≡ existence (plain_type q.ty.now) (plain_term q.body.now)) }
    ensures none { IfNone result ((s : SimpleType) (b : Term) → plain_term formula.now ≡ existence s b → ⊥) }
{
    let Tm::App(function, predicate) = formula else {
        return None;
    };
    let Tm::Con(Con::Ex(ty)) = &**function else {
        return None;
    };
    body_over(ty, predicate)
}

/// Whether the formula is the implication of one formula by another.
fn is_implication(formula: &Tm, left: &Tm, right: &Tm) -> bool
    ensures { IsTrue result ↔ (plain_term formula.now ≡ implies (plain_term left.now) (plain_term right.now)) }
{
    let Tm::App(half, second) = formula else {
        return false;
    };
    let Tm::App(head, first) = &**half else {
        return false;
    };
    let Tm::Con(Con::Implies) = &**head else {
        return false;
    };
    same(first, left) && same(second, right)
}

/// Whether the formula is the instance of the body with the term.
fn is_instance(alloc: Global, body: &Tm, term: &Tm, formula: &Tm) -> Result<bool, AllocError>
    ensures { IfOk result (λ b. IsTrue b ↔ (plain_term formula.now ≡ instance_of (plain_term body.now) (plain_term term.now))) }
{
    let instance = instantiate(alloc, body, term)?;
    Ok(same(formula, &instance))
}

/// Whether the body is that of the abstraction of the formula over the variable: the variable isn't free in it, and its instance with
/// the variable is the formula.
fn is_body_over(
    alloc: Global,
    name: &Name,
    quantified: Quantified<'_>,
    formula: &Tm,
) -> Result<bool, AllocError>
    ensures { IfOk result (λ b. IsTrue b ↔ IsBodyOver name.now (plain_type quantified.entry.ty.now) (plain_term formula.now) (plain_term quantified.entry.body.now)) }
{
    let Quantified { ty, body } = quantified;
    if is_free(name, ty, body) {
        return Ok(false);
    }
    let variable = Tm::variable(alloc, name, ty)?;
    is_instance(alloc, body, &variable, formula)
}

/// Whether the term has the type.
pub fn has_type(alloc: Global, term: &Tm, ty: &Ty) -> Result<bool, AllocError>
    ensures { IfOk result (λ b. IsTrue b ↔ Typed [] (plain_term term.now) (plain_type ty.now)) }
{
    match type_of(alloc, term)? {
        Some(found) => Ok(found.same(ty)),
        None => Ok(false),
    }
}

/// Whether the formula is the instance of the body with the term, where the term has the quantifier's type.
fn is_typed_instance(
    alloc: Global,
    quantified: Quantified<'_>,
    term: &Tm,
    formula: &Tm,
) -> Result<bool, AllocError>
    ensures { IfOk result (λ b. IsTrue b ↔ (Typed [] (plain_term term.now) (plain_type quantified.entry.ty.now) → plain_term formula.now ≡ instance_of (plain_term quantified.entry.body.now) (plain_term term.now))) }
{
    let Quantified { ty, body } = quantified;
    if !has_type(alloc, term, ty)? {
        return Ok(true);
    }
    is_instance(alloc, body, term, formula)
}

/// DEDUCT: the line is the source, implied by the hypothesis.
fn is_deduction(outline: &Outline, line: &Line, source: u64, hyp: u64) -> bool
    ensures { IsTrue result ↔ HasShape outline.now (plain_line line.now) (deduction source hyp) }
{
    let Some(source) = line_at(outline, line, source) else {
        return false;
    };
    let Some(hyp) = line_at(outline, line, hyp) else {
        return false;
    };
    if !matches!(hyp.why, Why::Hyp) {
        return false;
    }
    is_implication(&line.formula, &hyp.formula, &source.formula)
}

/// UI: the line is the instance of a universal source.
fn is_universal_instance(
    alloc: Global,
    outline: &Outline,
    line: &Line,
    source: u64,
    term: &Tm,
) -> Result<bool, AllocError>
    ensures { IfOk result (λ b. IsTrue b ↔ HasShape outline.now (plain_line line.now) (universal_instance source (plain_term term.now))) }
{
    let Some(source) = line_at(outline, line, source) else {
        return Ok(false);
    };
    let Some(quantified) = universal_body(&source.formula) else {
        return Ok(false);
    };
    is_typed_instance(alloc, quantified, term, &line.formula)
}

/// UGEN: the line is universal over the variable in the source.
fn is_generalization(
    alloc: Global,
    outline: &Outline,
    line: &Line,
    source: u64,
    name: &Name,
) -> Result<bool, AllocError>
    ensures { IfOk result (λ b. IsTrue b ↔ HasShape outline.now (plain_line line.now) (generalization source name.now)) }
{
    let Some(source) = line_at(outline, line, source) else {
        return Ok(false);
    };
    let Some(quantified) = universal_body(&line.formula) else {
        return Ok(false);
    };
    is_body_over(alloc, name, quantified, &source.formula)
}

/// EGEN: the line is existential, and the source is its instance.
fn is_existential(
    alloc: Global,
    outline: &Outline,
    line: &Line,
    source: u64,
    term: &Tm,
) -> Result<bool, AllocError>
    ensures { IfOk result (λ b. IsTrue b ↔ HasShape outline.now (plain_line line.now) (existential source (plain_term term.now))) }
{
    let Some(source) = line_at(outline, line, source) else {
        return Ok(false);
    };
    let Some(quantified) = existential_body(&line.formula) else {
        return Ok(false);
    };
    is_typed_instance(alloc, quantified, term, &source.formula)
}

/// Whether the line is a hypothesis with the instance of the body with the variable.
fn is_chosen(
    alloc: Global,
    quantified: Quantified<'_>,
    name: &Name,
    hyp: &Line,
) -> Result<bool, AllocError>
    ensures { IfOk result (λ b. IsTrue b ↔ ((plain_why hyp.now.why ≡ hypothesis) × (plain_term hyp.now.formula ≡ instance_of (plain_term quantified.entry.body.now) (free name.now (plain_type quantified.entry.ty.now))))) }
{
    let Quantified { ty, body } = quantified;
    if !matches!(hyp.why, Why::Hyp) {
        return Ok(false);
    }
    let variable = Tm::variable(alloc, name, ty)?;
    is_instance(alloc, body, &variable, &hyp.formula)
}

/// RULEC: the line is the source, and the hypothesis is the instance of the existential line with the variable.
fn is_choice(
    alloc: Global,
    outline: &Outline,
    line: &Line,
    some_line: u64,
    hyp: u64,
    source: u64,
    name: &Name,
) -> Result<bool, AllocError>
    ensures { IfOk result (λ b. IsTrue b ↔ HasShape outline.now (plain_line line.now) (choice some_line hyp source name.now)) }
{
    let Some(some_line) = line_at(outline, line, some_line) else {
        return Ok(false);
    };
    let Some(hyp) = line_at(outline, line, hyp) else {
        return Ok(false);
    };
    let Some(source) = line_at(outline, line, source) else {
        return Ok(false);
    };
    let Some(quantified) = existential_body(&some_line.formula) else {
        return Ok(false);
    };
    if !same(&line.formula, &source.formula) {
        return Ok(false);
    }
    is_chosen(alloc, quantified, name, hyp)
}

/// Whether the line's formula is as its rule wants it.
pub fn has_shape(alloc: Global, outline: &Outline, line: &Line) -> Result<bool, AllocError>
    ensures { IfOk result (λ b. IsTrue b ↔ HasShape outline.now (plain_line line.now) (plain_why line.now.why)) }
{
    match &line.why {
        Why::Hyp | Why::Planned => Ok(true),
        Why::Lambda { src: _ } => Ok(true),
        Why::Rulep { src: _ } => Ok(true),
        Why::Deduct { src, hyp } => Ok(is_deduction(outline, line, *src, *hyp)),
        Why::Ui { src, term } => is_universal_instance(alloc, outline, line, *src, term),
        Why::Ugen { src, var } => is_generalization(alloc, outline, line, *src, var),
        Why::Egen { src, term } => is_existential(alloc, outline, line, *src, term),
        Why::Rulec {
            some_line,
            hyp,
            src,
            var,
        } => is_choice(alloc, outline, line, *some_line, *hyp, *src, var),
    }
}
