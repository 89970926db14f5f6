//! The variable of a rule that generalizes or chooses, and the lines in which it may not be free.

ghost use Rattle.std.specs.Prelude.{◌≡◌, ◌↔◌, ℕ, All, IfNone, IfOk, IfSome, IsTrue, List, MatchOption};
ghost use Rattle.hol_terms.specs.FreeVariables.{IsFree};
ghost use Rattle.hol_terms.specs.Terms.{SimpleType, plain_type};
ghost use Rattle.nd_rules.specs.Lines.{plain_line, plain_why};
ghost use Rattle.nd_rules.specs.Rules.{HasNewVariable, IsFirstFree, IsRuleVariable, barred as barred_by};
ghost use Rattle.nd_rules.specs.Variables.{IsFirstOf, IsFreeAt};

use crate::lines::{Line, Why};
use crate::naming::{line_at, with_more};
use crate::outlines::Outline;
use crate::shapes::{existential_body, universal_body};
use hol_terms::lists::Numbers;
use hol_terms::names::Name;
use hol_terms::types::Ty;
use hol_terms::variables::is_free;
use std::alloc::{AllocError, Global};

/// A variable that is lent.
#[derive(Clone, Copy)]
struct Lent<'a> {
    name: &'a Name,
    ty: &'a Ty,
}

/// The rule's variable, of the type of the quantifier, `None` exactly where the rule has none.
fn rule_variable<'a>(outline: &'a Outline, line: &'a Line) -> Option<Lent<'a>>
    ensures some { IfSome result (λ v. IsRuleVariable outline.now (plain_line line.now) (plain_why line.now.why) v.name.now (plain_type v.ty.now)) }
    ensures none { IfNone result ((a : List ℕ) (s : SimpleType) → IsRuleVariable outline.now (plain_line line.now) (plain_why line.now.why) a s → ⊥) }
{
    match &line.why {
        Why::Ugen { src: _, var } => match universal_body(&line.formula) {
            Some(quantified) => Some(Lent {
                name: var,
                ty: quantified.ty,
            }),
            None => None,
        },
        Why::Rulec {
            some_line,
            hyp: _,
            src: _,
            var,
        } => {
            let Some(some_line) = line_at(outline, line, *some_line) else {
                return None;
            };
            match existential_body(&some_line.formula) {
                Some(quantified) => Some(Lent {
                    name: var,
                    ty: quantified.ty,
                }),
                None => None,
            }
        }
        _ => None,
    }
}

/// The lines in which the rule's variable may not be free, in the order in which they are tried.
fn barred(alloc: Global, line: &Line) -> Result<Numbers, AllocError>
    ensures { IfOk result (λ numbers. numbers ≡ barred_by (plain_line line.now) (plain_why line.now.why)) }
{
    match &line.why {
        Why::Ugen { src: _, var: _ } => with_more(Numbers::new(alloc), line.hyps.as_slice()),
        Why::Rulec {
            some_line,
            hyp: _,
            src: _,
            var: _,
        } => {
            let mut numbers = Numbers::new(alloc);
            numbers.push(*some_line)?;
            numbers.push(line.number)?;
            with_more(numbers, line.hyps.as_slice())
        }
        _ => Ok(Numbers::new(alloc)),
    }
}

/// Whether the variable is free in the line of a number.
fn is_free_at(outline: &Outline, line: &Line, variable: Lent<'_>, number: u64) -> bool
    ensures { IsTrue result ↔ IsFreeAt outline.now (plain_line line.now) variable.entry.name.now (plain_type variable.entry.ty.now) number }
{
    match line_at(outline, line, number) {
        Some(found) => is_free(variable.name, variable.ty, &found.formula),
        None => false,
    }
}

/// The first of the lines of these numbers in which the variable is free.
fn first_free(outline: &Outline, line: &Line, variable: Lent<'_>, numbers: &[u64]) -> Option<u64>
    ensures none { IfNone result (All (λ n. IsFreeAt outline.now (plain_line line.now) variable.entry.name.now (plain_type variable.entry.ty.now) n → ⊥) numbers.now) }
    ensures some { IfSome result (λ k. IsFirstOf (IsFreeAt outline.now (plain_line line.now) variable.entry.name.now (plain_type variable.entry.ty.now)) numbers.now k) }
{
    for n in numbers {
        if is_free_at(outline, line, variable, *n) {
            return Some(*n);
        }
    }
    None
}

/// The first line in which the rule's variable is free though it may not be.
pub fn variable_fault(
    alloc: Global,
    outline: &Outline,
    line: &Line,
) -> Result<Option<u64>, AllocError>
    ensures { IfOk result (λ fault. MatchOption fault (HasNewVariable outline.now (plain_line line.now)) (IsFirstFree outline.now (plain_line line.now))) }
{
    let Some(variable) = rule_variable(outline, line) else {
        return Ok(None);
    };
    let numbers = barred(alloc, line)?;
    Ok(first_free(outline, line, variable, numbers.as_slice()))
}
