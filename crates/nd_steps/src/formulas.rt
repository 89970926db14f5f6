//! Formulas that the steps make, and parts of those that they read.

ghost use Rattle.std.specs.Prelude.{◌≡◌, IfOk};
ghost use Rattle.hol_terms.specs.Indices.{instance_of};
ghost use Rattle.hol_terms.specs.Terms.{SimpleType, Term, application, constant, falsehood as falsehood_constant, implication as implication_constant, plain_term};
ghost use Rattle.nd_rules.specs.Rules.{existence, implies, universal};
ghost use Rattle.nd_steps.specs.Premises.{not_so};

use hol_terms::indices::instantiate;
use hol_terms::terms::{Con, Tm, copy};
use nd_rules::shapes::{existential_body, universal_body};
use std::alloc::{AllocError, Global};

/// FALSEHOOD.
pub(crate) fn falsehood() -> Tm
    ensures { plain_term result ≡ constant falsehood_constant }
{
    Tm::Con(Con::Falsehood)
}

/// NOT A.
pub(crate) fn negation(alloc: Global, formula: Tm) -> Result<Tm, AllocError>
    ensures { IfOk result (λ t. plain_term t ≡ not_so (plain_term formula)) }
{
    Tm::app(alloc, Tm::Con(Con::Not), formula)
}

/// IMPLIES applied to a copy of A.
fn implication_from(alloc: Global, first: &Tm) -> Result<Tm, AllocError>
    ensures { IfOk result (λ t. plain_term t ≡ application (constant implication_constant) (plain_term first.now)) }
{
    let first = copy(alloc, first)?;
    Tm::app(alloc, Tm::Con(Con::Implies), first)
}

/// A IMPLIES B, with a copy of A.
pub(crate) fn implication(alloc: Global, first: &Tm, second: Tm) -> Result<Tm, AllocError>
    ensures { IfOk result (λ t. plain_term t ≡ implies (plain_term first.now) (plain_term second)) }
{
    let half = implication_from(alloc, first)?;
    Tm::app(alloc, half, second)
}

/// The A of NOT A.
pub(crate) fn negated(formula: &Tm) -> &Tm
    requires { (a : Term) × (plain_term formula.now ≡ not_so a) }
    ensures { plain_term formula.now ≡ not_so (plain_term result.now) }
{
    match formula {
        Tm::App(_, argument) => argument,
        _ => unreachable!(),
    }
}

/// The instance of a universal formula with the term.
pub(crate) fn universal_instance(alloc: Global, formula: &Tm, term: &Tm) -> Result<Tm, AllocError>
    requires { (s : SimpleType) × (b : Term) × (plain_term formula.now ≡ universal s b) }
    ensures { IfOk result (λ t. (s : SimpleType) (b : Term) → plain_term formula.now ≡ universal s b → plain_term t ≡ instance_of b (plain_term term.now)) }
{
    match universal_body(formula) {
        Some(quantified) => instantiate(alloc, quantified.body, term),
        None => unreachable!(),
    }
}

/// The instance of an existential formula with the term.
pub(crate) fn existential_instance(alloc: Global, formula: &Tm, term: &Tm) -> Result<Tm, AllocError>
    requires { (s : SimpleType) × (b : Term) × (plain_term formula.now ≡ existence s b) }
    ensures { IfOk result (λ t. (s : SimpleType) (b : Term) → plain_term formula.now ≡ existence s b → plain_term t ≡ instance_of b (plain_term term.now)) }
{
    match existential_body(formula) {
        Some(quantified) => instantiate(alloc, quantified.body, term),
        None => unreachable!(),
    }
}
