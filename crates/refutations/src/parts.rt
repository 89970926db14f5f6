//! What lines say, and parts of it.

ghost use Rattle.std.specs.Prelude.{◌≡◌, Bool, IfOk};
ghost use Rattle.hol_terms.specs.Indices.{instance_of};
ghost use Rattle.hol_terms.specs.Terms.{SimpleType, Term, free, plain_term, plain_type};
ghost use Rattle.hol_terms.specs.Typing.{IsFormula};
ghost use Rattle.expansion_tree.specs.Standing.{compound_of, negation_of, quantified, selecting, truth_value};
ghost use Rattle.refutations.specs.Opens.{Says, said as plain_said};

use expansion_tree::trees::Op;
use hol_terms::indices::instantiate;
use hol_terms::names::Name;
use hol_terms::terms::{Con, Tm, copy};
use nd_rules::shapes::{Quantified, existential_body, universal_body};
use nd_steps::deductions::Deduction;
use std::alloc::{AllocError, Global};

/// That a formula is false, if `positive`, and else that it is true.
pub fn said(alloc: Global, positive: bool, formula: &Tm) -> Result<Tm, AllocError>
    ensures { IfOk result (λ t. plain_term t ≡ plain_said positive (plain_term formula.now)) }
{
    let formula = copy(alloc, formula)?;
    if positive {
        Tm::app(alloc, Tm::Con(Con::Not), formula)
    } else {
        Ok(formula)
    }
}

/// The A of NOT A.
pub fn negated(formula: &Tm) -> &Tm
    requires { (a : Term) × (plain_term formula.now ≡ negation_of a) }
    ensures { plain_term formula.now ≡ negation_of (plain_term result.now) }
{
    match formula {
        Tm::App(_, argument) => argument,
        _ => unreachable!(),
    }
}

/// The formula of which the line says that it is false, if `positive`, and else that it is true.
pub fn formula_of(deduction: &Deduction, line: u64, positive: bool) -> &Tm
    requires { (a : Term) × Says deduction.now line (plain_said positive a) }
    ensures { Says deduction.now line (plain_said positive (plain_term result.now)) }
{
    let formula = deduction.formula(line);
    if positive { negated(formula) } else { formula }
}

/// The two sides of a compound.
pub fn sides_of(formula: &Tm) -> (&Tm, &Tm)
    requires { (op : Op) × (b : Term) × (c : Term) × (plain_term formula.now ≡ compound_of op b c) }
    ensures { (op : Op) (b c : Term) → plain_term formula.now ≡ compound_of op b c → plain_term formula.now ≡ compound_of op (plain_term result.0.now) (plain_term result.1.now) }
{
    match formula {
        Tm::App(function, right) => match &**function {
            Tm::App(_, left) => (left, right),
            _ => unreachable!(),
        },
        _ => unreachable!(),
    }
}

/// Whether a constant is TRUTH, and not FALSEHOOD.
pub fn is_truth(formula: &Tm) -> bool
    requires { (v : Bool) × (plain_term formula.now ≡ truth_value v) }
    ensures { plain_term formula.now ≡ truth_value result }
{
    matches!(formula, Tm::Con(Con::Truth))
}

/// The quantified body of a formula that quantifies by ALL if `universal`, and by SOME if not.
fn body_of(universal: bool, formula: &Tm) -> Quantified<'_>
    requires { (ty : SimpleType) × (b : Term) × (plain_term formula.now ≡ quantified (selecting universal ty) ty b) }
    ensures { (ty : SimpleType) (b : Term) → plain_term formula.now ≡ quantified (selecting universal ty) ty b → (plain_type result.ty.now ≡ ty) × (plain_term result.body.now ≡ b) }
{
    let found = if universal {
        universal_body(formula)
    } else {
        existential_body(formula)
    };
    match found {
        Some(quantified) => quantified,
        None => unreachable!(),
    }
}

/// The instance of a formula's body with the variable of that name; the formula quantifies by ALL if `universal`, and by SOME if not.
pub fn instance_with(
    alloc: Global,
    universal: bool,
    formula: &Tm,
    name: &Name,
) -> Result<Tm, AllocError>
    requires { (ty : SimpleType) × (b : Term) × (plain_term formula.now ≡ quantified (selecting universal ty) ty b) }
    ensures { IfOk result (λ t. (ty : SimpleType) (b : Term) → plain_term formula.now ≡ quantified (selecting universal ty) ty b → plain_term t ≡ instance_of b (free name.now ty)) }
{
    let quantified = body_of(universal, formula);
    let variable = Tm::variable(alloc, name, quantified.ty)?;
    instantiate(alloc, quantified.body, &variable)
}

/// The instance of a formula's body with the term; the formula quantifies by ALL if `universal`, and by SOME if not.
pub fn instance_of_body(
    alloc: Global,
    universal: bool,
    formula: &Tm,
    term: &Tm,
) -> Result<Tm, AllocError>
    requires { (ty : SimpleType) × (b : Term) × (plain_term formula.now ≡ quantified (selecting universal ty) ty b) }
    ensures { IfOk result (λ t. (ty : SimpleType) (b : Term) → plain_term formula.now ≡ quantified (selecting universal ty) ty b → plain_term t ≡ instance_of b (plain_term term.now)) }
{
    let quantified = body_of(universal, formula);
    instantiate(alloc, quantified.body, term)
}
