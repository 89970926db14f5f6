//! Formulas in long normal form, taken apart at their heads.

ghost use Rattle.std.specs.Prelude.{◌≡◌, ◌↔◌, ◌∷◌, [], Bool, IfNone, IfOk, IfSome, IsTrue};
ghost use Rattle.hol_conv.specs.Conversion.{Long};
ghost use Rattle.hol_terms.specs.Indices.{instance_of};
ghost use Rattle.hol_terms.specs.Terms.{SimpleType, Term, free, plain_constant, plain_term, plain_type, truth_type};
ghost use Rattle.hol_terms.specs.Typing.{IsFormula, Typed};
ghost use Rattle.expansion_tree.specs.Standing.{IsNormalFormula, compound_of, connective, left_polarity as left_polarity_of, negation_of, quantified, selecting, truth_value};

use crate::trees::Op;
use hol_conv::long::is_long_normal;
use hol_conv::normal::normal;
use hol_terms::indices::instantiate;
use hol_terms::names::Name;
use hol_terms::terms::{Con, Tm};
use hol_terms::types::Ty;
use hol_terms::typing::type_of;
use std::alloc::{AllocError, Global};

/// The formula under a negation.
#[tactic(auto, using(crate::proofs::Formulas::formula_negated))]
pub fn negated(formula: Tm) -> Option<Tm>
    requires { IsFormula (plain_term formula) }
    ensures some { IfSome result (λ b. plain_term formula ≡ negation_of (plain_term b)) }
    ensures formula { IfSome result (λ b. IsFormula (plain_term b)) }
    ensures none { IfNone result ((b : Term) → plain_term formula ≡ negation_of b → ⊥) }
{
    match formula {
        Tm::App(function, b) => match Box::into_inner(function) {
            Tm::Con(Con::Not) => Some(Box::into_inner(b)),
            _ => None,
        },
        _ => None,
    }
}

/// Whether the constant is the connective.
fn is_connective(op: Op, con: &Con) -> bool
    ensures { IsTrue result ↔ (plain_constant con.now ≡ connective op) }
{
    match (op, con) {
        (Op::And, Con::And) => true,
        (Op::Or, Con::Or) => true,
        (Op::Imp, Con::Implies) => true,
        _ => false,
    }
}

/// The two sides of a compound of this connective.
#[tactic(auto, using(crate::proofs::Formulas::formula_left, crate::proofs::Formulas::formula_right))]
pub fn sides(op: Op, formula: Tm) -> Option<(Tm, Tm)>
    requires { IsFormula (plain_term formula) }
    ensures some { IfSome result (λ r. plain_term formula ≡ compound_of op (plain_term r.0) (plain_term r.1)) }
    ensures left { IfSome result (λ r. IsFormula (plain_term r.0)) }
    ensures right { IfSome result (λ r. IsFormula (plain_term r.1)) }
    ensures none { IfNone result ((b c : Term) → plain_term formula ≡ compound_of op b c → ⊥) }
{
    match formula {
        Tm::App(function, c) => match Box::into_inner(function) {
            Tm::App(head, b) => match Box::into_inner(head) {
                Tm::Con(con) => {
                    if is_connective(op, &con) {
                        Some((Box::into_inner(b), Box::into_inner(c)))
                    } else {
                        None
                    }
                }
                _ => None,
            },
            _ => None,
        },
        _ => None,
    }
}

/// The polarity of the left side of a compound.
pub fn left_polarity(op: Op, positive: bool) -> bool
    ensures { result ≡ left_polarity_of op positive }
{
    match op {
        Op::And | Op::Or => positive,
        Op::Imp => !positive,
    }
}

/// Which of TRUTH and FALSEHOOD the formula is.
pub fn truth_of(formula: Tm) -> Option<bool>
    ensures some { IfSome result (λ v. plain_term formula ≡ truth_value v) }
    ensures none { IfNone result ((v : Bool) → plain_term formula ≡ truth_value v → ⊥) }
{
    match formula {
        Tm::Con(Con::Truth) => Some(true),
        Tm::Con(Con::Falsehood) => Some(false),
        _ => None,
    }
}

/// The type over which the constant quantifies, where it is ALL if `universal`, and SOME if not.
fn quantifier_type(universal: bool, con: Con) -> Option<Ty>
    ensures some { IfSome result (λ ty. plain_constant con ≡ selecting universal (plain_type ty)) }
    ensures none { IfNone result ((ty : SimpleType) → plain_constant con ≡ selecting universal ty → ⊥) }
{
    match (universal, con) {
        (true, Con::All(ty)) => Some(ty),
        (false, Con::Ex(ty)) => Some(ty),
        _ => None,
    }
}

/// The type and the body of a formula that quantifies by ALL if `universal`, and by SOME if not.
#[tactic(auto, using(crate::proofs::Formulas::formula_quantified, crate::proofs::Formulas::quantified_body))]
pub fn quantified_body(universal: bool, formula: Tm) -> Option<(Ty, Tm)>
    requires { IsFormula (plain_term formula) }
    ensures some { IfSome result (λ r. plain_term formula ≡ quantified (selecting universal (plain_type r.0)) (plain_type r.0) (plain_term r.1)) }
    ensures body { IfSome result (λ r. Typed (plain_type r.0 ∷ []) (plain_term r.1) truth_type) }
    ensures none { IfNone result ((ty : SimpleType) (b : Term) → plain_term formula ≡ quantified (selecting universal ty) ty b → ⊥) }
{
    match formula {
        Tm::App(function, predicate) => {
            match (Box::into_inner(function), Box::into_inner(predicate)) {
                (Tm::Con(con), Tm::Lam(_, body)) => match quantifier_type(universal, con) {
                    Some(ty) => Some((ty, Box::into_inner(body))),
                    None => None,
                },
                _ => None,
            }
        }
        _ => None,
    }
}

/// The instance of a body with a free variable of its type.
#[inline(never)]
#[tactic(auto, using(crate::proofs::Formulas::variable_instance_formula))]
pub fn variable_instance(alloc: Global, name: &Name, ty: Ty, body: Tm) -> Result<Tm, AllocError>
    requires { Typed (plain_type ty ∷ []) (plain_term body) truth_type }
    ensures instance { IfOk result (λ a. plain_term a ≡ instance_of (plain_term body) (free name.now (plain_type ty))) }
    ensures formula { IfOk result (λ a. IsFormula (plain_term a)) }
{
    let variable = Tm::Free(name.copy(alloc)?, ty);
    instantiate(alloc, &body, &variable)
}

/// Whether the term is long of the type, without a loose index.
#[tactic(auto, using(crate::proofs::Formulas::long_of_other_type, crate::proofs::Formulas::long_without_type))]
fn is_long_of(alloc: Global, ty: &Ty, term: &Tm) -> Result<bool, AllocError>
    ensures { IfOk result (λ long. IsTrue long ↔ Long [] (plain_term term.now) (plain_type ty.now)) }
{
    match type_of(alloc, term)? {
        None => Ok(false),
        Some(found) => {
            if found.same(ty) {
                is_long_normal(alloc, term)
            } else {
                Ok(false)
            }
        }
    }
}

/// The long normal form of the instance of a body with a term, `None` exactly where the term isn't long of the type.
#[inline(never)]
#[tactic(auto, using(crate::proofs::Formulas::long_instance_formula, crate::proofs::Formulas::normal_formula))]
pub fn normal_instance(
    alloc: Global,
    ty: &Ty,
    body: &Tm,
    term: &Tm,
) -> Result<Option<Tm>, AllocError>
    requires { Typed (plain_type ty.now ∷ []) (plain_term body.now) truth_type }
    ensures long { IfOk result (λ instance. IfSome instance (λ a. Long [] (plain_term term.now) (plain_type ty.now))) }
    ensures normal { IfOk result (λ instance. IfSome instance (λ a. IsNormalFormula (plain_term a) (instance_of (plain_term body.now) (plain_term term.now)))) }
    ensures none { IfOk result (λ instance. IfNone instance (Long [] (plain_term term.now) (plain_type ty.now) → ⊥)) }
{
    if !is_long_of(alloc, ty, term)? {
        return Ok(None);
    }
    let instance = instantiate(alloc, body, term)?;
    Ok(Some(normal(alloc, &instance)?))
}
