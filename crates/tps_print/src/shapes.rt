//! How an application is printed.

ghost use Rattle.std.specs.Prelude.{◌≡◌, ◌+◌};
ghost use Rattle.hol_terms.specs.Terms.{application, constant, exists, forall, plain_term, plain_type};
ghost use Rattle.tps_print.specs.Shapes.{HasShape, HasSmallParts, node_count};

use hol_terms::terms::{Con, Tm};
use hol_terms::types::Ty;

/// How an application is printed: as a negation, as a quantifier with the type of its variable and its scope, as a connective with its
/// sides, or as a function and its argument.
#[derive(Clone, Copy)]
pub(crate) enum Shape<'a> {
    Negation(&'a Tm),
    Universal(&'a Ty, &'a Tm),
    Existential(&'a Ty, &'a Tm),
    Conjunction(&'a Tm, &'a Tm),
    Disjunction(&'a Tm, &'a Tm),
    Implication(&'a Tm, &'a Tm),
    Applied,
}

/// The shape of a universal quantifier on an argument.
fn shape_of_universal<'a>(ty: &Ty, argument: &'a Tm) -> Shape<'a>
    ensures shape { HasShape result (constant (forall (plain_type ty.now))) (plain_term argument.now) }
    ensures parts { HasSmallParts result (node_count (plain_term argument.now)) }
{
    match argument {
        Tm::Lam(bound_ty, body) => Shape::Universal(bound_ty, body),
        _ => Shape::Applied,
    }
}

/// The shape of an existential quantifier on an argument.
fn shape_of_existential<'a>(ty: &Ty, argument: &'a Tm) -> Shape<'a>
    ensures shape { HasShape result (constant (exists (plain_type ty.now))) (plain_term argument.now) }
    ensures parts { HasSmallParts result (node_count (plain_term argument.now)) }
{
    match argument {
        Tm::Lam(bound_ty, body) => Shape::Existential(bound_ty, body),
        _ => Shape::Applied,
    }
}

/// The shape of two terms after a third.
fn shape_of_pair<'a>(head: &Tm, first: &'a Tm, second: &'a Tm) -> Shape<'a>
    ensures shape { HasShape result (application (plain_term head.now) (plain_term first.now)) (plain_term second.now) }
    ensures parts { HasSmallParts result (node_count (plain_term first.now) + node_count (plain_term second.now) + 1) }
{
    match head {
        Tm::Con(Con::And) => Shape::Conjunction(first, second),
        Tm::Con(Con::Or) => Shape::Disjunction(first, second),
        Tm::Con(Con::Implies) => Shape::Implication(first, second),
        _ => Shape::Applied,
    }
}

/// The shape of an application.
pub(crate) fn shape_of<'a>(function: &'a Tm, argument: &'a Tm) -> Shape<'a>
    ensures shape { HasShape result (plain_term function.now) (plain_term argument.now) }
    ensures parts { HasSmallParts result (node_count (plain_term function.now) + node_count (plain_term argument.now)) }
{
    match function {
        Tm::Con(Con::Not) => Shape::Negation(argument),
        Tm::Con(Con::All(ty)) => shape_of_universal(ty, argument),
        Tm::Con(Con::Ex(ty)) => shape_of_existential(ty, argument),
        Tm::App(head, first) => shape_of_pair(head, first, argument),
        _ => Shape::Applied,
    }
}
