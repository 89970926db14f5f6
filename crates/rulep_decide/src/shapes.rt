//! The outermost connective of a formula.

ghost use Rattle.hol_terms.specs.Terms.{application, plain_term};
ghost use Rattle.rulep_decide.specs.Shapes.{HasShape};

use hol_terms::terms::{Con, Tm};

/// The outermost connective of a formula, with its parts.
#[derive(Clone, Copy)]
pub enum Shape<'a> {
    Negation(&'a Tm),
    Conjunction(&'a Tm, &'a Tm),
    Disjunction(&'a Tm, &'a Tm),
    Implication(&'a Tm, &'a Tm),
    Truth,
    Falsehood,
    Atom,
}

/// The shape of two formulas under what stands before them.
fn shape_of_pair<'a>(connective: &Tm, first: &'a Tm, second: &'a Tm) -> Shape<'a>
    ensures { HasShape result (application (application (plain_term connective.now) (plain_term first.now)) (plain_term second.now)) }
{
    match connective {
        Tm::Con(Con::And) => Shape::Conjunction(first, second),
        Tm::Con(Con::Or) => Shape::Disjunction(first, second),
        Tm::Con(Con::Implies) => Shape::Implication(first, second),
        _ => Shape::Atom,
    }
}

/// The shape of an application.
fn shape_of_application<'a>(function: &'a Tm, argument: &'a Tm) -> Shape<'a>
    ensures { HasShape result (application (plain_term function.now) (plain_term argument.now)) }
{
    match function {
        Tm::Con(Con::Not) => Shape::Negation(argument),
        Tm::App(connective, first) => shape_of_pair(connective, first, argument),
        _ => Shape::Atom,
    }
}

/// The shape of a formula.
pub fn shape_of(t: &Tm) -> Shape<'_>
    ensures { HasShape result (plain_term t.now) }
{
    match t {
        Tm::Con(Con::Truth) => Shape::Truth,
        Tm::Con(Con::Falsehood) => Shape::Falsehood,
        Tm::App(function, argument) => shape_of_application(function, argument),
        _ => Shape::Atom,
    }
}
