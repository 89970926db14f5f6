//! The parts of which long terms are made.

ghost use Rattle.std.specs.Prelude.{◌≡◌, ◌↔◌, ◌≤◌, ◌++◌, ◌∷◌, ◌==◌, [], IfOk, IsTrue, OnOk, if◌then◌else◌, map};
ghost use Rattle.hol_conv.specs.LongForms.{missing_arguments};
ghost use Rattle.hol_terms.specs.Splits.{letter_of};
ghost use Rattle.hol_terms.specs.Terms.{application, plain_term, plain_type};
ghost use Rattle.term_lists.specs.Spines.{CanWeigh, abstraction_over, applications_of, types_above, types_below};

use hol_terms::letters::Letter;
use hol_terms::scopes::Scope;
use hol_terms::terms::{Tm, copy};
use hol_terms::types::Ty;
use std::alloc::{AllocError, Global};

/// The scope enters an abstraction over each argument of the type; answers the letter that is left.
pub(crate) fn enter_arguments<'a>(scope: &mut Scope<'a>, ty: &'a Ty) -> Result<Letter, AllocError>
    ensures scope { OnOk result (scope.new ≡ types_below (plain_type ty.now) scope.old) }
    ensures letter { IfOk result (λ letter. letter.byte ≡ letter_of (plain_type ty.now)) }
{
    match ty {
        Ty::Base(letter) => Ok(*letter),
        Ty::Fun(result_type, argument) => {
            scope.enter(argument)?;
            enter_arguments(scope, result_type)
        }
    }
}

/// The scope leaves these abstractions.
pub(crate) fn leave_arguments(scope: &mut Scope<'_>, ty: &Ty)
    ensures { scope.new ≡ types_above (plain_type ty.now) scope.old }
{
    match ty {
        Ty::Base(_) => {}
        Ty::Fun(result_type, _) => {
            leave_arguments(scope, result_type);
            scope.leave();
        }
    }
}

/// The abstraction of a body over each argument of the type.
fn abstracted(alloc: Global, ty: &Ty, body: Tm) -> Result<Tm, AllocError>
    ensures { IfOk result (λ t. plain_term t ≡ abstraction_over (plain_type ty.now) (plain_term body)) }
{
    match ty {
        Ty::Base(_) => Ok(body),
        Ty::Fun(result_type, argument) => {
            let inner = abstracted(alloc, result_type, body)?;
            Tm::lam_over(alloc, argument, inner)
        }
    }
}

/// The same of each body.
pub(crate) fn all_abstracted(alloc: Global, ty: &Ty, bodies: Vec<Tm>) -> Result<Vec<Tm>, AllocError>
    ensures { IfOk result (λ terms. map plain_term terms.items ≡ map (abstraction_over (plain_type ty.now)) (map plain_term bodies.items)) }
{
    let mut terms = Vec::new(alloc);
    for body in bodies {
        terms.push(abstracted(alloc, ty, body)?)?;
    }
    Ok(terms)
}

/// The function applied to each of the arguments, after the given terms.
fn add_applications(
    alloc: Global,
    function: &Tm,
    arguments: &[Tm],
    terms: &mut Vec<Tm>,
) -> Result<(), AllocError>
    ensures { OnOk result (map plain_term terms.new.items ≡ map plain_term terms.old.items ++ map (application (plain_term function.now)) (map plain_term arguments.now)) }
{
    for argument in arguments {
        let function = copy(alloc, function)?;
        let argument = copy(alloc, argument)?;
        terms.push(Tm::app(alloc, function, argument)?)?;
    }
    Ok(())
}

/// Each of the functions applied to each of the arguments.
pub(crate) fn applications(
    alloc: Global,
    functions: &[Tm],
    arguments: &[Tm],
) -> Result<Vec<Tm>, AllocError>
    ensures { IfOk result (λ terms. map plain_term terms.items ≡ applications_of (map plain_term functions.now) (map plain_term arguments.now)) }
{
    let mut terms = Vec::new(alloc);
    for function in functions {
        add_applications(alloc, function, arguments, &mut terms)?;
    }
    Ok(terms)
}

/// The list of this one term.
pub(crate) fn alone(alloc: Global, t: Tm) -> Result<Vec<Tm>, AllocError>
    ensures { IfOk result (λ terms. map plain_term terms.items ≡ plain_term t ∷ []) }
{
    let mut terms = Vec::new(alloc);
    terms.push(t)?;
    Ok(terms)
}

/// The functions are added to the terms where no weight is left.
pub(crate) fn add_where_none_left(
    left: u64,
    mut functions: Vec<Tm>,
    terms: &mut Vec<Tm>,
) -> Result<(), AllocError>
    ensures { OnOk result (map plain_term terms.new.items ≡ (if left == 0 then map plain_term terms.old.items ++ map plain_term functions.items else map plain_term terms.old.items)) }
{
    if left == 0 {
        terms.append(&mut functions)?;
    }
    Ok(())
}

/// Whether a number is at least that of the arguments that the type asks for.
fn is_enough(ty: &Ty, number: u64) -> bool
    ensures { IsTrue result ↔ missing_arguments (plain_type ty.now) ≤ number }
{
    match ty {
        Ty::Base(_) => true,
        Ty::Fun(result_type, _) => match number.checked_sub(1) {
            None => false,
            Some(rest) => is_enough(result_type, rest),
        },
    }
}

/// Whether arguments for all that the type asks for can have the weight together: there are none and it is nothing, or it is at
/// least one for each.
pub(crate) fn can_weigh(ty: &Ty, weight: u64) -> bool
    ensures { IsTrue result ↔ CanWeigh (plain_type ty.now) weight }
{
    match ty {
        Ty::Base(_) => weight == 0,
        Ty::Fun(_, _) => is_enough(ty, weight),
    }
}

/// The letter that is left of the type once all arguments are given.
fn last_letter(ty: &Ty) -> Letter
    ensures { result.byte ≡ letter_of (plain_type ty.now) }
{
    match ty {
        Ty::Base(letter) => *letter,
        Ty::Fun(result_type, _) => last_letter(result_type),
    }
}

/// Whether the type ends in the letter.
pub(crate) fn ends_in(ty: &Ty, letter: Letter) -> bool
    ensures { IsTrue result ↔ (letter_of (plain_type ty.now) ≡ letter.byte) }
{
    last_letter(ty).byte() == letter.byte()
}
