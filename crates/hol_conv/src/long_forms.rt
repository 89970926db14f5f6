//! The long form of a head with some of the arguments that its type asks for.

ghost use Rattle.std.specs.Prelude.{◌≡◌, IfOk};
ghost use Rattle.hol_conv.specs.LongForms.{filled_form, missing_arguments};
ghost use Rattle.hol_conv.specs.NormalForms.{long_form, long_head, type_after_argument};
ghost use Rattle.hol_terms.specs.Terms.{plain_term, plain_type};

use crate::arguments::Arguments;
use hol_terms::indices::{raised, raised_index};
use hol_terms::terms::Tm;
use hol_terms::types::Ty;
use std::alloc::{AllocError, Global};

/// The number of arguments that a head of the type asks for.
fn count_missing(ty: &Ty) -> Result<u64, AllocError>
    ensures { IfOk result (λ count. count ≡ missing_arguments (plain_type ty.now)) }
{
    let mut count = 0;
    let mut rest = ty;
    while let Ty::Fun(result_type, _) = rest {
        count = raised_index(count, 1)?;
        rest = result_type;
    }
    Ok(count)
}

/// The long form of a head, which has the type.
#[cycle(long_form)]
#[tactic(auto, using(crate::proofs::LongForms::long_form_filled))]
pub fn lengthened(alloc: Global, ty: &Ty, head: Tm) -> Result<Tm, AllocError>
    ensures { IfOk result (λ t. plain_term t ≡ long_form (plain_type ty.now) (plain_term head)) }
{
    match ty {
        Ty::Base(_) => Ok(head),
        Ty::Fun(_, _) => {
            let count = count_missing(ty)?;
            let raised_head = raised(alloc, count, 0, &head)?;
            filled(alloc, ty, count, raised_head)
        }
    }
}

/// The long form of a head, which was raised by the number of its missing arguments.
#[cycle(long_form)]
fn filled(alloc: Global, ty: &Ty, missing: u64, head: Tm) -> Result<Tm, AllocError>
    requires { missing ≡ missing_arguments (plain_type ty.now) }
    ensures { IfOk result (λ t. plain_term t ≡ filled_form (plain_type ty.now) (plain_term head)) }
{
    match ty {
        Ty::Base(_) => Ok(head),
        Ty::Fun(result_type, argument_type) => {
            let index = missing - 1;
            let argument = lengthened(alloc, argument_type, Tm::Bound(index))?;
            let head = Tm::app(alloc, head, argument)?;
            let body = filled(alloc, result_type, index, head)?;
            Tm::lam_over(alloc, argument_type, body)
        }
    }
}

/// The type of a head with one more argument; a letter asks for none.
fn after_argument(ty: &Ty) -> &Ty
    ensures { plain_type result.now ≡ type_after_argument (plain_type ty.now) }
{
    match ty {
        Ty::Base(_) => ty,
        Ty::Fun(result_type, _) => result_type,
    }
}

/// The long form of a head, which has the type, with long arguments.
#[inline(never)]
pub fn head_applied(
    alloc: Global,
    ty: &Ty,
    head: Tm,
    arguments: Arguments,
) -> Result<Tm, AllocError>
    ensures { IfOk result (λ t. plain_term t ≡ long_head (plain_type ty.now) (plain_term head) arguments) }
{
    let mut ty = ty;
    let mut head = head;
    let mut arguments = arguments;
    while let Some(argument) = arguments.take_first() {
        head = Tm::app(alloc, head, argument)?;
        ty = after_argument(ty);
    }
    lengthened(alloc, ty, head)
}
