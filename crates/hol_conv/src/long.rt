//! Whether a term is long.

ghost use Rattle.std.specs.Prelude.{◌≡◌, ◌↔◌, [], IfOk, IsTrue, OnOk, option_map};
ghost use Rattle.hol_conv.specs.Conversion.{Long};
ghost use Rattle.hol_conv.specs.LongTests.{is_long, neutral_type};
ghost use Rattle.hol_terms.specs.Found.{found_type};
ghost use Rattle.hol_terms.specs.Terms.{SimpleType, plain_term, plain_type};
ghost use Rattle.hol_terms.specs.Typing.{Typed};

use hol_terms::scopes::Scope;
use hol_terms::terms::Tm;
use hol_terms::types::Ty;
use hol_terms::typing::{Found, type_of};
use std::alloc::{AllocError, Global};

/// The type of a neutral term, `None` for any other.
#[cycle(long)]
#[tactic(auto, using(crate::proofs::Longness::argument_right, crate::proofs::Longness::argument_wrong, crate::proofs::Longness::argument_at_letter))]
fn type_of_neutral<'a>(
    alloc: Global,
    scope: &mut Scope<'a>,
    t: &'a Tm,
) -> Result<Option<Found<'a>>, AllocError>
    ensures scope { OnOk result (scope.new ≡ scope.old) }
    ensures answer { IfOk result (λ found. option_map found_type found ≡ neutral_type scope.old (plain_term t.now)) }
{
    match t {
        Tm::Free(_, ty) => Ok(Some(Found::Lent(ty))),
        Tm::Bound(index) => match scope.at(*index) {
            None => Ok(None),
            Some(ty) => Ok(Some(Found::Lent(ty))),
        },
        Tm::Con(con) => Ok(Some(Found::Made(con.type_of(alloc)?))),
        Tm::App(function, argument) => match type_of_neutral(alloc, scope, function)? {
            None => Ok(None),
            Some(found) => match found.split() {
                None => Ok(None),
                Some(parts) => {
                    if is_long_at(alloc, scope, argument, parts.argument.ty())? {
                        Ok(Some(parts.result_type))
                    } else {
                        Ok(None)
                    }
                }
            },
        },
        Tm::Lam(_, _) => Ok(None),
    }
}

/// Whether the term is long of the type.
#[cycle(long)]
#[tactic(auto, using(crate::proofs::Longness::is_long_under, crate::proofs::Longness::is_long_at_other, crate::proofs::Longness::long_at_found, crate::proofs::Longness::long_at_other))]
fn is_long_at<'a>(
    alloc: Global,
    scope: &mut Scope<'a>,
    t: &'a Tm,
    ty: &Ty,
) -> Result<bool, AllocError>
    ensures scope { OnOk result (scope.new ≡ scope.old) }
    ensures answer { IfOk result (λ b. b ≡ is_long scope.old (plain_term t.now) (plain_type ty.now)) }
{
    match (t, ty) {
        (Tm::Lam(bound_ty, body), Ty::Fun(result_type, argument)) => {
            if bound_ty.same(argument) {
                scope.enter(bound_ty)?;
                let is_long = is_long_at(alloc, scope, body, result_type)?;
                scope.leave();
                Ok(is_long)
            } else {
                Ok(false)
            }
        }
        (Tm::Lam(_, _), Ty::Base(_)) => Ok(false),
        (_, Ty::Fun(_, _)) => Ok(false),
        (_, Ty::Base(_)) => match type_of_neutral(alloc, scope, t)? {
            None => Ok(false),
            Some(found) => Ok(found.ty().same(ty)),
        },
    }
}

/// Whether a typed term is its own long normal form: each head in it has all the arguments that its type asks for, and none is
/// an abstraction.
#[tactic(auto, using(crate::proofs::Longness::long_decided))]
pub fn is_long_normal(alloc: Global, t: &Tm) -> Result<bool, AllocError>
    requires { (q : SimpleType) × Typed [] (plain_term t.now) q }
    ensures { IfOk result (λ b. (q : SimpleType) → Typed [] (plain_term t.now) q → (IsTrue b ↔ Long [] (plain_term t.now) q)) }
{
    match type_of(alloc, t)? {
        None => Ok(false),
        Some(ty) => {
            let mut scope = Scope::new(alloc);
            is_long_at(alloc, &mut scope, t, &ty)
        }
    }
}
