//! Terms judged together with their forms: the first loose index, and the first application whose parts don't fit.

ghost use Rattle.std.specs.Prelude.{◌≡◌, ◌≢◌, ◌↔◌, [], IfErr, IfOk, IsTrue, Ok};
ghost use Rattle.hol_terms.specs.Terms.{SimpleType, function_type, plain_constant, plain_term, plain_type};
ghost use Rattle.hol_terms.specs.Typing.{Typed, type_of_constant};
ghost use Rattle.core_text.specs.Judged.{Answers, applied_at, judged_at, loose_index_at, typing_at, with_fault};
ghost use Rattle.core_text.specs.Known.{known_type};
ghost use Rattle.core_text.specs.Placed.{placed};

use crate::faults::TextFault;
use crate::sexps::Sexp;
use hol_terms::scopes::Scope;
use hol_terms::terms::{Con, Tm};
use hol_terms::types::Ty;
use std::alloc::{AllocError, Global};

/// The place of the first bound index with no more abstractions around it than its number.
fn loose_index(around: u64, t: &Tm, s: &Sexp) -> Result<Option<u64>, AllocError>
    ensures { IfOk result (λ place. place ≡ loose_index_at around (plain_term t.now) (placed s.now)) }
{
    match t {
        Tm::Free(_, _) => Ok(None),
        Tm::Bound(index) => {
            if *index < around {
                Ok(None)
            } else {
                Ok(Some(s.place()))
            }
        }
        Tm::Con(_) => Ok(None),
        Tm::App(function, argument) => match loose_index(around, function, s.second())? {
            Some(place) => Ok(Some(place)),
            None => loose_index(around, argument, s.third()),
        },
        Tm::Lam(_, body) => {
            let Some(more) = around.checked_add(1) else {
                return Err(AllocError);
            };
            loose_index(more, body, s.third())
        }
    }
}

/// The type of a part of a term. What stands in the term is lent.
#[derive(Drop)]
enum Known<'a> {
    Lent(&'a Ty),
    Made(Ty),
    Over(&'a Ty, Box<Known<'a>>),
}

impl<'a> Known<'a> {
    /// Whether it is this type.
    fn is(&self, ty: &Ty) -> bool
        ensures { IsTrue result ↔ (known_type self.now ≡ plain_type ty.now) }
    {
        match self {
            Known::Lent(own) => own.same(ty),
            Known::Made(own) => own.same(ty),
            Known::Over(argument, body) => match ty {
                Ty::Base(_) => false,
                Ty::Fun(result_type, wanted) => argument.same(wanted) && body.is(result_type),
            },
        }
    }

    /// The type as one of its own.
    fn own(&self, alloc: Global) -> Result<Ty, AllocError>
        ensures { IfOk result (λ ty. plain_type ty ≡ known_type self.now) }
    {
        match self {
            Known::Lent(ty) => ty.copy(alloc),
            Known::Made(ty) => ty.copy(alloc),
            Known::Over(argument, body) => {
                let result_type = body.own(alloc)?;
                let argument = argument.copy(alloc)?;
                Ty::fun(alloc, result_type, argument)
            }
        }
    }
}

/// The type of a function at an argument, where it takes one of that type.
#[tactic(auto, using(crate::proofs::Judgements::applied_same, crate::proofs::Judgements::applied_other))]
fn applied<'a>(
    function: Known<'a>,
    argument: &Known<'_>,
    place: u64,
) -> Result<Known<'a>, TextFault>
    ensures { Answers known_type result (with_fault (λ k. TextFault.IllTyped k) (applied_at (known_type function.entry) (known_type argument.now) place)) }
{
    match function {
        Known::Lent(ty) => match ty {
            Ty::Base(_) => Err(TextFault::IllTyped(place)),
            Ty::Fun(result_type, wanted) => {
                if argument.is(wanted) {
                    Ok(Known::Lent(&**result_type))
                } else {
                    Err(TextFault::IllTyped(place))
                }
            }
        },
        Known::Made(ty) => match ty {
            Ty::Base(_) => Err(TextFault::IllTyped(place)),
            Ty::Fun(result_type, wanted) => {
                if argument.is(&wanted) {
                    Ok(Known::Made(Box::into_inner(result_type)))
                } else {
                    Err(TextFault::IllTyped(place))
                }
            }
        },
        Known::Over(wanted, body) => {
            if argument.is(wanted) {
                Ok(Box::into_inner(body))
            } else {
                Err(TextFault::IllTyped(place))
            }
        }
    }
}

/// The type of a constant.
fn of_constant<'a>(alloc: Global, con: &Con) -> Result<Known<'a>, TextFault>
    ensures { Answers known_type result (Ok (type_of_constant (plain_constant con.now))) }
{
    Ok(Known::Made(con.type_of(alloc)?))
}

/// The type of an abstraction.
fn over<'a>(alloc: Global, ty: &'a Ty, result_type: Known<'a>) -> Result<Known<'a>, TextFault>
    ensures { Answers known_type result (Ok (function_type (known_type result_type.entry) (plain_type ty.now))) }
{
    Ok(Known::Over(ty, Box::new(alloc, result_type)?))
}

/// The type of a part of a term.
fn typing<'a>(
    alloc: Global,
    scope: &mut Scope<'a>,
    t: &'a Tm,
    s: &Sexp,
) -> Result<Known<'a>, TextFault>
    ensures answer { Answers known_type result (with_fault (λ k. TextFault.IllTyped k) (typing_at scope.old (plain_term t.now) (placed s.now))) }
    ensures scope { IfOk result (λ _. scope.new ≡ scope.old) }
{
    match t {
        Tm::Free(_, ty) => Ok(Known::Lent(ty)),
        Tm::Bound(index) => match scope.at(*index) {
            Some(ty) => Ok(Known::Lent(ty)),
            None => Err(TextFault::IllTyped(s.place())),
        },
        Tm::Con(con) => of_constant(alloc, con),
        Tm::App(function, argument) => {
            let function = typing(alloc, scope, function, s.second())?;
            let argument = typing(alloc, scope, argument, s.third())?;
            applied(function, &argument, s.place())
        }
        Tm::Lam(ty, body) => {
            scope.enter(ty)?;
            let result_type = typing(alloc, scope, body, s.third())?;
            scope.leave();
            over(alloc, ty, result_type)
        }
    }
}

/// The type of a term of no abstraction's scope.
fn typing_alone<'a>(alloc: Global, t: &'a Tm, s: &Sexp) -> Result<Known<'a>, TextFault>
    ensures { Answers known_type result (with_fault (λ k. TextFault.IllTyped k) (typing_at [] (plain_term t.now) (placed s.now))) }
{
    let mut scope = Scope::new(alloc);
    typing(alloc, &mut scope, t, s)
}

/// The type of a term, or its first fault.
fn judged(alloc: Global, t: &Tm, s: &Sexp) -> Result<Ty, TextFault>
    ensures { Answers plain_type result (judged_at (plain_term t.now) (placed s.now)) }
{
    if let Some(place) = loose_index(0, t, s)? {
        return Err(TextFault::LooseIndex(place));
    }
    let ty = typing_alone(alloc, t, s)?;
    Ok(ty.own(alloc)?)
}

/// The type of a term that a form gave. `LooseIndex` has the place of the first bound index with no more abstractions of the term
/// around it than its number; where there is none, `IllTyped` has the place of the application that fails first, parts before
/// wholes and left before right.
pub fn judge(alloc: Global, t: &Tm, s: &Sexp) -> Result<Ty, TextFault>
    ensures answer { Answers plain_type result (judged_at (plain_term t.now) (placed s.now)) }
    ensures typed { IfOk result (λ ty. Typed [] (plain_term t.now) (plain_type ty)) }
    ensures untyped { IfErr result (λ e. e ≢ TextFault.Memory → (ty : SimpleType) → Typed [] (plain_term t.now) ty → ⊥) }
{
    judged(alloc, t, s)
}
