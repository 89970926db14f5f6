//! The type of a term.

ghost use Rattle.std.specs.Prelude.{◌≡◌, [], IfOk, MatchOption, OnOk, option_map};
ghost use Rattle.hol_terms.specs.Computed.{abstracted, is_found, type_in};
ghost use Rattle.hol_terms.specs.Found.{found_type, split_found};
ghost use Rattle.hol_terms.specs.Terms.{SimpleType, plain_constant, plain_term, plain_type};
ghost use Rattle.hol_terms.specs.Typing.{Typed, type_of_constant};

use crate::scopes::Scope;
use crate::terms::{Con, Tm};
use crate::types::Ty;
use std::alloc::{AllocError, Global};

impl Con {
    /// The type of the constant.
    pub fn type_of(&self, alloc: Global) -> Result<Ty, AllocError>
        ensures { IfOk result (λ ty. plain_type ty ≡ type_of_constant (plain_constant self.now)) }
    {
        match self {
            Con::Not => Ty::fun(alloc, Ty::truth(), Ty::truth()),
            Con::And | Con::Or | Con::Implies => {
                let of_second = Ty::fun(alloc, Ty::truth(), Ty::truth())?;
                Ty::fun(alloc, of_second, Ty::truth())
            }
            Con::Truth | Con::Falsehood => Ok(Ty::truth()),
            Con::All(ty) | Con::Ex(ty) => {
                let predicate = Ty::fun(alloc, Ty::truth(), ty.copy(alloc)?)?;
                Ty::fun(alloc, Ty::truth(), predicate)
            }
        }
    }
}

/// A type that stands in the term, or one that was made.
#[derive(Drop)]
pub enum Found<'a> {
    Lent(&'a Ty),
    Made(Ty),
}

impl<'a> Found<'a> {
    /// The type.
    pub fn ty(&self) -> &Ty
        ensures { plain_type result.now ≡ found_type self.now }
    {
        match self {
            Found::Lent(ty) => ty,
            Found::Made(ty) => ty,
        }
    }

    /// The type, copied where it was lent.
    pub fn into_type(self, alloc: Global) -> Result<Ty, AllocError>
        ensures { IfOk result (λ ty. plain_type ty ≡ found_type self.entry) }
    {
        match self {
            Found::Lent(ty) => ty.copy(alloc),
            Found::Made(ty) => Ok(ty),
        }
    }

    /// The type's result and argument, where it is a function type.
    pub fn split(self) -> Option<FoundFunction<'a>>
        ensures { split_found result (found_type self.entry) }
    {
        match self {
            Found::Lent(Ty::Fun(result_type, argument)) => Some(FoundFunction {
                result_type: Found::Lent(result_type),
                argument: Found::Lent(argument),
            }),
            Found::Made(Ty::Fun(result_type, argument)) => Some(FoundFunction {
                result_type: Found::Made(Box::into_inner(result_type)),
                argument: Found::Made(Box::into_inner(argument)),
            }),
            _ => None,
        }
    }
}

/// A function type's result and argument.
#[derive(Drop)]
pub struct FoundFunction<'a> {
    pub result_type: Found<'a>,
    pub argument: Found<'a>,
}

/// The type of an abstraction over a variable of the type, whose body has that type.
fn type_abstracted<'a>(
    alloc: Global,
    ty: &Ty,
    body: Option<Found<'a>>,
) -> Result<Option<Found<'a>>, AllocError>
    ensures { IfOk result (λ found. option_map found_type found ≡ abstracted (plain_type ty.now) (option_map found_type body.entry)) }
{
    match body {
        None => Ok(None),
        Some(result_type) => {
            let result_type = result_type.into_type(alloc)?;
            let argument = ty.copy(alloc)?;
            Ok(Some(Found::Made(Ty::fun(alloc, result_type, argument)?)))
        }
    }
}

/// Whether the term has the type, where its loose indices have the types of the scope.
#[cycle(typing)]
#[tactic(auto, using(crate::proofs::Same::found_abstracted, crate::proofs::Same::found_abstracted_over_other, crate::proofs::Same::found_abstracted_at_letter, crate::proofs::Same::found_here, crate::proofs::Same::found_other))]
fn has_type<'a>(
    alloc: Global,
    scope: &mut Scope<'a>,
    t: &'a Tm,
    wanted: &Ty,
) -> Result<bool, AllocError>
    ensures scope { OnOk result (scope.new ≡ scope.old) }
    ensures answer { IfOk result (λ b. b ≡ is_found (type_in scope.old (plain_term t.now)) (plain_type wanted.now)) }
{
    match (t, wanted) {
        (Tm::Lam(ty, body), Ty::Fun(result_type, argument)) => {
            if ty.same(argument) {
                scope.enter(ty)?;
                let is_typed = has_type(alloc, scope, body, result_type)?;
                scope.leave();
                Ok(is_typed)
            } else {
                Ok(false)
            }
        }
        (Tm::Lam(_, _), Ty::Base(_)) => Ok(false),
        _ => match type_found(alloc, scope, t)? {
            None => Ok(false),
            Some(found) => Ok(found.ty().same(wanted)),
        },
    }
}

/// The type of a term whose loose indices have the types of the scope.
#[cycle(typing)]
#[tactic(auto, using(crate::proofs::Same::applied_right, crate::proofs::Same::applied_wrong, crate::proofs::Same::applied_letter))]
fn type_found<'a>(
    alloc: Global,
    scope: &mut Scope<'a>,
    t: &'a Tm,
) -> Result<Option<Found<'a>>, AllocError>
    ensures scope { OnOk result (scope.new ≡ scope.old) }
    ensures answer { IfOk result (λ found. option_map found_type found ≡ type_in scope.old (plain_term t.now)) }
{
    match t {
        Tm::Free(_, ty) => Ok(Some(Found::Lent(ty))),
        Tm::Bound(index) => match scope.at(*index) {
            None => Ok(None),
            Some(ty) => Ok(Some(Found::Lent(ty))),
        },
        Tm::Con(con) => Ok(Some(Found::Made(con.type_of(alloc)?))),
        Tm::App(function, argument) => match type_found(alloc, scope, function)? {
            None => Ok(None),
            Some(found) => match found.split() {
                None => Ok(None),
                Some(parts) => {
                    if has_type(alloc, scope, argument, parts.argument.ty())? {
                        Ok(Some(parts.result_type))
                    } else {
                        Ok(None)
                    }
                }
            },
        },
        Tm::Lam(ty, body) => {
            scope.enter(ty)?;
            let found = type_found(alloc, scope, body)?;
            scope.leave();
            type_abstracted(alloc, ty, found)
        }
    }
}

/// The type of the term, `None` exactly where it has none or has a loose index.
#[tactic(auto, using(crate::proofs::Typings::typed_from, crate::proofs::Typings::typed_to))]
pub fn type_of(alloc: Global, t: &Tm) -> Result<Option<Ty>, AllocError>
    ensures { IfOk result (λ ty. MatchOption ty ((s : SimpleType) → Typed [] (plain_term t.now) s → ⊥) (λ s. Typed [] (plain_term t.now) (plain_type s))) }
{
    let mut scope = Scope::new(alloc);
    match type_found(alloc, &mut scope, t)? {
        None => Ok(None),
        Some(found) => Ok(Some(found.into_type(alloc)?)),
    }
}
