//! The types that stand in a term.

ghost use Rattle.std.specs.Prelude.{◌≡◌, IfOk, OnOk, map};
ghost use Rattle.std.specs.List.{list_any};
ghost use Rattle.hol_terms.specs.Computed.{same_type};
ghost use Rattle.hol_terms.specs.Terms.{plain_constant, plain_term, plain_type};
ghost use Rattle.expansion_tree.specs.Budgets.{parts_of_type, types_in, types_of_constant};
ghost use Rattle.term_lists.specs.Signatures.{first_types, with_type, with_types};

use hol_terms::lists::TyList;
use hol_terms::terms::{Con, Tm};
use hol_terms::types::Ty;
use std::alloc::{AllocError, Global};

/// Whether the type is one of the list.
fn is_among(types: &[Ty], ty: &Ty) -> bool
    ensures { result ≡ list_any (same_type (plain_type ty.now)) (map plain_type types.now) }
{
    for other in types {
        if ty.same(other) {
            return true;
        }
    }
    false
}

/// The type is added where it isn't in the list.
fn add_type(alloc: Global, types: &mut TyList, ty: &Ty) -> Result<(), AllocError>
    ensures { OnOk result (types.new ≡ with_type types.old (plain_type ty.now)) }
{
    if is_among(types.as_slice(), ty) {
        return Ok(());
    }
    types.push(ty.copy(alloc)?)
}

/// A type, and then the parts of its result and of its argument, are added.
#[tactic(auto, using(crate::proofs::TypeOrder::with_types_both))]
fn add_parts(alloc: Global, types: &mut TyList, ty: &Ty) -> Result<(), AllocError>
    ensures { OnOk result (types.new ≡ with_types types.old (parts_of_type (plain_type ty.now))) }
{
    add_type(alloc, types, ty)?;
    match ty {
        Ty::Base(_) => Ok(()),
        Ty::Fun(result_type, argument) => {
            add_parts(alloc, types, result_type)?;
            add_parts(alloc, types, argument)
        }
    }
}

/// The type of a quantifier and its parts are added.
fn add_types_of_constant(alloc: Global, types: &mut TyList, con: &Con) -> Result<(), AllocError>
    ensures { OnOk result (types.new ≡ with_types types.old (types_of_constant (plain_constant con.now))) }
{
    match con {
        Con::All(ty) => add_parts(alloc, types, ty),
        Con::Ex(ty) => add_parts(alloc, types, ty),
        _ => Ok(()),
    }
}

/// The types of a term are added: those at its free variables, quantifiers and abstractions in preorder, each with its parts.
#[tactic(auto, using(crate::proofs::TypeOrder::with_types_both))]
fn add_types(alloc: Global, types: &mut TyList, t: &Tm) -> Result<(), AllocError>
    ensures { OnOk result (types.new ≡ with_types types.old (types_in (plain_term t.now))) }
{
    match t {
        Tm::Free(_, ty) => add_parts(alloc, types, ty),
        Tm::Bound(_) => Ok(()),
        Tm::Con(con) => add_types_of_constant(alloc, types, con),
        Tm::App(function, argument) => {
            add_types(alloc, types, function)?;
            add_types(alloc, types, argument)
        }
        Tm::Lam(ty, body) => {
            add_parts(alloc, types, ty)?;
            add_types(alloc, types, body)
        }
    }
}

/// The types of a term, each once, in the order of first occurrence.
#[tactic(auto, using(crate::proofs::TypeOrder::with_types_from_none))]
pub(crate) fn types_of_term(alloc: Global, t: &Tm) -> Result<TyList, AllocError>
    ensures { IfOk result (λ types. types ≡ first_types (types_in (plain_term t.now))) }
{
    let mut types = TyList::new(alloc);
    add_types(alloc, &mut types, t)?;
    Ok(types)
}
