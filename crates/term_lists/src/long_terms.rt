//! All long terms of one type and weight over given heads.

ghost use Rattle.std.specs.Prelude.{◌≡◌, ◌+◌, ◌++◌, ◌≤◌, [], IfOk, OnOk, map};
ghost use Rattle.hol_terms.specs.Terms.{base_type, bound, function_type, plain_term, plain_type};
ghost use Rattle.term_lists.specs.Heads.{head_term, head_type, plain_head};
ghost use Rattle.term_lists.specs.LongTerms.{AreLongTerms};
ghost use Rattle.term_lists.specs.Spines.{IsExtendedBy, IsFrom, IsFromHeads, IsFromIndex, IsOneApplied, IsOneWithArgument};

use crate::heads::Head;
use crate::spines::{
    add_where_none_left, all_abstracted, alone, applications, can_weigh, ends_in, enter_arguments,
    leave_arguments,
};
use crate::typed_heads::{TypedHead, add_typed};
use hol_terms::indices::raised_index;
use hol_terms::letters::Letter;
use hol_terms::scopes::Scope;
use hol_terms::terms::Tm;
use hol_terms::types::Ty;
use std::alloc::{AllocError, Global};

/// The long terms of the type and the weight over the heads, whose loose indices have the types of the scope.
#[cycle(list)]
fn terms_of_type<'a, 'h>(
    alloc: Global,
    heads: &'a [TypedHead<'h>],
    scope: &mut Scope<'a>,
    ty: &'a Ty,
    weight: u64,
) -> Result<Vec<Tm>, AllocError>
    ensures scope { OnOk result (scope.new ≡ scope.old) }
    ensures terms { IfOk result (λ terms. AreLongTerms scope.old heads.now (plain_type ty.now) weight (map plain_term terms.items)) }
{
    let letter = enter_arguments(scope, ty)?;
    let bodies = terms_of_letter(alloc, heads, scope, letter, weight)?;
    leave_arguments(scope, ty);
    all_abstracted(alloc, ty, bodies)
}

/// Those of a base letter: a head with its arguments.
#[cycle(list)]
fn terms_of_letter<'a, 'h>(
    alloc: Global,
    heads: &'a [TypedHead<'h>],
    scope: &mut Scope<'a>,
    letter: Letter,
    weight: u64,
) -> Result<Vec<Tm>, AllocError>
    ensures scope { OnOk result (scope.new ≡ scope.old) }
    ensures terms { IfOk result (λ terms. AreLongTerms scope.old heads.now (base_type letter.byte) weight (map plain_term terms.items)) }
{
    let mut terms = Vec::new(alloc);
    if weight == 0 {
        return Ok(terms);
    }
    add_from_heads(alloc, heads, scope, letter, weight - 1, &mut terms)?;
    add_from_indices(alloc, heads, scope, letter, weight - 1, &mut terms)?;
    Ok(terms)
}

/// Those whose head is one of the given ones; `left` is the weight of the arguments.
#[cycle(list)]
fn add_from_heads<'a, 'h>(
    alloc: Global,
    heads: &'a [TypedHead<'h>],
    scope: &mut Scope<'a>,
    letter: Letter,
    left: u64,
    terms: &mut Vec<Tm>,
) -> Result<(), AllocError>
    ensures scope { OnOk result (scope.new ≡ scope.old) }
    ensures terms { OnOk result (IsExtendedBy (map plain_term terms.old.items) (map plain_term terms.new.items) (IsFromHeads scope.old heads.now letter.byte left heads.now)) }
{
    for head in heads {
        add_from_head(alloc, heads, &mut *scope, head, letter, left, &mut *terms)?;
    }
    Ok(())
}

/// Those with this head.
#[cycle(list)]
fn add_from_head<'a, 'h>(
    alloc: Global,
    heads: &'a [TypedHead<'h>],
    scope: &mut Scope<'a>,
    head: &'a TypedHead<'h>,
    letter: Letter,
    left: u64,
    terms: &mut Vec<Tm>,
) -> Result<(), AllocError>
    ensures scope { OnOk result (scope.new ≡ scope.old) }
    ensures terms { OnOk result (IsExtendedBy (map plain_term terms.old.items) (map plain_term terms.new.items) (IsFrom scope.old heads.now letter.byte left (head_type head.now) (head_term head.now))) }
{
    let ty = head.ty();
    if !ends_in(ty, letter) {
        return Ok(());
    }
    if !can_weigh(ty, left) {
        return Ok(());
    }
    let functions = alone(alloc, head.term(alloc)?)?;
    add_applied(alloc, heads, scope, functions, ty, left, terms)
}

/// Those whose head is a bound index.
#[cycle(list)]
fn add_from_indices<'a, 'h>(
    alloc: Global,
    heads: &'a [TypedHead<'h>],
    scope: &mut Scope<'a>,
    letter: Letter,
    left: u64,
    terms: &mut Vec<Tm>,
) -> Result<(), AllocError>
    ensures scope { OnOk result (scope.new ≡ scope.old) }
    ensures terms { OnOk result (IsExtendedBy (map plain_term terms.old.items) (map plain_term terms.new.items) (IsFromIndex scope.old heads.now letter.byte left)) }
{
    let mut index = 0;
    while let Some(ty) = scope.at(index) {
        add_from_index(
            alloc,
            heads,
            &mut *scope,
            index,
            ty,
            letter,
            left,
            &mut *terms,
        )?;
        index = raised_index(index, 1)?;
    }
    Ok(())
}

/// Those with this index, which has the type.
#[cycle(list)]
fn add_from_index<'a, 'h>(
    alloc: Global,
    heads: &'a [TypedHead<'h>],
    scope: &mut Scope<'a>,
    index: u64,
    ty: &'a Ty,
    letter: Letter,
    left: u64,
    terms: &mut Vec<Tm>,
) -> Result<(), AllocError>
    ensures scope { OnOk result (scope.new ≡ scope.old) }
    ensures terms { OnOk result (IsExtendedBy (map plain_term terms.old.items) (map plain_term terms.new.items) (IsFrom scope.old heads.now letter.byte left (plain_type ty.now) (bound index))) }
{
    if !ends_in(ty, letter) {
        return Ok(());
    }
    if !can_weigh(ty, left) {
        return Ok(());
    }
    let functions = alone(alloc, Tm::Bound(index))?;
    add_applied(alloc, heads, scope, functions, ty, left, terms)
}

/// Each of the functions, which have the type, with its arguments of that weight.
#[cycle(list)]
fn add_applied<'a, 'h>(
    alloc: Global,
    heads: &'a [TypedHead<'h>],
    scope: &mut Scope<'a>,
    functions: Vec<Tm>,
    ty: &'a Ty,
    left: u64,
    terms: &mut Vec<Tm>,
) -> Result<(), AllocError>
    ensures scope { OnOk result (scope.new ≡ scope.old) }
    ensures terms { OnOk result (IsExtendedBy (map plain_term terms.old.items) (map plain_term terms.new.items) (IsOneApplied scope.old heads.now (plain_type ty.now) left (map plain_term functions.items))) }
{
    match ty {
        Ty::Base(_) => add_where_none_left(left, functions, terms),
        Ty::Fun(result_type, argument) => {
            add_with_arguments(
                alloc,
                heads,
                scope,
                &functions,
                result_type,
                argument,
                left,
                terms,
            )
        }
    }
}

/// Each of the functions with a first argument of the given type and then those that `result_type` asks for.
#[cycle(list)]
fn add_with_arguments<'a, 'h>(
    alloc: Global,
    heads: &'a [TypedHead<'h>],
    scope: &mut Scope<'a>,
    functions: &[Tm],
    result_type: &'a Ty,
    argument: &'a Ty,
    left: u64,
    terms: &mut Vec<Tm>,
) -> Result<(), AllocError>
    ensures scope { OnOk result (scope.new ≡ scope.old) }
    ensures terms { OnOk result (IsExtendedBy (map plain_term terms.old.items) (map plain_term terms.new.items) (IsOneApplied scope.old heads.now (function_type (plain_type result_type.now) (plain_type argument.now)) left (map plain_term functions.now))) }
{
    for rest in 0..left {
        add_with_argument(
            alloc,
            heads,
            &mut *scope,
            functions,
            result_type,
            argument,
            left - rest,
            rest,
            &mut *terms,
        )?;
    }
    Ok(())
}

/// Those whose first argument has the weight; `rest` is that of the others.
#[cycle(list)]
fn add_with_argument<'a, 'h>(
    alloc: Global,
    heads: &'a [TypedHead<'h>],
    scope: &mut Scope<'a>,
    functions: &[Tm],
    result_type: &'a Ty,
    argument: &'a Ty,
    weight: u64,
    rest: u64,
    terms: &mut Vec<Tm>,
) -> Result<(), AllocError>
    requires { 1 ≤ weight }
    ensures scope { OnOk result (scope.new ≡ scope.old) }
    ensures terms { OnOk result (IsExtendedBy (map plain_term terms.old.items) (map plain_term terms.new.items) (IsOneWithArgument scope.old heads.now (plain_type result_type.now) (plain_type argument.now) weight rest (map plain_term functions.now))) }
{
    if !can_weigh(result_type, rest) {
        return Ok(());
    }
    let arguments = terms_of_type(alloc, heads, scope, argument, weight)?;
    if arguments.is_empty() {
        return Ok(());
    }
    let functions = applications(alloc, functions, &arguments)?;
    add_applied(alloc, heads, scope, functions, result_type, rest, terms)
}

/// The long terms of the type and the weight over the heads, without a loose index.
fn terms_over<'a, 'h>(
    alloc: Global,
    heads: &'a [TypedHead<'h>],
    ty: &'a Ty,
    weight: u64,
) -> Result<Vec<Tm>, AllocError>
    ensures { IfOk result (λ terms. AreLongTerms [] heads.now (plain_type ty.now) weight (map plain_term terms.items)) }
{
    let mut scope = Scope::new(alloc);
    terms_of_type(alloc, heads, &mut scope, ty, weight)
}

/// The long terms of a type, without a loose index, that have exactly the weight: the number of heads, each occurrence counted. Each
/// head is one of the signature, one of the selected heads, or bound. There is none of weight 0.
pub fn long_terms<'h>(
    alloc: Global,
    signature: &'h [Head],
    selected: &'h [Head],
    ty: &'h Ty,
    weight: u64,
) -> Result<Vec<Tm>, AllocError>
    ensures { IfOk result (λ terms. AreLongTerms [] (map plain_head signature.now ++ map plain_head selected.now) (plain_type ty.now) weight (map plain_term terms.items)) }
{
    let mut heads = Vec::new(alloc);
    add_typed(alloc, signature, &mut heads)?;
    add_typed(alloc, selected, &mut heads)?;
    terms_over(alloc, &heads, &*ty, weight)
}
