//! The long normal form of a term, and conversion.

ghost use Rattle.std.specs.Prelude.{◌≡◌, ◌↔◌, [], IfOk, IsTrue, OnOk};
ghost use Rattle.hol_conv.specs.Conversion.{Conv, IsNormalOf};
ghost use Rattle.hol_conv.specs.NormalForms.{apply_abstraction, apply_abstractions, apply_all, apply_long, hereditary, long_head, normal_form, normal_with, put_long, put_long_index, type_of_index};
ghost use Rattle.hol_terms.specs.Terms.{SimpleType, abstraction, bound, constant, free, plain_constant, plain_term, plain_type};
ghost use Rattle.hol_terms.specs.Typing.{Typed, type_of_constant};

use crate::arguments::{Arguments, applied};
use crate::long_forms::head_applied;
use hol_terms::indices::{raised, raised_index};
use hol_terms::names::Name;
use hol_terms::scopes::Scope;
use hol_terms::terms::{Con, Tm, copy, same};
use hol_terms::types::Ty;
use std::alloc::{AllocError, Global};

/// An equal term applied to all the arguments.
#[inline(never)]
fn copy_applied(alloc: Global, t: &Tm, arguments: Arguments) -> Result<Tm, AllocError>
    ensures { IfOk result (λ r. plain_term r ≡ apply_all (plain_term t.now) arguments) }
{
    let head = copy(alloc, t)?;
    applied(alloc, head, arguments)
}

/// The abstraction over a variable of an equal type, applied to all the arguments.
#[inline(never)]
fn abstraction_with(
    alloc: Global,
    ty: &Ty,
    body: Tm,
    arguments: Arguments,
) -> Result<Tm, AllocError>
    ensures { IfOk result (λ r. plain_term r ≡ apply_all (abstraction (plain_type ty.now) (plain_term body)) arguments) }
{
    let head = Tm::lam_over(alloc, ty, body)?;
    applied(alloc, head, arguments)
}

/// The long term `by`, which has the type, put for index `at` in a long term, which is applied to the arguments.
#[cycle(put)]
fn put_in_long(
    alloc: Global,
    ty: &Ty,
    at: u64,
    by: &Tm,
    t: &Tm,
    mut arguments: Arguments,
) -> Result<Tm, AllocError>
    ensures { IfOk result (λ r. plain_term r ≡ put_long (apply_long (plain_type ty.now)) at (plain_term by.now) (plain_term t.now) arguments) }
{
    match t {
        Tm::Free(_, _) => copy_applied(alloc, t, arguments),
        Tm::Bound(index) => put_for_index(alloc, ty, at, by, *index, arguments),
        Tm::Con(_) => copy_applied(alloc, t, arguments),
        Tm::App(function, argument) => {
            let argument = put_in_long(alloc, ty, at, by, argument, Arguments::none(alloc))?;
            arguments.put_first(argument)?;
            put_in_long(alloc, ty, at, by, function, arguments)
        }
        Tm::Lam(bound_ty, body) => {
            let inner = raised_index(at, 1)?;
            let body = put_in_long(alloc, ty, inner, by, body, Arguments::none(alloc))?;
            abstraction_with(alloc, bound_ty, body, arguments)
        }
    }
}

/// What stands for an index, which is applied to the arguments, where the long term `by`, which has the type, is put for index `at`.
#[cycle(put)]
#[inline(never)]
fn put_for_index(
    alloc: Global,
    ty: &Ty,
    at: u64,
    by: &Tm,
    index: u64,
    arguments: Arguments,
) -> Result<Tm, AllocError>
    ensures { IfOk result (λ r. plain_term r ≡ put_long_index (apply_long (plain_type ty.now)) at (plain_term by.now) index arguments) }
{
    if index == at {
        let head = raised(alloc, at, 0, by)?;
        long_applied(alloc, ty, head, arguments)
    } else if index < at {
        applied(alloc, Tm::Bound(index), arguments)
    } else {
        applied(alloc, Tm::Bound(index - 1), arguments)
    }
}

/// A long term of the type, applied to long arguments.
#[cycle(put)]
#[inline(never)]
fn long_applied(
    alloc: Global,
    ty: &Ty,
    function: Tm,
    mut arguments: Arguments,
) -> Result<Tm, AllocError>
    ensures { IfOk result (λ r. plain_term r ≡ apply_long (plain_type ty.now) (plain_term function) arguments) }
{
    match (ty, function) {
        (Ty::Fun(result_type, argument_type), Tm::Lam(bound_ty, body)) => {
            match arguments.take_first() {
                None => Ok(Tm::Lam(bound_ty, body)),
                Some(argument) => {
                    let instance = instance_of_long(
                        alloc,
                        argument_type,
                        argument,
                        Box::into_inner(body),
                    )?;
                    long_applied(alloc, result_type, instance, arguments)
                }
            }
        }
        (_, function) => applied(alloc, function, arguments),
    }
}

/// The body of a long abstraction with a long argument, which has the type, put for its variable.
#[cycle(put)]
#[inline(never)]
fn instance_of_long(alloc: Global, ty: &Ty, argument: Tm, body: Tm) -> Result<Tm, AllocError>
    ensures { IfOk result (λ r. plain_term r ≡ hereditary (plain_type ty.now) 0 (plain_term argument) (plain_term body)) }
{
    put_in_long(alloc, ty, 0, &argument, &body, Arguments::none(alloc))
}

/// A long abstraction applied to a long argument.
fn abstraction_applied(alloc: Global, function: Tm, argument: Tm) -> Result<Tm, AllocError>
    ensures { IfOk result (λ t. plain_term t ≡ apply_abstraction (plain_term function) (plain_term argument)) }
{
    match function {
        Tm::Lam(ty, body) => instance_of_long(alloc, &ty, argument, Box::into_inner(body)),
        function => Tm::app(alloc, function, argument),
    }
}

/// A long abstraction applied to long arguments, one after another.
fn abstractions_applied(alloc: Global, function: Tm, arguments: Arguments) -> Result<Tm, AllocError>
    ensures { IfOk result (λ t. plain_term t ≡ apply_abstractions (plain_term function) arguments) }
{
    let mut function = function;
    let mut arguments = arguments;
    while let Some(argument) = arguments.take_first() {
        function = abstraction_applied(alloc, function, argument)?;
    }
    Ok(function)
}

/// A free variable with long arguments.
#[inline(never)]
fn variable_applied(
    alloc: Global,
    name: &Name,
    ty: &Ty,
    arguments: Arguments,
) -> Result<Tm, AllocError>
    ensures { IfOk result (λ n. plain_term n ≡ long_head (plain_type ty.now) (free name.now (plain_type ty.now)) arguments) }
{
    let head = Tm::variable(alloc, name, ty)?;
    head_applied(alloc, ty, head, arguments)
}

/// A bound index, which has a type of the scope, with long arguments.
#[inline(never)]
#[tactic(auto, using(crate::proofs::Lookups::lookup_some, crate::proofs::Lookups::lookup_none))]
fn index_applied(
    alloc: Global,
    scope: &Scope<'_>,
    index: u64,
    arguments: Arguments,
) -> Result<Tm, AllocError>
    ensures { IfOk result (λ n. plain_term n ≡ long_head (type_of_index scope.now index) (bound index) arguments) }
{
    match scope.at(index) {
        None => head_applied(alloc, &Ty::truth(), Tm::Bound(index), arguments),
        Some(ty) => head_applied(alloc, ty, Tm::Bound(index), arguments),
    }
}

/// A constant with long arguments.
#[inline(never)]
fn constant_applied(alloc: Global, con: &Con, arguments: Arguments) -> Result<Tm, AllocError>
    ensures { IfOk result (λ n. plain_term n ≡ long_head (type_of_constant (plain_constant con.now)) (constant (plain_constant con.now)) arguments) }
{
    let ty = con.type_of(alloc)?;
    let head = Tm::constant(alloc, con)?;
    head_applied(alloc, &ty, head, arguments)
}

/// The abstraction over a variable of the type with a long body, applied to long arguments.
#[inline(never)]
fn body_applied(alloc: Global, ty: &Ty, body: Tm, arguments: Arguments) -> Result<Tm, AllocError>
    ensures { IfOk result (λ n. plain_term n ≡ apply_abstractions (abstraction (plain_type ty.now) (plain_term body)) arguments) }
{
    let function = Tm::lam_over(alloc, ty, body)?;
    abstractions_applied(alloc, function, arguments)
}

/// The long normal form of a term that is applied to long arguments.
fn normal_applied<'a>(
    alloc: Global,
    scope: &mut Scope<'a>,
    t: &'a Tm,
    mut arguments: Arguments,
) -> Result<Tm, AllocError>
    ensures scope { OnOk result (scope.new ≡ scope.old) }
    ensures normal { IfOk result (λ n. plain_term n ≡ normal_with scope.old (plain_term t.now) arguments) }
{
    match t {
        Tm::Free(name, ty) => variable_applied(alloc, name, ty, arguments),
        Tm::Bound(index) => index_applied(alloc, scope, *index, arguments),
        Tm::Con(con) => constant_applied(alloc, con, arguments),
        Tm::App(function, argument) => {
            let argument = normal_applied(alloc, scope, argument, Arguments::none(alloc))?;
            arguments.put_first(argument)?;
            normal_applied(alloc, scope, function, arguments)
        }
        Tm::Lam(ty, body) => {
            scope.enter(ty)?;
            let body = normal_applied(alloc, scope, body, Arguments::none(alloc))?;
            scope.leave();
            body_applied(alloc, ty, body, arguments)
        }
    }
}

/// The long normal form of a typed term.
#[tactic(auto, using(crate::proofs::Uniqueness::normal_form_is))]
pub fn normal(alloc: Global, t: &Tm) -> Result<Tm, AllocError>
    requires { (s : SimpleType) × Typed [] (plain_term t.now) s }
    ensures normal { IfOk result (λ n. (s : SimpleType) → Typed [] (plain_term t.now) s → IsNormalOf [] s (plain_term n) (plain_term t.now)) }
    ensures computed { IfOk result (λ n. plain_term n ≡ normal_form [] (plain_term t.now)) }
{
    let mut scope = Scope::new(alloc);
    normal_applied(alloc, &mut scope, t, Arguments::none(alloc))
}

/// Whether two typed terms of one type are convertible.
#[tactic(auto, using(crate::proofs::Uniqueness::equal_normals))]
pub fn convertible(alloc: Global, s: &Tm, t: &Tm) -> Result<bool, AllocError>
    requires { (q : SimpleType) × Typed [] (plain_term s.now) q × Typed [] (plain_term t.now) q }
    ensures { IfOk result (λ b. (q : SimpleType) → Typed [] (plain_term s.now) q → Typed [] (plain_term t.now) q
        → (IsTrue b ↔ Conv [] q (plain_term s.now) (plain_term t.now))) }
{
    let n = normal(alloc, s)?;
    let m = normal(alloc, t)?;
    Ok(same(&n, &m))
}
