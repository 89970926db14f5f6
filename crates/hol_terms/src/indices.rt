//! Bound indices: the instance of an abstraction's body, and the body over a free variable.

ghost use Rattle.std.specs.Prelude.{◌≡◌, ◌+◌, IfOk};
ghost use Rattle.hol_terms.specs.FreeVariables.{IsBodyOver, body_over};
ghost use Rattle.hol_terms.specs.Indices.{IsClosed, instance_of, put, raise};
ghost use Rattle.hol_terms.specs.Terms.{plain_term, plain_type};

use crate::names::Name;
use crate::terms::Tm;
use crate::types::Ty;
use std::alloc::{AllocError, Global};

/// The index with a number added to it. No memory holds a term with an index past 64 bits.
pub fn raised_index(index: u64, by: u64) -> Result<u64, AllocError>
    ensures { IfOk result (λ i. i ≡ index + by) }
{
    match index.checked_add(by) {
        Some(raised) => Ok(raised),
        None => Err(AllocError),
    }
}

/// The term with `by` added to each index that is at least `from`.
pub fn raised(alloc: Global, by: u64, from: u64, t: &Tm) -> Result<Tm, AllocError>
    ensures { IfOk result (λ r. plain_term r ≡ raise by from (plain_term t.now)) }
{
    match t {
        Tm::Free(name, ty) => Tm::variable(alloc, name, ty),
        Tm::Bound(index) => {
            if *index < from {
                Ok(Tm::Bound(*index))
            } else {
                Ok(Tm::Bound(raised_index(*index, by)?))
            }
        }
        Tm::Con(con) => Tm::constant(alloc, con),
        Tm::App(function, argument) => {
            let function = raised(alloc, by, from, function)?;
            let argument = raised(alloc, by, from, argument)?;
            Tm::app(alloc, function, argument)
        }
        Tm::Lam(ty, body) => {
            let body = raised(alloc, by, raised_index(from, 1)?, body)?;
            Tm::lam_over(alloc, ty, body)
        }
    }
}

/// The term `t` with index `at` replaced by the term `by`, and each index above `at` lowered by one.
pub fn replaced(alloc: Global, at: u64, by: &Tm, t: &Tm) -> Result<Tm, AllocError>
    ensures { IfOk result (λ r. plain_term r ≡ put at (plain_term by.now) (plain_term t.now)) }
{
    match t {
        Tm::Free(name, ty) => Tm::variable(alloc, name, ty),
        Tm::Bound(index) => {
            if *index == at {
                raised(alloc, at, 0, by)
            } else if *index < at {
                Ok(Tm::Bound(*index))
            } else {
                Ok(Tm::Bound(*index - 1))
            }
        }
        Tm::Con(con) => Tm::constant(alloc, con),
        Tm::App(function, argument) => {
            let function = replaced(alloc, at, by, function)?;
            let argument = replaced(alloc, at, by, argument)?;
            Tm::app(alloc, function, argument)
        }
        Tm::Lam(ty, body) => {
            let body = replaced(alloc, raised_index(at, 1)?, by, body)?;
            Tm::lam_over(alloc, ty, body)
        }
    }
}

/// The body of an abstraction with the term `t` for its variable.
pub fn instantiate(alloc: Global, body: &Tm, t: &Tm) -> Result<Tm, AllocError>
    ensures { IfOk result (λ r. plain_term r ≡ instance_of (plain_term body.now) (plain_term t.now)) }
{
    replaced(alloc, 0, t, body)
}

/// The term `t` with index `at` for a free variable.
#[tactic(auto, using(crate::proofs::Bodies::body_over_here, crate::proofs::Bodies::body_over_other_name, crate::proofs::Bodies::body_over_other_type))]
fn indexed(alloc: Global, name: &Name, ty: &Ty, at: u64, t: &Tm) -> Result<Tm, AllocError>
    ensures { IfOk result (λ r. plain_term r ≡ body_over name.now (plain_type ty.now) at (plain_term t.now)) }
{
    match t {
        Tm::Free(other_name, other_ty) => {
            if name.same(other_name) && ty.same(other_ty) {
                Ok(Tm::Bound(at))
            } else {
                Tm::variable(alloc, other_name, other_ty)
            }
        }
        Tm::Bound(index) => Ok(Tm::Bound(*index)),
        Tm::Con(con) => Tm::constant(alloc, con),
        Tm::App(function, argument) => {
            let function = indexed(alloc, name, ty, at, function)?;
            let argument = indexed(alloc, name, ty, at, argument)?;
            Tm::app(alloc, function, argument)
        }
        Tm::Lam(bound_ty, body) => {
            let body = indexed(alloc, name, ty, raised_index(at, 1)?, body)?;
            Tm::lam_over(alloc, bound_ty, body)
        }
    }
}

/// The body of the abstraction of a term over a variable: its instance with the variable is the term, and the variable isn't
/// free in it.
#[tactic(auto, using(crate::proofs::Bodies::put_of_body_over, crate::proofs::Bodies::body_over_not_free))]
pub fn abstract_over(alloc: Global, name: &Name, ty: &Ty, t: &Tm) -> Result<Tm, AllocError>
    requires { IsClosed (plain_term t.now) }
    ensures { IfOk result (λ body. IsBodyOver name.now (plain_type ty.now) (plain_term t.now) (plain_term body)) }
{
    indexed(alloc, name, ty, 0, t)
}
