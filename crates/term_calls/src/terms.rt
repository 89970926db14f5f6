//! Calls of `hol_terms`.

use crate::answers::{Answer, NoAnswer};
use crate::forms::form;
use call_lines::answers::{push_term, term_text, type_text, verdict};
use core_text::terms::{read_name, read_preterm};
use core_text::types::read_type;
use hol_terms::indices::{abstract_over, instantiate};
use hol_terms::terms::{Tm, same};
use hol_terms::typing::type_of;
use hol_terms::variables::{free_variables, is_free};
use std::alloc::Global;

/// `(FIRST SECOND)`: the two terms.
fn two_terms(alloc: Global, arguments: &str) -> Result<(Tm, Tm), NoAnswer> {
    let form = form(alloc, arguments)?;
    Ok((
        read_preterm(alloc, form.first())?,
        read_preterm(alloc, form.second())?,
    ))
}

/// `TERM`: its type.
pub fn type_of_term(alloc: Global, arguments: &str) -> Answer {
    let t = read_preterm(alloc, &form(alloc, arguments)?)?;
    match type_of(alloc, &t)? {
        None => Err(NoAnswer::NotTyped),
        Some(ty) => Ok(type_text(alloc, &ty)?),
    }
}

/// `TYPE`: the letter of its result, and the types of its arguments.
pub fn split(alloc: Global, arguments: &str) -> Answer {
    let ty = read_type(alloc, &form(alloc, arguments)?)?;
    let split = ty.split_args(alloc)?;
    let mut answer = format!(in alloc; "{}", char::from(split.result.byte()))?;
    for argument in split.args.as_slice() {
        answer.push(' ')?;
        answer.push_str(type_text(alloc, argument)?.as_str())?;
    }
    Ok(answer)
}

/// `(BODY TERM)`: the instance of the body.
pub fn instance(alloc: Global, arguments: &str) -> Answer {
    let (body, t) = two_terms(alloc, arguments)?;
    Ok(term_text(alloc, &instantiate(alloc, &body, &t)?)?)
}

/// `(NAME TYPE TERM)`: the body over the variable of the closed term.
#[tactic(auto, using(hol_terms::proofs::TypingLaws::typed_is_closed))]
pub fn body_over(alloc: Global, arguments: &str) -> Answer {
    let form = form(alloc, arguments)?;
    let name = read_name(alloc, form.first())?;
    let ty = read_type(alloc, form.second())?;
    let t = read_preterm(alloc, form.third())?;
    match type_of(alloc, &t)? {
        None => Err(NoAnswer::NotTyped),
        Some(_) => Ok(term_text(alloc, &abstract_over(alloc, &name, &ty, &t)?)?),
    }
}

/// `(NAME TYPE TERM)`: whether the variable is free in the term.
pub fn free(alloc: Global, arguments: &str) -> Answer {
    let form = form(alloc, arguments)?;
    let name = read_name(alloc, form.first())?;
    let ty = read_type(alloc, form.second())?;
    let t = read_preterm(alloc, form.third())?;
    Ok(verdict(alloc, is_free(&name, &ty, &t))?)
}

/// `TERM`: how many free variables it has, and which, in order.
pub fn variables(alloc: Global, arguments: &str) -> Answer {
    let t = read_preterm(alloc, &form(alloc, arguments)?)?;
    let variables = free_variables(alloc, &t)?;
    let mut answer = format!(in alloc; "{}", variables.len())?;
    for (name, ty) in variables.as_slice() {
        push_term(alloc, &mut answer, &Tm::variable(alloc, name, ty)?)?;
    }
    Ok(answer)
}

/// `(FIRST SECOND)`: whether the terms are the same.
pub fn equal(alloc: Global, arguments: &str) -> Answer {
    let (s, t) = two_terms(alloc, arguments)?;
    Ok(verdict(alloc, same(&s, &t))?)
}
