//! Calls of `term_lists`.

use crate::answers::{Answer, NoAnswer};
use crate::forms::form;
use call_lines::answers::push_term;
use core_text::sexps::Sexp;
use core_text::terms::{read_number, read_term};
use core_text::types::read_type;
use hol_terms::types::Ty;
use hol_terms::typing::type_of;
use std::alloc::Global;
use term_lists::heads::Signature;
use term_lists::long_terms::long_terms;
use term_lists::signatures::signature;

/// `(LEVEL FORMULA)`: the signature of the formula at the level.
fn signature_of(alloc: Global, form: &Sexp) -> Result<Signature, NoAnswer> {
    let level = read_number(form.first())?;
    let formula = read_term(alloc, form.second())?;
    match type_of(alloc, &formula)? {
        Some(ty) if level <= 2 && ty.same(&Ty::truth()) => Ok(signature(alloc, &formula, level)?),
        _ => Err(NoAnswer::NotTyped),
    }
}

/// `(LEVEL FORMULA)`: how many heads the signature has, and which, in order.
pub fn heads(alloc: Global, arguments: &str) -> Answer {
    let signature = signature_of(alloc, &form(alloc, arguments)?)?;
    let mut answer = format!(in alloc; "{}", signature.len())?;
    for head in signature.as_slice() {
        push_term(alloc, &mut answer, &head.term(alloc)?)?;
    }
    Ok(answer)
}

/// `((LEVEL FORMULA) TYPE WEIGHT)`: how many long terms of the type and the weight there are over the signature, and which.
pub fn terms(alloc: Global, arguments: &str) -> Answer {
    let form = form(alloc, arguments)?;
    let signature = signature_of(alloc, form.first())?;
    let ty = read_type(alloc, form.second())?;
    let weight = read_number(form.third())?;
    let terms = long_terms(alloc, signature.as_slice(), &[], &ty, weight)?;
    let mut answer = format!(in alloc; "{}", terms.len())?;
    for t in terms.as_slice() {
        push_term(alloc, &mut answer, t)?;
    }
    Ok(answer)
}
