//! Calls of `nd_rules` on formulas.

use crate::answers::{Answer, NoAnswer};
use call_lines::answers::{push_term, string_of, term_text, verdict};
use core_text::brackets::read_sexp;
use core_text::sexps::Sexp;
use core_text::terms::{read_preterm, read_term};
use core_text::types::read_type;
use core_text::writers::write_type;
use hol_terms::types::Ty;
use nd_rules::converting::different_normals;
use nd_rules::shapes::{Quantified, existential_body, has_type, universal_body};
use std::alloc::Global;

/// The form that the arguments are.
fn form(alloc: Global, arguments: &str) -> Result<Sexp, NoAnswer> {
    Ok(read_sexp(alloc, arguments.as_bytes())?)
}

/// The quantifier's type and the body, or `none`.
fn quantified_text(alloc: Global, quantified: Option<Quantified<'_>>) -> Answer {
    let Some(Quantified { ty, body }) = quantified else {
        return Ok(String::from_str(alloc, "none")?);
    };
    let mut answer = string_of(alloc, &write_type(alloc, ty)?)?;
    push_term(alloc, &mut answer, body)?;
    Ok(answer)
}

/// `TERM`: the type and the body of a universal formula.
pub fn universal(alloc: Global, arguments: &str) -> Answer {
    let formula = read_preterm(alloc, &form(alloc, arguments)?)?;
    quantified_text(alloc, universal_body(&formula))
}

/// `TERM`: the type and the body of an existential formula.
pub fn existential(alloc: Global, arguments: &str) -> Answer {
    let formula = read_preterm(alloc, &form(alloc, arguments)?)?;
    quantified_text(alloc, existential_body(&formula))
}

/// `(TERM TYPE)`: whether the term has the type.
pub fn typed(alloc: Global, arguments: &str) -> Answer {
    let form = form(alloc, arguments)?;
    let t = read_preterm(alloc, form.first())?;
    let ty = read_type(alloc, form.second())?;
    Ok(verdict(alloc, has_type(alloc, &t, &ty)?)?)
}

/// `(FIRST SECOND)`: the long normal forms of the two formulas, where they differ, or `none`.
pub fn normals(alloc: Global, arguments: &str) -> Answer {
    let form = form(alloc, arguments)?;
    let s = read_term(alloc, form.first())?;
    let t = read_term(alloc, form.second())?;
    if !has_type(alloc, &s, &Ty::truth())? || !has_type(alloc, &t, &Ty::truth())? {
        return Err(NoAnswer::NotTyped);
    }
    let Some(normals) = different_normals(alloc, &s, &t)? else {
        return Ok(String::from_str(alloc, "none")?);
    };
    let mut answer = term_text(alloc, &normals.first)?;
    push_term(alloc, &mut answer, &normals.second)?;
    Ok(answer)
}
