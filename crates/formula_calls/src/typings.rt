//! Calls of `type_infer`.

use crate::answers::{Answer, NoAnswer};
use crate::forms::{form_and_text, read_variables};
use call_lines::answers::term_text;
use hol_terms::lists::Vars;
use hol_terms::types::Ty;
use std::alloc::Global;
use tps_reader::readers::read_raw;
use type_infer::inference::{InferFault, infer};

/// The only annotation of the formula text, or two of more.
fn annotation(alloc: Global, text: &str, wanted: Option<&Ty>, known: &Vars) -> Answer {
    let raw = read_raw(alloc, text.as_bytes())?;
    match infer(alloc, &raw, wanted, known) {
        Ok(t) => Ok(term_text(alloc, &t)?),
        Err(InferFault::NoTyping(place)) => Err(NoAnswer::NoTyping(place)),
        Err(InferFault::Memory) => Err(NoAnswer::Memory),
        Err(InferFault::Ambiguous(first, second)) => {
            let first = term_text(alloc, &first)?;
            let second = term_text(alloc, &second)?;
            Ok(format!(in alloc; "{first} or {second}")?)
        }
    }
}

/// `TEXT`: the formula, where no names are known.
pub fn formula(alloc: Global, arguments: &str) -> Answer {
    annotation(alloc, arguments, Some(&Ty::truth()), &Vars::new(alloc))
}

/// `((NAME TYPE) ..) | TEXT`: the formula, where these variables are known.
pub fn known_formula(alloc: Global, arguments: &str) -> Answer {
    let (form, text) = form_and_text(alloc, arguments)?;
    let known = read_variables(alloc, &form)?;
    annotation(alloc, text, Some(&Ty::truth()), &known)
}

/// `((NAME TYPE) ..) | TEXT`: the phrase of any type, where these variables are known.
pub fn known_phrase(alloc: Global, arguments: &str) -> Answer {
    let (form, text) = form_and_text(alloc, arguments)?;
    let known = read_variables(alloc, &form)?;
    annotation(alloc, text, None, &known)
}
