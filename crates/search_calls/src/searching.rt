//! Calls of `plain_search`.

use crate::answers::{Answer, NoAnswer};
use call_lines::answers::string_of;
use call_lines::arguments::formula;
use core_text::brackets::read_sexp;
use core_text::terms::read_number;
use plain_search::search::search;
use proof_text::writers::write_proof;
use std::alloc::Global;

/// `(FORMULA WEIGHT LEVEL)`: what is written for the proof that is found, or `none`.
pub fn found(alloc: Global, arguments: &str) -> Answer {
    let form = read_sexp(alloc, arguments.as_bytes())?;
    let Some(formula) = formula(alloc, form.first())? else {
        return Err(NoAnswer::NoFormula);
    };
    let weight = read_number(form.second())?;
    let level = read_number(form.third())?;
    if weight > 64 || level > 2 {
        return Err(NoAnswer::Arguments);
    }
    match search(alloc, &formula, weight, level)? {
        Some(accepted) => Ok(string_of(alloc, &write_proof(alloc, &accepted.into_text())?)?),
        None => Ok(String::from_str(alloc, "none")?),
    }
}
