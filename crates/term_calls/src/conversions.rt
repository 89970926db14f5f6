//! Calls of `hol_conv`.

ghost use Rattle.std.specs.Prelude.{◌≡◌, [], IfOk, string_bytes};
ghost use Rattle.core_text.specs.CoreForms.{IsFormOfTyped, term_form};
ghost use Rattle.core_text.specs.Forms.{Form, IsTextOf};
ghost use Rattle.core_text.specs.Written.{written};
ghost use Rattle.hol_conv.specs.NormalForms.{normal_form as normal_form_of};
ghost use Rattle.hol_terms.specs.Terms.{Term};

use crate::answers::{Answer, NoAnswer};
use crate::forms::form;
use call_lines::answers::{term_text, verdict};
use core_text::terms::read_term;
use hol_conv::long::is_long_normal;
use hol_conv::normal::{convertible, normal};
use hol_terms::typing::type_of;
use std::alloc::Global;

/// `TERM`: its long normal form.
pub fn normal_form(alloc: Global, arguments: &str) -> Answer
    ensures { IfOk result (λ answer. (f : Form) × (t : Term) × IsTextOf arguments.now f × IsFormOfTyped f t × string_bytes answer ≡ written (term_form (normal_form_of [] t))) }
{
    let t = read_term(alloc, &form(alloc, arguments)?)?;
    match type_of(alloc, &t)? {
        None => Err(NoAnswer::NotTyped),
        Some(_) => Ok(term_text(alloc, &normal(alloc, &t)?)?),
    }
}

/// `TERM`: whether it is long and normal.
pub fn long(alloc: Global, arguments: &str) -> Answer {
    let t = read_term(alloc, &form(alloc, arguments)?)?;
    match type_of(alloc, &t)? {
        None => Err(NoAnswer::NotTyped),
        Some(_) => Ok(verdict(alloc, is_long_normal(alloc, &t)?)?),
    }
}

/// `(FIRST SECOND)`: whether the two terms of one type are convertible.
pub fn conversion(alloc: Global, arguments: &str) -> Answer {
    let form = form(alloc, arguments)?;
    let s = read_term(alloc, form.first())?;
    let t = read_term(alloc, form.second())?;
    let (Some(first), Some(second)) = (type_of(alloc, &s)?, type_of(alloc, &t)?) else {
        return Err(NoAnswer::NotTyped);
    };
    if !first.same(&second) {
        return Err(NoAnswer::NotTyped);
    }
    Ok(verdict(alloc, convertible(alloc, &s, &t)?)?)
}
