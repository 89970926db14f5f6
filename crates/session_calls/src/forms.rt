//! Members of forms.

use crate::answers::NoAnswer;
use call_lines::arguments::members;
use core_text::faults::TextFault;
use core_text::sexps::{Sexp, Sexps};
use core_text::terms::{read_name, read_number, read_term};
use hol_terms::lists::{Hyps, Numbers};
use hol_terms::names::Name;
use hol_terms::terms::Tm;
use std::alloc::Global;

/// The member at a place, counted from 0.
pub fn member(form: &Sexp, place: u64) -> Result<&Sexp, NoAnswer> {
    let mut rest = members(form)?;
    let mut left = place;
    while let Sexps::More(member, more) = rest {
        if left == 0 {
            return Ok(&**member);
        }
        left -= 1;
        rest = &**more;
    }
    Err(NoAnswer::Arguments)
}

/// The word that the form is.
pub fn word(form: &Sexp) -> Result<&str, NoAnswer> {
    let Sexp::Word(text, _) = form else {
        return Err(NoAnswer::Arguments);
    };
    match std::str::from_utf8(text.as_slice()) {
        Ok(word) => Ok(word),
        Err(_) => Err(NoAnswer::Text(TextFault::NotUtf8)),
    }
}

/// The number at a place.
pub fn number(form: &Sexp, place: u64) -> Result<u64, NoAnswer> {
    Ok(read_number(member(form, place)?)?)
}

/// The typed term at a place.
pub fn term(alloc: Global, form: &Sexp, place: u64) -> Result<Tm, NoAnswer> {
    Ok(read_term(alloc, member(form, place)?)?)
}

/// The name at a place.
pub fn name(alloc: Global, form: &Sexp, place: u64) -> Result<Name, NoAnswer> {
    Ok(read_name(alloc, member(form, place)?)?)
}

/// The numbers of the list at a place.
pub fn numbers(alloc: Global, form: &Sexp, place: u64) -> Result<Numbers, NoAnswer> {
    let mut numbers = Numbers::new(alloc);
    let mut rest = members(member(form, place)?)?;
    while let Sexps::More(number, more) = rest {
        numbers.push(read_number(&**number)?)?;
        rest = &**more;
    }
    Ok(numbers)
}

/// The rising numbers of the list at a place.
pub fn hypotheses(alloc: Global, form: &Sexp, place: u64) -> Result<Hyps, NoAnswer> {
    let mut hyps = Hyps::new(alloc);
    let mut rest = members(member(form, place)?)?;
    while let Sexps::More(number, more) = rest {
        let number = read_number(&**number)?;
        if !hyps.may_push(number) {
            return Err(NoAnswer::Arguments);
        }
        hyps.push(number)?;
        rest = &**more;
    }
    Ok(hyps)
}
