//! Arguments that are core text, and what is written of types and terms.

ghost use Rattle.std.specs.Prelude.{◌≡◌, IfOk};
ghost use Rattle.core_text.specs.Forms.{number_form};
ghost use Rattle.core_text.specs.Placed.{form_of};

use crate::answers::{Answer, NoAnswer};
use call_lines::arguments::members;
use core_text::brackets::read_sexp;
use core_text::sexps::{Sexp, Sexps};
use core_text::terms::{read_name, read_number};
use core_text::types::read_type;
use hol_terms::lists::{Text, Vars};
use std::alloc::{AllocError, Global};

/// What stands in front of the bar, as a form, and the text after it.
pub fn form_and_text(alloc: Global, arguments: &str) -> Result<(Sexp, &str), NoAnswer> {
    match arguments.split_once(" | ") {
        None => Err(NoAnswer::Arguments),
        Some((form, text)) => Ok((read_sexp(alloc, form.as_bytes())?, text)),
    }
}

/// The byte that the form is.
fn read_byte(form: &Sexp) -> Result<u8, NoAnswer>
    ensures { IfOk result (λ byte. form_of form.now ≡ number_form byte) }
{
    match u8::try_from(read_number(form)?) {
        Ok(byte) => Ok(byte),
        Err(_) => Err(NoAnswer::Arguments),
    }
}

/// `(BYTE ..)`: the text of these bytes.
pub fn read_bytes(alloc: Global, arguments: &str) -> Result<Text, NoAnswer> {
    let form = read_sexp(alloc, arguments.as_bytes())?;
    let mut rest = members(&form)?;
    let mut text = Text::new(alloc);
    while let Sexps::More(member, more) = rest {
        text.push(read_byte(&**member)?)?;
        rest = &**more;
    }
    Ok(text)
}

/// The text so many times after the first one.
fn repeated(alloc: Global, count: u64, first: &str, text: &str) -> Result<String, AllocError> {
    let mut whole = String::from_str(alloc, first)?;
    for _ in 0..count {
        whole.push_str(text)?;
    }
    Ok(whole)
}

/// `COUNT | FIRST|TEXT|LAST`: the first text, the second one so many times, and the last one.
pub fn read_repeated(alloc: Global, arguments: &str) -> Answer {
    let (count, texts) = form_and_text(alloc, arguments)?;
    let Some((first, others)) = texts.split_once('|') else {
        return Err(NoAnswer::Arguments);
    };
    let Some((text, last)) = others.split_once('|') else {
        return Err(NoAnswer::Arguments);
    };
    let mut whole = repeated(alloc, read_number(&count)?, first, text)?;
    whole.push_str(last)?;
    Ok(whole)
}

/// `((NAME TYPE) ..)`: the variables.
pub fn read_variables(alloc: Global, form: &Sexp) -> Result<Vars, NoAnswer> {
    let mut rest = members(form)?;
    let mut variables = Vars::new(alloc);
    while let Sexps::More(member, more) = rest {
        let name = read_name(alloc, member.first())?;
        let ty = read_type(alloc, member.second())?;
        variables.push(name, ty)?;
        rest = &**more;
    }
    Ok(variables)
}
