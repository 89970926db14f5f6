//! Calls of `hol_terms` on letters, names and variables.

use crate::answers::{Answer, NoAnswer};
use crate::forms::form;
use call_lines::answers::name_text;
use core_text::terms::{read_name, read_number, read_preterm};
use core_text::types::read_type;
use hol_terms::letters::Letter;
use hol_terms::names::{Name, NameFault};
use hol_terms::variable_sets::free_variable_set;
use std::alloc::Global;

/// `NUMBER`: the letter of that byte.
pub fn letter(alloc: Global, arguments: &str) -> Answer {
    let number = read_number(&form(alloc, arguments)?)?;
    match Letter::new(u8::try_from(number).unwrap_or(0)) {
        Some(letter) => Ok(format!(in alloc; "{}", char::from(letter.byte()))?),
        None => Err(NoAnswer::NotALetter),
    }
}

/// Any text: the name that it is.
pub fn name(alloc: Global, arguments: &str) -> Answer {
    match Name::new(alloc, arguments) {
        Ok(name) => Ok(name_text(alloc, &name)?),
        Err(NameFault::NotAName) => Err(NoAnswer::NotAName),
        Err(NameFault::Memory) => Err(NoAnswer::Memory),
    }
}

/// `NUMBER`: the name of that number, and how many characters it has.
pub fn numbered(alloc: Global, arguments: &str) -> Answer {
    let number = read_number(&form(alloc, arguments)?)?;
    let name = Name::numbered(alloc, number)?;
    Ok(format!(in alloc; "{} {}", name.characters().len(), name_text(alloc, &name)?)?)
}

/// `(NAME TYPE TERM)`: the place of the variable among the free ones of the term, counted from 0, and how many these are.
pub fn place(alloc: Global, arguments: &str) -> Answer {
    let form = form(alloc, arguments)?;
    let name = read_name(alloc, form.first())?;
    let ty = read_type(alloc, form.second())?;
    let variables = free_variable_set(alloc, &read_preterm(alloc, form.third())?)?;
    match variables.place(&name, &ty)? {
        Some(place) => Ok(format!(in alloc; "{place} of {}", variables.len())?),
        None => Ok(format!(in alloc; "none of {}", variables.len())?),
    }
}
