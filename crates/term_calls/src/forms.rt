//! Calls of `core_text`.

ghost use Rattle.std.specs.Prelude.{◌≡◌, IfOk, decimal, string_bytes, ℕ};
ghost use Rattle.core_text.specs.CoreForms.{IsFormOfTerm, IsFormOfType, IsFormOfTyped, term_form, type_form};
ghost use Rattle.core_text.specs.Forms.{Form, IsTextOf, number_form};
ghost use Rattle.core_text.specs.Placed.{form_of};
ghost use Rattle.core_text.specs.Written.{written};
ghost use Rattle.hol_terms.specs.Terms.{SimpleType, Term};

use crate::answers::{Answer, NoAnswer};
use call_lines::answers::{name_text, term_text, type_text};
use core_text::brackets::read_sexp;
use core_text::sexps::Sexp;
use core_text::terms::{read_name, read_number, read_preterm, read_term};
use core_text::types::read_type;
use std::alloc::Global;

/// The form that the arguments are.
pub fn form(alloc: Global, arguments: &str) -> Result<Sexp, NoAnswer>
    ensures { IfOk result (λ form. IsTextOf arguments.now (form_of form)) }
{
    Ok(read_sexp(alloc, arguments.as_bytes())?)
}

/// The place of the form.
pub fn place(alloc: Global, arguments: &str) -> Answer {
    let form = form(alloc, arguments)?;
    Ok(format!(in alloc; "{}", form.place())?)
}

/// The type, written again.
pub fn type_again(alloc: Global, arguments: &str) -> Answer
    ensures { IfOk result (λ answer. (f : Form) × (ty : SimpleType) × IsTextOf arguments.now f × IsFormOfType f ty × string_bytes answer ≡ written (type_form ty)) }
{
    Ok(type_text(alloc, &read_type(alloc, &form(alloc, arguments)?)?)?)
}

/// The typed term, written again.
pub fn term_again(alloc: Global, arguments: &str) -> Answer
    ensures { IfOk result (λ answer. (f : Form) × (t : Term) × IsTextOf arguments.now f × IsFormOfTyped f t × string_bytes answer ≡ written (term_form t)) }
{
    Ok(term_text(alloc, &read_term(alloc, &form(alloc, arguments)?)?)?)
}

/// The term, written again, whether or not it has a type.
pub fn preterm_again(alloc: Global, arguments: &str) -> Answer
    ensures { IfOk result (λ answer. (f : Form) × (t : Term) × IsTextOf arguments.now f × IsFormOfTerm f t × string_bytes answer ≡ written (term_form t)) }
{
    Ok(term_text(alloc, &read_preterm(alloc, &form(alloc, arguments)?)?)?)
}

/// The name, written again.
pub fn name_again(alloc: Global, arguments: &str) -> Answer {
    Ok(name_text(alloc, &read_name(alloc, &form(alloc, arguments)?)?)?)
}

/// The number, written again.
pub fn number_again(alloc: Global, arguments: &str) -> Answer
    ensures { IfOk result (λ answer. (n : ℕ) × IsTextOf arguments.now (number_form n) × string_bytes answer ≡ decimal n) }
{
    let number = read_number(&form(alloc, arguments)?)?;
    Ok(format!(in alloc; "{number}")?)
}
