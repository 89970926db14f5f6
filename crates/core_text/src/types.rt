//! Reads the core form of types.

ghost use Rattle.std.specs.Prelude.{◌≡◌, ◌≢◌, IfErr, IfOk, MatchOption};
ghost use Rattle.hol_terms.specs.Terms.{SimpleType, base_type, plain_type};
ghost use Rattle.core_text.specs.CoreForms.{IsFormOfType};
ghost use Rattle.core_text.specs.Placed.{form_of, placed};
ghost use Rattle.core_text.specs.Reading.{Gives, letter_in, type_at};

use crate::faults::TextFault;
use crate::sexps::{Sexp, Sexps};
use hol_terms::letters::Letter;
use hol_terms::types::Ty;
use std::alloc::Global;

/// The base type of a letter.
fn base(bytes: &[u8], place: u64) -> Result<Ty, TextFault>
    ensures { Gives plain_type result (letter_in bytes.now place) }
{
    match bytes {
        [byte] => match Letter::new(*byte) {
            Some(letter) => Ok(Ty::Base(letter)),
            None => Err(TextFault::BadForm(place)),
        },
        _ => Err(TextFault::BadForm(place)),
    }
}

/// The type of a form.
pub fn type_at(alloc: Global, s: &Sexp) -> Result<Ty, TextFault>
    ensures { Gives plain_type result (type_at (placed s.now)) }
{
    match s {
        Sexp::Word(text, place) => base(text.as_slice(), *place),
        Sexp::Number(_, place) => Err(TextFault::BadForm(*place)),
        Sexp::List(all, place) => {
            let Sexps::More(first, rest) = all else {
                return Err(TextFault::BadForm(*place));
            };
            let Sexps::More(second, rest) = &**rest else {
                return Err(TextFault::BadForm(*place));
            };
            let Sexps::End = &**rest else {
                return Err(TextFault::BadForm(*place));
            };
            let result_type = type_at(alloc, first)?;
            let argument = type_at(alloc, second)?;
            Ok(Ty::fun(alloc, result_type, argument)?)
        }
    }
}

/// Reads a type. `BadForm` has the place of the first form, a list before its members, that has no place in the table.
pub fn read_type(alloc: Global, s: &Sexp) -> Result<Ty, TextFault>
    ensures answer { Gives plain_type result (type_at (placed s.now)) }
    ensures ty { IfOk result (λ ty. IsFormOfType (form_of s.now) (plain_type ty)) }
    ensures no_type { IfErr result (λ e. e ≢ TextFault.Memory → (ty : SimpleType) → IsFormOfType (form_of s.now) ty → ⊥) }
{
    type_at(alloc, s)
}
