//! Reads the core form of terms.

ghost use Rattle.std.specs.Prelude.{◌≡◌, ◌≢◌, IfErr, IfOk, List, ℕ};
ghost use Rattle.hol_terms.specs.Terms.{Term, constant, plain_constant, plain_term};
ghost use Rattle.core_text.specs.CoreForms.{IsFormOfName, IsFormOfTerm, IsFormOfTyped};
ghost use Rattle.core_text.specs.Forms.{number_form};
ghost use Rattle.core_text.specs.Judged.{Answers, reading_at};
ghost use Rattle.core_text.specs.Placed.{form_of, placed, word_at};
ghost use Rattle.core_text.specs.Reading.{Gives, constant_in, name_at, number_in, pair_at, term_at, variable_at};
ghost use Rattle.core_text.specs.Words.{same_bytes};

use crate::faults::TextFault;
use crate::sexps::{Sexp, Sexps};
use crate::types::type_at;
use crate::typings::judge;
use hol_terms::names::{Name, NameFault};
use hol_terms::terms::{Con, Tm};
use std::alloc::Global;

/// Whether the bytes are the word.
pub fn is_keyword(bytes: &[u8], word: &[u8]) -> bool
    ensures { result ≡ same_bytes bytes.now word.now }
{
    bytes == word
}

/// The name of a word.
fn name_in(alloc: Global, bytes: &[u8], place: u64) -> Result<Name, TextFault>
    ensures { Gives (λ name. name) result (name_at (word_at bytes.now place)) }
{
    let Ok(text) = std::str::from_utf8(bytes) else {
        return Err(TextFault::BadForm(place));
    };
    match Name::new(alloc, text) {
        Ok(name) => Ok(name),
        Err(NameFault::NotAName) => Err(TextFault::BadForm(place)),
        Err(NameFault::Memory) => Err(TextFault::Memory),
    }
}

/// The name of a form.
fn name_at(alloc: Global, s: &Sexp) -> Result<Name, TextFault>
    ensures { Gives (λ name. name) result (name_at (placed s.now)) }
{
    match s {
        Sexp::Word(text, place) => name_in(alloc, text.as_slice(), *place),
        Sexp::Number(_, place) => Err(TextFault::BadForm(*place)),
        Sexp::List(_, place) => Err(TextFault::BadForm(*place)),
    }
}

/// The number of a form.
fn number_in(s: &Sexp) -> Result<u64, TextFault>
    ensures number { Gives (λ n. n) result (number_in (placed s.now)) }
    ensures no_memory { IfErr result (λ e. e ≢ TextFault.Memory) }
{
    match s {
        Sexp::Word(_, place) => Err(TextFault::BadForm(*place)),
        Sexp::Number(number, _) => Ok(*number),
        Sexp::List(_, place) => Err(TextFault::BadForm(*place)),
    }
}

/// The constant that a word names.
fn constant_in(bytes: &[u8], place: u64) -> Result<Tm, TextFault>
    ensures { Gives plain_term result (constant_in bytes.now place) }
{
    if is_keyword(bytes, b"NOT") {
        Ok(Tm::Con(Con::Not))
    } else if is_keyword(bytes, b"AND") {
        Ok(Tm::Con(Con::And))
    } else if is_keyword(bytes, b"OR") {
        Ok(Tm::Con(Con::Or))
    } else if is_keyword(bytes, b"IMPLIES") {
        Ok(Tm::Con(Con::Implies))
    } else if is_keyword(bytes, b"TRUTH") {
        Ok(Tm::Con(Con::Truth))
    } else if is_keyword(bytes, b"FALSEHOOD") {
        Ok(Tm::Con(Con::Falsehood))
    } else {
        Err(TextFault::BadForm(place))
    }
}

/// The index or the quantifier of a list of two members, by its first word.
fn pair_at(alloc: Global, head: &[u8], member: &Sexp, place: u64) -> Result<Tm, TextFault>
    ensures { Gives plain_term result (pair_at head.now (placed member.now) place) }
{
    if is_keyword(head, b"B") {
        Ok(Tm::Bound(number_in(member)?))
    } else if is_keyword(head, b"ALL") {
        Ok(Tm::Con(Con::All(type_at(alloc, member)?)))
    } else if is_keyword(head, b"SOME") {
        Ok(Tm::Con(Con::Ex(type_at(alloc, member)?)))
    } else {
        Err(TextFault::BadForm(place))
    }
}

/// The variable of a name and a type.
fn variable_at(alloc: Global, name: &Sexp, ty: &Sexp) -> Result<Tm, TextFault>
    ensures { Gives plain_term result (variable_at (placed name.now) (placed ty.now)) }
{
    let name = name_at(alloc, name)?;
    let ty = type_at(alloc, ty)?;
    Ok(Tm::Free(name, ty))
}

/// The term of a form, typed or not.
fn term_at(alloc: Global, s: &Sexp) -> Result<Tm, TextFault>
    ensures { Gives plain_term result (term_at (placed s.now)) }
{
    match s {
        Sexp::Word(text, place) => constant_in(text.as_slice(), *place),
        Sexp::Number(_, place) => Err(TextFault::BadForm(*place)),
        Sexp::List(all, place) => {
            let Sexps::More(head, rest) = all else {
                return Err(TextFault::BadForm(*place));
            };
            let Sexp::Word(head, _) = &**head else {
                return Err(TextFault::BadForm(*place));
            };
            let head = head.as_slice();
            let Sexps::More(first, rest) = &**rest else {
                return Err(TextFault::BadForm(*place));
            };
            let Sexps::More(second, rest) = &**rest else {
                return pair_at(alloc, head, first, *place);
            };
            let Sexps::End = &**rest else {
                return Err(TextFault::BadForm(*place));
            };
            if is_keyword(head, b"V") {
                return variable_at(alloc, first, second);
            }
            if is_keyword(head, b"A") {
                let function = term_at(alloc, first)?;
                let argument = term_at(alloc, second)?;
                return Ok(Tm::app(alloc, function, argument)?);
            }
            if is_keyword(head, b"L") {
                let ty = type_at(alloc, first)?;
                let body = term_at(alloc, second)?;
                return Ok(Tm::lam(alloc, ty, body)?);
            }
            Err(TextFault::BadForm(*place))
        }
    }
}

/// The typed term of a form.
fn reading_at(alloc: Global, s: &Sexp) -> Result<Tm, TextFault>
    ensures { Answers plain_term result (reading_at (placed s.now)) }
{
    let t = term_at(alloc, s)?;
    match judge(alloc, &t, s) {
        Ok(_) => Ok(t),
        Err(fault) => Err(fault),
    }
}

/// Reads a term, typed or not. `BadForm` has the place of the first form, a list before its members, that has no place in the
/// table.
pub fn read_preterm(alloc: Global, s: &Sexp) -> Result<Tm, TextFault>
    ensures answer { Gives plain_term result (term_at (placed s.now)) }
    ensures term { IfOk result (λ t. IsFormOfTerm (form_of s.now) (plain_term t)) }
    ensures no_term { IfErr result (λ e. e ≢ TextFault.Memory → (t : Term) → IsFormOfTerm (form_of s.now) t → ⊥) }
{
    term_at(alloc, s)
}

/// Reads a name. `BadForm` comes at the place of a form that isn't one.
pub fn read_name(alloc: Global, s: &Sexp) -> Result<Name, TextFault>
    ensures answer { Gives (λ name. name) result (name_at (placed s.now)) }
    ensures name { IfOk result (λ name. IsFormOfName (form_of s.now) name) }
    ensures no_name { IfErr result (λ e. e ≢ TextFault.Memory → (name : List ℕ) → IsFormOfName (form_of s.now) name → ⊥) }
{
    name_at(alloc, s)
}

/// Reads a number. `BadForm` comes at the place of a form that isn't one.
pub fn read_number(s: &Sexp) -> Result<u64, TextFault>
    ensures answer { Gives (λ n. n) result (number_in (placed s.now)) }
    ensures no_memory { IfErr result (λ e. e ≢ TextFault.Memory) }
    ensures number { IfOk result (λ n. form_of s.now ≡ number_form n) }
    ensures no_number { IfErr result (λ e. (n : ℕ) → form_of s.now ≡ number_form n → ⊥) }
{
    number_in(s)
}

/// Reads a term that has a type and no loose index. `BadForm` has the place of the first form, a list before its members, that
/// has no place in the table; where there is none, `LooseIndex` has the place of the first bound index with no more abstractions
/// around it than its number; and where there is none of these either, `IllTyped` has the place of the application that fails first,
/// parts before wholes and left before right.
pub fn read_term(alloc: Global, s: &Sexp) -> Result<Tm, TextFault>
    ensures answer { Answers plain_term result (reading_at (placed s.now)) }
    ensures term { IfOk result (λ t. IsFormOfTyped (form_of s.now) (plain_term t)) }
    ensures no_term { IfErr result (λ e. e ≢ TextFault.Memory → (t : Term) → IsFormOfTyped (form_of s.now) t → ⊥) }
{
    reading_at(alloc, s)
}
