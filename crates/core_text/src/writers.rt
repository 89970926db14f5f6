//! Writes the core form of types and terms.

ghost use Rattle.std.specs.Prelude.{◌≡◌, ◌++◌, IfOk, MatchResult, OnErr, decimal, encode_utf8_all};
ghost use Rattle.hol_terms.specs.Names.{IsName};
ghost use Rattle.hol_terms.specs.Terms.{plain_constant, plain_term, plain_type};
ghost use Rattle.core_text.specs.CoreForms.{HasLetters, HasNames, constant_form, term_form, type_form};
ghost use Rattle.core_text.specs.Written.{written};

use hol_terms::lists::Text;
use hol_terms::names::Name;
use hol_terms::terms::{Con, Tm};
use hol_terms::types::Ty;
use std::alloc::{AllocError, Global};

/// Adds a type at the end of the text.
fn append_type(out: &mut Text, ty: &Ty) -> Result<(), AllocError>
    ensures { IfOk result (λ _. out.new ≡ out.old ++ written (type_form (plain_type ty.now))) }
{
    match ty {
        Ty::Base(letter) => out.push(letter.byte()),
        Ty::Fun(result_type, argument) => {
            out.push(b'(')?;
            append_type(out, result_type)?;
            out.push(b' ')?;
            append_type(out, argument)?;
            out.push(b')')
        }
    }
}

/// Adds a constant at the end of the text.
fn append_constant(out: &mut Text, con: &Con) -> Result<(), AllocError>
    ensures { IfOk result (λ _. out.new ≡ out.old ++ written (constant_form (plain_constant con.now))) }
{
    match con {
        Con::Not => out.append(b"NOT"),
        Con::And => out.append(b"AND"),
        Con::Or => out.append(b"OR"),
        Con::Implies => out.append(b"IMPLIES"),
        Con::Truth => out.append(b"TRUTH"),
        Con::Falsehood => out.append(b"FALSEHOOD"),
        Con::All(ty) => {
            out.append(b"(ALL ")?;
            append_type(out, ty)?;
            out.push(b')')
        }
        Con::Ex(ty) => {
            out.append(b"(SOME ")?;
            append_type(out, ty)?;
            out.push(b')')
        }
    }
}

/// Adds a name at the end of the text; after an error nothing is changed.
pub fn append_name(alloc: Global, out: &mut Text, name: &Name) -> Result<(), AllocError>
    ensures text { IfOk result (λ _. out.new ≡ out.old ++ encode_utf8_all name.now) }
    ensures named { IfOk result (λ _. IsName name.now) }
    ensures err { OnErr result (out.new ≡ out.old) }
{
    let characters = name.characters();
    let text: String = characters.iter().copied().collect(alloc)?;
    out.append(text.as_bytes())
}

/// Adds a number at the end of the text, in decimal; after an error nothing is changed.
pub fn append_number(alloc: Global, out: &mut Text, number: u64) -> Result<(), AllocError>
    ensures { MatchResult result (λ _. out.new ≡ out.old ++ decimal number) (λ _. out.new ≡ out.old) }
{
    let text = format!(in alloc; "{number}")?;
    out.append(text.as_bytes())
}

/// Adds a term at the end of the text.
#[tactic(auto, using(crate::proofs::Letters::type_letters, crate::proofs::Letters::constant_letters))]
fn add_term(alloc: Global, out: &mut Text, t: &Tm) -> Result<(), AllocError>
    ensures names { IfOk result (λ _. HasNames (plain_term t.now)) }
    ensures text { IfOk result (λ _. out.new ≡ out.old ++ written (term_form (plain_term t.now))) }
{
    match t {
        Tm::Free(name, ty) => {
            out.append(b"(V ")?;
            append_name(alloc, out, name)?;
            out.push(b' ')?;
            append_type(out, ty)?;
            out.push(b')')
        }
        Tm::Bound(index) => {
            out.append(b"(B ")?;
            append_number(alloc, out, *index)?;
            out.push(b')')
        }
        Tm::Con(con) => append_constant(out, con),
        Tm::App(function, argument) => {
            out.append(b"(A ")?;
            add_term(alloc, out, function)?;
            out.push(b' ')?;
            add_term(alloc, out, argument)?;
            out.push(b')')
        }
        Tm::Lam(ty, body) => {
            out.append(b"(L ")?;
            append_type(out, ty)?;
            out.push(b' ')?;
            add_term(alloc, out, body)?;
            out.push(b')')
        }
    }
}

/// The core form of a type, with one space between members, none after `(` and none before `)`. It is read again as that type,
/// within the limits of reading. An error comes only where memory runs out.
#[tactic(auto, using(crate::proofs::Letters::type_letters))]
pub fn write_type(alloc: Global, ty: &Ty) -> Result<Text, AllocError>
    ensures letters { HasLetters (plain_type ty.now) }
    ensures text { IfOk result (λ text. text ≡ written (type_form (plain_type ty.now))) }
{
    let mut out = Text::new(alloc);
    append_type(&mut out, ty)?;
    Ok(out)
}

/// The core form of a term, with one space between members, none after `(` and none before `)`. Where the term has a type, it is
/// read again as that term, within the limits of reading. An error comes only where memory runs out.
pub fn write_term(alloc: Global, t: &Tm) -> Result<Text, AllocError>
    ensures names { IfOk result (λ _. HasNames (plain_term t.now)) }
    ensures text { IfOk result (λ text. text ≡ written (term_form (plain_term t.now))) }
{
    let mut out = Text::new(alloc);
    add_term(alloc, &mut out, t)?;
    Ok(out)
}

/// Adds a term at the end of the text; after an error nothing is changed.
pub fn append_term(alloc: Global, out: &mut Text, t: &Tm) -> Result<(), AllocError>
    ensures names { IfOk result (λ _. HasNames (plain_term t.now)) }
    ensures text { IfOk result (λ _. out.new ≡ out.old ++ written (term_form (plain_term t.now))) }
    ensures err { OnErr result (out.new ≡ out.old) }
{
    let text = write_term(alloc, t)?;
    out.append(text.as_slice())
}
