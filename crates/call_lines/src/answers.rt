//! Answers as text.

ghost use Rattle.std.specs.Prelude.{◌≡◌, ◌≢◌, ◌++◌, ◌∷◌, if◌then◌else◌, IfErr, IfOk, IsUtf8, OnErr, codes, encode_utf8_all, string_bytes};
ghost use Rattle.core_text.specs.CoreForms.{term_form, type_form};
ghost use Rattle.core_text.specs.Written.{written};
ghost use Rattle.hol_terms.specs.Terms.{plain_term, plain_type};

use core_text::faults::TextFault;
use core_text::writers::{append_name, write_term, write_type};
use hol_terms::lists::Text;
use hol_terms::names::Name;
use hol_terms::terms::Tm;
use hol_terms::types::Ty;
use std::alloc::{AllocError, Global};

/// The text as a string; NotUtf8 where its bytes are none.
pub fn string_of(alloc: Global, text: &Text) -> Result<String, TextFault>
    ensures text { IfOk result (λ s. string_bytes s ≡ text.now) }
    ensures fault { IfErr result (λ e. e ≢ TextFault.Memory → (IsUtf8 text.now → ⊥) × e ≡ TextFault.NotUtf8) }
{
    match std::str::from_utf8(text.as_slice()) {
        Ok(string) => Ok(String::from_str(alloc, string)?),
        Err(_) => Err(TextFault::NotUtf8),
    }
}

/// The term as core text.
pub fn term_text(alloc: Global, t: &Tm) -> Result<String, TextFault>
    ensures text { IfOk result (λ s. string_bytes s ≡ written (term_form (plain_term t.now))) }
    ensures fault { IfErr result (λ e. e ≢ TextFault.Memory → IsUtf8 (written (term_form (plain_term t.now))) → ⊥) }
{
    string_of(alloc, &write_term(alloc, t)?)
}

/// The type as core text.
pub fn type_text(alloc: Global, ty: &Ty) -> Result<String, TextFault>
    ensures text { IfOk result (λ s. string_bytes s ≡ written (type_form (plain_type ty.now))) }
    ensures fault { IfErr result (λ e. e ≢ TextFault.Memory → IsUtf8 (written (type_form (plain_type ty.now))) → ⊥) }
{
    string_of(alloc, &write_type(alloc, ty)?)
}

/// The name.
pub fn name_text(alloc: Global, name: &Name) -> Result<String, TextFault>
    ensures text { IfOk result (λ s. string_bytes s ≡ encode_utf8_all name.now) }
    ensures fault { IfErr result (λ e. e ≢ TextFault.Memory → IsUtf8 (encode_utf8_all name.now) → ⊥) }
{
    let mut text = Text::new(alloc);
    append_name(alloc, &mut text, name)?;
    string_of(alloc, &text)
}

/// Adds the term after a space; after an error nothing is changed.
pub fn push_term(alloc: Global, answer: &mut String, t: &Tm) -> Result<(), TextFault>
    ensures text { IfOk result (λ _. string_bytes answer.new ≡ string_bytes answer.old ++ 32 ∷ written (term_form (plain_term t.now))) }
    ensures fault { IfErr result (λ e. e ≢ TextFault.Memory → IsUtf8 (written (term_form (plain_term t.now))) → ⊥) }
    ensures err { OnErr result (string_bytes answer.new ≡ string_bytes answer.old) }
{
    let text = term_text(alloc, t)?;
    let mut piece = String::from_str(alloc, " ")?;
    piece.push_str(text.as_str())?;
    answer.push_str(piece.as_str())?;
    Ok(())
}

/// `yes` or `no`.
pub fn verdict(alloc: Global, holds: bool) -> Result<String, AllocError>
    ensures { IfOk result (λ s. string_bytes s ≡ (if holds then codes "yes" else codes "no")) }
{
    String::from_str(alloc, if holds { "yes" } else { "no" })
}
