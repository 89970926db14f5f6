//! What the arguments of a call stand for.

ghost use Rattle.std.specs.Prelude.{◌≡◌, ◌≢◌, ◌↔◌, IfErr, IfOk, IsTrue, MatchOption, ℕ};
ghost use Rattle.core_text.specs.CoreForms.{IsFormOfTerm};
ghost use Rattle.core_text.specs.Placed.{form_of, place_of, placed};
ghost use Rattle.hol_terms.specs.Terms.{Term, plain_term};
ghost use Rattle.hol_terms.specs.Typing.{IsFormula};

use core_text::faults::TextFault;
use core_text::sexps::{Sexp, Sexps};
use core_text::terms::read_preterm;
use hol_terms::terms::Tm;
use hol_terms::types::Ty;
use hol_terms::typing::type_of;
use std::alloc::{AllocError, Global};

/// Whether the term is a formula.
#[tactic(auto, using(hol_terms::proofs::TypingLaws::typed_once))]
fn is_formula(alloc: Global, t: &Tm) -> Result<bool, AllocError>
    ensures { IfOk result (λ b. IsTrue b ↔ IsFormula (plain_term t.now)) }
{
    match type_of(alloc, t)? {
        Some(ty) => Ok(ty.same(&Ty::truth())),
        None => Ok(false),
    }
}

/// The formula that the form is; `None` where it is a term that has no type, or another one than O.
pub fn formula(alloc: Global, form: &Sexp) -> Result<Option<Tm>, TextFault>
    ensures found { IfOk result (λ found. MatchOption found ((t : Term) × IsFormOfTerm (form_of form.now) t × (IsFormula t → ⊥)) (λ t. IsFormOfTerm (form_of form.now) (plain_term t) × IsFormula (plain_term t))) }
    ensures fault { IfErr result (λ e. e ≢ TextFault.Memory → (t : Term) → IsFormOfTerm (form_of form.now) t → ⊥) }
{
    let t = read_preterm(alloc, form)?;
    if !is_formula(alloc, &t)? {
        return Ok(None);
    }
    Ok(Some(t))
}

/// The members of a list; BadForm where the form is none.
pub fn members(form: &Sexp) -> Result<&Sexps, TextFault>
    ensures members { IfOk result (λ members. (place : ℕ) × (form.now ≡ Sexp.List members.now place)) }
    ensures none { IfErr result (λ fault. fault ≡ TextFault.BadForm (place_of (placed form.now)) × ((members : Sexps) → (place : ℕ) → form.now ≡ Sexp.List members place → ⊥)) }
{
    match form {
        Sexp::List(members, _) => Ok(members),
        _ => Err(TextFault::BadForm(form.place())),
    }
}
