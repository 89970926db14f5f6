//! The formulas and terms of lines judged together with their forms.

ghost use Rattle.std.specs.Prelude.{◌≡◌, map};
ghost use Rattle.hol_terms.specs.Terms.{plain_type};
ghost use Rattle.core_text.specs.Faults.{or_else};
ghost use Rattle.core_text.specs.Judged.{Answers};
ghost use Rattle.core_text.specs.Placed.{placed, placed_all};
ghost use Rattle.nd_rules.specs.Lines.{plain_line, plain_why};
ghost use Rattle.nd_check.specs.Reading.{fourth_of, line_judged, lines_judged, other_at, unless_other, why_judged};

use core_text::faults::TextFault;
use core_text::sexps::{Sexp, Sexps};
use core_text::typings::judge;
use hol_terms::types::Ty;
use nd_rules::lines::{Line, Why};
use std::alloc::Global;

/// The fourth member of a list; any other form stands for itself.
fn fourth(form: &Sexp) -> &Sexp
    ensures { placed result.now ≡ fourth_of (placed form.now) }
{
    let Sexp::List(all, _) = form else {
        return form;
    };
    let Sexps::More(_, rest) = all else {
        return form;
    };
    let Sexps::More(_, rest) = &**rest else {
        return form;
    };
    let Sexps::More(_, rest) = &**rest else {
        return form;
    };
    let Sexps::More(member, _) = &**rest else {
        return form;
    };
    &**member
}

/// Judges the term of a justification, where it has one.
fn judge_why(alloc: Global, why: &Why, form: &Sexp) -> Result<(), TextFault>
    ensures { Answers (λ done. tt) result (why_judged (plain_why why.now) (placed form.now)) }
{
    let term = match why {
        Why::Ui { src: _, term } => term,
        Why::Egen { src: _, term } => term,
        _ => return Ok(()),
    };
    match judge(alloc, term, form.third()) {
        Ok(_) => Ok(()),
        Err(fault) => Err(fault),
    }
}

/// The type of a line's formula, where the formula and the term of its justification have types.
fn judge_line(alloc: Global, line: &Line, form: &Sexp) -> Result<Ty, TextFault>
    ensures { Answers plain_type result (line_judged (plain_line line.now) (placed form.now)) }
{
    let ty = judge(alloc, &line.formula, form.third())?;
    match judge_why(alloc, &line.why, fourth(form)) {
        Ok(_) => Ok(ty),
        Err(fault) => Err(fault),
    }
}

/// The place of a formula of this type, where it isn't O.
#[tactic(auto, using(crate::proofs::Judged::other_found))]
fn other(ty: &Ty, place: u64) -> Option<u64>
    ensures { result ≡ other_at (plain_type ty.now) place }
{
    if ty.same(&Ty::truth()) {
        None
    } else {
        Some(place)
    }
}

/// The fault of a formula of another type than O, by its place.
fn ended(other: Option<u64>) -> Result<(), TextFault>
    ensures { Answers (λ done. tt) result (unless_other other) }
{
    match other {
        None => Ok(()),
        Some(place) => Err(TextFault::IllTyped(place)),
    }
}

/// Judges the formulas and terms of lines, in the order of their forms: `LooseIndex` and `IllTyped` of each, and then `IllTyped` at
/// the first formula of another type than O.
pub fn judge_lines(alloc: Global, lines: &[Line], members: &Sexps) -> Result<(), TextFault>
    ensures { Answers (λ done. tt) result (lines_judged (map plain_line lines.now) (placed_all members.now)) }
{
    let mut found = None;
    let mut forms = members;
    for line in lines {
        let Sexps::More(form, others) = forms else {
            return ended(found);
        };
        let ty = match judge_line(alloc, line, form) {
            Ok(ty) => ty,
            Err(fault) => return Err(fault),
        };
        found = found.or(other(&ty, form.third().place()));
        forms = &**others;
    }
    ended(found)
}
