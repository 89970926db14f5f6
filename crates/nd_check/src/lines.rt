//! Lines read from forms.

ghost use Rattle.std.specs.Prelude.{◌≡◌, map};
ghost use Rattle.core_text.specs.Placed.{placed, placed_all};
ghost use Rattle.core_text.specs.Reading.{Gives};
ghost use Rattle.nd_rules.specs.Lines.{plain_line};
ghost use Rattle.nd_check.specs.Reading.{above_in, hypotheses_at, line_at, line_in, lines_at, rising_at};

use crate::justifications::read_why;
use core_text::faults::TextFault;
use core_text::sexps::{Sexp, Sexps};
use core_text::terms::{read_number, read_preterm};
use hol_terms::lists::Hyps;
use nd_rules::lines::Line;
use std::alloc::Global;

/// A number above the last one, where there is one.
fn read_above(last: Option<u64>, form: &Sexp) -> Result<u64, TextFault>
    ensures { Gives (λ n. n) result (above_in last (placed form.now)) }
{
    let number = read_number(form)?;
    match last {
        None => Ok(number),
        Some(last) => {
            if last < number {
                Ok(number)
            } else {
                Err(TextFault::BadForm(form.place()))
            }
        }
    }
}

/// The numbers of the members of a list, each above the one before it.
fn read_rising(alloc: Global, members: &Sexps) -> Result<Hyps, TextFault>
    ensures { Gives (λ hyps. hyps) result (rising_at None (placed_all members.now)) }
{
    let mut hyps = Hyps::new(alloc);
    let mut rest = members;
    while let Sexps::More(form, more) = rest {
        let number = match read_number(form) {
            Ok(number) => number,
            Err(fault) => return Err(fault),
        };
        if !hyps.may_push(number) {
            return Err(TextFault::BadForm(form.place()));
        }
        hyps.push(number)?;
        rest = &**more;
    }
    Ok(hyps)
}

/// The hypotheses of a line.
fn read_hypotheses(alloc: Global, form: &Sexp) -> Result<Hyps, TextFault>
    ensures { Gives (λ hyps. hyps) result (hypotheses_at (placed form.now)) }
{
    match form {
        Sexp::List(members, _) => read_rising(alloc, members),
        _ => Err(TextFault::BadForm(form.place())),
    }
}

/// The members of a line's form.
#[derive(Clone, Copy)]
struct LineForms<'a> {
    number: &'a Sexp,
    hyps: &'a Sexp,
    formula: &'a Sexp,
    why: &'a Sexp,
}

/// The line of the members, its terms typed or not, with a number above the last one.
fn read_members(alloc: Global, last: Option<u64>, forms: LineForms<'_>) -> Result<Line, TextFault>
    ensures { Gives plain_line result (line_in last (placed forms.entry.number.now) (placed forms.entry.hyps.now) (placed forms.entry.formula.now) (placed forms.entry.why.now)) }
{
    let number = read_above(last, forms.number)?;
    let hyps = read_hypotheses(alloc, forms.hyps)?;
    let formula = read_preterm(alloc, forms.formula)?;
    let why = read_why(alloc, forms.why)?;
    Ok(Line {
        number,
        hyps,
        formula,
        why,
    })
}

/// The line of a form, its terms typed or not, with a number above the last one.
fn read_line(alloc: Global, last: Option<u64>, form: &Sexp) -> Result<Line, TextFault>
    ensures { Gives plain_line result (line_at last (placed form.now)) }
{
    let Sexp::List(all, place) = form else {
        return Err(TextFault::BadForm(form.place()));
    };
    let Sexps::More(number, rest) = all else {
        return Err(TextFault::BadForm(*place));
    };
    let Sexps::More(hyps, rest) = &**rest else {
        return Err(TextFault::BadForm(*place));
    };
    let Sexps::More(formula, rest) = &**rest else {
        return Err(TextFault::BadForm(*place));
    };
    let Sexps::More(why, rest) = &**rest else {
        return Err(TextFault::BadForm(*place));
    };
    let Sexps::End = &**rest else {
        return Err(TextFault::BadForm(*place));
    };
    let forms = LineForms {
        number: &**number,
        hyps: &**hyps,
        formula: &**formula,
        why: &**why,
    };
    read_members(alloc, last, forms)
}

/// Reads lines, their terms typed or not. `BadForm` has the place of the first form, a list before its members, that has no place in
/// the table; a number that doesn't rise has none.
pub fn read_lines(alloc: Global, members: &Sexps) -> Result<Vec<Line>, TextFault>
    ensures { Gives (λ lines. map plain_line lines.items) result (lines_at None (placed_all members.now)) }
{
    let mut lines = Vec::new(alloc);
    let mut last = None;
    let mut rest = members;
    while let Sexps::More(form, more) = rest {
        let line = match read_line(alloc, last, form) {
            Ok(line) => line,
            Err(fault) => return Err(fault),
        };
        last = Some(line.number);
        lines.push(line)?;
        rest = &**more;
    }
    Ok(lines)
}
