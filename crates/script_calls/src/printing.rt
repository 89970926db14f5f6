//! Calls of `tps_print`.

ghost use Rattle.std.specs.Prelude.{◌≡◌, IfOk, string_bytes};
ghost use Rattle.core_text.specs.CoreForms.{IsFormOfTyped};
ghost use Rattle.core_text.specs.Forms.{Form, IsTextOf};
ghost use Rattle.hol_terms.specs.Terms.{Term};
ghost use Rattle.tps_print.specs.Printed.{printed_formula};

use crate::answers::{Answer, NoAnswer};
use call_lines::answers::{string_of, verdict};
use core_text::brackets::read_sexp;
use core_text::terms::read_term;
use hol_terms::lists::Vars;
use hol_terms::terms::same;
use hol_terms::typing::type_of;
use nd_check::texts::read_derivation;
use std::alloc::Global;
use tps_print::formulas::print_formula;
use tps_print::lines::print_line;
use tps_reader::readers::read_raw;
use type_infer::inference::infer;

/// `TERM`: its text.
pub fn printed(alloc: Global, arguments: &str) -> Answer
    ensures { IfOk result (λ answer. (f : Form) × (t : Term) × IsTextOf arguments.now f × IsFormOfTyped f t × string_bytes answer ≡ printed_formula t) }
{
    let t = read_term(alloc, &read_sexp(alloc, arguments.as_bytes())?)?;
    Ok(string_of(alloc, &print_formula(alloc, &t)?)?)
}

/// `TERM`: whether its text, with its type as the wanted one, is read again as the term alone.
pub fn read_back(alloc: Global, arguments: &str) -> Answer {
    let t = read_term(alloc, &read_sexp(alloc, arguments.as_bytes())?)?;
    let Some(ty) = type_of(alloc, &t)? else {
        return Err(NoAnswer::NotTyped);
    };
    let text = print_formula(alloc, &t)?;
    let raw = read_raw(alloc, text.as_slice())?;
    match infer(alloc, &raw, Some(&ty), &Vars::new(alloc)) {
        Ok(again) => Ok(verdict(alloc, same(&t, &again))?),
        Err(_) => Ok(verdict(alloc, false)?),
    }
}

/// `DERIVATION`: the texts of its lines, with ` / ` between them.
pub fn printed_lines(alloc: Global, arguments: &str) -> Answer {
    let outline = read_derivation(alloc, arguments.as_bytes())?;
    let mut answer = String::new(alloc);
    for i in 0..outline.len() {
        if i > 0 {
            answer.push_str(" / ")?;
        }
        let line = print_line(alloc, outline.at(i))?;
        answer.push_str(string_of(alloc, &line)?.as_str())?;
    }
    Ok(answer)
}
