//! Printed formulas.

ghost use Rattle.std.specs.Prelude.{◌≡◌, [], IfOk};
ghost use Rattle.hol_terms.specs.Terms.{SimpleType, plain_term};
ghost use Rattle.hol_terms.specs.Typing.{Typed};
ghost use Rattle.tps_print.specs.Laws.{IsReadBack};
ghost use Rattle.tps_print.specs.Printed.{printed_formula};

use crate::levels::Level;
use crate::names::names_beside;
use crate::outputs::Output;
use crate::terms::append_term;
use hol_terms::lists::Text;
use hol_terms::terms::Tm;
use std::alloc::{AllocError, Global};

/// The text of a term as logicians write it. A binder with d binders around it has the name d + 1 of x1, x2 and so on, without the names
/// that are free in the term; the first occurrence of each free variable has its type after it. The text is read again as the term,
/// with its type as the wanted one and no known names, where no name is free at two types, no word is longer than 64 characters, and
/// the depth of the text is at most 1,000. An error comes only where memory runs out.
pub fn print_formula(alloc: Global, t: &Tm) -> Result<Text, AllocError>
    requires { (s : SimpleType) × Typed [] (plain_term t.now) s }
    ensures printed { IfOk result (λ text. text ≡ printed_formula (plain_term t.now)) }
    ensures read { IfOk result (λ text. IsReadBack (plain_term t.now) text) }
{
    let names = names_beside(alloc, t, None)?;
    let mut out = Output::new(alloc);
    append_term(&mut out, t, &names, 0, Level::Top)?;
    Ok(out.into_text())
}
