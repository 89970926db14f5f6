//! Printed terms.

ghost use Rattle.std.specs.Prelude.{◌≡◌, ◌++◌, ◌∷◌, ◌+◌, [], IfOk, OnOk, codes, cond, map};
ghost use Rattle.std.specs.String.{string_bytes};
ghost use Rattle.hol_terms.specs.Terms.{abstraction, application, plain_constant, plain_term, plain_type};
ghost use Rattle.tps_print.specs.Outputs.{after};
ghost use Rattle.tps_print.specs.Pieces.{binder_text, bracketed, brackets_application, brackets_compound, brackets_negation, constant_text, fixed, name_at as name_of_place, pieces};
ghost use Rattle.tps_print.specs.declared.levels.Level.TheVariants as level_of;

use crate::levels::Level;
use crate::outputs::Output;
use crate::shapes::{Shape, shape_of};
use hol_terms::terms::{Con, Tm};
use hol_terms::types::Ty;
use std::alloc::AllocError;

/// The name of the binder with this many around it.
fn name_at(names: &[String], place: u64) -> &str
    ensures { result.now ≡ name_of_place (map string_bytes names.now) place }
{
    match names.get(place as usize) {
        Some(name) => name.as_str(),
        None => "",
    }
}

/// One binder more.
fn deeper(depth: u64) -> Result<u64, AllocError>
    ensures { IfOk result (λ inner. inner ≡ depth + 1) }
{
    match depth.checked_add(1) {
        Some(inner) => Ok(inner),
        None => Err(AllocError),
    }
}

/// Adds an opening bracket, where it is wanted.
fn open_bracket(out: &mut Output, wanted: bool) -> Result<(), AllocError>
    ensures { OnOk result (out.new ≡ after out.old (fixed (cond wanted (codes "[") []) ∷ [])) }
{
    out.fixed(if wanted { b"[" } else { b"" })
}

/// Adds a closing bracket, where it is wanted.
fn close_bracket(out: &mut Output, wanted: bool) -> Result<(), AllocError>
    ensures { OnOk result (out.new ≡ after out.old (fixed (cond wanted (codes "]") []) ∷ [])) }
{
    out.fixed(if wanted { b"]" } else { b"" })
}

/// Adds a constant alone.
fn append_constant(out: &mut Output, con: &Con) -> Result<(), AllocError>
    ensures { OnOk result (out.new ≡ after out.old (fixed (constant_text (plain_constant con.now)) ∷ [])) }
{
    match con {
        Con::Not => out.fixed(b"[~]"),
        Con::And => out.fixed(b"[AND]"),
        Con::Or => out.fixed(b"[OR]"),
        Con::Implies => out.fixed(b"[IMPLIES]"),
        Con::Truth => out.fixed(b"TRUTH"),
        Con::Falsehood => out.fixed(b"FALSEHOOD"),
        Con::All(ty) => out.quantifier(b"[FORALL", ty),
        Con::Ex(ty) => out.quantifier(b"[EXISTS", ty),
    }
}

/// Adds a negation.
#[cycle(append_term)]
#[tactic(auto, using(crate::proofs::Printing::around_one))]
fn append_negation(
    out: &mut Output,
    below: &Tm,
    names: &[String],
    depth: u64,
    level: Level,
) -> Result<(), AllocError>
    ensures { OnOk result (out.new ≡ after out.old (bracketed (brackets_negation level) (fixed (codes "~ ") ∷ pieces (map string_bytes names.now) depth level_of.Operand (plain_term below.now)))) }
{
    open_bracket(out, level.brackets_negation())?;
    out.fixed(b"~ ")?;
    append_term(out, below, names, depth, Level::Operand)?;
    close_bracket(out, level.brackets_negation())
}

/// Adds a binder with its scope.
#[cycle(append_term)]
#[tactic(auto, using(crate::proofs::Printing::around_one))]
fn append_binding(
    out: &mut Output,
    word: &[u8],
    ty: &Ty,
    body: &Tm,
    names: &[String],
    depth: u64,
    level: Level,
) -> Result<(), AllocError>
    ensures { OnOk result (out.new ≡ after out.old (bracketed (brackets_compound level) (fixed (binder_text word.now (name_of_place (map string_bytes names.now) depth) (plain_type ty.now)) ∷ pieces (map string_bytes names.now) (depth + 1) level_of.Top (plain_term body.now)))) }
{
    open_bracket(out, level.brackets_compound())?;
    out.binder(word, name_at(names, depth).as_bytes(), ty)?;
    append_term(out, body, names, deeper(depth)?, Level::Top)?;
    close_bracket(out, level.brackets_compound())
}

/// Adds a connective between its sides.
#[cycle(append_term)]
#[tactic(auto, using(crate::proofs::Printing::around_two))]
fn append_sides(
    out: &mut Output,
    left: &Tm,
    word: &[u8],
    right: &Tm,
    names: &[String],
    depth: u64,
    level: Level,
) -> Result<(), AllocError>
    ensures { OnOk result (out.new ≡ after out.old (bracketed (brackets_compound level) (pieces (map string_bytes names.now) depth level_of.Operand (plain_term left.now) ++ (fixed word.now ∷ pieces (map string_bytes names.now) depth level_of.Operand (plain_term right.now))))) }
{
    open_bracket(out, level.brackets_compound())?;
    append_term(out, left, names, depth, Level::Operand)?;
    out.fixed(word)?;
    append_term(out, right, names, depth, Level::Operand)?;
    close_bracket(out, level.brackets_compound())
}

/// Adds a function and its argument.
#[cycle(append_term)]
#[tactic(auto, using(crate::proofs::Printing::around_two))]
fn append_applied(
    out: &mut Output,
    function: &Tm,
    argument: &Tm,
    names: &[String],
    depth: u64,
    level: Level,
) -> Result<(), AllocError>
    ensures { OnOk result (out.new ≡ after out.old (bracketed (brackets_application level) (pieces (map string_bytes names.now) depth level_of.Function (plain_term function.now) ++ (fixed (codes " ") ∷ pieces (map string_bytes names.now) depth level_of.Argument (plain_term argument.now))))) }
{
    open_bracket(out, level.brackets_application())?;
    append_term(out, function, names, depth, Level::Function)?;
    out.fixed(b" ")?;
    append_term(out, argument, names, depth, Level::Argument)?;
    close_bracket(out, level.brackets_application())
}

/// Adds an application: a negation, a quantifier with its scope, a connective with its sides, or a function and its argument.
#[cycle(append_term)]
fn append_application(
    out: &mut Output,
    function: &Tm,
    argument: &Tm,
    names: &[String],
    depth: u64,
    level: Level,
) -> Result<(), AllocError>
    ensures { OnOk result (out.new ≡ after out.old (pieces (map string_bytes names.now) depth level (application (plain_term function.now) (plain_term argument.now)))) }
{
    match shape_of(function, argument) {
        Shape::Negation(below) => append_negation(out, below, names, depth, level),
        Shape::Universal(ty, body) => append_binding(out, b"FORALL", ty, body, names, depth, level),
        Shape::Existential(ty, body) => {
            append_binding(out, b"EXISTS", ty, body, names, depth, level)
        }
        Shape::Conjunction(left, right) => {
            append_sides(out, left, b" AND ", right, names, depth, level)
        }
        Shape::Disjunction(left, right) => {
            append_sides(out, left, b" OR ", right, names, depth, level)
        }
        Shape::Implication(left, right) => {
            append_sides(out, left, b" IMPLIES ", right, names, depth, level)
        }
        Shape::Applied => append_applied(out, function, argument, names, depth, level),
    }
}

/// Adds a term at a level, where this many binders stand around it and have the first of the names.
#[cycle(append_term)]
pub(crate) fn append_term(
    out: &mut Output,
    t: &Tm,
    names: &[String],
    depth: u64,
    level: Level,
) -> Result<(), AllocError>
    ensures { OnOk result (out.new ≡ after out.old (pieces (map string_bytes names.now) depth level (plain_term t.now))) }
{
    match t {
        Tm::Free(name, ty) => out.variable(name, ty),
        Tm::Bound(index) => {
            let place = depth.saturating_sub(*index).saturating_sub(1);
            out.fixed(name_at(names, place).as_bytes())
        }
        Tm::Con(con) => append_constant(out, con),
        Tm::App(function, argument) => {
            append_application(out, function, argument, names, depth, level)
        }
        Tm::Lam(ty, body) => append_binding(out, b"LAMBDA", ty, body, names, depth, level),
    }
}
