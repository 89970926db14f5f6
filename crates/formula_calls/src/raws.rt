//! Raw formulas as text.

use crate::answers::{Answer, NoAnswer};
use call_lines::answers::{name_text, term_text, type_text};
use hol_terms::names::Name;
use hol_terms::terms::{Con, Tm};
use hol_terms::types::Ty;
use std::alloc::Global;
use tps_reader::raws::{Binder, Infix, Raw};

/// Adds the name, and after a colon the type where one is written.
fn push_variable(
    alloc: Global,
    out: &mut String,
    name: &Name,
    ty: &Option<Ty>,
) -> Result<(), NoAnswer> {
    out.push_str(name_text(alloc, name)?.as_str())?;
    if let Some(ty) = ty {
        out.push(':')?;
        out.push_str(type_text(alloc, ty)?.as_str())?;
    }
    Ok(())
}

/// The constant.
fn constant_text(alloc: Global, con: &Con) -> Answer {
    Ok(term_text(alloc, &Tm::Con(con.copy(alloc)?))?)
}

/// Adds the constant.
fn push_constant(alloc: Global, out: &mut String, con: &Con) -> Result<(), NoAnswer> {
    out.push_str(constant_text(alloc, con)?.as_str())?;
    Ok(())
}

/// The word of a connective, with a space around it.
fn infix_word(op: Infix) -> &'static str {
    match op {
        Infix::And => " AND ",
        Infix::Or => " OR ",
        Infix::Implies => " IMPLIES ",
        Infix::Equiv => " EQUIV ",
    }
}

/// The word of a binder.
fn binder_word(binder: Binder) -> &'static str {
    match binder {
        Binder::Forall => "(FORALL ",
        Binder::Exists => "(EXISTS ",
        Binder::Lambda => "(LAMBDA ",
    }
}

/// Adds the place of a phrase.
fn push_place(alloc: Global, out: &mut String, place: u64) -> Result<(), NoAnswer> {
    out.push_str(format!(in alloc; "@{place}")?.as_str())?;
    Ok(())
}

/// Adds a phrase, each part that isn't a name or a constant in parentheses, and each with its place.
pub fn push_raw(alloc: Global, out: &mut String, raw: &Raw) -> Result<(), NoAnswer> {
    match raw {
        Raw::Var(name, ty, _) => push_variable(alloc, out, name, ty)?,
        Raw::Con(con, _) => push_constant(alloc, out, con)?,
        Raw::App(function, argument, _) => {
            out.push('(')?;
            push_raw(alloc, out, function)?;
            out.push(' ')?;
            push_raw(alloc, out, argument)?;
            out.push(')')?;
        }
        Raw::Bind(binder, name, ty, body, _) => {
            out.push_str(binder_word(*binder))?;
            push_variable(alloc, out, name, ty)?;
            out.push(' ')?;
            push_raw(alloc, out, body)?;
            out.push(')')?;
        }
        Raw::Bin(op, left, right, _) => {
            out.push('(')?;
            push_raw(alloc, out, left)?;
            out.push_str(infix_word(*op))?;
            push_raw(alloc, out, right)?;
            out.push(')')?;
        }
        Raw::Not(below, _) => {
            out.push_str("(~ ")?;
            push_raw(alloc, out, below)?;
            out.push(')')?;
        }
    }
    push_place(alloc, out, raw.place())
}

/// A phrase, each part that isn't a name or a constant in parentheses, and each with its place.
pub fn raw_text(alloc: Global, raw: &Raw) -> Answer {
    let mut out = String::new(alloc);
    push_raw(alloc, &mut out, raw)?;
    Ok(out)
}
