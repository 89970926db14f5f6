//! Commands read from forms, and whether they are typed.

ghost use Rattle.std.specs.Prelude.{[], IfOk, IsTrue};
ghost use Rattle.hol_terms.specs.Terms.{SimpleType, plain_term};
ghost use Rattle.hol_terms.specs.Typing.{IsFormula, Typed};
ghost use Rattle.etps_session.specs.Commands.{IsTyped, plain_command};

use crate::answers::NoAnswer;
use crate::forms::{hypotheses, member, name, number, numbers, term, word};
use core_text::sexps::Sexp;
use core_text::types::read_type;
use etps_session::commands::Command;
use hol_terms::terms::Tm;
use hol_terms::types::Ty;
use hol_terms::typing::type_of;
use nd_rules::shapes::has_type;
use std::alloc::{AllocError, Global};

/// `(P n FORMULA)`.
fn hypothesis(alloc: Global, form: &Sexp) -> Result<Command, NoAnswer> {
    Ok(Command::P {
        number: number(form, 1)?,
        formula: term(alloc, form, 2)?,
    })
}

/// `(PLAN n (h ..) FORMULA)`.
fn plan(alloc: Global, form: &Sexp) -> Result<Command, NoAnswer> {
    Ok(Command::Plan {
        number: number(form, 1)?,
        hyps: hypotheses(alloc, form, 2)?,
        formula: term(alloc, form, 3)?,
    })
}

/// `(DEDUCT n d h)`.
fn deduction(form: &Sexp) -> Result<Command, NoAnswer> {
    Ok(Command::Deduct {
        number: number(form, 1)?,
        src: number(form, 2)?,
        hyp: number(form, 3)?,
    })
}

/// `(UI n d TERM)`.
fn instance(alloc: Global, form: &Sexp) -> Result<Command, NoAnswer> {
    Ok(Command::Ui {
        number: number(form, 1)?,
        src: number(form, 2)?,
        term: term(alloc, form, 3)?,
    })
}

/// `(UGEN n d NAME TYPE)`.
fn generalization(alloc: Global, form: &Sexp) -> Result<Command, NoAnswer> {
    Ok(Command::Ugen {
        number: number(form, 1)?,
        src: number(form, 2)?,
        var: name(alloc, form, 3)?,
        ty: read_type(alloc, member(form, 4)?)?,
    })
}

/// `(EGEN n d TERM FORMULA)`.
fn existence(alloc: Global, form: &Sexp) -> Result<Command, NoAnswer> {
    Ok(Command::Egen {
        number: number(form, 1)?,
        src: number(form, 2)?,
        term: term(alloc, form, 3)?,
        formula: term(alloc, form, 4)?,
    })
}

/// `(RULEC n e h d NAME)`.
fn choice(alloc: Global, form: &Sexp) -> Result<Command, NoAnswer> {
    Ok(Command::Rulec {
        number: number(form, 1)?,
        some_line: number(form, 2)?,
        hyp: number(form, 3)?,
        src: number(form, 4)?,
        var: name(alloc, form, 5)?,
    })
}

/// `(LAMBDA n d FORMULA)`.
fn conversion(alloc: Global, form: &Sexp) -> Result<Command, NoAnswer> {
    Ok(Command::Lambda {
        number: number(form, 1)?,
        src: number(form, 2)?,
        formula: term(alloc, form, 3)?,
    })
}

/// `(RULEP n (d ..) FORMULA)`.
fn consequence(alloc: Global, form: &Sexp) -> Result<Command, NoAnswer> {
    Ok(Command::Rulep {
        number: number(form, 1)?,
        src: numbers(alloc, form, 2)?,
        formula: term(alloc, form, 3)?,
    })
}

/// The command that a list is.
pub fn command(alloc: Global, form: &Sexp) -> Result<Command, NoAnswer> {
    match word(form.first())? {
        "P" => hypothesis(alloc, form),
        "PLAN" => plan(alloc, form),
        "DEDUCT" => deduction(form),
        "UI" => instance(alloc, form),
        "UGEN" => generalization(alloc, form),
        "EGEN" => existence(alloc, form),
        "RULEC" => choice(alloc, form),
        "LAMBDA" => conversion(alloc, form),
        "RULEP" => consequence(alloc, form),
        _ => Err(NoAnswer::NoSuchCall),
    }
}

/// Whether the term has a type.
fn is_typed_term(alloc: Global, term: &Tm) -> Result<bool, AllocError>
    ensures { IfOk result (λ b. IsTrue b → (s : SimpleType) × Typed [] (plain_term term.now) s) }
{
    match type_of(alloc, term)? {
        Some(_) => Ok(true),
        None => Ok(false),
    }
}

/// Whether the term has a type, and the formula is one.
fn is_typed_pair(alloc: Global, term: &Tm, formula: &Tm) -> Result<bool, AllocError>
    ensures term { IfOk result (λ b. IsTrue b → (s : SimpleType) × Typed [] (plain_term term.now) s) }
    ensures formula { IfOk result (λ b. IsTrue b → IsFormula (plain_term formula.now)) }
{
    if !is_typed_term(alloc, term)? {
        return Ok(false);
    }
    has_type(alloc, formula, &Ty::truth())
}

/// Whether the command's formula is one, and its term has a type.
pub fn is_typed(alloc: Global, command: &Command) -> Result<bool, AllocError>
    ensures { IfOk result (λ b. IsTrue b → IsTyped (plain_command command.now)) }
{
    match command {
        Command::P { formula, .. } => has_type(alloc, formula, &Ty::truth()),
        Command::Plan { formula, .. } => has_type(alloc, formula, &Ty::truth()),
        Command::Lambda { formula, .. } => has_type(alloc, formula, &Ty::truth()),
        Command::Rulep { formula, .. } => has_type(alloc, formula, &Ty::truth()),
        Command::Ui { term, .. } => is_typed_term(alloc, term),
        Command::Egen { term, formula, .. } => is_typed_pair(alloc, term, formula),
        Command::Deduct { .. } => Ok(true),
        Command::Ugen { .. } => Ok(true),
        Command::Rulec { .. } => Ok(true),
    }
}
