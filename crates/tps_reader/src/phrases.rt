//! Phrases, read token by token.

ghost use Rattle.std.specs.Prelude.{◌≡◌, ◌-◌, ◌≢◌, IfErr, IfOk, None, Some, if◌then◌else◌};
ghost use Rattle.std.specs.Option.{option_map};
ghost use Rattle.hol_terms.specs.Terms.{negation, plain_constant};
ghost use Rattle.tps_reader.specs.Faults.{IsPhraseFault};
ghost use Rattle.tps_reader.specs.Grammar.{IsFormula, infix_constant, truth_constant};
ghost use Rattle.tps_reader.specs.Machine.{after_bound, after_name, bind, constant_end, finish, group_end, have, in_bracket, lone_connective, lone_negation, opened, parsed, quantifier_type, step, want};
ghost use Rattle.tps_reader.specs.Parsing.{IsParseFault};
ghost use Rattle.tps_reader.specs.Raws.{RawFormula, plain_raw};
ghost use Rattle.tps_reader.specs.Reader.{Answers, plain_frames, plain_mode, plain_role, plain_state};
ghost use Rattle.tps_reader.specs.Tokens.{token_from, tokens_from};
ghost use Rattle.tps_reader.specs.Views.{plain_token, plain_tokens};

use crate::faults::RawFault;
use crate::frames::{Frame, Mode, Target, settle, wait, with_atom};
use crate::lexemes::Lexeme;
use crate::raws::{Binder, Infix, Raw};
use crate::roles::{Role, role_of};
use crate::types::type_step;
use hol_terms::names::Name;
use hol_terms::terms::Con;
use std::alloc::Global;

/// The constant that a connective is.
fn infix_constant(op: Infix) -> Option<Con>
    ensures { option_map plain_constant result ≡ infix_constant op }
{
    match op {
        Infix::And => Some(Con::And),
        Infix::Or => Some(Con::Or),
        Infix::Implies => Some(Con::Implies),
        Infix::Equiv => None,
    }
}

/// The constant that TRUTH or FALSEHOOD is.
fn truth_constant(value: bool) -> Con
    ensures { plain_constant result ≡ truth_constant value }
{
    if value { Con::Truth } else { Con::Falsehood }
}

/// The place of the innermost frame, an open bracket, which is taken away.
fn take_bracket(frames: &mut Vec<Frame>) -> Option<u64>
    ensures { opened (plain_frames frames.old.items) ≡ option_map (λ place. (place, plain_frames frames.new.items)) result }
{
    let place = frames.last()?.bracket_place()?;
    frames.truncate(frames.len() - 1);
    Some(place)
}

/// Takes away the innermost frame, and tells whether it was a negation.
fn take_negation(frames: &mut Vec<Frame>) -> bool
    ensures { lone_negation (plain_frames frames.old.items) ≡ (if result then in_bracket negation (plain_frames frames.new.items) else None) }
{
    let Some(frame) = frames.last() else {
        return false;
    };
    let is_negation = frame.is_negation();
    frames.truncate(frames.len() - 1);
    is_negation
}

/// A connective in brackets of its own.
fn lone_connective(frames: &mut Vec<Frame>, op: Infix, here: u64) -> Result<Mode, RawFault>
    ensures { Answers here (lone_connective op (plain_frames frames.old.items)) frames.new.items result }
{
    let Some(place) = take_bracket(frames) else {
        return Err(RawFault::Unexpected(here));
    };
    match infix_constant(op) {
        Some(con) => Ok(Mode::Ending(con, place)),
        None => Err(RawFault::Unexpected(here)),
    }
}

/// A constant whose bracket is closed.
fn in_bracket(alloc: Global, frames: &mut Vec<Frame>, con: Con, here: u64) -> Result<Mode, RawFault>
    ensures { Answers here (in_bracket (plain_constant con) (plain_frames frames.old.items)) frames.new.items result }
{
    let Some(place) = take_bracket(frames) else {
        return Err(RawFault::Unexpected(here));
    };
    Ok(with_atom(alloc, frames, Raw::Con(con, place))?)
}

/// `~` in brackets of its own.
fn lone_negation(alloc: Global, frames: &mut Vec<Frame>, here: u64) -> Result<Mode, RawFault>
    ensures { Answers here (lone_negation (plain_frames frames.old.items)) frames.new.items result }
{
    if !take_negation(frames) {
        return Err(RawFault::Unexpected(here));
    }
    in_bracket(alloc, frames, Con::Not, here)
}

/// A token where an operand is wanted.
fn want(alloc: Global, frames: &mut Vec<Frame>, role: Role, here: u64) -> Result<Mode, RawFault>
    ensures { Answers here (want (plain_frames frames.old.items) (plain_role role) here) frames.new.items result }
{
    match role {
        Role::Name(name) => Ok(Mode::Naming(name, here)),
        Role::Truth(value) => Ok(with_atom(alloc, frames, Raw::Con(truth_constant(value), here))?),
        Role::Binder(binder) => Ok(Mode::Binding(binder, here)),
        Role::Infix(op) => lone_connective(frames, op, here),
        Role::Opening => Ok(wait(frames, Frame::Bracket(here))?),
        Role::Closing => lone_negation(alloc, frames, here),
        Role::Dot => Ok(wait(frames, Frame::Dot(here))?),
        Role::Tilde => Ok(wait(frames, Frame::Negation(here))?),
        Role::Parenthesis => Err(RawFault::Unexpected(here)),
        Role::Other => Err(RawFault::Unexpected(here)),
    }
}

/// The innermost group is whole.
fn group_end(
    alloc: Global,
    frames: &mut Vec<Frame>,
    group: Raw,
    here: u64,
) -> Result<Mode, RawFault>
    ensures { Answers here (group_end (plain_frames frames.old.items) (plain_raw group)) frames.new.items result }
{
    let Some(place) = take_bracket(frames) else {
        return Err(RawFault::Unexpected(here));
    };
    Ok(with_atom(alloc, frames, group.moved(place))?)
}

/// A token after an operand.
fn have(
    alloc: Global,
    frames: &mut Vec<Frame>,
    operand: Raw,
    role: Role,
    here: u64,
) -> Result<Mode, RawFault>
    ensures { Answers here (have (plain_frames frames.old.items) (plain_raw operand) (plain_role role) here) frames.new.items result }
{
    match role {
        Role::Infix(op) => {
            let left = settle(alloc, frames, op.rank(), operand)?;
            Ok(wait(frames, Frame::Side(op, left))?)
        }
        Role::Closing => {
            let group = settle(alloc, frames, 0, operand)?;
            group_end(alloc, frames, group, here)
        }
        Role::Name(_) | Role::Truth(_) | Role::Opening | Role::Dot => {
            frames.push(Frame::Application(operand))?;
            want(alloc, frames, role, here)
        }
        Role::Binder(_) | Role::Tilde | Role::Parenthesis | Role::Other => {
            Err(RawFault::Unexpected(here))
        }
    }
}

/// A token after a name, whose type may follow.
fn after_name(
    alloc: Global,
    frames: &mut Vec<Frame>,
    name: Name,
    place: u64,
    role: Role,
    here: u64,
) -> Result<Mode, RawFault>
    ensures { Answers here (after_name (plain_frames frames.old.items) name place (plain_role role) here) frames.new.items result }
{
    if role.is_parenthesis() {
        let target = Target::Variable(name, place);
        return Ok(Mode::Typing(target, None, Vec::new(alloc)));
    }
    let operand = settle(alloc, frames, 6, Raw::Var(name, None, place))?;
    have(alloc, frames, operand, role, here)
}

/// The written type of a quantifier in brackets of its own.
fn quantifier_type(
    alloc: Global,
    frames: &mut Vec<Frame>,
    binder: Binder,
    here: u64,
) -> Result<Mode, RawFault>
    ensures { Answers here (quantifier_type binder (plain_frames frames.old.items)) frames.new.items result }
{
    let Some(place) = take_bracket(frames) else {
        return Err(RawFault::Unexpected(here));
    };
    match binder {
        Binder::Lambda => Err(RawFault::Unexpected(here)),
        Binder::Forall => Ok(Mode::Typing(
            Target::Quantifier(Binder::Forall, place),
            None,
            Vec::new(alloc),
        )),
        Binder::Exists => Ok(Mode::Typing(
            Target::Quantifier(Binder::Exists, place),
            None,
            Vec::new(alloc),
        )),
    }
}

/// A token after a binder.
fn bind(
    alloc: Global,
    frames: &mut Vec<Frame>,
    binder: Binder,
    place: u64,
    role: Role,
    here: u64,
) -> Result<Mode, RawFault>
    ensures { Answers here (bind (plain_frames frames.old.items) binder place (plain_role role)) frames.new.items result }
{
    match role {
        Role::Name(name) => Ok(Mode::BindingName(binder, name, place)),
        Role::Parenthesis => quantifier_type(alloc, frames, binder, here),
        _ => Err(RawFault::Unexpected(here)),
    }
}

/// A token after a binder and a name, whose type may follow.
fn after_bound(
    alloc: Global,
    frames: &mut Vec<Frame>,
    binder: Binder,
    name: Name,
    place: u64,
    role: Role,
    here: u64,
) -> Result<Mode, RawFault>
    ensures { Answers here (after_bound (plain_frames frames.old.items) binder name place (plain_role role) here) frames.new.items result }
{
    if role.is_parenthesis() {
        let target = Target::Binding(binder, name, place);
        return Ok(Mode::Typing(target, None, Vec::new(alloc)));
    }
    frames.push(Frame::Binding(binder, name, None, place))?;
    want(alloc, frames, role, here)
}

/// A token after a constant in brackets of its own.
fn constant_end(
    alloc: Global,
    frames: &mut Vec<Frame>,
    con: Con,
    place: u64,
    role: Role,
    here: u64,
) -> Result<Mode, RawFault>
    ensures { Answers here (constant_end (plain_frames frames.old.items) (plain_constant con) place (plain_role role)) frames.new.items result }
{
    if !role.is_closing() {
        return Err(RawFault::Unexpected(here));
    }
    Ok(with_atom(alloc, frames, Raw::Con(con, place))?)
}

/// One token more, its place counted from `origin`.
fn step(
    alloc: Global,
    frames: &mut Vec<Frame>,
    mode: Mode,
    lexeme: &Lexeme,
    origin: u64,
) -> Result<Mode, RawFault>
    ensures { Answers ((lexeme.now).place - origin) (step (plain_frames frames.old.items, plain_mode mode) (token_from origin (plain_token lexeme.now))) frames.new.items result }
{
    let here = lexeme.place.saturating_sub(origin);
    let symbol = &lexeme.symbol;
    match mode {
        Mode::Wanting => want(alloc, frames, role_of(alloc, symbol)?, here),
        Mode::Having(operand) => have(alloc, frames, operand, role_of(alloc, symbol)?, here),
        Mode::Naming(name, place) => after_name(
            alloc,
            frames,
            name,
            place,
            role_of(alloc, symbol)?,
            here,
        ),
        Mode::Binding(binder, place) => bind(
            alloc,
            frames,
            binder,
            place,
            role_of(alloc, symbol)?,
            here,
        ),
        Mode::BindingName(binder, name, place) => after_bound(
            alloc,
            frames,
            binder,
            name,
            place,
            role_of(alloc, symbol)?,
            here,
        ),
        Mode::Typing(target, part, around) => type_step(
            alloc, frames, target, part, around, symbol, here,
        ),
        Mode::Ending(con, place) => constant_end(
            alloc,
            frames,
            con,
            place,
            role_of(alloc, symbol)?,
            here,
        ),
    }
}

/// The phrase, where it is whole.
fn finish(alloc: Global, frames: Vec<Frame>, mode: Mode, end: u64) -> Result<Raw, RawFault>
    ensures phrase { IfOk result (λ phrase. finish (plain_state frames.items mode) ≡ Some (plain_raw phrase)) }
    ensures fault { IfErr result (λ e. e ≢ RawFault.Memory → (e ≡ RawFault.Unexpected end) × (finish (plain_state frames.items mode) ≡ None)) }
{
    let operand = match mode {
        Mode::Having(operand) => operand,
        Mode::Naming(name, place) => Raw::Var(name, None, place),
        _ => return Err(RawFault::Unexpected(end)),
    };
    let mut frames = frames;
    let phrase = settle(alloc, &mut frames, 0, operand)?;
    if frames.is_empty() {
        Ok(phrase)
    } else {
        Err(RawFault::Unexpected(end))
    }
}

/// Reads the tokens one after the other, their places counted from `origin`.
fn read_all(alloc: Global, lexemes: &[Lexeme], origin: u64, end: u64) -> Result<Raw, RawFault>
    ensures phrase { IfOk result (λ phrase. parsed (tokens_from origin (plain_tokens lexemes.now)) ≡ Some (plain_raw phrase)) }
    ensures fault { IfErr result (λ e. IsParseFault (tokens_from origin (plain_tokens lexemes.now)) end e) }
{
    let mut frames = Vec::new(alloc);
    let mut mode = Mode::Wanting;
    for lexeme in lexemes {
        mode = match step(alloc, &mut frames, mode, lexeme, origin) {
            Ok(next) => next,
            Err(fault) => return Err(fault),
        };
    }
    finish(alloc, frames, mode, end)
}

/// Reads a phrase, all of the tokens. All places are counted from `origin`, which is where the text of the phrase begins: those of the
/// phrase and that of the fault. `Unexpected` has the place of the first token such that no phrase begins with the tokens up to it, or
/// `end` where the tokens only begin one. How deep the tokens stand in each other isn't looked at.
pub fn read_phrase(
    alloc: Global,
    lexemes: &[Lexeme],
    origin: u64,
    end: u64,
) -> Result<Raw, RawFault>
    ensures phrase { IfOk result (λ phrase. IsFormula (tokens_from origin (plain_tokens lexemes.now)) (plain_raw phrase)) }
    ensures only { IfOk result (λ phrase. (other : RawFormula) → IsFormula (tokens_from origin (plain_tokens lexemes.now)) other → other ≡ plain_raw phrase) }
    ensures fault { IfErr result (λ e. IsPhraseFault (tokens_from origin (plain_tokens lexemes.now)) end e) }
    ensures none { IfErr result (λ e. e ≢ RawFault.Memory → (other : RawFormula) → IsFormula (tokens_from origin (plain_tokens lexemes.now)) other → ⊥) }
{
    read_all(alloc, lexemes, origin, end)
}
