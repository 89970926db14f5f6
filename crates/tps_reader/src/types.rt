//! Written types, read token by token.

ghost use Rattle.std.specs.Prelude.{◌≡◌, ◌≢◌, IfErr, IfOk, None, Some, if◌then◌else◌, false, true, map, reverse};
ghost use Rattle.std.specs.List.{list_all};
ghost use Rattle.std.specs.Option.{option_map};
ghost use Rattle.hol_terms.specs.Terms.{base_type, plain_constant, plain_type};
ghost use Rattle.tps_reader.specs.Grammar.{is_letter, joined, quantifier_constant, with_letters};
ghost use Rattle.tps_reader.specs.Machine.{part_end, type_end, type_step};
ghost use Rattle.tps_reader.specs.Reader.{Answers, plain_frames, plain_target};
ghost use Rattle.tps_reader.specs.Views.{plain_sign};

use crate::faults::RawFault;
use crate::frames::{Frame, Mode, Target, wait, with_atom};
use crate::lexemes::Symbol;
use crate::raws::{Binder, Raw};
use hol_terms::letters::Letter;
use hol_terms::terms::Con;
use hol_terms::types::Ty;
use std::alloc::{AllocError, Global};

/// The base type of a letter from A to Z.
fn base(c: char) -> Option<Ty>
    ensures { option_map plain_type result ≡ (if is_letter c then Some (base_type c) else None) }
{
    if c < 'A' || c > 'Z' {
        return None;
    }
    match Letter::new(c as u8) {
        Some(letter) => Some(Ty::Base(letter)),
        None => None,
    }
}

/// The type after another one: the function type to that one.
fn join(alloc: Global, before: Option<Ty>, ty: Ty) -> Result<Ty, AllocError>
    ensures { IfOk result (λ whole. plain_type whole ≡ joined (option_map plain_type before) (plain_type ty)) }
{
    match before {
        None => Ok(ty),
        Some(before) => Ty::fun(alloc, before, ty),
    }
}

/// The type with letters after it. Each character has to be a letter.
fn with_letters(
    alloc: Global,
    part: Option<Ty>,
    letters: &[char],
    here: u64,
) -> Result<Option<Ty>, RawFault>
    ensures all { IfOk result (λ _. list_all is_letter letters.now ≡ true) }
    ensures part { IfOk result (λ ty. option_map plain_type ty ≡ with_letters (option_map plain_type part) letters.now) }
    ensures fault { IfErr result (λ e. e ≢ RawFault.Memory → (e ≡ RawFault.Unexpected here) × (list_all is_letter letters.now ≡ false)) }
{
    let mut part = part;
    for letter in letters {
        let Some(ty) = base(*letter) else {
            return Err(RawFault::Unexpected(here));
        };
        part = Some(join(alloc, part, ty)?);
    }
    Ok(part)
}

/// The quantifier over a type, where the binder is one.
fn quantifier_constant(binder: Binder, ty: Ty) -> Option<Con>
    ensures { option_map plain_constant result ≡ quantifier_constant binder (plain_type ty) }
{
    match binder {
        Binder::Forall => Some(Con::All(ty)),
        Binder::Exists => Some(Con::Ex(ty)),
        Binder::Lambda => None,
    }
}

/// A written type is whole.
fn type_end(
    alloc: Global,
    frames: &mut Vec<Frame>,
    target: Target,
    ty: Ty,
    here: u64,
) -> Result<Mode, RawFault>
    ensures { Answers here (type_end (plain_frames frames.old.items) (plain_target target) (plain_type ty)) frames.new.items result }
{
    match target {
        Target::Variable(name, place) => {
            Ok(with_atom(alloc, frames, Raw::Var(name, Some(ty), place))?)
        }
        Target::Binding(binder, name, place) => {
            Ok(wait(frames, Frame::Binding(binder, name, Some(ty), place))?)
        }
        Target::Quantifier(binder, place) => match quantifier_constant(binder, ty) {
            Some(con) => Ok(Mode::Ending(con, place)),
            None => Err(RawFault::Unexpected(here)),
        },
    }
}

/// A parenthesis closes a part of a type.
fn part_end(
    alloc: Global,
    frames: &mut Vec<Frame>,
    target: Target,
    ty: Ty,
    around: Vec<Option<Ty>>,
    here: u64,
) -> Result<Mode, RawFault>
    ensures { Answers here (part_end (plain_frames frames.old.items) (plain_target target) (plain_type ty) (reverse (map (λ ty. option_map plain_type ty) around.items))) frames.new.items result }
{
    let mut around = around;
    match around.pop() {
        None => type_end(alloc, frames, target, ty, here),
        Some(outer) => {
            let part = join(alloc, outer, ty)?;
            Ok(Mode::Typing(target, Some(part), around))
        }
    }
}

/// One token more of a written type.
pub fn type_step(
    alloc: Global,
    frames: &mut Vec<Frame>,
    target: Target,
    part: Option<Ty>,
    around: Vec<Option<Ty>>,
    symbol: &Symbol,
    here: u64,
) -> Result<Mode, RawFault>
    ensures { Answers here (type_step (plain_frames frames.old.items) (plain_target target) (option_map plain_type part) (reverse (map (λ ty. option_map plain_type ty) around.items)) (plain_sign symbol.now)) frames.new.items result }
{
    match symbol {
        Symbol::OpenRound => {
            let mut around = around;
            around.push(part)?;
            Ok(Mode::Typing(target, None, around))
        }
        Symbol::CloseRound => match part {
            None => Err(RawFault::Unexpected(here)),
            Some(ty) => part_end(alloc, frames, target, ty, around, here),
        },
        Symbol::Word(word) => {
            if word.is_empty() {
                return Err(RawFault::Unexpected(here));
            }
            let part = match with_letters(alloc, part, word.as_slice(), here) {
                Ok(part) => part,
                Err(fault) => return Err(fault),
            };
            Ok(Mode::Typing(target, part, around))
        }
        _ => Err(RawFault::Unexpected(here)),
    }
}
