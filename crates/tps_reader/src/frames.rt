//! What waits for an operand while a phrase is read.

ghost use Rattle.std.specs.Prelude.{◌≡◌, ◌∷◌, IfOk, List, None, if◌then◌else◌};
ghost use Rattle.std.specs.Option.{option_map};
ghost use Rattle.hol_terms.specs.Terms.{negation, plain_type};
ghost use Rattle.tps_reader.specs.Grammar.{infix_rank, right_rank};
ghost use Rattle.tps_reader.specs.Machine.{Frame as PlainFrame, bracket_place, filled, in_bracket, lone_negation, settled, waiting, wanted_rank, with_atom};
ghost use Rattle.tps_reader.specs.Raws.{place_of, plain_raw, raw_application, raw_binding, raw_connective, raw_negation};
ghost use Rattle.tps_reader.specs.Reader.{plain_frame, plain_frames, plain_state};

use crate::raws::{Binder, Infix, Raw};
use hol_terms::names::Name;
use hol_terms::terms::Con;
use hol_terms::types::Ty;
use std::alloc::{AllocError, Global};

/// What waits for an operand: an open bracket, a dot, a negation or a binder, each with its place, a left side with its connective, or
/// what is to be applied.
#[derive(Drop)]
pub enum Frame {
    Bracket(u64),
    Dot(u64),
    Negation(u64),
    Binding(Binder, Name, Option<Ty>, u64),
    Side(Infix, Raw),
    Application(Raw),
}

/// What a written type is for: a variable with its place, a variable of a binder, or a quantifier alone with the place of its bracket.
#[derive(Drop)]
pub enum Target {
    Variable(Name, u64),
    Binding(Binder, Name, u64),
    Quantifier(Binder, u64),
}

/// What was read last: an operand is wanted, or was read; a name whose type may follow; a binder; a binder with a name whose type may
/// follow; a written type that isn't closed, with its innermost part and the parts around it; or a constant that is to be closed by a
/// bracket.
#[derive(Drop)]
pub enum Mode {
    Wanting,
    Having(Raw),
    Naming(Name, u64),
    Binding(Binder, u64),
    BindingName(Binder, Name, u64),
    Typing(Target, Option<Ty>, Vec<Option<Ty>>),
    Ending(Con, u64),
}

impl Infix {
    /// How tightly the connective binds, from 1 for EQUIV to 4 for AND.
    pub fn rank(self) -> u64
        ensures { result ≡ infix_rank self }
    {
        match self {
            Infix::Equiv => 1,
            Infix::Implies => 2,
            Infix::Or => 3,
            Infix::And => 4,
        }
    }

    /// How tightly its right side has to bind.
    fn right_rank(self) -> u64
        ensures { result ≡ right_rank self }
    {
        match self {
            Infix::Equiv => 2,
            Infix::Implies => 2,
            Infix::Or => 4,
            Infix::And => 5,
        }
    }
}

impl Frame {
    /// How tightly the operand has to bind; none goes past a bracket.
    fn wanted_rank(&self) -> u64
        ensures { result ≡ wanted_rank (plain_frame self.now) }
    {
        match self {
            Frame::Bracket(_) => 0,
            Frame::Dot(_) => 1,
            Frame::Negation(_) => 5,
            Frame::Binding(_, _, _, _) => 5,
            Frame::Side(op, _) => op.right_rank(),
            Frame::Application(_) => 7,
        }
    }

    /// The place of an open bracket.
    pub fn bracket_place(&self) -> Option<u64>
        ensures { result ≡ bracket_place (plain_frame self.now) }
    {
        match self {
            Frame::Bracket(place) => Some(*place),
            _ => None,
        }
    }

    /// Whether the frame is a negation.
    pub fn is_negation(&self) -> bool
        ensures { (around : List PlainFrame) → lone_negation (plain_frame self.now ∷ around) ≡ (if result then in_bracket negation around else None) }
    {
        match self {
            Frame::Negation(_) => true,
            _ => false,
        }
    }

    /// The phrase with its operand.
    fn fill(self, alloc: Global, operand: Raw) -> Result<Raw, AllocError>
        ensures { IfOk result (λ phrase. plain_raw phrase ≡ filled (plain_frame self) (plain_raw operand)) }
    {
        match self {
            Frame::Bracket(place) => Ok(operand.moved(place)),
            Frame::Dot(place) => Ok(operand.moved(place)),
            Frame::Negation(place) => negation(alloc, operand, place),
            Frame::Binding(binder, name, ty, place) => {
                bound(alloc, binder, name, ty, operand, place)
            }
            Frame::Side(op, left) => between(alloc, op, left, operand),
            Frame::Application(function) => applied(alloc, function, operand),
        }
    }
}

/// A phrase in a box.
fn boxed(alloc: Global, phrase: Raw) -> Result<Box<Raw>, AllocError>
    ensures { IfOk result (λ part. plain_raw part.value ≡ plain_raw phrase) }
{
    Ok(Box::new(alloc, phrase)?)
}

/// The negation of a phrase.
fn negation(alloc: Global, operand: Raw, place: u64) -> Result<Raw, AllocError>
    ensures { IfOk result (λ phrase. plain_raw phrase ≡ raw_negation (plain_raw operand) place) }
{
    Ok(Raw::Not(boxed(alloc, operand)?, place))
}

/// A phrase after a binder and its variable.
fn bound(
    alloc: Global,
    binder: Binder,
    name: Name,
    ty: Option<Ty>,
    operand: Raw,
    place: u64,
) -> Result<Raw, AllocError>
    ensures { IfOk result (λ phrase. plain_raw phrase ≡ raw_binding binder name (option_map plain_type ty) (plain_raw operand) place) }
{
    let body = boxed(alloc, operand)?;
    Ok(Raw::Bind(binder, name, ty, body, place))
}

/// A connective between two phrases.
fn between(alloc: Global, op: Infix, left: Raw, right: Raw) -> Result<Raw, AllocError>
    ensures { IfOk result (λ phrase. plain_raw phrase ≡ raw_connective op (plain_raw left) (plain_raw right) (place_of (plain_raw left))) }
{
    let place = left.place();
    let left = boxed(alloc, left)?;
    let right = boxed(alloc, right)?;
    Ok(Raw::Bin(op, left, right, place))
}

/// A phrase that is applied to another one.
fn applied(alloc: Global, function: Raw, argument: Raw) -> Result<Raw, AllocError>
    ensures { IfOk result (λ phrase. plain_raw phrase ≡ raw_application (plain_raw function) (plain_raw argument) (place_of (plain_raw function))) }
{
    let place = function.place();
    let function = boxed(alloc, function)?;
    let argument = boxed(alloc, argument)?;
    Ok(Raw::App(function, argument, place))
}

/// Each frame whose operand has to bind tighter than `least` takes it, the innermost first.
pub fn settle(
    alloc: Global,
    frames: &mut Vec<Frame>,
    least: u64,
    operand: Raw,
) -> Result<Raw, AllocError>
    ensures { IfOk result (λ phrase. (plain_frames frames.new.items, plain_raw phrase) ≡ settled least (plain_frames frames.old.items) (plain_raw operand)) }
{
    let mut operand = operand;
    while let Some(frame) = frames.pop() {
        if frame.wanted_rank() <= least {
            frames.push(frame)?;
            return Ok(operand);
        }
        operand = frame.fill(alloc, operand)?;
    }
    Ok(operand)
}

/// An atom is applied at once.
pub fn with_atom(alloc: Global, frames: &mut Vec<Frame>, atom: Raw) -> Result<Mode, AllocError>
    ensures { IfOk result (λ mode. plain_state frames.new.items mode ≡ with_atom (plain_frames frames.old.items) (plain_raw atom)) }
{
    Ok(Mode::Having(settle(alloc, frames, 6, atom)?))
}

/// The frame waits for an operand.
pub fn wait(frames: &mut Vec<Frame>, frame: Frame) -> Result<Mode, AllocError>
    ensures { IfOk result (λ mode. plain_state frames.new.items mode ≡ waiting (plain_frame frame) (plain_frames frames.old.items)) }
{
    frames.push(frame)?;
    Ok(Mode::Wanting)
}
