//! What the nodes of a phrase ask of the types.

ghost use Rattle.std.specs.Prelude.{◌≡◌, ◌+◌, ◌∷◌, ◌++◌, [], IfOk, OnOk, map};
ghost use Rattle.std.specs.Option.{option_map};
ghost use Rattle.hol_terms.specs.Terms.{plain_constant, plain_type, truth_type};
ghost use Rattle.hol_terms.specs.Typing.{type_of_constant};
ghost use Rattle.tps_reader.specs.Raws.{plain_raw};
ghost use Rattle.type_infer.specs.Annotations.{innermost};
ghost use Rattle.type_infer.specs.Conditions.{all_conditions, asked, binder_conditions, conditions_of, is_given, occurrence_conditions, own_type};
ghost use Rattle.type_infer.specs.Equations.{plain_condition, plain_equation};
ghost use Rattle.type_infer.specs.Scopes.{binders};

use crate::known::Known;
use crate::scopes::Scope;
use hol_terms::indices::raised_index;
use hol_terms::lists::Vars;
use hol_terms::names::Name;
use hol_terms::terms::Con;
use hol_terms::types::Ty;
use std::alloc::{AllocError, Global};
use tps_reader::raws::{Binder, Raw};

/// An equation between types, which have numbers: the types of the first two numbers are the same, or a type is that of a free
/// name, or a given one, or the type of the functions to the second from the third.
#[derive(Drop)]
pub enum Equation<'a> {
    Same(u64, u64),
    Named(u64, &'a Name),
    Given(u64, Ty),
    Function(u64, u64, u64),
}

/// An equation, with the place of the node that asks it.
#[derive(Drop)]
pub struct Condition<'a> {
    pub place: u64,
    pub equation: Equation<'a>,
}

/// The equation is put after the others.
fn add<'a>(
    conditions: &mut Vec<Condition<'a>>,
    place: u64,
    equation: Equation<'a>,
) -> Result<(), AllocError>
    ensures { OnOk result (map plain_condition conditions.new.items ≡ map plain_condition conditions.old.items ++ (place, plain_equation equation.entry) ∷ []) }
{
    conditions.push(Condition { place, equation })?;
    Ok(())
}

/// The type is that of truth values.
fn ask_truth<'a>(
    conditions: &mut Vec<Condition<'a>>,
    place: u64,
    number: u64,
) -> Result<(), AllocError>
    ensures { OnOk result (map plain_condition conditions.new.items ≡ map plain_condition conditions.old.items ++ (place, is_given number truth_type) ∷ []) }
{
    add(conditions, place, Equation::Given(number, Ty::truth()))
}

/// What a constant asks of its type.
fn constant<'a>(
    alloc: Global,
    conditions: &mut Vec<Condition<'a>>,
    place: u64,
    con: &Con,
    number: u64,
) -> Result<(), AllocError>
    ensures { OnOk result (map plain_condition conditions.new.items ≡ map plain_condition conditions.old.items ++ (place, is_given number (type_of_constant (plain_constant con.now))) ∷ []) }
{
    let ty = con.type_of(alloc)?;
    add(conditions, place, Equation::Given(number, ty))
}

/// What a negation asks of the type below it and of its own.
fn negation<'a>(
    conditions: &mut Vec<Condition<'a>>,
    place: u64,
    below: u64,
    own: u64,
) -> Result<(), AllocError>
    ensures { OnOk result (map plain_condition conditions.new.items ≡ map plain_condition conditions.old.items ++ (place, is_given below truth_type) ∷ (place, is_given own truth_type) ∷ []) }
{
    ask_truth(conditions, place, below)?;
    ask_truth(conditions, place, own)
}

/// What a connective asks of the types of its sides and of its own.
fn connective<'a>(
    conditions: &mut Vec<Condition<'a>>,
    place: u64,
    left: u64,
    right: u64,
    own: u64,
) -> Result<(), AllocError>
    ensures { OnOk result (map plain_condition conditions.new.items ≡ map plain_condition conditions.old.items ++ (place, is_given left truth_type) ∷ (place, is_given right truth_type) ∷ (place, is_given own truth_type) ∷ []) }
{
    ask_truth(conditions, place, left)?;
    negation(conditions, place, right, own)
}

/// The type is the given one, where one is given.
fn ask<'a>(
    alloc: Global,
    conditions: &mut Vec<Condition<'a>>,
    place: u64,
    number: u64,
    ty: Option<&Ty>,
) -> Result<(), AllocError>
    ensures { OnOk result (map plain_condition conditions.new.items ≡ map plain_condition conditions.old.items ++ asked place number (option_map (λ t. plain_type t.now) ty.entry)) }
{
    match ty {
        None => Ok(()),
        Some(ty) => add(conditions, place, Equation::Given(number, ty.copy(alloc)?)),
    }
}

/// What an occurrence of a name asks of the type of its number.
fn occurrence<'a>(
    alloc: Global,
    conditions: &mut Vec<Condition<'a>>,
    known: &Known<'_>,
    scope: &Scope<'_>,
    place: u64,
    name: &'a Name,
    number: u64,
) -> Result<(), AllocError>
    ensures { OnOk result (map plain_condition conditions.new.items ≡ map plain_condition conditions.old.items ++ occurrence_conditions known.now place name.now number (innermost name.now (binders scope.now))) }
{
    match scope.innermost(name)? {
        Some((_, binder)) => add(conditions, place, Equation::Same(number, binder)),
        None => {
            add(conditions, place, Equation::Named(number, name))?;
            ask(alloc, conditions, place, number, known.type_of(name)?)
        }
    }
}

/// What a binder asks of the types of its variable, its scope and itself.
fn binding<'a>(
    conditions: &mut Vec<Condition<'a>>,
    place: u64,
    binder: Binder,
    variable: u64,
    body: u64,
    own: u64,
) -> Result<(), AllocError>
    requires { own ≡ body + 1 }
    ensures { OnOk result (map plain_condition conditions.new.items ≡ map plain_condition conditions.old.items ++ binder_conditions binder place variable body) }
{
    match binder {
        Binder::Forall | Binder::Exists => { negation(conditions, place, body, own) }
        Binder::Lambda => add(conditions, place, Equation::Function(own, body, variable)),
    }
}

/// The conditions of the nodes of a phrase are put after the others. Its numbers begin with `first`; the answer is the last of
/// them, which is that of its own type.
fn collect<'a>(
    alloc: Global,
    conditions: &mut Vec<Condition<'a>>,
    known: &Known<'_>,
    scope: &Scope<'_>,
    first: u64,
    raw: &'a Raw,
) -> Result<u64, AllocError>
    ensures own { IfOk result (λ own. own ≡ own_type first (plain_raw raw.now)) }
    ensures conditions { OnOk result (map plain_condition conditions.new.items ≡ map plain_condition conditions.old.items ++ conditions_of known.now (binders scope.now) first (plain_raw raw.now)) }
{
    match raw {
        Raw::Var(name, written, place) => {
            ask(alloc, conditions, *place, first, written.as_ref())?;
            occurrence(alloc, conditions, known, scope, *place, name, first)?;
            Ok(first)
        }
        Raw::Con(con, place) => {
            constant(alloc, conditions, *place, con, first)?;
            Ok(first)
        }
        Raw::App(function, argument, place) => {
            let function = collect(alloc, conditions, known, scope, first, function)?;
            let argument = collect(
                alloc,
                conditions,
                known,
                scope,
                raised_index(function, 1)?,
                argument,
            )?;
            let own = raised_index(argument, 1)?;
            add(
                conditions,
                *place,
                Equation::Function(function, own, argument),
            )?;
            Ok(own)
        }
        Raw::Bind(binder, name, written, body, place) => {
            let inner = Scope::Under(name, first, scope);
            let body = collect(
                alloc,
                conditions,
                known,
                &inner,
                raised_index(first, 1)?,
                body,
            )?;
            let own = raised_index(body, 1)?;
            ask(alloc, conditions, *place, first, written.as_ref())?;
            binding(conditions, *place, *binder, first, body, own)?;
            Ok(own)
        }
        Raw::Bin(_, left, right, place) => {
            let left = collect(alloc, conditions, known, scope, first, left)?;
            let right = collect(
                alloc,
                conditions,
                known,
                scope,
                raised_index(left, 1)?,
                right,
            )?;
            let own = raised_index(right, 1)?;
            connective(conditions, *place, left, right, own)?;
            Ok(own)
        }
        Raw::Not(below, place) => {
            let below = collect(alloc, conditions, known, scope, first, below)?;
            let own = raised_index(below, 1)?;
            negation(conditions, *place, below, own)?;
            Ok(own)
        }
    }
}

/// The conditions of the nodes of a phrase, and how many numbers of types they speak of.
#[derive(Drop)]
pub struct Asked<'a> {
    pub conditions: Vec<Condition<'a>>,
    pub count: u64,
}

/// All conditions of a phrase, in the order of its nodes, with that of the wanted type.
pub fn conditions_of<'a>(
    alloc: Global,
    raw: &'a Raw,
    wanted: Option<&Ty>,
    known: &Vars,
) -> Result<Asked<'a>, AllocError>
    ensures conditions { IfOk result (λ asked. map plain_condition asked.conditions.items ≡ all_conditions (plain_raw raw.now) (option_map (λ t. plain_type t.now) wanted.entry) known.now) }
    ensures count { IfOk result (λ asked. asked.count ≡ own_type 0 (plain_raw raw.now) + 1) }
{
    let mut conditions = Vec::new(alloc);
    let known = Known::new(alloc, known)?;
    let own = collect(alloc, &mut conditions, &known, &Scope::Outside, 0, raw)?;
    ask(alloc, &mut conditions, raw.place(), own, wanted)?;
    let count = raised_index(own, 1)?;
    Ok(Asked { conditions, count })
}
