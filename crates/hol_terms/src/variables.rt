//! The free variables of a term.

ghost use Rattle.std.specs.Prelude.{◌≡◌, ◌↔◌, ◌++◌, ◌∷◌, [], IfOk, IsTrue, OnOk, encode_utf8_all};
ghost use Rattle.std.specs.String.{string_bytes};
ghost use Rattle.hol_terms.specs.Collected.{AreKeysOf, key_of, type_characters, with_variable, with_variables};
ghost use Rattle.hol_terms.specs.FreeVariables.{IsFree, free_variables_of, occurrences};
ghost use Rattle.hol_terms.specs.Terms.{plain_term, plain_type};

use crate::lists::Vars;
use crate::names::Name;
use crate::terms::Tm;
use crate::types::Ty;
use std::alloc::{AllocError, Global};
use std::collections::HashSet;

/// Whether the variable of that name and type is free in the term.
pub fn is_free(name: &Name, ty: &Ty, t: &Tm) -> bool
    ensures { IsTrue result ↔ IsFree name.now (plain_type ty.now) (plain_term t.now) }
{
    match t {
        Tm::Free(other_name, other_ty) => name.same(other_name) && ty.same(other_ty),
        Tm::Bound(_) => false,
        Tm::Con(_) => false,
        Tm::App(function, argument) => is_free(name, ty, function) || is_free(name, ty, argument),
        Tm::Lam(_, body) => is_free(name, ty, body),
    }
}

/// The characters of a type are added to the key: b and the letter, or f, the result and the argument.
#[tactic(auto, using(crate::proofs::Collecting::encoded_both))]
fn write_type(key: &mut String, ty: &Ty) -> Result<(), AllocError>
    ensures { OnOk result (string_bytes key.new ≡ string_bytes key.old ++ encode_utf8_all (type_characters (plain_type ty.now))) }
{
    match ty {
        Ty::Base(letter) => {
            key.push('b')?;
            key.push(char::from(letter.byte()))
        }
        Ty::Fun(result_type, argument) => {
            key.push('f')?;
            write_type(key, result_type)?;
            write_type(key, argument)?;
            Ok(())
        }
    }
}

/// The characters are added to the key.
fn write_characters(key: &mut String, characters: &[char]) -> Result<(), AllocError>
    ensures { OnOk result (string_bytes key.new ≡ string_bytes key.old ++ encode_utf8_all characters.now) }
{
    for c in characters {
        key.push(*c)?;
    }
    Ok(())
}

/// The text by which a variable is found: its type, and then its name.
#[tactic(auto, using(crate::proofs::Collecting::encoded_both))]
pub(crate) fn key_of_variable(alloc: Global, name: &Name, ty: &Ty) -> Result<String, AllocError>
    ensures { IfOk result (λ key. string_bytes key ≡ key_of (name.now, plain_type ty.now)) }
{
    let mut key = String::new(alloc);
    write_type(&mut key, ty)?;
    write_characters(&mut key, name.characters())?;
    Ok(key)
}

/// The variable is added to the list where its key is new.
fn collect_variable(
    alloc: Global,
    keys: &mut HashSet<String>,
    variables: &mut Vars,
    name: &Name,
    ty: &Ty,
) -> Result<(), AllocError>
    requires { AreKeysOf keys.old variables.old }
    ensures list { OnOk result (variables.new ≡ with_variable variables.old (name.now, plain_type ty.now)) }
    ensures keys { OnOk result (AreKeysOf keys.new variables.new) }
{
    let key = key_of_variable(alloc, name, ty)?;
    if keys.insert(key)? {
        let name = name.copy(alloc)?;
        let ty = ty.copy(alloc)?;
        variables.push(name, ty)?;
    }
    Ok(())
}

/// The free variables of the term are added to the list where their keys are new.
#[tactic(auto, using(crate::proofs::Collecting::with_variables_append))]
fn collect_free(
    alloc: Global,
    keys: &mut HashSet<String>,
    variables: &mut Vars,
    t: &Tm,
) -> Result<(), AllocError>
    requires { AreKeysOf keys.old variables.old }
    ensures list { OnOk result (variables.new ≡ with_variables variables.old (occurrences (plain_term t.now))) }
    ensures keys { OnOk result (AreKeysOf keys.new variables.new) }
{
    match t {
        Tm::Free(name, ty) => collect_variable(alloc, keys, variables, name, ty),
        Tm::Bound(_) => Ok(()),
        Tm::Con(_) => Ok(()),
        Tm::App(function, argument) => {
            collect_free(alloc, keys, variables, function)?;
            collect_free(alloc, keys, variables, argument)
        }
        Tm::Lam(_, body) => collect_free(alloc, keys, variables, body),
    }
}

/// The free variables of the term, each once, in the order of first occurrence.
#[tactic(auto, using(crate::proofs::Collecting::with_variables_from_none, crate::proofs::Collecting::are_keys_of_none))]
pub fn free_variables(alloc: Global, t: &Tm) -> Result<Vars, AllocError>
    ensures { IfOk result (λ variables. variables ≡ free_variables_of (plain_term t.now)) }
{
    let mut keys = HashSet::new(alloc);
    let mut variables = Vars::new(alloc);
    collect_free(alloc, &mut keys, &mut variables, t)?;
    Ok(variables)
}
