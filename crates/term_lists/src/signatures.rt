//! The signature of a formula: the heads that a search may put into terms.

ghost use Rattle.std.specs.Prelude.{◌≡◌, ◌↔◌, ◌≤◌, ◌++◌, ◌∷◌, [], Contains, IfOk, OnOk, codes, flat_map, map};
ghost use Rattle.hol_conv.specs.NormalForms.{normal_form};
ghost use Rattle.hol_terms.specs.FreeVariables.{free_variables_of};
ghost use Rattle.hol_terms.specs.Terms.{Term, plain_term, plain_type};
ghost use Rattle.hol_terms.specs.Typing.{IsFormula};
ghost use Rattle.expansion_tree.specs.Budgets.{Head as PlainHead, IsInSignature, constant_head, types_in, variable_head};
ghost use Rattle.expansion_tree.specs.Standing.{IsNormalFormula};
ghost use Rattle.term_lists.specs.Heads.{plain_head};
ghost use Rattle.term_lists.specs.Signatures.{AreDistinct, connectives, constants_at, fill_at, fill_variables, first_types, new_variables, quantifiers_at, signature_list};

use crate::heads::{Head, Signature};
use crate::type_lists::types_of_term;
use hol_conv::normal::normal;
use hol_terms::letters::Letter;
use hol_terms::names::{Name, NameFault};
use hol_terms::terms::{Con, Tm};
use hol_terms::types::Ty;
use hol_terms::variables::{free_variables, is_free};
use std::alloc::{AllocError, Global};

/// The free variables of the formula are added, in the order of first occurrence.
fn add_variables(alloc: Global, formula: &Tm, heads: &mut Vec<Head>) -> Result<(), AllocError>
    ensures { OnOk result (map plain_head heads.new.items ≡ map plain_head heads.old.items ++ map variable_head (free_variables_of (plain_term formula.now))) }
{
    let variables = free_variables(alloc, formula)?;
    for variable in variables.as_slice() {
        add_variable(alloc, &variable.0, &variable.1, &mut *heads)?;
    }
    Ok(())
}

/// One variable is added.
fn add_variable(
    alloc: Global,
    name: &Name,
    ty: &Ty,
    heads: &mut Vec<Head>,
) -> Result<(), AllocError>
    ensures { OnOk result (map plain_head heads.new.items ≡ map plain_head heads.old.items ++ variable_head (name.now, plain_type ty.now) ∷ []) }
{
    let name = name.copy(alloc)?;
    let ty = ty.copy(alloc)?;
    heads.push(Head::Free(name, ty))?;
    Ok(())
}

/// The name FILL.
fn fill_name(alloc: Global) -> Result<Name, AllocError>
    ensures { IfOk result (λ name. name ≡ codes "FILL") }
{
    match Name::new(alloc, "FILL") {
        Ok(name) => Ok(name),
        Err(NameFault::NotAName) => unreachable!(),
        Err(NameFault::Memory) => Err(AllocError),
    }
}

/// The variable FILL at the letter's type is added where it isn't free in the formula.
fn add_fill(
    alloc: Global,
    formula: &Tm,
    letter: Letter,
    heads: &mut Vec<Head>,
) -> Result<(), AllocError>
    ensures { OnOk result (map plain_head heads.new.items ≡ map plain_head heads.old.items ++ map variable_head (new_variables (free_variables_of (plain_term formula.now)) (fill_at letter.byte ∷ []))) }
{
    let name = fill_name(alloc)?;
    let ty = Ty::Base(letter);
    if is_free(&name, &ty, formula) {
        return Ok(());
    }
    heads.push(Head::Free(name, ty))?;
    Ok(())
}

/// The same at each letter.
fn add_fills(alloc: Global, formula: &Tm, heads: &mut Vec<Head>) -> Result<(), AllocError>
    ensures { OnOk result (map plain_head heads.new.items ≡ map plain_head heads.old.items ++ map variable_head (new_variables (free_variables_of (plain_term formula.now)) fill_variables)) }
{
    for byte in 65..91 {
        let Some(letter) = Letter::new(byte) else {
            unreachable!();
        };
        add_fill(alloc, formula, letter, &mut *heads)?;
    }
    Ok(())
}

/// The connectives, TRUTH and FALSEHOOD are added.
fn add_connectives(heads: &mut Vec<Head>) -> Result<(), AllocError>
    ensures { OnOk result (map plain_head heads.new.items ≡ map plain_head heads.old.items ++ map constant_head connectives) }
{
    heads.push(Head::Con(Con::Not))?;
    heads.push(Head::Con(Con::And))?;
    heads.push(Head::Con(Con::Or))?;
    heads.push(Head::Con(Con::Implies))?;
    heads.push(Head::Con(Con::Truth))?;
    heads.push(Head::Con(Con::Falsehood))?;
    Ok(())
}

/// The quantifiers at the type are added.
fn add_quantifiers_at(alloc: Global, ty: &Ty, heads: &mut Vec<Head>) -> Result<(), AllocError>
    ensures { OnOk result (map plain_head heads.new.items ≡ map plain_head heads.old.items ++ map constant_head (quantifiers_at (plain_type ty.now))) }
{
    heads.push(Head::Con(Con::All(ty.copy(alloc)?)))?;
    heads.push(Head::Con(Con::Ex(ty.copy(alloc)?)))?;
    Ok(())
}

/// The quantifiers at each type that stands in the term are added.
fn add_quantifiers(alloc: Global, t: &Tm, heads: &mut Vec<Head>) -> Result<(), AllocError>
    ensures { OnOk result (map plain_head heads.new.items ≡ map plain_head heads.old.items ++ map constant_head (flat_map quantifiers_at (first_types (types_in (plain_term t.now))))) }
{
    let types = types_of_term(alloc, t)?;
    for ty in types.as_slice() {
        add_quantifiers_at(alloc, ty, &mut *heads)?;
    }
    Ok(())
}

/// The constants of the level are added.
fn add_constants(
    alloc: Global,
    formula: &Tm,
    level: u64,
    heads: &mut Vec<Head>,
) -> Result<(), AllocError>
    requires { IsFormula (plain_term formula.now) }
    ensures { OnOk result (map plain_head heads.new.items ≡ map plain_head heads.old.items ++ map constant_head (constants_at level (normal_form [] (plain_term formula.now)))) }
{
    if level < 1 {
        return Ok(());
    }
    add_connectives(&mut *heads)?;
    if level < 2 {
        return Ok(());
    }
    let normal = normal(alloc, formula)?;
    add_quantifiers(alloc, &normal, heads)
}

/// The signature of a formula at a level from 0 to 2: the free variables in the order of first occurrence, the variable FILL at each
/// base type from A to Z where it isn't one of them, from level 1 on NOT, AND, OR, IMPLIES, TRUTH and FALSEHOOD, and at level 2 ALL
/// and SOME at each type that stands in the formula's long normal form, in the order of first occurrence. No head stands twice.
pub fn signature(alloc: Global, formula: &Tm, level: u64) -> Result<Signature, AllocError>
    requires formula { IsFormula (plain_term formula.now) }
    requires level { level ≤ 2 }
    ensures listed { IfOk result (λ heads. (n : Term) → IsNormalFormula n (plain_term formula.now) → heads ≡ signature_list (plain_term formula.now) n level) }
    ensures members { IfOk result (λ heads. (h : PlainHead) → Contains heads h ↔ IsInSignature (plain_term formula.now) level h) }
    ensures once { IfOk result AreDistinct }
{
    let mut heads = Vec::new(alloc);
    add_variables(alloc, formula, &mut heads)?;
    add_fills(alloc, formula, &mut heads)?;
    add_constants(alloc, formula, level, &mut heads)?;
    Ok(Signature::of(heads))
}
