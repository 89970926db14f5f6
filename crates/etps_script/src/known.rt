//! The names that an outline knows.

ghost use Rattle.std.specs.Prelude.{◌≡◌, ◌++◌, ◌∷◌, [], Contains, IfOk, OnOk, map};
ghost use Rattle.hol_terms.specs.Terms.{plain_term, plain_type, truth_type};
ghost use Rattle.nd_rules.specs.Lines.{plain_line};
ghost use Rattle.etps_script.specs.Names.{AreCollected, AreNamesOf, IsStepAfter};
ghost use Rattle.etps_script.specs.Tallies.{AreAtOneType, AreFreeIn, AreTallied, AreUnshared, GainsFree, IsBeginning, IsGained, IsKept, IsMarked};

use hol_terms::lists::Vars;
use hol_terms::names::Name;
use hol_terms::terms::Tm;
use hol_terms::types::Ty;
use hol_terms::variable_sets::VariableSet;
use nd_rules::lines::Line;
use nd_rules::outlines::Outline;
use std::alloc::{AllocError, Global};

/// Variables, each once, as a list and as a set; their names, each as a variable of type O; and the names that two of them share.
#[derive(Drop)]
struct Tally {
    variables: Vars,
    seen: VariableSet,
    names: VariableSet,
    shared: VariableSet,
}

/// Puts a name into a set where that is asked.
fn mark_if(set: &mut VariableSet, asked: bool, name: &Name) -> Result<(), AllocError>
    ensures { OnOk result (IsMarked set.old set.new asked name.now) }
{
    if asked {
        set.insert(name, &Ty::truth())?;
    }
    Ok(())
}

/// The tally with a variable that is new.
fn with_new(alloc: Global, tally: Tally, name: &Name, ty: &Ty) -> Result<Tally, AllocError>
    requires tallied { AreTallied tally.variables tally.names tally.shared }
    requires new { Contains tally.variables (name.now, plain_type ty.now) → ⊥ }
    ensures tallied { IfOk result (λ t. AreTallied t.variables t.names t.shared) }
    ensures put { IfOk result (λ t. t.variables ≡ tally.variables ++ (name.now, plain_type ty.now) ∷ []) }
    ensures seen { IfOk result (λ t. t.seen ≡ tally.seen) }
{
    let mut tally = tally;
    let is_new = tally.names.insert(name, &Ty::truth())?;
    mark_if(&mut tally.shared, !is_new, name)?;
    let name = name.copy(alloc)?;
    let ty = ty.copy(alloc)?;
    tally.variables.push(name, ty)?;
    Ok(tally)
}

/// The tally with a variable.
fn with_variable(alloc: Global, tally: Tally, name: &Name, ty: &Ty) -> Result<Tally, AllocError>
    requires tallied { AreTallied tally.variables tally.names tally.shared }
    requires seen { tally.seen ≡ tally.variables }
    ensures tallied { IfOk result (λ t. AreTallied t.variables t.names t.shared) }
    ensures seen { IfOk result (λ t. t.seen ≡ t.variables) }
    ensures gained { IfOk result (λ t. IsGained tally.variables t.variables (name.now, plain_type ty.now)) }
    ensures longer { IfOk result (λ t. IsBeginning tally.variables t.variables) }
{
    let mut tally = tally;
    if tally.seen.insert(name, ty)? {
        with_new(alloc, tally, name, ty)
    } else {
        Ok(tally)
    }
}

/// The tally with the free variables of a term.
fn with_term(alloc: Global, tally: Tally, t: &Tm) -> Result<Tally, AllocError>
    requires tallied { AreTallied tally.variables tally.names tally.shared }
    requires seen { tally.seen ≡ tally.variables }
    ensures tallied { IfOk result (λ t. AreTallied t.variables t.names t.shared) }
    ensures seen { IfOk result (λ t. t.seen ≡ t.variables) }
    ensures gained { IfOk result (λ new. GainsFree tally.variables new.variables (plain_term t.now)) }
    ensures longer { IfOk result (λ new. IsBeginning tally.variables new.variables) }
{
    match t {
        Tm::Free(name, ty) => with_variable(alloc, tally, name, ty),
        Tm::Bound(_) => Ok(tally),
        Tm::Con(_) => Ok(tally),
        Tm::App(function, argument) => {
            let tally = with_term(alloc, tally, function)?;
            with_term(alloc, tally, argument)
        }
        Tm::Lam(_, body) => with_term(alloc, tally, body),
    }
}

/// The tally of the variables that are free in the formulas of the lines.
fn tally_of(alloc: Global, lines: &[Line]) -> Result<Tally, AllocError>
    ensures tallied { IfOk result (λ t. AreTallied t.variables t.names t.shared) }
    ensures seen { IfOk result (λ t. t.seen ≡ t.variables) }
    ensures free { IfOk result (λ t. AreFreeIn (map plain_line lines.now) t.variables) }
{
    let mut tally = Tally {
        variables: Vars::new(alloc),
        seen: VariableSet::new(alloc),
        names: VariableSet::new(alloc),
        shared: VariableSet::new(alloc),
    };
    for line in lines {
        tally = with_term(alloc, tally, &line.formula)?;
    }
    Ok(tally)
}

/// Adds a variable whose name isn't in the set.
fn push_unshared(
    alloc: Global,
    known: &mut Vars,
    shared: &VariableSet,
    name: &Name,
    ty: &Ty,
) -> Result<(), AllocError>
    ensures { OnOk result (IsKept shared.now known.old known.new (name.now, plain_type ty.now)) }
{
    if shared.place(name, &Ty::truth())?.is_none() {
        let name = name.copy(alloc)?;
        let ty = ty.copy(alloc)?;
        known.push(name, ty)?;
    }
    Ok(())
}

/// The variables whose names aren't in the set.
fn unshared(alloc: Global, variables: &Vars, shared: &VariableSet) -> Result<Vars, AllocError>
    ensures { IfOk result (λ known. AreUnshared shared.now variables.now known) }
{
    let mut known = Vars::new(alloc);
    for i in 0..variables.len() {
        let (name, ty) = variables.at(i);
        push_unshared(alloc, &mut known, shared, name, ty)?;
    }
    Ok(known)
}

/// The variables that are free in the formulas of an outline, tallied, and those whose name is free at one type only.
#[derive(Drop)]
pub(crate) struct KnownNames {
    tally: Tally,
    pub(crate) known: Vars,
}

/// The variables of the tally whose name is there at one type only.
fn at_one_type(alloc: Global, tally: &Tally) -> Result<Vars, AllocError>
    requires { AreTallied tally.now.variables tally.now.names tally.now.shared }
    ensures { IfOk result (λ known. AreAtOneType tally.now.variables known) }
{
    unshared(alloc, &tally.variables, &tally.shared)
}

/// The names that the outline knows.
pub(crate) fn known_names(alloc: Global, outline: &Outline) -> Result<KnownNames, AllocError>
    ensures { IfOk result (λ names. AreNamesOf outline.now names) }
{
    let tally = tally_of(alloc, outline.as_slice())?;
    let known = at_one_type(alloc, &tally)?;
    Ok(KnownNames { tally, known })
}

/// The names with the free variables of a formula. The known ones are collected anew only where a variable is new.
fn with_formula(alloc: Global, names: KnownNames, formula: &Tm) -> Result<KnownNames, AllocError>
    requires { AreCollected names }
    ensures collected { IfOk result (λ new. AreCollected new) }
    ensures gained { IfOk result (λ new. GainsFree names.tally.variables new.tally.variables (plain_term formula.now)) }
{
    let KnownNames { tally, known } = names;
    let count = tally.variables.len();
    let tally = with_term(alloc, tally, formula)?;
    if tally.variables.len() == count {
        return Ok(KnownNames { tally, known });
    }
    let known = at_one_type(alloc, &tally)?;
    Ok(KnownNames { tally, known })
}

/// The names that the outline knows after a step, from those that it knew before it, when it had so many lines: where it has one line
/// more, this has the number, and its variables come in; else a planned line was justified, and the formulas are the same.
pub(crate) fn with_step(
    alloc: Global,
    outline: &Outline,
    names: KnownNames,
    count: u64,
    number: u64,
) -> Result<KnownNames, AllocError>
    requires { IsStepAfter names count number outline.now }
    ensures { IfOk result (λ new. AreNamesOf outline.now new) }
{
    if outline.len() == count {
        return Ok(names);
    }
    match outline.find(number) {
        None => unreachable!(),
        Some(line) => with_formula(alloc, names, &line.formula),
    }
}
