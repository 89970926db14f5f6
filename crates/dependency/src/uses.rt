//! The graph of the dependency relation.

ghost use Rattle.std.specs.Prelude.{◌≡◌, ◌+◌, ◌∷◌, ◌++◌, IfOk, OnOk, length};
ghost use Rattle.hol_terms.specs.Places.{place_of};
ghost use Rattle.hol_terms.specs.Terms.{plain_term, plain_type};
ghost use Rattle.expansion_tree.specs.Occurrences.{occurrences_of};
ghost use Rattle.dependency.specs.Graphs.{row_lists};
ghost use Rattle.dependency.specs.Nesting.{AreNested, AreSelections, IsDependencyGraph};
ghost use Rattle.dependency.specs.Uses.{AreRows, owner_at, uses_of, variables_of};

use crate::nesting::{owners, parents};
use expansion_tree::fitted::Fitted;
use hol_terms::names::Name;
use hol_terms::terms::Tm;
use hol_terms::types::Ty;
use hol_terms::variable_sets::VariableSet;
use std::alloc::{AllocError, Global};

/// The selected variables, each at its place.
fn selected_variables(alloc: Global, fitted: &Fitted) -> Result<VariableSet, AllocError>
    requires { AreSelections fitted.now.selection_list }
    ensures { IfOk result (λ variables. variables ≡ variables_of fitted.now.selection_list) }
{
    let mut variables = VariableSet::new(alloc);
    for k in 0..fitted.selected_count() {
        let selected = fitted.selected(k + 1);
        let _ = variables.insert(selected.name, selected.ty)?;
    }
    Ok(variables)
}

/// Puts the owner of the variable after the others, where it is a selected one.
#[inline(never)]
fn put_use(
    row: &mut Vec<u64>,
    variables: &VariableSet,
    owners: &[u64],
    name: &Name,
    ty: &Ty,
) -> Result<(), AllocError>
    requires { length owners.now ≡ length variables.now }
    ensures { OnOk result (row.new.items ≡ row.old.items ++ owner_at owners.now (place_of (name.now, plain_type ty.now) variables.now)) }
{
    match variables.place(name, ty)? {
        Some(place) => {
            row.push(owners[place as usize])?;
            Ok(())
        }
        None => Ok(()),
    }
}

/// Puts the owners of the selected variables that are free in the term after the others.
fn put_uses(
    row: &mut Vec<u64>,
    variables: &VariableSet,
    owners: &[u64],
    term: &Tm,
) -> Result<(), AllocError>
    requires { length owners.now ≡ length variables.now }
    ensures { OnOk result (row.new.items ≡ row.old.items ++ uses_of variables.now owners.now (plain_term term.now)) }
{
    match term {
        Tm::Free(name, ty) => put_use(row, variables, owners, name, ty),
        Tm::Bound(_) => Ok(()),
        Tm::Con(_) => Ok(()),
        Tm::App(function, argument) => {
            put_uses(row, variables, owners, function)?;
            put_uses(row, variables, owners, argument)
        }
        Tm::Lam(_, body) => put_uses(row, variables, owners, body),
    }
}

/// The predecessors of an occurrence with this term: the one above it, and the owners of the selected variables of the term.
fn row(
    alloc: Global,
    parent: u64,
    variables: &VariableSet,
    owners: &[u64],
    term: &Tm,
) -> Result<Vec<u64>, AllocError>
    requires { length owners.now ≡ length variables.now }
    ensures { IfOk result (λ row. row.items ≡ parent ∷ uses_of variables.now owners.now (plain_term term.now)) }
{
    let mut row = Vec::new(alloc);
    row.push(parent)?;
    put_uses(&mut row, variables, owners, term)?;
    Ok(row)
}

/// The predecessors of each occurrence, with 0 for the whole tree.
fn rows(
    alloc: Global,
    fitted: &Fitted,
    parents: &[u64],
    variables: &VariableSet,
    owners: &[u64],
) -> Result<Vec<Vec<u64>>, AllocError>
    requires owners { length owners.now ≡ length variables.now }
    requires parents { length parents.now ≡ length (occurrences_of fitted.now.tree) + 1 }
    ensures many { IfOk result (λ rows. length rows.items ≡ length (occurrences_of fitted.now.tree) + 1) }
    ensures rows { IfOk result (λ rows. AreRows (occurrences_of fitted.now.tree) parents.now variables.now owners.now (row_lists rows.items)) }
{
    let mut rows = Vec::new(alloc);
    rows.push(Vec::new(alloc))?;
    for e in 0..fitted.occurrence_count() {
        let parent = parents[(e + 1) as usize];
        let row = row(
            alloc,
            parent,
            variables,
            owners,
            fitted.occurrence(e + 1).term,
        )?;
        rows.push(row)?;
    }
    Ok(rows)
}

/// The graph of the occurrences, each with those that it waits for; 0 stands for the whole tree.
pub fn graph(alloc: Global, fitted: &Fitted) -> Result<Vec<Vec<u64>>, AllocError>
    requires nested { AreNested (occurrences_of fitted.now.tree) }
    requires selections { AreSelections fitted.now.selection_list }
    ensures { IfOk result (λ rows. IsDependencyGraph (occurrences_of fitted.now.tree) fitted.now.selection_list (row_lists rows.items)) }
{
    let parents = parents(alloc, fitted)?;
    let owners = owners(alloc, fitted, &parents)?;
    let variables = selected_variables(alloc, fitted)?;
    rows(alloc, fitted, &parents, &variables, &owners)
}
