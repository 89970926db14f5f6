//! The occurrences of a tree, and its weight.

ghost use Rattle.std.specs.Prelude.{◌≡◌, ◌+◌, ◌-◌, ◌<◌, ◌≤◌, ◌++◌, ◌∷◌, IfOk, OnErr, OnOk, length, map};
ghost use Rattle.hol_terms.specs.Terms.{plain_term};
ghost use Rattle.expansion_tree.specs.Counted.{branch_occurrences, closed_at, plain_occurrence};
ghost use Rattle.expansion_tree.specs.Occurrences.{branch_occurrences_from, occurrences_from, term_weight, weight_of_all};
ghost use Rattle.expansion_tree.specs.Trees.{branch_node_count, node_count, plain_branches, plain_tree};

use crate::trees::{Branches, Tree};
use hol_terms::terms::{Tm, copy};
use std::alloc::{AllocError, Global};

/// An occurrence: a branch of an expansion, with the numbers of the first and of the last node of its tree, and its term.
#[derive(Drop)]
pub struct Occurrence {
    pub node: u64,
    pub last: u64,
    pub term: Tm,
}

/// The sum. No memory holds a tree with more nodes or heads than 64 bits can count.
fn sum(a: u64, b: u64) -> Result<u64, AllocError>
    ensures { IfOk result (λ n. n ≡ a + b) }
{
    match a.checked_add(b) {
        Some(n) => Ok(n),
        None => Err(AllocError),
    }
}

/// Puts the occurrences of a tree, whose root has the number `at`, after those that were found; answers the number after those of
/// its nodes.
#[cycle(occur)]
fn add_tree(
    alloc: Global,
    tree: &Tree,
    at: u64,
    found: &mut Vec<Occurrence>,
) -> Result<u64, AllocError>
    ensures list { OnOk result (map plain_occurrence found.new.items ≡ map plain_occurrence found.old.items ++ occurrences_from at (plain_tree tree.now)) }
    ensures end { IfOk result (λ end. end ≡ at + node_count (plain_tree tree.now)) }
{
    let below = sum(at, 1)?;
    match tree {
        Tree::Leaf | Tree::Const => Ok(below),
        Tree::Not(t) => add_tree(alloc, t, below, found),
        Tree::Bin(_, t, u) => {
            let middle = add_tree(alloc, t, below, &mut *found)?;
            add_tree(alloc, u, middle, found)
        }
        Tree::Sel(_, t) => add_tree(alloc, t, below, found),
        Tree::Exp(branches) => add_branches(alloc, branches, below, found),
    }
}

/// The same of the branches of an expansion.
#[cycle(occur)]
fn add_branches(
    alloc: Global,
    branches: &Branches,
    first: u64,
    found: &mut Vec<Occurrence>,
) -> Result<u64, AllocError>
    ensures list { OnOk result (map plain_occurrence found.new.items ≡ map plain_occurrence found.old.items ++ branch_occurrences_from first (plain_branches branches.now)) }
    ensures end { IfOk result (λ end. end ≡ first + branch_node_count (plain_branches branches.now)) }
{
    let mut at = first;
    let mut rest = branches;
    while let Branches::More(term, tree, more) = rest {
        at = add_branch(alloc, term, tree, at, &mut *found)?;
        rest = &**more;
    }
    Ok(at)
}

/// The same of one branch.
#[cycle(occur)]
fn add_branch(
    alloc: Global,
    term: &Tm,
    tree: &Tree,
    at: u64,
    found: &mut Vec<Occurrence>,
) -> Result<u64, AllocError>
    ensures list { OnOk result (map plain_occurrence found.new.items ≡ map plain_occurrence found.old.items ++ branch_occurrences at (plain_term term.now) (plain_tree tree.now)) }
    ensures end { IfOk result (λ end. end ≡ at + node_count (plain_tree tree.now)) }
{
    let place = found.len();
    let term = copy(alloc, term)?;
    found.push(Occurrence {
        node: at,
        last: at,
        term,
    })?;
    let end = add_tree(alloc, tree, at, &mut *found)?;
    close(&mut *found, place, end);
    Ok(end)
}

/// Gives the occurrence at a place, from 0, its last node, the one before `end`.
fn close(found: &mut Vec<Occurrence>, place: usize, end: u64)
    requires place { place < length found.old.items }
    requires end { 1 ≤ end }
    ensures { map plain_occurrence found.new.items ≡ closed_at place (end - 1) (map plain_occurrence found.old.items) }
{
    found[place].last = end - 1;
}

/// Puts the occurrences of a tree, whose root has the number `at`, after those that were found; answers the number after those of
/// its nodes. An `Err` changes nothing.
pub fn add_occurrences(
    alloc: Global,
    tree: &Tree,
    at: u64,
    found: &mut Vec<Occurrence>,
) -> Result<u64, AllocError>
    ensures list { OnOk result (map plain_occurrence found.new.items ≡ map plain_occurrence found.old.items ++ occurrences_from at (plain_tree tree.now)) }
    ensures end { IfOk result (λ end. end ≡ at + node_count (plain_tree tree.now)) }
    ensures err { OnErr result (found.new.items ≡ found.old.items) }
{
    let mut own = Vec::new(alloc);
    let end = add_tree(alloc, tree, at, &mut own)?;
    found.append(&mut own)?;
    Ok(end)
}

/// The weight of a term.
fn weight_of(t: &Tm) -> Result<u64, AllocError>
    ensures { IfOk result (λ n. n ≡ term_weight (plain_term t.now)) }
{
    match t {
        Tm::Free(_, _) => Ok(1),
        Tm::Bound(_) => Ok(1),
        Tm::Con(_) => Ok(1),
        Tm::App(function, argument) => sum(weight_of(function)?, weight_of(argument)?),
        Tm::Lam(_, body) => weight_of(body),
    }
}

/// The weight of the terms of all occurrences.
pub fn weight_of_occurrences(occurrences: &[Occurrence]) -> Result<u64, AllocError>
    ensures { IfOk result (λ n. n ≡ weight_of_all (map plain_occurrence occurrences.now)) }
{
    let mut total = 0;
    for occurrence in occurrences {
        total = sum(total, weight_of(&occurrence.term)?)?;
    }
    Ok(total)
}
