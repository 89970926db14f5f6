//! How much a tree has.

ghost use Rattle.std.specs.Prelude.{◌≡◌, ◌+◌, IfOk, OnOk};
ghost use Rattle.expansion_tree.specs.Trees.{branch_node_count, node_count, plain_branches, plain_tree};
ghost use Rattle.refutations.specs.Opens.{branch_leaf_total, branch_occurrence_total, leaf_total, occurrence_total, place_below as plain_below, place_in_branch as plain_in_branch, place_past as plain_past};

use crate::nodes::Place;
use expansion_tree::trees::{Branches, Tree};
use hol_terms::indices::raised_index;
use std::alloc::AllocError;

/// Moves a place after a tree.
#[cycle(pass)]
fn pass(tree: &Tree, place: &mut Place) -> Result<(), AllocError>
    ensures { OnOk result (place.new ≡ plain_past (plain_tree tree.now) place.old) }
{
    match tree {
        Tree::Leaf => {
            place.leaves = raised_index(place.leaves, 1)?;
        }
        Tree::Const => {}
        Tree::Not(t) | Tree::Sel(_, t) => pass(t, &mut *place)?,
        Tree::Bin(_, t, u) => {
            pass(t, &mut *place)?;
            pass(u, &mut *place)?;
        }
        Tree::Exp(branches) => pass_branches(branches, &mut *place)?,
    }
    place.node = raised_index(place.node, 1)?;
    Ok(())
}

/// Moves a place after branches.
#[cycle(pass)]
fn pass_branches(branches: &Branches, place: &mut Place) -> Result<(), AllocError>
    ensures nodes { OnOk result (place.new.node ≡ place.old.node + branch_node_count (plain_branches branches.now)) }
    ensures leaves { OnOk result (place.new.leaves ≡ place.old.leaves + branch_leaf_total (plain_branches branches.now)) }
    ensures occurrences { OnOk result (place.new.occurrences ≡ place.old.occurrences + branch_occurrence_total (plain_branches branches.now)) }
{
    let mut rest = branches;
    while let Branches::More(_, tree, more) = rest {
        place.occurrences = raised_index(place.occurrences, 1)?;
        pass(tree, &mut *place)?;
        rest = &**more;
    }
    Ok(())
}

/// The place of the first node below a node.
pub fn place_below(place: Place) -> Result<Place, AllocError>
    ensures { IfOk result (λ p. p ≡ plain_below place) }
{
    let node = raised_index(place.node, 1)?;
    Ok(Place { node, ..place })
}

/// The place after a tree.
pub fn place_past(tree: &Tree, place: Place) -> Result<Place, AllocError>
    ensures { IfOk result (λ p. p ≡ plain_past (plain_tree tree.now) place) }
{
    let mut place = place;
    pass(tree, &mut place)?;
    Ok(place)
}

/// The place of a branch's tree, whose occurrence comes first.
pub fn place_in_branch(place: Place) -> Result<Place, AllocError>
    ensures { IfOk result (λ p. p ≡ plain_in_branch place) }
{
    let occurrences = raised_index(place.occurrences, 1)?;
    Ok(Place {
        occurrences,
        ..place
    })
}
