//! Grown trees.

ghost use Rattle.std.specs.Prelude.{◌≡◌, [], IfOk, map};
ghost use Rattle.hol_terms.specs.Terms.{plain_term, plain_type};
ghost use Rattle.expansion_tree.specs.Trees.{plain_branches, plain_tree};
ghost use Rattle.tree_growth.specs.Growths.{plain_branch_growth, plain_growth};
ghost use Rattle.tree_growth.specs.Wrapped.{behind_branch, in_first_branch, both_sides, left_of, right_of, under_expansion, under_negation, under_new_selection, under_selection};

use expansion_tree::trees::{Branches, Op, Tree};
use hol_terms::names::Name;
use hol_terms::terms::{Tm, copy};
use hol_terms::types::Ty;
use std::alloc::{AllocError, Global};
use term_lists::heads::Head;

/// A tree that has grown, the variables that are new in it, and the number from which on names aren't used yet.
#[derive(Drop)]
pub struct Growth {
    pub tree: Tree,
    pub selected: Vec<Head>,
    pub next: u64,
}

/// Branches that have grown, the variables that are new in them, and the number from which on names aren't used yet.
#[derive(Drop)]
pub struct BranchGrowth {
    pub branches: Branches,
    pub selected: Vec<Head>,
    pub next: u64,
}

/// A tree with nothing new in it.
pub(crate) fn without_new(alloc: Global, tree: Tree, next: u64) -> Growth
    ensures { plain_growth result ≡ (plain_tree tree, record { selected = []; next = next }) }
{
    Growth {
        tree,
        selected: Vec::new(alloc),
        next,
    }
}

impl Growth {
    /// Under a negation.
    pub(crate) fn negated(self, alloc: Global) -> Result<Growth, AllocError>
        ensures { IfOk result (λ g. plain_growth g ≡ under_negation (plain_growth self)) }
    {
        let tree = Tree::Not(Box::new(alloc, self.tree)?);
        Ok(Growth {
            tree,
            selected: self.selected,
            next: self.next,
        })
    }

    /// At the left of a tree.
    pub(crate) fn left_of(self, alloc: Global, op: Op, right: &Tree) -> Result<Growth, AllocError>
        ensures { IfOk result (λ g. plain_growth g ≡ left_of op (plain_tree right.now) (plain_growth self)) }
    {
        let left = Box::new(alloc, self.tree)?;
        let right = Box::new(alloc, right.copy(alloc)?)?;
        Ok(Growth {
            tree: Tree::Bin(op, left, right),
            selected: self.selected,
            next: self.next,
        })
    }

    /// At the right of a tree.
    pub(crate) fn right_of(self, alloc: Global, op: Op, left: &Tree) -> Result<Growth, AllocError>
        ensures { IfOk result (λ g. plain_growth g ≡ right_of op (plain_tree left.now) (plain_growth self)) }
    {
        let left = Box::new(alloc, left.copy(alloc)?)?;
        let right = Box::new(alloc, self.tree)?;
        Ok(Growth {
            tree: Tree::Bin(op, left, right),
            selected: self.selected,
            next: self.next,
        })
    }

    /// Under a selection.
    pub(crate) fn selected(self, alloc: Global, name: &Name) -> Result<Growth, AllocError>
        ensures { IfOk result (λ g. plain_growth g ≡ under_selection name.now (plain_growth self)) }
    {
        let name = name.copy(alloc)?;
        let tree = Tree::Sel(name, Box::new(alloc, self.tree)?);
        Ok(Growth {
            tree,
            selected: self.selected,
            next: self.next,
        })
    }

    /// As the tree of a branch before others.
    pub(crate) fn in_branch(
        self,
        alloc: Global,
        term: &Tm,
        rest: &Branches,
    ) -> Result<BranchGrowth, AllocError>
        ensures { IfOk result (λ g. plain_branch_growth g ≡ in_first_branch (plain_term term.now) (plain_branches rest.now) (plain_growth self)) }
    {
        let term = copy(alloc, term)?;
        let tree = Box::new(alloc, self.tree)?;
        let rest = Box::new(alloc, rest.copy(alloc)?)?;
        Ok(BranchGrowth {
            branches: Branches::More(term, tree, rest),
            selected: self.selected,
            next: self.next,
        })
    }
}

/// A compound of two grown trees, what is new at the left coming first. Names aren't used yet from the right one's number on.
pub(crate) fn beside(
    alloc: Global,
    op: Op,
    left: Growth,
    right: Growth,
) -> Result<Growth, AllocError>
    ensures { IfOk result (λ g. plain_growth g ≡ both_sides op (plain_growth left) (plain_growth right)) }
{
    let mut right = right;
    let mut selected = left.selected;
    selected.append(&mut right.selected)?;
    let tree = Tree::Bin(
        op,
        Box::new(alloc, left.tree)?,
        Box::new(alloc, right.tree)?,
    );
    Ok(Growth {
        tree,
        selected,
        next: right.next,
    })
}

/// A grown tree under a selection of a new variable.
pub(crate) fn selecting(
    alloc: Global,
    name: Name,
    ty: &Ty,
    below: Growth,
) -> Result<Growth, AllocError>
    ensures { IfOk result (λ g. plain_growth g ≡ under_new_selection (name, plain_type ty.now) (plain_growth below)) }
{
    let mut below = below;
    let mut selected = Vec::new(alloc);
    selected.push(Head::Free(name.copy(alloc)?, ty.copy(alloc)?))?;
    selected.append(&mut below.selected)?;
    let tree = Tree::Sel(name, Box::new(alloc, below.tree)?);
    Ok(Growth {
        tree,
        selected,
        next: below.next,
    })
}

impl BranchGrowth {
    /// Under an expansion.
    pub(crate) fn expanded(self) -> Growth
        ensures { plain_growth result ≡ under_expansion (plain_branch_growth self) }
    {
        Growth {
            tree: Tree::Exp(self.branches),
            selected: self.selected,
            next: self.next,
        }
    }

    /// After a branch.
    pub(crate) fn behind(
        self,
        alloc: Global,
        term: &Tm,
        tree: &Tree,
    ) -> Result<BranchGrowth, AllocError>
        ensures { IfOk result (λ g. plain_branch_growth g ≡ behind_branch (plain_term term.now) (plain_tree tree.now) (plain_branch_growth self)) }
    {
        let term = copy(alloc, term)?;
        let tree = Box::new(alloc, tree.copy(alloc)?)?;
        let rest = Box::new(alloc, self.branches)?;
        Ok(BranchGrowth {
            branches: Branches::More(term, tree, rest),
            selected: self.selected,
            next: self.next,
        })
    }
}

/// Each under a negation.
pub(crate) fn all_negated(alloc: Global, growths: Vec<Growth>) -> Result<Vec<Growth>, AllocError>
    ensures { IfOk result (λ gs. map plain_growth gs.items ≡ map under_negation (map plain_growth growths.items)) }
{
    let mut all = Vec::new(alloc);
    for growth in growths {
        all.push(growth.negated(alloc)?)?;
    }
    Ok(all)
}

/// Each at the left of a tree.
pub(crate) fn all_left_of(
    alloc: Global,
    op: Op,
    growths: Vec<Growth>,
    right: &Tree,
) -> Result<Vec<Growth>, AllocError>
    ensures { IfOk result (λ gs. map plain_growth gs.items ≡ map (left_of op (plain_tree right.now)) (map plain_growth growths.items)) }
{
    let mut all = Vec::new(alloc);
    for growth in growths {
        all.push(growth.left_of(alloc, op, right)?)?;
    }
    Ok(all)
}

/// Each at the right of a tree.
pub(crate) fn all_right_of(
    alloc: Global,
    op: Op,
    left: &Tree,
    growths: Vec<Growth>,
) -> Result<Vec<Growth>, AllocError>
    ensures { IfOk result (λ gs. map plain_growth gs.items ≡ map (right_of op (plain_tree left.now)) (map plain_growth growths.items)) }
{
    let mut all = Vec::new(alloc);
    for growth in growths {
        all.push(growth.right_of(alloc, op, left)?)?;
    }
    Ok(all)
}

/// Each under a selection.
pub(crate) fn all_selected(
    alloc: Global,
    name: &Name,
    growths: Vec<Growth>,
) -> Result<Vec<Growth>, AllocError>
    ensures { IfOk result (λ gs. map plain_growth gs.items ≡ map (under_selection name.now) (map plain_growth growths.items)) }
{
    let mut all = Vec::new(alloc);
    for growth in growths {
        all.push(growth.selected(alloc, name)?)?;
    }
    Ok(all)
}

/// Each under an expansion.
pub(crate) fn all_expanded(
    alloc: Global,
    growths: Vec<BranchGrowth>,
) -> Result<Vec<Growth>, AllocError>
    ensures { IfOk result (λ gs. map plain_growth gs.items ≡ map under_expansion (map plain_branch_growth growths.items)) }
{
    let mut all = Vec::new(alloc);
    for growth in growths {
        all.push(growth.expanded())?;
    }
    Ok(all)
}

/// Each as the tree of a branch before others.
pub(crate) fn all_in_branch(
    alloc: Global,
    term: &Tm,
    growths: Vec<Growth>,
    rest: &Branches,
) -> Result<Vec<BranchGrowth>, AllocError>
    ensures { IfOk result (λ gs. map plain_branch_growth gs.items ≡ map (in_first_branch (plain_term term.now) (plain_branches rest.now)) (map plain_growth growths.items)) }
{
    let mut all = Vec::new(alloc);
    for growth in growths {
        all.push(growth.in_branch(alloc, term, rest)?)?;
    }
    Ok(all)
}

/// Each after a branch.
pub(crate) fn all_behind(
    alloc: Global,
    term: &Tm,
    tree: &Tree,
    growths: Vec<BranchGrowth>,
) -> Result<Vec<BranchGrowth>, AllocError>
    ensures { IfOk result (λ gs. map plain_branch_growth gs.items ≡ map (behind_branch (plain_term term.now) (plain_tree tree.now)) (map plain_branch_growth growths.items)) }
{
    let mut all = Vec::new(alloc);
    for growth in growths {
        all.push(growth.behind(alloc, term, tree)?)?;
    }
    Ok(all)
}
