//! Expansion trees as they are written: only their terms and variables, and no formulas.

ghost use Rattle.std.specs.Prelude.{◌≡◌, IfOk};
ghost use Rattle.expansion_tree.specs.Copies.{branches_from};
ghost use Rattle.expansion_tree.specs.Trees.{no_branch, plain_branches, plain_tree};

use hol_terms::names::Name;
use hol_terms::terms::{Tm, copy};
use std::alloc::{AllocError, Global};

/// A connective of two sides.
#[derive(Clone, Copy, Debug, PartialEq, Eq)]
pub enum Op {
    And,
    Or,
    Imp,
}

/// An expansion tree (Miller 1987). `Sel` selects a variable for a quantifier, and `Exp` expands a quantifier by terms.
#[cycle(tree)]
#[derive(Drop)]
pub enum Tree {
    Leaf,
    Const,
    Not(Box<Tree>),
    Bin(Op, Box<Tree>, Box<Tree>),
    Sel(Name, Box<Tree>),
    Exp(Branches),
}

/// The branches of an expansion node, each a term with its tree.
#[cycle(tree)]
pub enum Branches {
    End,
    More(Tm, Box<Tree>, Box<Branches>),
}

impl Drop for Branches {
    #[cycle(tree)]
    fn drop(mut self) {
        loop {
            match self {
                Branches::End => return,
                Branches::More(_, _, rest) => self = Box::into_inner(rest),
            }
        }
    }
}

impl Tree {
    /// An equal tree.
    #[cycle(copy)]
    pub fn copy(&self, alloc: Global) -> Result<Tree, AllocError>
        ensures { IfOk result (λ tree. plain_tree tree ≡ plain_tree self.now) }
    {
        match self {
            Tree::Leaf => Ok(Tree::Leaf),
            Tree::Const => Ok(Tree::Const),
            Tree::Not(t) => Ok(Tree::Not(boxed(alloc, t)?)),
            Tree::Bin(op, t, u) => {
                let t = boxed(alloc, t)?;
                let u = boxed(alloc, u)?;
                Ok(Tree::Bin(*op, t, u))
            }
            Tree::Sel(name, t) => {
                let name = name.copy(alloc)?;
                let t = boxed(alloc, t)?;
                Ok(Tree::Sel(name, t))
            }
            Tree::Exp(branches) => Ok(Tree::Exp(branches.copy(alloc)?)),
        }
    }
}

/// An equal tree in a box.
#[cycle(copy)]
#[inline(never)]
fn boxed(alloc: Global, tree: &Tree) -> Result<Box<Tree>, AllocError>
    ensures { IfOk result (λ copied. plain_tree copied.value ≡ plain_tree tree.now) }
{
    let tree = tree.copy(alloc)?;
    Ok(Box::new(alloc, tree)?)
}

impl Branches {
    /// Equal branches.
    #[cycle(copy)]
    pub fn copy(&self, alloc: Global) -> Result<Branches, AllocError>
        ensures { IfOk result (λ branches. plain_branches branches ≡ plain_branches self.now) }
    {
        let mut items = Vec::new(alloc);
        let mut rest = self;
        while let Branches::More(term, tree, more) = rest {
            let term = copy(alloc, term)?;
            let tree = tree.copy(alloc)?;
            items.push((term, tree))?;
            rest = &**more;
        }
        chain(alloc, items)
    }
}

/// The terms with their trees as branches.
fn chain(alloc: Global, items: Vec<(Tm, Tree)>) -> Result<Branches, AllocError>
    ensures { IfOk result (λ branches. plain_branches branches ≡ branches_from items.items no_branch) }
{
    let mut rest = items;
    let mut branches = Branches::End;
    while let Some((term, tree)) = rest.pop() {
        let tree = Box::new(alloc, tree)?;
        branches = Branches::More(term, tree, Box::new(alloc, branches)?);
    }
    Ok(branches)
}
