//! Trees read from forms.

ghost use Rattle.std.specs.Prelude.{◌≡◌, IfOk, Result, ℕ};
ghost use Rattle.core_text.specs.Placed.{placed, placed_all};
ghost use Rattle.core_text.specs.Reading.{Gives, name_at};
ghost use Rattle.expansion_tree.specs.Copies.{branches_from};
ghost use Rattle.expansion_tree.specs.Trees.{ExpansionTree, no_branch, plain_branches, plain_tree};
ghost use Rattle.proof_text.specs.Reading.{branch_at, branches_at, connective_at, constant_tree_in, expansion_at, negation_at, node_at, op_in, selection_at, tree_at};
ghost use Rattle.proof_text.specs.Views.{plain_branch};

use core_text::faults::TextFault;
use core_text::sexps::{Sexp, Sexps};
use core_text::terms::{is_keyword, read_name, read_preterm};
use expansion_tree::trees::{Branches, Op, Tree};
use hol_terms::terms::Tm;
use std::alloc::{AllocError, Global};

/// The connective that a word names.
fn connective(word: &[u8], place: u64) -> Result<Op, TextFault>
    ensures { Gives (λ op. op) result (op_in word.now place) }
{
    if is_keyword(word, b"AND") {
        Ok(Op::And)
    } else if is_keyword(word, b"OR") {
        Ok(Op::Or)
    } else if is_keyword(word, b"IMPLIES") {
        Ok(Op::Imp)
    } else {
        Err(TextFault::BadForm(place))
    }
}

/// The tree of one node that a word names.
fn word_tree(word: &[u8], place: u64) -> Result<Tree, TextFault>
    ensures { Gives plain_tree result (constant_tree_in word.now place) }
{
    if is_keyword(word, b"LEAF") {
        Ok(Tree::Leaf)
    } else if is_keyword(word, b"CONST") {
        Ok(Tree::Const)
    } else {
        Err(TextFault::BadForm(place))
    }
}

/// Reads a tree. `BadForm` has the place of the first form, a list before its members, that has no place in the table.
#[cycle(read_tree)]
pub fn read_tree(alloc: Global, form: &Sexp) -> Result<Tree, TextFault>
    ensures { Gives plain_tree result (tree_at (placed form.now)) }
{
    match form {
        Sexp::Word(word, place) => word_tree(word.as_slice(), *place),
        Sexp::Number(_, place) => Err(TextFault::BadForm(*place)),
        Sexp::List(all, place) => {
            let Sexps::More(head, members) = all else {
                return Err(TextFault::BadForm(*place));
            };
            let Sexp::Word(word, _) = &**head else {
                return Err(TextFault::BadForm(*place));
            };
            if is_keyword(word.as_slice(), b"EXP") {
                read_expansion(alloc, members)
            } else {
                read_node(alloc, word.as_slice(), members, *place)
            }
        }
    }
}

/// The node of a word, with what follows it; an expansion is none.
#[cycle(read_tree)]
fn read_node(alloc: Global, word: &[u8], members: &Sexps, place: u64) -> Result<Tree, TextFault>
    ensures { Gives plain_tree result (node_at word.now (placed_all members.now) place) }
{
    let Sexps::More(first, rest) = members else {
        return Err(TextFault::BadForm(place));
    };
    let Sexps::More(second, rest) = &**rest else {
        return read_negation(alloc, word, first, place);
    };
    let Sexps::End = &**rest else {
        return Err(TextFault::BadForm(place));
    };
    if is_keyword(word, b"SEL") {
        read_selection(alloc, first, second)
    } else {
        read_connective(alloc, word, first, second, place)
    }
}

/// A tree that was read, in a box.
#[inline(never)]
fn boxed(alloc: Global, read: Result<Tree, TextFault>) -> Result<Box<Tree>, TextFault>
    ensures { (tree : Result ExpansionTree ℕ) → Gives plain_tree read tree → Gives (λ boxed. plain_tree boxed.value) result tree }
{
    match read {
        Ok(tree) => Ok(Box::new(alloc, tree)?),
        Err(fault) => Err(fault),
    }
}

/// A negation, by its word and the form below it.
#[cycle(read_tree)]
#[inline(never)]
fn read_negation(alloc: Global, word: &[u8], below: &Sexp, place: u64) -> Result<Tree, TextFault>
    ensures { Gives plain_tree result (negation_at word.now (tree_at (placed below.now)) place) }
{
    if !is_keyword(word, b"NOT") {
        return Err(TextFault::BadForm(place));
    }
    let below = boxed(alloc, read_tree(alloc, below))?;
    Ok(Tree::Not(below))
}

/// A selection, by the forms of its name and of the tree below it.
#[cycle(read_tree)]
#[inline(never)]
fn read_selection(alloc: Global, name: &Sexp, below: &Sexp) -> Result<Tree, TextFault>
    ensures { Gives plain_tree result (selection_at (name_at (placed name.now)) (tree_at (placed below.now))) }
{
    let name = read_name(alloc, name)?;
    let below = boxed(alloc, read_tree(alloc, below))?;
    Ok(Tree::Sel(name, below))
}

/// A node of two sides, by its word and their forms.
#[cycle(read_tree)]
#[inline(never)]
fn read_connective(
    alloc: Global,
    word: &[u8],
    left: &Sexp,
    right: &Sexp,
    place: u64,
) -> Result<Tree, TextFault>
    ensures { Gives plain_tree result (connective_at (op_in word.now place) (tree_at (placed left.now)) (tree_at (placed right.now))) }
{
    let op = connective(word, place)?;
    let left = boxed(alloc, read_tree(alloc, left))?;
    let right = boxed(alloc, read_tree(alloc, right))?;
    Ok(Tree::Bin(op, left, right))
}

/// An expansion, by its branches.
#[cycle(read_tree)]
#[inline(never)]
fn read_expansion(alloc: Global, members: &Sexps) -> Result<Tree, TextFault>
    ensures { Gives plain_tree result (expansion_at (branches_at (placed_all members.now))) }
{
    match read_branches(alloc, members) {
        Ok(branches) => Ok(Tree::Exp(branches)),
        Err(fault) => Err(fault),
    }
}

/// The branches of an expansion.
#[cycle(read_tree)]
#[inline(never)]
fn read_branches(alloc: Global, members: &Sexps) -> Result<Branches, TextFault>
    ensures { Gives plain_branches result (branches_at (placed_all members.now)) }
{
    let mut items = Vec::new(alloc);
    let mut rest = members;
    while let Sexps::More(form, more) = rest {
        let item = match read_branch(alloc, form) {
            Ok(item) => item,
            Err(fault) => return Err(fault),
        };
        items.push(item)?;
        rest = &**more;
    }
    Ok(chain(alloc, items)?)
}

/// A term with its tree.
#[cycle(read_tree)]
#[inline(never)]
fn read_branch(alloc: Global, form: &Sexp) -> Result<(Tm, Tree), TextFault>
    ensures { Gives plain_branch result (branch_at (placed form.now)) }
{
    let Sexp::List(all, place) = form else {
        return Err(TextFault::BadForm(form.place()));
    };
    let Sexps::More(first, rest) = all else {
        return Err(TextFault::BadForm(*place));
    };
    let Sexps::More(second, rest) = &**rest else {
        return Err(TextFault::BadForm(*place));
    };
    let Sexps::End = &**rest else {
        return Err(TextFault::BadForm(*place));
    };
    let term = read_preterm(alloc, first)?;
    match read_tree(alloc, second) {
        Ok(tree) => Ok((term, tree)),
        Err(fault) => Err(fault),
    }
}

/// The terms with their trees as branches.
fn chain(alloc: Global, items: Vec<(Tm, Tree)>) -> Result<Branches, AllocError>
    ensures { IfOk result (λ branches. plain_branches branches ≡ branches_from items.items no_branch) }
{
    let mut rest = items;
    let mut branches = Branches::End;
    while let Some((term, tree)) = rest.pop() {
        let tree = Box::new(alloc, tree)?;
        branches = Branches::More(term, tree, Box::new(alloc, branches)?);
    }
    Ok(branches)
}
