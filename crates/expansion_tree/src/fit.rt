//! The walk that stands a tree at a formula.

ghost use Rattle.std.specs.Prelude.{◌≡◌, ◌+◌, ◌∷◌, ℕ, List, [], IfErr, IfOk};
ghost use Rattle.hol_conv.specs.Conversion.{Long};
ghost use Rattle.hol_terms.specs.Indices.{instance_of};
ghost use Rattle.hol_terms.specs.Terms.{Term, Variable, plain_term, plain_type, truth_type};
ghost use Rattle.hol_terms.specs.Typing.{IsFormula, Typed};
ghost use Rattle.expansion_tree.specs.Faults.{FirstBranchFault, FirstFault};
ghost use Rattle.expansion_tree.specs.Matrices.{IsNumberedTo, matrix_paths};
ghost use Rattle.expansion_tree.specs.Standing.{IsNormalFormula, compound_paths};
ghost use Rattle.expansion_tree.specs.Stood.{AreNumberedTo, BranchesStood, Findings, Stood, UnlessMemory, all_joined, findings_of};
ghost use Rattle.expansion_tree.specs.Trees.{ExpansionBranches, branch, connective_node, constant_node, expansion_node, leaf_node, negation_node, plain_branches, plain_tree, selection_node};

use crate::faults::FitFault;
use crate::found::Found;
use crate::matrices::Matrix;
use crate::parts::{
    left_polarity, negated, normal_instance, quantified_body, sides, truth_of, variable_instance,
};
use crate::trees::{Branches, Op, Tree};
use hol_terms::names::Name;
use hol_terms::terms::Tm;
use hol_terms::types::Ty;
use std::alloc::{AllocError, Global};

/// The next number.
fn next(number: u64) -> Result<u64, FitFault>
    ensures ok { IfOk result (λ n. n ≡ number + 1) }
    ensures err { IfErr result (λ e. e ≡ FitFault.Memory) }
{
    match number.checked_add(1) {
        Some(n) => Ok(n),
        None => Err(FitFault::Memory),
    }
}

/// The matrix of a compound, from those of its sides.
#[inline(never)]
fn compound_matrix(
    alloc: Global,
    op: Op,
    positive: bool,
    left: Matrix,
    right: Matrix,
) -> Result<Matrix, AllocError>
    ensures paths { IfOk result (λ m. matrix_paths m ≡ compound_paths op positive (matrix_paths left) (matrix_paths right)) }
    ensures numbered { IfOk result (λ m. (n : ℕ) → IsNumberedTo n left → IsNumberedTo n right → IsNumberedTo n m) }
{
    let left = Box::new(alloc, left)?;
    let right = Box::new(alloc, right)?;
    match (op, positive) {
        (Op::And, true) => Ok(Matrix::Beside(left, right)),
        (Op::And, false) => Ok(Matrix::Above(left, right)),
        (Op::Or, true) => Ok(Matrix::Above(left, right)),
        (Op::Or, false) => Ok(Matrix::Beside(left, right)),
        (Op::Imp, true) => Ok(Matrix::Above(left, right)),
        (Op::Imp, false) => Ok(Matrix::Beside(left, right)),
    }
}

/// The matrices above each other, the first one first.
fn all_above(alloc: Global, matrices: Vec<Matrix>) -> Result<Matrix, AllocError>
    ensures paths { IfOk result (λ m. matrix_paths m ≡ all_joined matrices.items ([] ∷ [])) }
    ensures numbered { IfOk result (λ m. (n : ℕ) → AreNumberedTo n matrices.items → IsNumberedTo n m) }
{
    let mut rest = matrices;
    let mut below = Matrix::Empty;
    while let Some(matrix) = rest.pop() {
        let matrix = Box::new(alloc, matrix)?;
        below = Matrix::Above(matrix, Box::new(alloc, below)?);
    }
    Ok(below)
}

/// Stands a leaf at the formula.
#[inline(never)]
fn stand_leaf(
    node: u64,
    positive: bool,
    formula: Tm,
    found: &mut Found,
) -> Result<(Matrix, u64), FitFault>
    ensures ok { IfOk result (λ r. Stood positive (plain_term formula) leaf_node node (findings_of found.old) (findings_of found.new) r.0 r.1) }
    ensures err { IfErr result (λ e. e ≡ FitFault.Memory) }
{
    let before = found.leaves.len() as u64;
    found.add_leaf(positive, formula)?;
    let number = next(before)?;
    let end = next(node)?;
    Ok((Matrix::Leaf(number), end))
}

/// Stands a constant's node at the formula.
#[inline(never)]
fn stand_constant(node: u64, positive: bool, formula: Tm) -> Result<(Matrix, u64), FitFault>
    ensures ok { IfOk result (λ r. (found : Findings) → Stood positive (plain_term formula) constant_node node found found r.0 r.1) }
    ensures fault { IfErr result (λ e. UnlessMemory e ((taken : List Variable) → FirstFault taken positive (plain_term formula) constant_node node e)) }
{
    let end = next(node)?;
    let Some(value) = truth_of(formula) else {
        return Err(FitFault::Misfit(node));
    };
    if value == positive {
        Ok((Matrix::Closed, end))
    } else {
        Ok((Matrix::Empty, end))
    }
}

/// Stands the tree at the formula, its root having the number `node`: puts its leaves and its selected variables after those that
/// were found, and answers its matrix and the number after those of its nodes.
#[cycle(stand)]
pub fn stand(
    alloc: Global,
    tree: &Tree,
    node: u64,
    positive: bool,
    formula: Tm,
    found: &mut Found,
) -> Result<(Matrix, u64), FitFault>
    requires { IsFormula (plain_term formula) }
    ensures ok { IfOk result (λ r. Stood positive (plain_term formula) (plain_tree tree.now) node (findings_of found.old) (findings_of found.new) r.0 r.1) }
    ensures fault { IfErr result (λ e. UnlessMemory e (FirstFault found.old.taken positive (plain_term formula) (plain_tree tree.now) node e)) }
{
    match tree {
        Tree::Leaf => stand_leaf(node, positive, formula, found),
        Tree::Const => stand_constant(node, positive, formula),
        Tree::Not(t) => stand_negation(alloc, t, node, positive, formula, found),
        Tree::Bin(op, t, u) => stand_compound(alloc, *op, t, u, node, positive, formula, found),
        Tree::Sel(name, t) => stand_selection(alloc, name, t, node, positive, formula, found),
        Tree::Exp(branches) => stand_expansion(alloc, branches, node, positive, formula, found),
    }
}

/// Stands a negation with the tree `t` below it.
#[cycle(stand)]
#[inline(never)]
fn stand_negation(
    alloc: Global,
    t: &Tree,
    node: u64,
    positive: bool,
    formula: Tm,
    found: &mut Found,
) -> Result<(Matrix, u64), FitFault>
    requires { IsFormula (plain_term formula) }
    ensures ok { IfOk result (λ r. Stood positive (plain_term formula) (negation_node (plain_tree t.now)) node (findings_of found.old) (findings_of found.new) r.0 r.1) }
    ensures fault { IfErr result (λ e. UnlessMemory e (FirstFault found.old.taken positive (plain_term formula) (negation_node (plain_tree t.now)) node e)) }
{
    let below = next(node)?;
    let Some(b) = negated(formula) else {
        return Err(FitFault::Misfit(node));
    };
    stand(alloc, t, below, !positive, b, found)
}

/// Stands a compound with the trees `t` and `u` at its sides.
#[cycle(stand)]
#[inline(never)]
fn stand_compound(
    alloc: Global,
    op: Op,
    t: &Tree,
    u: &Tree,
    node: u64,
    positive: bool,
    formula: Tm,
    found: &mut Found,
) -> Result<(Matrix, u64), FitFault>
    requires { IsFormula (plain_term formula) }
    ensures ok { IfOk result (λ r. Stood positive (plain_term formula) (connective_node op (plain_tree t.now) (plain_tree u.now)) node (findings_of found.old) (findings_of found.new) r.0 r.1) }
    ensures fault { IfErr result (λ e. UnlessMemory e (FirstFault found.old.taken positive (plain_term formula) (connective_node op (plain_tree t.now) (plain_tree u.now)) node e)) }
{
    let below = next(node)?;
    let Some((b, c)) = sides(op, formula) else {
        return Err(FitFault::Misfit(node));
    };
    let polarity = left_polarity(op, positive);
    let (left, middle) = stand(alloc, t, below, polarity, b, &mut *found)?;
    let (right, end) = stand(alloc, u, middle, positive, c, &mut *found)?;
    let matrix = compound_matrix(alloc, op, positive, left, right)?;
    Ok((matrix, end))
}

/// Stands a selection with the tree `t` below it.
#[cycle(stand)]
#[inline(never)]
fn stand_selection(
    alloc: Global,
    name: &Name,
    t: &Tree,
    node: u64,
    positive: bool,
    formula: Tm,
    found: &mut Found,
) -> Result<(Matrix, u64), FitFault>
    requires { IsFormula (plain_term formula) }
    ensures ok { IfOk result (λ r. Stood positive (plain_term formula) (selection_node name.now (plain_tree t.now)) node (findings_of found.old) (findings_of found.new) r.0 r.1) }
    ensures fault { IfErr result (λ e. UnlessMemory e (FirstFault found.old.taken positive (plain_term formula) (selection_node name.now (plain_tree t.now)) node e)) }
{
    let below = next(node)?;
    let Some((ty, body)) = quantified_body(positive, formula) else {
        return Err(FitFault::Misfit(node));
    };
    if !found.select(alloc, node, name, &ty)? {
        return Err(FitFault::BadVariable(node));
    }
    let instance = variable_instance(alloc, name, ty, body)?;
    stand(alloc, t, below, positive, instance, found)
}

/// Stands an expansion with its branches.
#[cycle(stand)]
#[inline(never)]
fn stand_expansion(
    alloc: Global,
    branches: &Branches,
    node: u64,
    positive: bool,
    formula: Tm,
    found: &mut Found,
) -> Result<(Matrix, u64), FitFault>
    requires { IsFormula (plain_term formula) }
    ensures ok { IfOk result (λ r. Stood positive (plain_term formula) (expansion_node (plain_branches branches.now)) node (findings_of found.old) (findings_of found.new) r.0 r.1) }
    ensures fault { IfErr result (λ e. UnlessMemory e (FirstFault found.old.taken positive (plain_term formula) (expansion_node (plain_branches branches.now)) node e)) }
{
    let below = next(node)?;
    let Some((ty, body)) = quantified_body(!positive, formula) else {
        return Err(FitFault::Misfit(node));
    };
    let stood = stand_branches(alloc, branches, below, positive, &ty, &body, &mut *found);
    drop(ty);
    drop(body);
    let (matrices, end) = stood?;
    let matrix = all_above(alloc, matrices)?;
    Ok((matrix, end))
}

/// Stands the branches of an expansion at the instances of the body, which is over a variable of type `ty`, the first branch's tree
/// having the number `first` at its root. Answers their matrices and the number after those of their nodes.
#[cycle(stand)]
#[inline(never)]
fn stand_branches(
    alloc: Global,
    branches: &Branches,
    first: u64,
    positive: bool,
    ty: &Ty,
    body: &Tm,
    found: &mut Found,
) -> Result<(Vec<Matrix>, u64), FitFault>
    requires { Typed (plain_type ty.now ∷ []) (plain_term body.now) truth_type }
    ensures ok { IfOk result (λ r. BranchesStood positive (plain_type ty.now) (plain_term body.now) (plain_branches branches.now) first (findings_of found.old) (findings_of found.new) r.0.items r.1) }
    ensures fault { IfErr result (λ e. UnlessMemory e (FirstBranchFault found.old.taken positive (plain_type ty.now) (plain_term body.now) (plain_branches branches.now) first e)) }
{
    let mut matrices = Vec::new(alloc);
    let mut at = first;
    let mut rest = branches;
    while let Branches::More(term, tree, more) = rest {
        let (matrix, end) = stand_branch(alloc, term, tree, at, positive, ty, body, &mut *found)?;
        matrices.push(matrix)?;
        at = end;
        rest = &**more;
    }
    Ok((matrices, at))
}

/// Stands one branch.
#[cycle(stand)]
#[inline(never)]
fn stand_branch(
    alloc: Global,
    term: &Tm,
    tree: &Tree,
    at: u64,
    positive: bool,
    ty: &Ty,
    body: &Tm,
    found: &mut Found,
) -> Result<(Matrix, u64), FitFault>
    requires { Typed (plain_type ty.now ∷ []) (plain_term body.now) truth_type }
    ensures long { IfOk result (λ _. Long [] (plain_term term.now) (plain_type ty.now)) }
    ensures ok { IfOk result (λ r. (a : Term) × IsNormalFormula a (instance_of (plain_term body.now) (plain_term term.now)) × Stood positive a (plain_tree tree.now) at (findings_of found.old) (findings_of found.new) r.0 r.1) }
    ensures fault { IfErr result (λ e. UnlessMemory e ((more : ExpansionBranches) → FirstBranchFault found.old.taken positive (plain_type ty.now) (plain_term body.now) (branch (plain_term term.now) (plain_tree tree.now) more) at e)) }
{
    let Some(instance) = normal_instance(alloc, ty, body, term)? else {
        return Err(FitFault::BadTerm(at));
    };
    stand(alloc, tree, at, positive, instance, found)
}
