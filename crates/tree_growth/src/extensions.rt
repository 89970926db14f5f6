//! Trees with one more branch.

ghost use Rattle.std.specs.Prelude.{◌∷◌, [], All, IfOk, map};
ghost use Rattle.hol_conv.specs.Conversion.{Long};
ghost use Rattle.hol_terms.specs.Indices.{instance_of};
ghost use Rattle.hol_terms.specs.Terms.{Term, plain_term, plain_type, truth_type};
ghost use Rattle.expansion_tree.specs.Standing.{BranchesStand, IsNormalFormula, Standing, StandingBranches, Stands};
ghost use Rattle.expansion_tree.specs.Trees.{branch, connective_node, expansion_node, negation_node, no_branch, plain_branches, plain_tree, selection_node};
ghost use Rattle.tree_growth.specs.Extending.{AreNewBranches, Extend, ExtendBranches, IsNewBranch};
ghost use Rattle.tree_growth.specs.Growths.{plain_addition, plain_branch_growth, plain_growth};

use crate::additions::Addition;
use crate::bare::bare;
use crate::growths::{
    BranchGrowth, Growth, all_behind, all_expanded, all_in_branch, all_left_of, all_negated,
    all_right_of, all_selected,
};
use expansion_tree::parts::{
    left_polarity, negated, normal_instance, quantified_body, sides, variable_instance,
};
use expansion_tree::trees::{Branches, Op, Tree};
use hol_terms::names::Name;
use hol_terms::terms::Tm;
use hol_terms::types::Ty;
use std::alloc::{AllocError, Global};
use term_lists::long_terms::long_terms;

/// All trees that come of a tree, which stands at the formula, by one more branch: a term that the addition allows, with a bare tree, after
/// the other branches of one of its expansion nodes. Those of nodes to the left come first. An error comes only where memory runs out.
#[cycle(extend)]
pub fn extensions(
    alloc: Global,
    addition: &Addition<'_>,
    positive: bool,
    formula: Tm,
    tree: &Tree,
) -> Result<Vec<Growth>, AllocError>
    requires long { Long [] (plain_term formula) truth_type }
    requires stands { (s : Standing) × Stands positive (plain_term formula) (plain_tree tree.now) s }
    ensures { IfOk result (λ gs. Extend (plain_addition addition.now) positive (plain_term formula) (plain_tree tree.now) (map plain_growth gs.items)) }
{
    match tree {
        Tree::Leaf | Tree::Const => Ok(Vec::new(alloc)),
        Tree::Not(t) => negation_extensions(alloc, addition, positive, formula, t),
        Tree::Bin(op, t, u) => compound_extensions(alloc, addition, positive, *op, formula, t, u),
        Tree::Sel(name, t) => selection_extensions(alloc, addition, positive, formula, name, t),
        Tree::Exp(branches) => expansion_extensions(alloc, addition, positive, formula, branches),
    }
}

/// Those of a negation.
#[cycle(extend)]
#[inline(never)]
#[tactic(auto, using(crate::proofs::Parts::long_formula, crate::proofs::Parts::long_negated, crate::proofs::Below::some_below_negation))]
fn negation_extensions(
    alloc: Global,
    addition: &Addition<'_>,
    positive: bool,
    formula: Tm,
    t: &Tree,
) -> Result<Vec<Growth>, AllocError>
    requires long { Long [] (plain_term formula) truth_type }
    requires stands { (s : Standing) × Stands positive (plain_term formula) (negation_node (plain_tree t.now)) s }
    ensures { IfOk result (λ gs. Extend (plain_addition addition.now) positive (plain_term formula) (negation_node (plain_tree t.now)) (map plain_growth gs.items)) }
{
    let Some(b) = negated(formula) else {
        unreachable!()
    };
    let below = extensions(alloc, addition, !positive, b, t)?;
    all_negated(alloc, below)
}

/// Those of a compound.
#[cycle(extend)]
#[inline(never)]
#[tactic(auto, using(crate::proofs::Parts::long_formula, crate::proofs::Parts::long_left, crate::proofs::Parts::long_right, crate::proofs::Below::some_at_left, crate::proofs::Below::some_at_right))]
fn compound_extensions(
    alloc: Global,
    addition: &Addition<'_>,
    positive: bool,
    op: Op,
    formula: Tm,
    t: &Tree,
    u: &Tree,
) -> Result<Vec<Growth>, AllocError>
    requires long { Long [] (plain_term formula) truth_type }
    requires stands { (s : Standing) × Stands positive (plain_term formula) (connective_node op (plain_tree t.now) (plain_tree u.now)) s }
    ensures { IfOk result (λ gs. Extend (plain_addition addition.now) positive (plain_term formula) (connective_node op (plain_tree t.now) (plain_tree u.now)) (map plain_growth gs.items)) }
{
    let Some((b, c)) = sides(op, formula) else {
        unreachable!()
    };
    let left = extensions(alloc, addition, left_polarity(op, positive), b, t)?;
    let right = extensions(alloc, addition, positive, c, u)?;
    let mut all = all_left_of(alloc, op, left, u)?;
    let mut more = all_right_of(alloc, op, t, right)?;
    all.append(&mut more)?;
    Ok(all)
}

/// Those of a selection.
#[cycle(extend)]
#[inline(never)]
#[tactic(auto, using(crate::proofs::Parts::long_formula, crate::proofs::Parts::long_body, crate::proofs::Parts::long_variable_instance, crate::proofs::Below::some_below_selection))]
fn selection_extensions(
    alloc: Global,
    addition: &Addition<'_>,
    positive: bool,
    formula: Tm,
    name: &Name,
    t: &Tree,
) -> Result<Vec<Growth>, AllocError>
    requires long { Long [] (plain_term formula) truth_type }
    requires stands { (s : Standing) × Stands positive (plain_term formula) (selection_node name.now (plain_tree t.now)) s }
    ensures { IfOk result (λ gs. Extend (plain_addition addition.now) positive (plain_term formula) (selection_node name.now (plain_tree t.now)) (map plain_growth gs.items)) }
{
    let Some((ty, body)) = quantified_body(positive, formula) else {
        unreachable!()
    };
    let instance = variable_instance(alloc, name, ty, body)?;
    let below = extensions(alloc, addition, positive, instance, t)?;
    all_selected(alloc, name, below)
}

/// Those of an expansion.
#[cycle(extend)]
#[inline(never)]
#[tactic(auto, using(crate::proofs::Parts::long_formula, crate::proofs::Parts::long_body, crate::proofs::Below::some_branches))]
fn expansion_extensions(
    alloc: Global,
    addition: &Addition<'_>,
    positive: bool,
    formula: Tm,
    branches: &Branches,
) -> Result<Vec<Growth>, AllocError>
    requires long { Long [] (plain_term formula) truth_type }
    requires stands { (s : Standing) × Stands positive (plain_term formula) (expansion_node (plain_branches branches.now)) s }
    ensures { IfOk result (λ gs. Extend (plain_addition addition.now) positive (plain_term formula) (expansion_node (plain_branches branches.now)) (map plain_growth gs.items)) }
{
    let Some((ty, body)) = quantified_body(!positive, formula) else {
        unreachable!()
    };
    let below = branch_extensions(alloc, addition, positive, &ty, &body, branches)?;
    all_expanded(alloc, below)
}

/// Those of branches, at the body over a variable of type `ty`.
#[cycle(extend)]
#[inline(never)]
#[tactic(auto, using(crate::proofs::Below::some_further_branches, crate::proofs::Below::positive_count))]
fn branch_extensions(
    alloc: Global,
    addition: &Addition<'_>,
    positive: bool,
    ty: &Ty,
    body: &Tm,
    branches: &Branches,
) -> Result<Vec<BranchGrowth>, AllocError>
    requires long { Long (plain_type ty.now ∷ []) (plain_term body.now) truth_type }
    requires stands { (ns : StandingBranches) × BranchesStand positive (plain_type ty.now) (plain_term body.now) (plain_branches branches.now) ns }
    ensures { IfOk result (λ gs. ExtendBranches (plain_addition addition.now) positive (plain_type ty.now) (plain_term body.now) (plain_branches branches.now) (map plain_branch_growth gs.items)) }
{
    match branches {
        Branches::End => new_branches(alloc, addition, positive, ty, body),
        Branches::More(term, tree, rest) => {
            let inner = first_extensions(alloc, addition, positive, ty, body, term, tree)?;
            let further = branch_extensions(alloc, addition, positive, ty, body, rest)?;
            let mut all = all_in_branch(alloc, term, inner, rest)?;
            let mut more = all_behind(alloc, term, tree, further)?;
            all.append(&mut more)?;
            Ok(all)
        }
    }
}

/// Those of the tree of a branch.
#[cycle(extend)]
#[inline(never)]
#[tactic(auto, using(crate::proofs::Parts::long_body_typed))]
fn first_extensions(
    alloc: Global,
    addition: &Addition<'_>,
    positive: bool,
    ty: &Ty,
    body: &Tm,
    term: &Tm,
    tree: &Tree,
) -> Result<Vec<Growth>, AllocError>
    requires long { Long (plain_type ty.now ∷ []) (plain_term body.now) truth_type }
    requires stands { (ns : StandingBranches) × BranchesStand positive (plain_type ty.now) (plain_term body.now) (branch (plain_term term.now) (plain_tree tree.now) no_branch) ns }
    ensures { IfOk result (λ gs. (a : Term) → IsNormalFormula a (instance_of (plain_term body.now) (plain_term term.now)) → Extend (plain_addition addition.now) positive a (plain_tree tree.now) (map plain_growth gs.items)) }
{
    let Some(instance) = normal_instance(alloc, ty, body, term)? else {
        unreachable!()
    };
    extensions(alloc, addition, positive, instance, tree)
}

/// A new branch of each allowed term, alone.
#[tactic(auto, using(crate::proofs::NewBranches::long_terms_long, crate::proofs::NewBranches::extend_none))]
fn new_branches(
    alloc: Global,
    addition: &Addition<'_>,
    positive: bool,
    ty: &Ty,
    body: &Tm,
) -> Result<Vec<BranchGrowth>, AllocError>
    requires { Long (plain_type ty.now ∷ []) (plain_term body.now) truth_type }
    ensures { IfOk result (λ gs. ExtendBranches (plain_addition addition.now) positive (plain_type ty.now) (plain_term body.now) no_branch (map plain_branch_growth gs.items)) }
{
    let terms = long_terms(
        alloc,
        addition.signature,
        addition.selected,
        ty,
        addition.weight,
    )?;
    branches_of(alloc, addition, positive, ty, body, terms)
}

/// A new branch of each of the terms.
fn branches_of(
    alloc: Global,
    addition: &Addition<'_>,
    positive: bool,
    ty: &Ty,
    body: &Tm,
    terms: Vec<Tm>,
) -> Result<Vec<BranchGrowth>, AllocError>
    requires body { Long (plain_type ty.now ∷ []) (plain_term body.now) truth_type }
    requires terms { All (λ u. Long [] u (plain_type ty.now)) (map plain_term terms.items) }
    ensures { IfOk result (λ gs. AreNewBranches (plain_addition addition.now) positive (plain_type ty.now) (plain_term body.now) (map plain_term terms.items) (map plain_branch_growth gs.items)) }
{
    let mut all = Vec::new(alloc);
    for term in terms {
        all.push(new_branch(alloc, addition, positive, ty, body, term)?)?;
    }
    Ok(all)
}

/// A new branch of the term.
#[tactic(auto, using(crate::proofs::Parts::long_body_typed))]
fn new_branch(
    alloc: Global,
    addition: &Addition<'_>,
    positive: bool,
    ty: &Ty,
    body: &Tm,
    term: Tm,
) -> Result<BranchGrowth, AllocError>
    requires body { Long (plain_type ty.now ∷ []) (plain_term body.now) truth_type }
    requires term { Long [] (plain_term term) (plain_type ty.now) }
    ensures { IfOk result (λ g. IsNewBranch (plain_addition addition.now) positive (plain_type ty.now) (plain_term body.now) (plain_term term) (plain_branch_growth g)) }
{
    let Some(instance) = normal_instance(alloc, ty, body, &term)? else {
        unreachable!()
    };
    let growth = bare(alloc, addition.taken, positive, instance, addition.next)?;
    growth.in_branch(alloc, &term, &Branches::End)
}
