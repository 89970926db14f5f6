//! The deep formula of a fitted tree.

ghost use Rattle.std.specs.Prelude.{◌≡◌, ◌∷◌, [], IfOk, not};
ghost use Rattle.hol_conv.specs.Conversion.{Long};
ghost use Rattle.hol_terms.specs.Indices.{instance_of};
ghost use Rattle.hol_terms.specs.Terms.{Term, plain_term, plain_type, truth_type};
ghost use Rattle.hol_terms.specs.Typing.{IsFormula, Typed};
ghost use Rattle.expansion_tree.specs.Fitted.{FitsAs};
ghost use Rattle.expansion_tree.specs.Standing.{BranchesStand, IsNormalFormula, Standing, StandingBranches, Stands, at_expansion, compound_of, deep_formula as deep_formula_of, joined_deep, joining, truth_value};
ghost use Rattle.expansion_tree.specs.Trees.{connective_node, expansion_node, negation_node, plain_branches, plain_tree, selection_node};

use crate::fitted::Fitted;
use crate::parts::{
    left_polarity, negated, normal_instance, quantified_body, sides, variable_instance,
};
use crate::trees::{Branches, Op, Tree};
use hol_conv::normal::normal;
use hol_terms::names::Name;
use hol_terms::terms::{Con, Tm};
use hol_terms::types::Ty;
use std::alloc::{AllocError, Global};

/// The compound of two formulas.
#[inline(never)]
fn compound(alloc: Global, op: Op, left: Tm, right: Tm) -> Result<Tm, AllocError>
    ensures { IfOk result (λ c. plain_term c ≡ compound_of op (plain_term left) (plain_term right)) }
{
    let con = match op {
        Op::And => Tm::Con(Con::And),
        Op::Or => Tm::Con(Con::Or),
        Op::Imp => Tm::Con(Con::Implies),
    };
    let half = Tm::app(alloc, con, left)?;
    Tm::app(alloc, half, right)
}

/// How an expansion of the polarity joins its branches.
fn joint(positive: bool) -> Op
    ensures { result ≡ joining positive }
{
    if positive { Op::Or } else { Op::And }
}

/// TRUTH or FALSEHOOD.
fn constant(value: bool) -> Tm
    ensures { plain_term result ≡ truth_value value }
{
    if value {
        Tm::Con(Con::Truth)
    } else {
        Tm::Con(Con::Falsehood)
    }
}

/// The deep formula of a tree that stands at the formula.
#[cycle(deep)]
fn deepened(alloc: Global, tree: &Tree, positive: bool, formula: Tm) -> Result<Tm, AllocError>
    requires formula { IsFormula (plain_term formula) }
    requires stands { (s : Standing) × Stands positive (plain_term formula) (plain_tree tree.now) s }
    ensures { IfOk result (λ deep. (s : Standing) → Stands positive (plain_term formula) (plain_tree tree.now) s → plain_term deep ≡ deep_formula_of s) }
{
    match tree {
        Tree::Leaf | Tree::Const => Ok(formula),
        Tree::Not(t) => deepened_negation(alloc, t, positive, formula),
        Tree::Bin(op, t, u) => deepened_compound(alloc, *op, t, u, positive, formula),
        Tree::Sel(name, t) => deepened_selection(alloc, name, t, positive, formula),
        Tree::Exp(branches) => deepened_expansion(alloc, branches, positive, formula),
    }
}

/// That of a negation.
#[cycle(deep)]
#[inline(never)]
fn deepened_negation(alloc: Global, t: &Tree, positive: bool, formula: Tm) -> Result<Tm, AllocError>
    requires formula { IsFormula (plain_term formula) }
    requires stands { (s : Standing) × Stands positive (plain_term formula) (negation_node (plain_tree t.now)) s }
    ensures { IfOk result (λ deep. (s : Standing) → Stands positive (plain_term formula) (negation_node (plain_tree t.now)) s → plain_term deep ≡ deep_formula_of s) }
{
    let Some(b) = negated(formula) else {
        unreachable!();
    };
    let below = deepened(alloc, t, !positive, b)?;
    Tm::app(alloc, Tm::Con(Con::Not), below)
}

/// That of a compound.
#[cycle(deep)]
#[inline(never)]
fn deepened_compound(
    alloc: Global,
    op: Op,
    t: &Tree,
    u: &Tree,
    positive: bool,
    formula: Tm,
) -> Result<Tm, AllocError>
    requires formula { IsFormula (plain_term formula) }
    requires stands { (s : Standing) × Stands positive (plain_term formula) (connective_node op (plain_tree t.now) (plain_tree u.now)) s }
    ensures { IfOk result (λ deep. (s : Standing) → Stands positive (plain_term formula) (connective_node op (plain_tree t.now) (plain_tree u.now)) s → plain_term deep ≡ deep_formula_of s) }
{
    let Some((b, c)) = sides(op, formula) else {
        unreachable!();
    };
    let left = deepened(alloc, t, left_polarity(op, positive), b)?;
    let right = deepened(alloc, u, positive, c)?;
    compound(alloc, op, left, right)
}

/// That of a selection.
#[cycle(deep)]
#[inline(never)]
fn deepened_selection(
    alloc: Global,
    name: &Name,
    t: &Tree,
    positive: bool,
    formula: Tm,
) -> Result<Tm, AllocError>
    requires formula { IsFormula (plain_term formula) }
    requires stands { (s : Standing) × Stands positive (plain_term formula) (selection_node name.now (plain_tree t.now)) s }
    ensures { IfOk result (λ deep. (s : Standing) → Stands positive (plain_term formula) (selection_node name.now (plain_tree t.now)) s → plain_term deep ≡ deep_formula_of s) }
{
    let Some((ty, body)) = quantified_body(positive, formula) else {
        unreachable!();
    };
    let instance = variable_instance(alloc, name, ty, body)?;
    deepened(alloc, t, positive, instance)
}

/// That of an expansion.
#[cycle(deep)]
#[inline(never)]
fn deepened_expansion(
    alloc: Global,
    branches: &Branches,
    positive: bool,
    formula: Tm,
) -> Result<Tm, AllocError>
    requires formula { IsFormula (plain_term formula) }
    requires stands { (s : Standing) × Stands positive (plain_term formula) (expansion_node (plain_branches branches.now)) s }
    ensures { IfOk result (λ deep. (s : Standing) → Stands positive (plain_term formula) (expansion_node (plain_branches branches.now)) s → plain_term deep ≡ deep_formula_of s) }
{
    let Some((ty, body)) = quantified_body(!positive, formula) else {
        unreachable!();
    };
    let deep = deepened_branches(alloc, branches, positive, &ty, &body)?;
    Ok(deep)
}

/// That of the branches of an expansion at the body, which is over a variable of type `ty`.
#[cycle(deep)]
#[inline(never)]
fn deepened_branches(
    alloc: Global,
    branches: &Branches,
    positive: bool,
    ty: &Ty,
    body: &Tm,
) -> Result<Tm, AllocError>
    requires body { Typed (plain_type ty.now ∷ []) (plain_term body.now) truth_type }
    requires stand { (ns : StandingBranches) × BranchesStand positive (plain_type ty.now) (plain_term body.now) (plain_branches branches.now) ns }
    ensures { IfOk result (λ deep. (ns : StandingBranches) → BranchesStand positive (plain_type ty.now) (plain_term body.now) (plain_branches branches.now) ns → plain_term deep ≡ deep_formula_of (at_expansion positive ns)) }
{
    match branches {
        Branches::End => Ok(constant(!positive)),
        Branches::More(term, tree, more) => {
            let first = deepened_branch(alloc, term, tree, positive, ty, body)?;
            deepened_rest(alloc, more, positive, ty, body, first)
        }
    }
}

/// The formula `first`, joined with those of the branches.
#[cycle(deep)]
#[inline(never)]
fn deepened_rest(
    alloc: Global,
    branches: &Branches,
    positive: bool,
    ty: &Ty,
    body: &Tm,
    first: Tm,
) -> Result<Tm, AllocError>
    requires body { Typed (plain_type ty.now ∷ []) (plain_term body.now) truth_type }
    requires stand { (ns : StandingBranches) × BranchesStand positive (plain_type ty.now) (plain_term body.now) (plain_branches branches.now) ns }
    ensures { IfOk result (λ deep. (ns : StandingBranches) → BranchesStand positive (plain_type ty.now) (plain_term body.now) (plain_branches branches.now) ns → plain_term deep ≡ joined_deep positive (plain_term first) ns) }
{
    let mut deep = first;
    let mut rest = branches;
    while let Branches::More(term, tree, more) = rest {
        let next = deepened_branch(alloc, term, tree, positive, ty, body)?;
        deep = compound(alloc, joint(positive), deep, next)?;
        rest = &**more;
    }
    Ok(deep)
}

/// That of one branch.
#[cycle(deep)]
#[inline(never)]
fn deepened_branch(
    alloc: Global,
    term: &Tm,
    tree: &Tree,
    positive: bool,
    ty: &Ty,
    body: &Tm,
) -> Result<Tm, AllocError>
    requires body { Typed (plain_type ty.now ∷ []) (plain_term body.now) truth_type }
    requires long { Long [] (plain_term term.now) (plain_type ty.now) }
    requires stands { (a : Term) × IsNormalFormula a (instance_of (plain_term body.now) (plain_term term.now)) × (n : Standing) × Stands positive a (plain_tree tree.now) n }
    ensures { IfOk result (λ deep. (a : Term) (n : Standing) → IsNormalFormula a (instance_of (plain_term body.now) (plain_term term.now)) → Stands positive a (plain_tree tree.now) n → plain_term deep ≡ deep_formula_of n) }
{
    let Some(instance) = normal_instance(alloc, ty, body, term)? else {
        unreachable!();
    };
    deepened(alloc, tree, positive, instance)
}

/// The deep formula: the formulas of the leaves, put together as the tree is (Miller 1987). A selection has that of its child, an
/// expansion those of its branches, joined from the left by OR where it is positive and by AND where negative, and with no branch
/// FALSEHOOD or TRUTH.
pub fn deep_formula(alloc: Global, fitted: &Fitted) -> Result<Tm, AllocError>
    ensures { IfOk result (λ deep. (s : Standing) → FitsAs fitted.now s → plain_term deep ≡ deep_formula_of s) }
{
    let tree = fitted.tree();
    let formula = normal(alloc, fitted.formula())?;
    deepened(alloc, tree, true, formula)
}
