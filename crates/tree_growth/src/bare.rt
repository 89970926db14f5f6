//! Trees without branches.

ghost use Rattle.std.specs.Prelude.{◌≡◌, [], IfOk};
ghost use Rattle.hol_conv.specs.Conversion.{Long};
ghost use Rattle.hol_terms.specs.Terms.{SimpleType, Term, plain_term, truth_type};
ghost use Rattle.expansion_tree.specs.Standing.{compound_of, negation_of, quantified, selecting};
ghost use Rattle.tree_growth.specs.Growths.{IsBareGrowth, plain_growth};

use crate::growths::{Growth, beside, selecting, without_new};
use crate::kinds::{Kind, kind_of};
use crate::names::TakenNames;
use expansion_tree::parts::{left_polarity, negated, quantified_body, sides, variable_instance};
use expansion_tree::trees::{Branches, Op, Tree};
use hol_terms::terms::Tm;
use std::alloc::{AllocError, Global};

/// The tree without a branch at a long formula, each leaf of which has a variable as its head. Its selected variables have the names a1, a2
/// and so on from that of a number on, without those that are taken, in the order of their nodes. An error comes only where memory runs
/// out.
#[cycle(bare)]
pub fn bare(
    alloc: Global,
    taken: &TakenNames,
    positive: bool,
    formula: Tm,
    next: u64,
) -> Result<Growth, AllocError>
    requires { Long [] (plain_term formula) truth_type }
    ensures { IfOk result (λ g. IsBareGrowth taken.now next positive (plain_term formula) (plain_growth g)) }
{
    match kind_of(positive, &formula) {
        Kind::Leaf => Ok(without_new(alloc, Tree::Leaf, next)),
        Kind::Const => Ok(without_new(alloc, Tree::Const, next)),
        Kind::Not => bare_negation(alloc, taken, positive, formula, next),
        Kind::Bin(op) => bare_compound(alloc, taken, positive, op, formula, next),
        Kind::Sel => bare_selection(alloc, taken, positive, formula, next),
        Kind::Exp => Ok(without_new(alloc, Tree::Exp(Branches::End), next)),
    }
}

/// That of a negation.
#[cycle(bare)]
#[inline(never)]
#[tactic(auto, using(crate::proofs::Parts::long_formula, crate::proofs::Parts::long_negated, crate::proofs::Parts::weight_negated))]
fn bare_negation(
    alloc: Global,
    taken: &TakenNames,
    positive: bool,
    formula: Tm,
    next: u64,
) -> Result<Growth, AllocError>
    requires long { Long [] (plain_term formula) truth_type }
    requires negation { (b : Term) × (plain_term formula ≡ negation_of b) }
    ensures { IfOk result (λ g. IsBareGrowth taken.now next positive (plain_term formula) (plain_growth g)) }
{
    let Some(b) = negated(formula) else {
        unreachable!()
    };
    bare(alloc, taken, !positive, b, next)?.negated(alloc)
}

/// That of a compound.
#[cycle(bare)]
#[inline(never)]
#[tactic(auto, using(crate::proofs::Parts::long_formula, crate::proofs::Parts::long_left, crate::proofs::Parts::long_right, crate::proofs::Parts::weight_sides))]
fn bare_compound(
    alloc: Global,
    taken: &TakenNames,
    positive: bool,
    op: Op,
    formula: Tm,
    next: u64,
) -> Result<Growth, AllocError>
    requires long { Long [] (plain_term formula) truth_type }
    requires compound { (b : Term) × (c : Term) × (plain_term formula ≡ compound_of op b c) }
    ensures { IfOk result (λ g. IsBareGrowth taken.now next positive (plain_term formula) (plain_growth g)) }
{
    let Some((b, c)) = sides(op, formula) else {
        unreachable!()
    };
    let left = bare(alloc, taken, left_polarity(op, positive), b, next)?;
    let right = bare(alloc, taken, positive, c, left.next)?;
    beside(alloc, op, left, right)
}

/// That of a formula that selects.
#[cycle(bare)]
#[inline(never)]
#[tactic(auto, using(crate::proofs::Parts::long_formula, crate::proofs::Parts::long_body, crate::proofs::Parts::long_variable_instance, crate::proofs::Parts::instance_weighs_less))]
fn bare_selection(
    alloc: Global,
    taken: &TakenNames,
    positive: bool,
    formula: Tm,
    next: u64,
) -> Result<Growth, AllocError>
    requires long { Long [] (plain_term formula) truth_type }
    requires quantified { (ty : SimpleType) × (b : Term) × (plain_term formula ≡ quantified (selecting positive ty) ty b) }
    ensures { IfOk result (λ g. IsBareGrowth taken.now next positive (plain_term formula) (plain_growth g)) }
{
    let Some((ty, body)) = quantified_body(positive, formula) else {
        unreachable!()
    };
    let (name, next) = taken.fresh(alloc, next)?;
    let instance = variable_instance(alloc, &name, ty.copy(alloc)?, body)?;
    let below = bare(alloc, taken, positive, instance, next)?;
    selecting(alloc, name, &ty, below)
}
