//! Lines for the nodes below a node.

ghost use Rattle.std.specs.Prelude.{◌≡◌, ◌≤◌, ◌+◌, ◌∷◌, ℕ, [], false, not, if◌then◌else◌, IfOk, List, OnOk, length};
ghost use Rattle.hol_conv.specs.Conversion.{Long};
ghost use Rattle.hol_terms.specs.Indices.{instance_of};
ghost use Rattle.hol_terms.specs.Terms.{SimpleType, Term, free, plain_term, truth_type};
ghost use Rattle.hol_terms.specs.Typing.{Typed};
ghost use Rattle.expansion_tree.specs.Standing.{IsNormalFormula, compound_of, expanding, left_polarity, negation_of, quantified, selecting};
ghost use Rattle.nd_steps.specs.Deductions.{AreAssumptions, Assumes, Derives, Grows, IsDeduction, Proves};
ghost use Rattle.refutations.specs.Opens.{Says, gives_cases, said as plain_said};
ghost use Rattle.refutations.specs.Reaching.{Reaches};

use crate::exact::{conclude_one, expand};
use crate::nodes::{Front, Node};
use crate::parts::{formula_of, instance_of_body, instance_with, negated, said, sides_of};
use expansion_tree::parts::left_polarity as polarity_of_left;
use expansion_tree::trees::Op;
use hol_conv::normal::normal;
use hol_terms::names::Name;
use hol_terms::terms::copy;
use nd_steps::deductions::Deduction;
use std::alloc::{AllocError, Global};

/// What the line of a negation says of the formula under it: the same line, where it says that the negation is true, and else one more.
pub fn line_under_negation(
    alloc: Global,
    deduction: &mut Deduction,
    node: Node<'_>,
) -> Result<u64, AllocError>
    requires { (hyps : List ℕ) × (b : Term) × IsDeduction deduction.old × AreAssumptions deduction.old hyps × Proves deduction.old node.line hyps (plain_said node.positive (negation_of b)) }
    ensures reaches { IfOk result (λ n. (hyps : List ℕ) (b : Term) → AreAssumptions deduction.old hyps → Proves deduction.old node.entry.line hyps (plain_said node.entry.positive (negation_of b)) → Reaches 1 deduction.old deduction.new n hyps (plain_said (not node.entry.positive) b)) }
    ensures deduction { OnOk result (IsDeduction deduction.new) }
{
    if !node.positive {
        return Ok(node.line);
    }
    let formula = negated(formula_of(deduction, node.line, true));
    let formula = copy(alloc, formula)?;
    conclude_one(alloc, deduction, node.line, formula)
}

/// The lines of the two sides of a compound.
#[derive(Clone, Copy)]
pub struct SideLines {
    pub left: u64,
    pub right: u64,
}

/// What the line of a compound that gives both sides says of them, by two lines.
pub fn side_lines(
    alloc: Global,
    deduction: &mut Deduction,
    node: Node<'_>,
    op: Op,
) -> Result<SideLines, AllocError>
    requires premises { (hyps : List ℕ) × (b : Term) × (c : Term) × IsDeduction deduction.old × AreAssumptions deduction.old hyps × Proves deduction.old node.line hyps (plain_said node.positive (compound_of op b c)) }
    requires both { gives_cases op node.positive ≡ false }
    ensures left { IfOk result (λ r. (hyps : List ℕ) (b c : Term) → AreAssumptions deduction.old hyps → Proves deduction.old node.entry.line hyps (plain_said node.entry.positive (compound_of op b c)) → Proves deduction.new r.left hyps (plain_said (left_polarity op node.entry.positive) b)) }
    ensures right { IfOk result (λ r. (hyps : List ℕ) (b c : Term) → AreAssumptions deduction.old hyps → Proves deduction.old node.entry.line hyps (plain_said node.entry.positive (compound_of op b c)) → Proves deduction.new r.right hyps (plain_said node.entry.positive c)) }
    ensures grown { OnOk result (Grows deduction.old deduction.new) }
    ensures few { OnOk result (length deduction.new ≤ length deduction.old + 2) }
    ensures deduction { OnOk result (IsDeduction deduction.new) }
{
    let (left, right) = sides_of(formula_of(deduction, node.line, node.positive));
    let left = said(alloc, polarity_of_left(op, node.positive), left)?;
    let right = said(alloc, node.positive, right)?;
    let left = conclude_one(alloc, deduction, node.line, left)?;
    let right = conclude_one(alloc, deduction, node.line, right)?;
    Ok(SideLines { left, right })
}

/// The hypothesis that says of the left side of a compound, if `left`, and else of the right one what it says in that case.
pub fn suppose_side(
    alloc: Global,
    deduction: &mut Deduction,
    node: Node<'_>,
    op: Op,
    left: bool,
) -> Result<u64, AllocError>
    requires { (b : Term) × (c : Term) × IsDeduction deduction.old × Says deduction.old node.line (plain_said node.positive (compound_of op b c)) }
    ensures assumes { IfOk result (λ n. (b c : Term) → Says deduction.old node.entry.line (plain_said node.entry.positive (compound_of op b c)) → Assumes deduction.new n (if left then plain_said (left_polarity op node.entry.positive) b else plain_said node.entry.positive c)) }
    ensures grown { OnOk result (Grows deduction.old deduction.new) }
    ensures one { OnOk result (length deduction.new ≡ length deduction.old + 1) }
    ensures deduction { OnOk result (IsDeduction deduction.new) }
{
    let (first, second) = sides_of(formula_of(deduction, node.line, node.positive));
    let formula = if left {
        said(alloc, polarity_of_left(op, node.positive), first)?
    } else {
        said(alloc, node.positive, second)?
    };
    deduction.assume(alloc, formula)
}

/// The hypothesis that says of the variable what the line of a selection says of all or of some.
pub fn suppose_variable(
    alloc: Global,
    deduction: &mut Deduction,
    node: Node<'_>,
    name: &Name,
) -> Result<u64, AllocError>
    requires { (ty : SimpleType) × (b : Term) × IsDeduction deduction.old × Says deduction.old node.line (plain_said node.positive (quantified (selecting node.positive ty) ty b)) }
    ensures assumes { IfOk result (λ n. (ty : SimpleType) (b : Term) → Says deduction.old node.entry.line (plain_said node.entry.positive (quantified (selecting node.entry.positive ty) ty b)) → Assumes deduction.new n (plain_said node.entry.positive (instance_of b (free name.now ty)))) }
    ensures grown { OnOk result (Grows deduction.old deduction.new) }
    ensures one { OnOk result (length deduction.new ≡ length deduction.old + 1) }
    ensures deduction { OnOk result (IsDeduction deduction.new) }
{
    let formula = formula_of(deduction, node.line, node.positive);
    let instance = instance_with(alloc, node.positive, formula, name)?;
    let formula = said(alloc, node.positive, &instance)?;
    deduction.assume(alloc, formula)
}

/// A line for the node below a term, whose formula is the long normal form of the instance.
pub fn expanded_line(
    alloc: Global,
    deduction: &mut Deduction,
    front: Front<'_>,
) -> Result<u64, AllocError>
    requires { (hyps : List ℕ) × (ty : SimpleType) × (b : Term) × IsDeduction deduction.old × AreAssumptions deduction.old hyps × Proves deduction.old front.node.line hyps (plain_said front.node.positive (quantified (expanding front.node.positive ty) ty b)) × Typed (ty ∷ []) b truth_type × Long [] (plain_term front.term.now) ty }
    ensures reaches { IfOk result (λ n. (hyps : List ℕ) (ty : SimpleType) (b lower : Term) → AreAssumptions deduction.old hyps → Proves deduction.old front.entry.node.line hyps (plain_said front.entry.node.positive (quantified (expanding front.entry.node.positive ty) ty b)) → IsNormalFormula lower (instance_of b (plain_term front.entry.term.now)) → Reaches 6 deduction.old deduction.new n hyps (plain_said front.entry.node.positive lower)) }
    ensures deduction { OnOk result (IsDeduction deduction.new) }
{
    let positive = front.node.positive;
    let formula = formula_of(deduction, front.node.line, positive);
    let instance = instance_of_body(alloc, !positive, formula, front.term)?;
    let lower = normal(alloc, &instance)?;
    let term = copy(alloc, front.term)?;
    expand(alloc, deduction, front.node.line, positive, term, lower)
}
