//! The derivation of an expansion proof's formula.

ghost use Rattle.std.specs.Prelude.{◌≤◌, ◌+◌, ◌*◌, ◌^◌, IfOk, length};
ghost use Rattle.expansion_tree.specs.Trees.{node_count};
ghost use Rattle.nd_rules.specs.Outlines.{IsDerivation};

use exp_check::accepted::Accepted;
use hol_conv::normal::normal;
use hol_terms::lists::Hyps;
use hol_terms::terms::{copy, same};
use nd_rules::outlines::Outline;
use nd_steps::deductions::Deduction;
use refutations::refute::refute;
use std::alloc::{AllocError, Global};

/// A derivation of the formula of an expansion proof, as it is given (Miller 1987, Andrews 2002): the long normal form is supposed to be
/// false, which is refuted case by case, and then DEDUCT, RULEP and, where the formula isn't normal, LAMBDA. An error comes only where
/// memory runs out.
pub fn translate(alloc: Global, accepted: &Accepted) -> Result<Outline, AllocError>
    ensures derivation { IfOk result (λ outline. IsDerivation outline accepted.now.fitted.formula) }
    ensures few { IfOk result (λ outline. length outline ≤ 64 * (node_count accepted.now.fitted.tree + 1) * 2 ^ node_count accepted.now.fitted.tree) }
{
    let formula = accepted.fitted().formula();
    let normal = normal(alloc, formula)?;
    let is_normal = same(&normal, formula);
    let mut deduction = Deduction::new(alloc);
    let refuted = refute(alloc, accepted, &mut deduction, &normal)?;
    let none = Hyps::new(alloc);
    let line = deduction.by_contradiction(alloc, &none, refuted, normal)?;
    if is_normal {
        return Ok(deduction.into_outline());
    }
    let formula = copy(alloc, formula)?;
    deduction.convert(alloc, &none, line, formula)?;
    Ok(deduction.into_outline())
}
