//! The check of a formula, a tree and a mating.

ghost use Rattle.std.specs.Prelude.{◌≡◌, ◌≢◌, IfErr, IfOk, OnOk};
ghost use Rattle.hol_terms.specs.Terms.{plain_term};
ghost use Rattle.hol_terms.specs.Typing.{IsFormula};
ghost use Rattle.dependency.specs.Dependencies.{IsAcyclic, IsOrder};
ghost use Rattle.expansion_tree.specs.Fitted.{IsFitted};
ghost use Rattle.expansion_tree.specs.Occurrences.{occurrences_of};
ghost use Rattle.expansion_tree.specs.Trees.{plain_tree};
ghost use Rattle.vertical_paths.specs.Matings.{Spans};
ghost use Rattle.proof_text.specs.Texts.{plain_proof};
ghost use Rattle.exp_check.specs.Accepted.{IsAccepted, proof_of};
ghost use Rattle.exp_check.specs.Judged.{IsFirstFitFault, IsFirstJudged, IsJudged, IsOrdersFault, IsPathsFault};
ghost use Rattle.exp_check.specs.Proofs.{IsFirstCheckFault, IsProof};

use crate::accepted::Accepted;
use crate::faults::CheckFault;
use dependency::dependencies::order;
use dependency::faults::OrderFault;
use dependency::orders::Order;
use expansion_tree::faults::FitFault;
use expansion_tree::fitted::Fitted;
use expansion_tree::matings::Mating;
use expansion_tree::trees::Tree;
use hol_terms::terms::Tm;
use proof_text::texts::ProofText;
use std::alloc::Global;
use vertical_paths::matings::{bad_pair, first_open};

/// The order of the occurrences, or a closed chain of them.
fn ordered(alloc: Global, fitted: &Fitted) -> Result<Order, CheckFault>
    ensures order { IfOk result (λ o. IsOrder (occurrences_of fitted.now.tree) fitted.now.selection_list o × IsAcyclic (occurrences_of fitted.now.tree) fitted.now.selection_list) }
    ensures fault { IfErr result (λ e. IsOrdersFault fitted.now e) }
{
    match order(alloc, fitted) {
        Ok(order) => Ok(order),
        Err(OrderFault::Memory) => Err(CheckFault::Memory),
        Err(OrderFault::Cycle(chain)) => Err(CheckFault::Cycle(chain)),
    }
}

/// Whether each path holds a pair of the mating: the first that holds none, as a fault.
fn spanned(alloc: Global, fitted: &Fitted, mating: &Mating) -> Result<(), CheckFault>
    ensures spans { OnOk result (Spans mating.now fitted.now.path_list) }
    ensures fault { IfErr result (λ e. IsPathsFault fitted.now mating.now e) }
{
    match first_open(alloc, fitted, mating) {
        Ok(None) => Ok(()),
        Ok(Some(path)) => Err(CheckFault::OpenPath(path)),
        Err(_) => Err(CheckFault::Memory),
    }
}

/// Judges the mating of a fitted tree and the order of its occurrences: good pairs, then an order, then paths.
fn judged(alloc: Global, fitted: &Fitted, mating: &Mating) -> Result<Order, CheckFault>
    ensures order { IfOk result (λ o. IsJudged fitted.now mating.now o) }
    ensures fault { IfErr result (λ e. IsFirstJudged fitted.now mating.now e) }
{
    if let Some(k) = bad_pair(fitted, mating) {
        return Err(CheckFault::BadPair(k));
    }
    let order = ordered(alloc, fitted)?;
    spanned(alloc, fitted, mating)?;
    Ok(order)
}

/// The formula with its tree, fitted.
fn fitted(alloc: Global, formula: Tm, tree: Tree) -> Result<Fitted, CheckFault>
    requires { IsFormula (plain_term formula) }
    ensures fits { IfOk result (λ f. IsFitted f × (f.formula ≡ plain_term formula) × (f.tree ≡ plain_tree tree)) }
    ensures fault { IfErr result (λ e. IsFirstFitFault (plain_term formula) (plain_tree tree) e) }
{
    match Fitted::new(alloc, formula, tree) {
        Ok(fitted) => Ok(fitted),
        Err(FitFault::Memory) => Err(CheckFault::Memory),
        Err(fault) => Err(CheckFault::Fit(fault)),
    }
}

/// Checks that a formula, a tree and a mating are an expansion proof (Miller 1987), and keeps exactly these. Of the faults `Fit` comes
/// first, then `BadPair`, then `Cycle`, then `OpenPath`. A refusal drops the text.
pub fn check(alloc: Global, text: ProofText) -> Result<Accepted, CheckFault>
    requires { IsFormula (plain_term text.formula) }
    ensures accepted { IfOk result (λ a. IsAccepted a × (proof_of a ≡ plain_proof text)) }
    ensures fault { IfErr result (λ e. IsFirstCheckFault (plain_proof text) e) }
    ensures refused { IfErr result (λ e. e ≢ CheckFault.Memory → IsProof (plain_proof text) → ⊥) }
{
    let ProofText {
        formula,
        tree,
        mating,
    } = text;
    let fitted = match fitted(alloc, formula, tree) {
        Ok(fitted) => fitted,
        Err(fault) => return Err(fault),
    };
    match judged(alloc, &fitted, &mating) {
        Ok(order) => Ok(Accepted::new(fitted, mating, order)),
        Err(fault) => Err(fault),
    }
}
