//! Trees tried as proofs.

ghost use Rattle.std.specs.Prelude.{◌≡◌, ◌↔◌, ◌≤◌, ◌+◌, All, IfNone, IfOk, IfSome, IsTrue, OnOk, length};
ghost use Rattle.hol_terms.specs.Terms.{plain_term};
ghost use Rattle.hol_terms.specs.Typing.{IsFormula};
ghost use Rattle.expansion_tree.specs.Fitted.{IsFitted};
ghost use Rattle.expansion_tree.specs.Trees.{plain_tree};
ghost use Rattle.vertical_paths.specs.Matings.{HoldsGoodPairs, IsGood};
ghost use Rattle.exp_check.specs.Accepted.{IsAccepted};
ghost use Rattle.plain_search.specs.Trials.{CanBeMated, HasPairs, IsSpannedBy};

use exp_check::accepted::Accepted;
use exp_check::checks::check;
use exp_check::faults::CheckFault;
use expansion_tree::faults::FitFault;
use expansion_tree::fitted::{Fitted, fit};
use expansion_tree::matings::Mating;
use expansion_tree::trees::Tree;
use hol_terms::terms::{Tm, copy, same};
use proof_text::texts::ProofText;
use std::alloc::{AllocError, Global};
use vertical_paths::matings::first_open;

/// Whether two leaves have opposite polarities and equal formulas.
fn are_good(fitted: &Fitted, i: u64, j: u64) -> bool
    requires first { 1 ≤ i }
    requires last { i ≤ length fitted.now.leaf_list }
    requires other_first { 1 ≤ j }
    requires other_last { j ≤ length fitted.now.leaf_list }
    ensures { IsTrue result ↔ IsGood fitted.now.leaf_list (i, j) }
{
    let a = fitted.leaf(i);
    let b = fitted.leaf(j);
    a.positive != b.positive && same(a.formula, b.formula)
}

/// The pair is added where it is good.
fn add_pair(fitted: &Fitted, i: u64, j: u64, mating: &mut Mating) -> Result<(), AllocError>
    requires first { 1 ≤ i }
    requires last { i ≤ length fitted.now.leaf_list }
    requires other_first { 1 ≤ j }
    requires other_last { j ≤ length fitted.now.leaf_list }
    ensures { OnOk result (HasPairs fitted.now.leaf_list i j (j + 1) mating.old mating.new) }
{
    if !are_good(fitted, i, j) {
        return Ok(());
    }
    mating.push(i, j)
}

/// The good pairs of a leaf with those after it are added.
fn add_pairs(fitted: &Fitted, i: u64, mating: &mut Mating) -> Result<(), AllocError>
    requires first { 1 ≤ i }
    requires last { i ≤ length fitted.now.leaf_list }
    ensures { OnOk result (HasPairs fitted.now.leaf_list i (i + 1) (length fitted.now.leaf_list + 1) mating.old mating.new) }
{
    for j in i..fitted.leaf_count() {
        add_pair(fitted, i, j + 1, &mut *mating)?;
    }
    Ok(())
}

/// The mating of all good pairs.
fn good_pairs(alloc: Global, fitted: &Fitted) -> Result<Mating, AllocError>
    ensures good { IfOk result (λ mating. All (IsGood fitted.now.leaf_list) mating) }
    ensures all { IfOk result (λ mating. HoldsGoodPairs fitted.now.leaf_list mating) }
{
    let mut mating = Mating::new(alloc);
    for i in 0..fitted.leaf_count() {
        add_pairs(fitted, i + 1, &mut mating)?;
    }
    Ok(mating)
}

/// The mating of all good pairs of a fitted tree, `None` where it doesn't span.
fn spanning_mating(alloc: Global, fitted: &Fitted) -> Result<Option<Mating>, AllocError>
    requires { IsFitted fitted.now }
    ensures some { IfOk result (λ found. IfSome found (IsSpannedBy fitted.now.formula fitted.now.tree)) }
    ensures none { IfOk result (λ found. IfNone found (CanBeMated fitted.now.formula fitted.now.tree → ⊥)) }
{
    let mating = good_pairs(alloc, fitted)?;
    match first_open(alloc, fitted, &mating)? {
        Some(_) => Ok(None),
        None => Ok(Some(mating)),
    }
}

/// Whether the fault is running out of memory.
fn wants_memory(fault: &FitFault) -> bool
    ensures { IsTrue result ↔ (fault.now ≡ FitFault.Memory) }
{
    match fault {
        FitFault::Memory => true,
        _ => false,
    }
}

/// Whether the fault of a check is running out of memory.
fn check_wants_memory(fault: &CheckFault) -> bool
    ensures { IsTrue result ↔ (fault.now ≡ CheckFault.Memory) }
{
    match fault {
        CheckFault::Memory => true,
        _ => false,
    }
}

/// The mating of all good pairs of the formula's tree; `None` where the tree isn't one of the formula, or the mating doesn't span.
fn spanning(alloc: Global, formula: &Tm, tree: &Tree) -> Result<Option<Mating>, AllocError>
    requires { IsFormula (plain_term formula.now) }
    ensures some { IfOk result (λ found. IfSome found (IsSpannedBy (plain_term formula.now) (plain_tree tree.now))) }
    ensures none { IfOk result (λ found. IfNone found (CanBeMated (plain_term formula.now) (plain_tree tree.now) → ⊥)) }
{
    match fit(alloc, formula, tree) {
        Ok(fitted) => spanning_mating(alloc, &fitted),
        Err(fault) => {
            if wants_memory(&fault) {
                return Err(AllocError);
            }
            Ok(None)
        }
    }
}

/// The expansion proof that the formula's tree makes with the mating of all its good pairs; `None` where no mating makes it one.
pub fn tried(alloc: Global, formula: &Tm, tree: &Tree) -> Result<Option<Accepted>, AllocError>
    requires { IsFormula (plain_term formula.now) }
    ensures some { IfOk result (λ accepted. IfSome accepted (λ a. IsAccepted a × (a.fitted.formula ≡ plain_term formula.now) × (a.fitted.tree ≡ plain_tree tree.now))) }
    ensures none { IfOk result (λ accepted. IfNone accepted (CanBeMated (plain_term formula.now) (plain_tree tree.now) → ⊥)) }
{
    let Some(mating) = spanning(alloc, formula, tree)? else {
        return Ok(None);
    };
    let text = ProofText {
        formula: copy(alloc, formula)?,
        tree: tree.copy(alloc)?,
        mating,
    };
    match check(alloc, text) {
        Ok(accepted) => Ok(Some(accepted)),
        Err(fault) => {
            if check_wants_memory(&fault) {
                return Err(AllocError);
            }
            Ok(None)
        }
    }
}
