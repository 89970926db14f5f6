//! Good pairs and open paths.

ghost use Rattle.std.specs.Prelude.{◌≡◌, ◌↔◌, ℕ, All, IfOk, IfSome, IsNone, IsTrue, length};
ghost use Rattle.std.specs.Option.{option_map};
ghost use Rattle.hol_terms.specs.Terms.{plain_term};
ghost use Rattle.vertical_paths.specs.Tautologies.{HasAtoms, HasTautology};
ghost use Rattle.vertical_paths.specs.Matings.{IsFirstBad, IsGood, HoldsGoodPairs, Spans, first_open as first_open_of, leaf_at};

use crate::walk::first_open_path;
use expansion_tree::fitted::{Fitted, LeafView};
use expansion_tree::matings::Mating;
use hol_terms::lists::Numbers;
use hol_terms::terms::same;
use std::alloc::{AllocError, Global};

/// The leaf of a number, from 1.
fn leaf_of(fitted: &Fitted, n: u64) -> Option<LeafView<'_>>
    ensures { option_map (λ leaf. (leaf.positive, plain_term leaf.formula.now)) result ≡ leaf_at fitted.now.leaf_list n }
{
    if n == 0 || n > fitted.leaf_count() {
        return None;
    }
    Some(fitted.leaf(n))
}

/// Whether both numbers are leaves, of opposite polarity and with equal formulas.
fn is_good(fitted: &Fitted, i: u64, j: u64) -> bool
    ensures { IsTrue result ↔ IsGood fitted.now.leaf_list (i, j) }
{
    let Some(a) = leaf_of(fitted, i) else {
        return false;
    };
    let Some(b) = leaf_of(fitted, j) else {
        return false;
    };
    a.positive != b.positive && same(a.formula, b.formula)
}

/// The number, from 1, of the first pair that isn't good: both its numbers are leaves, of opposite polarity and with equal formulas,
/// where it is.
pub fn bad_pair(fitted: &Fitted, mating: &Mating) -> Option<u64>
    ensures none { IsNone result ↔ All (IsGood fitted.now.leaf_list) mating.now }
    ensures some { IfSome result (λ n. IsFirstBad fitted.now.leaf_list mating.now n) }
{
    for (k, pair) in mating.pairs().iter().enumerate() {
        if !is_good(fitted, pair.0, pair.1) {
            return Some(k as u64 + 1);
        }
    }
    None
}

/// The first path of the fitted tree that holds no pair of the mating.
fn open_path(alloc: Global, fitted: &Fitted, mating: &Mating) -> Result<Option<Numbers>, AllocError>
    ensures first { IfOk result (λ path. path ≡ first_open_of mating.now fitted.now.path_list) }
    ensures spans { IfOk result (λ path. IsNone path ↔ Spans mating.now fitted.now.path_list) }
{
    let path = first_open_path(alloc, fitted.matrix(), fitted.leaf_count(), mating.pairs())?;
    match path {
        Some(leaves) => Ok(Some(numbers_of(alloc, &leaves)?)),
        None => Ok(None),
    }
}

/// The first path of the fitted tree that holds no pair of the mating, as its leaf numbers, from 1; `None` where the mating spans.
/// An `Err` is running out of memory.
pub fn first_open(
    alloc: Global,
    fitted: &Fitted,
    mating: &Mating,
) -> Result<Option<Numbers>, AllocError>
    ensures first { IfOk result (λ path. path ≡ first_open_of mating.now fitted.now.path_list) }
    ensures spans { IfOk result (λ path. IsNone path ↔ Spans mating.now fitted.now.path_list) }

    // Where every pair is good and no path is open, the deep formula is a tautology; and where the mating holds all good pairs, in
    // one order or the other, and each leaf is an atom, none is open exactly where it is one.
    ensures tautology { IfOk result (λ path. IsNone path → All (IsGood fitted.now.leaf_list) mating.now → HasTautology fitted.now) }
    ensures decides { IfOk result (λ path. All (IsGood fitted.now.leaf_list) mating.now → HoldsGoodPairs fitted.now.leaf_list mating.now → HasAtoms fitted.now → (IsNone path ↔ HasTautology fitted.now)) }
{
    // What is fitted stands at its formula.
    let _ = fitted.tree();
    open_path(alloc, fitted, mating)
}

/// The list of these numbers.
fn numbers_of(alloc: Global, items: &[u64]) -> Result<Numbers, AllocError>
    ensures { IfOk result (λ numbers. numbers ≡ items.now) }
{
    let mut numbers = Numbers::new(alloc);
    for n in items {
        numbers.push(*n)?;
    }
    Ok(numbers)
}
