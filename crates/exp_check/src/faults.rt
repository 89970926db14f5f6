//! Why a proof text is no expansion proof.

use expansion_tree::faults::FitFault;
use hol_terms::lists::Numbers;

/// Why a formula, a tree and a mating are no expansion proof: the first of these, in this order, that holds.
#[derive(Drop)]
pub enum CheckFault {
    /// Memory ran out.
    Memory,
    /// The tree is no expansion tree of the formula.
    Fit(FitFault),
    /// The pair of this number, from 1, isn't good: both its numbers are leaves, of opposite polarity and with equal formulas, where it is.
    BadPair(u64),
    /// The occurrences of these numbers, from 1, depend on each other: each is directly before the next, and the last before the first.
    Cycle(Numbers),
    /// The path with these leaf numbers, from 1, is the first that holds no pair of the mating.
    OpenPath(Numbers),
}
