//! Hypotheses that are to be discharged where a case is closed.

use hol_terms::names::Name;
use nd_steps::derived::Contradiction;

/// A hypothesis and how it is discharged.
#[derive(Clone, Copy)]
pub enum Duty<'a> {
    /// What the source says of a quantified formula holds of the variable of that name.
    Choice {
        positive: bool,
        source: u64,
        hyp: u64,
        name: &'a Name,
    },
    /// The second of two cases that the source leaves.
    Second {
        source: u64,
        first: Contradiction,
        hyp: u64,
    },
}
