//! Consequence by truth assignments: whether formulas make another one hold, or an assignment that shows that they don't.
#![tactic(auto)]

mod candidates;
mod circuits;
mod fingerprints;
pub mod premises;
mod propagation;
mod rules;
mod search;
mod shapes;
mod trails;
pub mod verdicts;
