//! Expansion proofs (Miller 1987) checked: a formula, an expansion tree of it, and a mating that spans the tree's paths.
#![tactic(auto)]

pub mod accepted;
pub mod checks;
pub mod faults;
pub mod laws;
