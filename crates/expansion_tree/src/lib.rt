//! Expansion trees (Miller 1987), the formulas at which they stand, and their leaves and paths.
#![tactic(auto)]

pub mod deep;
pub mod faults;
pub mod fit;
pub mod fitted;
pub mod found;
pub mod laws;
pub mod matings;
pub mod matrices;
pub mod occurrences;
pub mod parts;
pub mod trees;
