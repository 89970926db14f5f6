//! The dependency relation of expansion proofs (Miller 1987): an order of the occurrences, or a closed chain of them.
#![tactic(auto)]

pub mod dependencies;
pub mod faults;
mod graphs;
pub mod laws;
mod nesting;
pub mod orders;
mod uses;
