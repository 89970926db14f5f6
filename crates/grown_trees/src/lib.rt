//! Expansion trees grown branch by branch (Miller 1987), and how they come to proofs.
#![tactic(auto)]

pub mod laws;
