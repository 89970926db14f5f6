//! Expansion proofs that are generated, of each length.
#![tactic(auto)]

pub mod chains;
