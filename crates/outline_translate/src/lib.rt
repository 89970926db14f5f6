//! Expansion proofs turned into natural deductions (Miller 1987, Andrews 2002).
#![tactic(auto)]

pub mod translate;
