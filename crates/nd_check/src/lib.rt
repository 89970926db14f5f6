//! Derivations in natural deduction: their texts, and whether an outline is a derivation.
#![tactic(auto)]

pub mod judgements;
pub mod justifications;
pub mod laws;
pub mod lines;
pub mod texts;
pub mod verifying;
pub mod writers;
