//! Proof texts: a formula, an expansion tree and a mating as one bracketed form.
#![tactic(auto)]

pub mod judgements;
pub mod laws;
pub mod matings;
pub mod texts;
pub mod trees;
pub mod writers;
