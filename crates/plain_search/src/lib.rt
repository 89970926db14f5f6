//! The least expansion proof within a budget of weight, by a plain search through all of its trees.
#![tactic(auto)]

pub mod laws;
pub mod search;
mod tasks;
mod trials;
