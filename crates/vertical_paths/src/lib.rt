//! Matings (Andrews 1981): the first pair that isn't good, and the first vertical path that holds no pair.
#![tactic(auto)]

pub mod matings;
pub mod partners;
mod prefixes;
mod walk;
