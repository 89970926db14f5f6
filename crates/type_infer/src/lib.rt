//! The types of raw formulas: found where they are determined.
#![tactic(auto)]

mod building;
mod cells;
pub mod conditions;
pub mod inference;
mod known;
pub mod laws;
mod loading;
mod merging;
mod ordering;
pub mod scopes;
mod solving;
