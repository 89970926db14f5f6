//! Substitution and long normal forms of shared terms, each distinct part once.
#![tactic(auto)]

pub mod arguments;
pub mod hereditary;
pub mod instances;
pub mod laws;
mod long_forms;
pub mod normal;
mod shapes;
mod tables;
mod types_around;
