//! Formulas and lines printed as logicians write them.
#![tactic(auto)]

pub mod formulas;
pub mod laws;
pub mod levels;
pub mod lines;
mod names;
mod outputs;
mod shapes;
mod terms;
mod types;
