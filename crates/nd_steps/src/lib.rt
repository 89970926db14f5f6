//! Deductions in natural deduction (Andrews 2002), built step by step: each step adds a line that the lines justify.
#![tactic(auto)]

pub mod deductions;
pub mod derived;
pub mod formulas;
pub mod hypotheses;
pub mod laws;
pub mod steps;
