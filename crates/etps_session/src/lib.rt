//! Sessions of a deduction tutor, in which each step is judged and can be undone. After ETPS (Andrews and others 1996).
#![tactic(auto)]

pub mod commands;
pub mod faults;
mod hypotheses;
mod judging;
pub mod laws;
pub mod sessions;
mod steps;
mod tables;
