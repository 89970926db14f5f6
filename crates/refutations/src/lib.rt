//! Refutations of expansion proofs by cases, written as deductions (Miller 1987, Andrews 2002).
#![tactic(auto)]

mod cases;
mod counts;
mod duties;
mod exact;
mod hypotheses;
mod lines;
mod nodes;
mod parts;
mod reading;
pub mod refute;
mod spread;
mod stacks;
