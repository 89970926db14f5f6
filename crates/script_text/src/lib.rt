//! Lines of scripts for the deduction tutor.
#![tactic(auto)]

mod arguments;
pub mod commands;
pub mod faults;
mod numerals;
pub mod readers;
mod slices;
mod tails;
mod variables;
mod words;
