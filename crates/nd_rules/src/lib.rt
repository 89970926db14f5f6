//! Natural deduction (Andrews 2002): lines, outlines, and the eight rules that justify a line.
#![tactic(auto)]

pub mod converting;
pub mod faults;
pub mod justifying;
pub mod laws;
pub mod lines;
pub mod naming;
pub mod outlines;
pub mod resting;
pub mod shapes;
pub mod variables;
pub mod words;
