//! The core text of types and terms of Church's type theory: fully bracketed, read exactly and written exactly.
#![tactic(auto)]

pub mod brackets;
pub mod faults;
pub mod laws;
pub mod pieces;
pub mod sexps;
pub mod terms;
pub mod types;
pub mod typings;
pub mod words;
pub mod writers;
