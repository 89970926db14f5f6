//! The heads that a search may put into terms, and the lists of all long terms of one type and weight over them.
#![tactic(auto)]

pub mod heads;
pub mod laws;
pub mod long_terms;
pub mod signatures;
mod spines;
mod type_lists;
mod typed_heads;
