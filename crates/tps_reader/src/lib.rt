//! Formula text: tokens, and the phrases that they make, before types are found.
#![tactic(auto)]

mod cuts;
mod depths;
pub mod faults;
mod frames;
pub mod laws;
pub mod lexemes;
pub mod phrases;
pub mod raws;
pub mod readers;
mod roles;
pub mod tokens;
mod types;
