//! Conversion by beta and eta: each typed term has exactly one long normal form.
#![tactic(auto)]

pub mod arguments;
pub mod laws;
pub mod long;
pub mod long_forms;
pub mod normal;
