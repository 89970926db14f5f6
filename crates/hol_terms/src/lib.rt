//! Types and terms of Church's type theory (Church 1940), with numbered bound variables.
#![tactic(auto)]

pub mod indices;
pub mod laws;
pub mod letters;
pub mod lists;
pub mod names;
pub mod scopes;
pub mod terms;
pub mod types;
pub mod typing;
pub mod variable_sets;
pub mod variables;
