//! Where bytes come from and where they go, with a count of the calls that failed.
#![tactic(auto)]

pub mod sink;
pub mod source;
