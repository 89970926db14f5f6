//! Expansion trees grown branch by branch: trees without branches, and those that come of a tree by one more.
#![tactic(auto)]

pub mod additions;
pub mod bare;
pub mod extensions;
pub mod growths;
pub mod kinds;
pub mod names;
