//! What the programs share that answer a call on each line of their input: the call of a line, what its arguments stand for, and answers as text.
#![tactic(auto)]

pub mod answers;
pub mod arguments;
pub mod lines;
