//! Scripts for the deduction tutor: commands to a session and the replies to them.
#![tactic(auto)]

mod known;
mod lines;
mod phrases;
mod refusals;
pub mod replies;
mod requests;
pub mod scripts;
mod steps;
