//! Calls of `outline_translate`.

use crate::answers::{Answer, NoAnswer};
use crate::texts::{outline_text, verified};
use exp_check::accepted::Accepted;
use exp_check::checks::check;
use outline_translate::translate::translate;
use proof_text::texts::read_proof;
use std::alloc::Global;

/// The proof of a proof text, where it is accepted.
fn accepted(alloc: Global, text: &str) -> Result<Accepted, NoAnswer> {
    let proof = read_proof(alloc, text.as_bytes())?;
    match check(alloc, proof) {
        Ok(accepted) => Ok(accepted),
        Err(_) => Err(NoAnswer::Rejected),
    }
}

/// `PROOF`: the derivation that the proof is turned into.
pub fn translation(alloc: Global, arguments: &str) -> Answer {
    let accepted = accepted(alloc, arguments)?;
    outline_text(alloc, &translate(alloc, &accepted)?)
}

/// `PROOF`: how many lines that derivation has, and whether it is one.
pub fn verified_translation(alloc: Global, arguments: &str) -> Answer {
    let accepted = accepted(alloc, arguments)?;
    let outline = translate(alloc, &accepted)?;
    let count = outline.len();
    let verdict = verified(alloc, &outline)?;
    Ok(format!(in alloc; "{count} {verdict}")?)
}
