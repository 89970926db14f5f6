//! Calls of `proof_text`, and matings.

ghost use Rattle.std.specs.Prelude.{◌≡◌, ◌++◌, ◌∷◌, [], IfOk, string_bytes};
ghost use Rattle.core_text.specs.Written.{written};
ghost use Rattle.proof_text.specs.Texts.{IsProofText, Proof, proof_form};

use crate::answers::Answer;
use call_lines::answers::string_of;
use core_text::brackets::read_sexp;
use proof_text::matings::read_mating;
use proof_text::texts::read_proof;
use proof_text::writers::write_proof;
use std::alloc::Global;

/// `PROOF`: what is written for it, which ends a line of its own.
pub fn proof_again(alloc: Global, arguments: &str) -> Answer
    ensures { IfOk result (λ answer. (p : Proof) × IsProofText arguments.now p × string_bytes answer ≡ written (proof_form p) ++ 10 ∷ []) }
{
    let proof = read_proof(alloc, arguments.as_bytes())?;
    Ok(string_of(alloc, &write_proof(alloc, &proof)?)?)
}

/// `(PAIR ..)`: how many pairs the mating has, and each of them.
pub fn pairs(alloc: Global, arguments: &str) -> Answer {
    let mating = read_mating(alloc, &read_sexp(alloc, arguments.as_bytes())?)?;
    let mut answer = format!(in alloc; "{}", mating.len())?;
    for k in 0..mating.len() {
        let (i, j) = mating.at(k);
        answer.push_str(format!(in alloc; " ({i} {j})")?.as_str())?;
    }
    Ok(answer)
}
