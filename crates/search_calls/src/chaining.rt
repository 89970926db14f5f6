//! Calls of `tps_gen`.

ghost use Rattle.std.specs.Prelude.{IfOk};
ghost use Rattle.exp_check.specs.Proofs.{IsProof};
ghost use Rattle.proof_text.specs.Texts.{plain_proof};

use crate::answers::{Answer, NoAnswer};
use call_lines::answers::string_of;
use core_text::brackets::read_sexp;
use core_text::terms::read_number;
use exp_check::accepted::Accepted;
use exp_check::checks::check;
use proof_text::texts::ProofText;
use proof_text::writers::write_proof;
use std::alloc::Global;
use tps_gen::chains::chain;

/// `N`: the chain with so many instances.
fn chain_of(alloc: Global, arguments: &str) -> Result<ProofText, NoAnswer>
    ensures { IfOk result (λ text. IsProof (plain_proof text)) }
{
    let n = read_number(&read_sexp(alloc, arguments.as_bytes())?)?;
    if n < 1 || n > 100 {
        return Err(NoAnswer::Arguments);
    }
    Ok(chain(alloc, n)?)
}

/// `N`: what is written for the chain with so many instances.
pub fn written(alloc: Global, arguments: &str) -> Answer {
    let proof = chain_of(alloc, arguments)?;
    Ok(string_of(alloc, &write_proof(alloc, &proof)?)?)
}

/// The figures of an accepted proof.
fn figures_text(alloc: Global, accepted: &Accepted) -> Answer {
    let leaves = accepted.fitted().leaf_count();
    let pairs = accepted.mating().len();
    let occurrences = accepted.fitted().occurrence_count();
    let weight = accepted.fitted().weight();
    Ok(format!(in alloc;
        "leaves {leaves}, pairs {pairs}, occurrences {occurrences}, weight {weight}"
    )?)
}

/// `N`: the figures of the chain with so many instances, checked.
pub fn figures(alloc: Global, arguments: &str) -> Answer {
    let proof = chain_of(alloc, arguments)?;
    match check(alloc, proof) {
        Ok(accepted) => figures_text(alloc, &accepted),
        Err(_) => Ok(String::from_str(alloc, "rejected")?),
    }
}
