//! Calls of `exp_check`.

use crate::answers::{Answer, NoAnswer, with_numbers};
use crate::ordering::order_text;
use call_lines::answers::string_of;
use exp_check::accepted::Accepted;
use exp_check::checks::check;
use exp_check::faults::CheckFault;
use proof_text::texts::read_proof;
use proof_text::writers::write_proof;
use std::alloc::Global;

/// The leaves and the pairs of an accepted proof, counted, and its order.
fn accepted_text(alloc: Global, accepted: &Accepted) -> Answer {
    let leaves = accepted.fitted().leaf_count();
    let pairs = accepted.mating().len();
    let order = order_text(alloc, accepted.order())?;
    Ok(format!(in alloc; "accepted, leaves {leaves}, pairs {pairs}, {order}")?)
}

/// The fault with its evidence.
fn fault_text(alloc: Global, fault: &CheckFault) -> Answer {
    match fault {
        CheckFault::Memory => Err(NoAnswer::Memory),
        CheckFault::Fit(fault) => Err(NoAnswer::Fit(*fault)),
        CheckFault::BadPair(number) => Err(NoAnswer::BadPair(*number)),
        CheckFault::Cycle(chain) => with_numbers(alloc, "cycle", chain.as_slice()),
        CheckFault::OpenPath(path) => with_numbers(alloc, "path", path.as_slice()),
    }
}

/// `PROOF`: what is accepted, or the first fault with its evidence.
pub fn checked(alloc: Global, arguments: &str) -> Answer {
    let proof = read_proof(alloc, arguments.as_bytes())?;
    match check(alloc, proof) {
        Ok(accepted) => accepted_text(alloc, &accepted),
        Err(fault) => fault_text(alloc, &fault),
    }
}

/// `PROOF`: what is written for it where it is accepted, or the first fault with its evidence.
pub fn accepted_again(alloc: Global, arguments: &str) -> Answer {
    let proof = read_proof(alloc, arguments.as_bytes())?;
    match check(alloc, proof) {
        Ok(accepted) => Ok(string_of(alloc, &write_proof(alloc, &accepted.into_text())?)?),
        Err(fault) => fault_text(alloc, &fault),
    }
}
