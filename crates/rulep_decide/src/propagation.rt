//! What a circuit forces, added to a trail.

ghost use Rattle.std.specs.Prelude.{◌<◌, IfOk, IsTrue, OnOk, length};
ghost use Rattle.rulep_decide.specs.Circuits.{nodes_of};
ghost use Rattle.rulep_decide.specs.Searches.{Grows, IsGood};
ghost use Rattle.rulep_decide.specs.Trails.{Refutes, steps_of};

use crate::circuits::Circuit;
use crate::rules::forced_at;
use crate::trails::Trail;
use std::alloc::AllocError;

/// What node `i` forces is added to the trail; true where it can't be.
#[tactic(auto, using(crate::proofs::Searching::grows_by, crate::proofs::Searching::grows_none, crate::proofs::Searching::conflict_after))]
fn visit(circuit: &Circuit<'_>, trail: &mut Trail, i: u64) -> Result<bool, AllocError>
    requires good { IsGood (nodes_of circuit.now) trail.old }
    requires within { i < length (nodes_of circuit.now) }
    ensures grows { OnOk result (Grows (nodes_of circuit.now) trail.old trail.new) }
    ensures conflict { IfOk result (λ b. IsTrue b → Refutes (nodes_of circuit.now) (steps_of trail.new)) }
{
    match forced_at(circuit, trail, i) {
        None => Ok(false),
        Some(literal) => trail.learn(literal.node, literal.value),
    }
}

/// What the nodes force is added to the trail, one after another from parts to wholes; true where it can't be.
#[tactic(auto, using(crate::proofs::Searching::grows_none, crate::proofs::Searching::grows_then))]
fn sweep_up(circuit: &Circuit<'_>, trail: &mut Trail) -> Result<bool, AllocError>
    requires { IsGood (nodes_of circuit.now) trail.old }
    ensures grows { OnOk result (Grows (nodes_of circuit.now) trail.old trail.new) }
    ensures conflict { IfOk result (λ b. IsTrue b → Refutes (nodes_of circuit.now) (steps_of trail.new)) }
{
    for i in 0..circuit.len() {
        if visit(circuit, trail, i)? {
            return Ok(true);
        }
    }
    Ok(false)
}

/// What the nodes force is added to the trail, one after another from wholes to parts; true where it can't be.
#[tactic(auto, using(crate::proofs::Searching::grows_none, crate::proofs::Searching::grows_then))]
fn sweep_down(circuit: &Circuit<'_>, trail: &mut Trail) -> Result<bool, AllocError>
    requires { IsGood (nodes_of circuit.now) trail.old }
    ensures grows { OnOk result (Grows (nodes_of circuit.now) trail.old trail.new) }
    ensures conflict { IfOk result (λ b. IsTrue b → Refutes (nodes_of circuit.now) (steps_of trail.new)) }
{
    for i in (0..circuit.len()).rev() {
        if visit(circuit, trail, i)? {
            return Ok(true);
        }
    }
    Ok(false)
}

/// One sweep down and one up; true where what is forced can't be.
#[tactic(auto, using(crate::proofs::Searching::grows_then))]
fn sweep(circuit: &Circuit<'_>, trail: &mut Trail) -> Result<bool, AllocError>
    requires { IsGood (nodes_of circuit.now) trail.old }
    ensures grows { OnOk result (Grows (nodes_of circuit.now) trail.old trail.new) }
    ensures conflict { IfOk result (λ b. IsTrue b → Refutes (nodes_of circuit.now) (steps_of trail.new)) }
{
    if sweep_down(circuit, trail)? {
        return Ok(true);
    }
    sweep_up(circuit, trail)
}

/// All that the nodes force is added to the trail; true where it can't be.
#[tactic(auto, using(crate::proofs::Searching::grows_none, crate::proofs::Searching::grows_then, crate::proofs::Searching::steps_most))]
pub fn propagate(circuit: &Circuit<'_>, trail: &mut Trail) -> Result<bool, AllocError>
    requires { IsGood (nodes_of circuit.now) trail.old }
    ensures grows { OnOk result (Grows (nodes_of circuit.now) trail.old trail.new) }
    ensures conflict { IfOk result (λ b. IsTrue b → Refutes (nodes_of circuit.now) (steps_of trail.new)) }
{
    let mut seen = trail.len();
    loop {
        if sweep(circuit, trail)? {
            return Ok(true);
        }
        let now = trail.len();
        if now <= seen {
            return Ok(false);
        }
        seen = now;
    }
}
