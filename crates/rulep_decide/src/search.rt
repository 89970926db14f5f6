//! The search for values that fit a circuit.

ghost use Rattle.std.specs.Prelude.{◌≡◌, Bool, IfOk, MatchOption, length, ℕ};
ghost use Rattle.rulep_decide.specs.Circuits.{IsCircuit, IsValuation, nodes_of};
ghost use Rattle.rulep_decide.specs.Searches.{IsAdvance, IsGood, IsOutcome, assigned};
ghost use Rattle.rulep_decide.specs.Trails.{Refutes, steps_of};

use crate::candidates::{candidate, first_unfit, open_part};
use crate::circuits::Circuit;
use crate::propagation::propagate;
use crate::rules::Literal;
use crate::trails::Trail;
use std::alloc::{AllocError, Global};

/// What a search comes to where nothing more is forced.
#[derive(Drop)]
pub enum Outcome {
    Model(Vec<bool>),
    Split(Literal),
    Refuted,
}

/// What the search comes to at a trail.
#[tactic(auto, using(crate::proofs::Searching::unfit_refutes, crate::proofs::Searching::open_within))]
fn outcome_at(alloc: Global, circuit: &Circuit<'_>, trail: &Trail) -> Result<Outcome, AllocError>
    requires { IsGood (nodes_of circuit.now) trail.now }
    ensures { IfOk result (λ o. IsOutcome (nodes_of circuit.now) trail.now o) }
{
    let values = candidate(alloc, circuit, trail)?;
    match first_unfit(circuit, &values) {
        None => Ok(Outcome::Model(values)),
        Some(i) => match open_part(circuit, trail, i) {
            None => Ok(Outcome::Refuted),
            Some(node) => {
                let value = !values[node as usize];
                Ok(Outcome::Split(Literal { node, value }))
            }
        },
    }
}

/// A step of the search: the values that were found, or whether none fit the circuit.
#[derive(Drop)]
pub enum Advanced {
    Found(Vec<bool>),
    Further,
    NoneFits,
}

/// The trail, which is refuted, is turned back.
#[tactic(auto, using(crate::proofs::Searching::advances_by_turn, crate::proofs::Searching::none_left))]
fn turned_back(circuit: &Circuit<'_>, trail: &mut Trail) -> Result<Advanced, AllocError>
    requires good { IsGood (nodes_of circuit.now) trail.old }
    requires refuted { Refutes (nodes_of circuit.now) (steps_of trail.old) }
    ensures { IfOk result (λ advance. IsAdvance (nodes_of circuit.now) trail.old trail.new advance) }
{
    if trail.turn_back()? {
        Ok(Advanced::Further)
    } else {
        Ok(Advanced::NoneFits)
    }
}

/// The search goes on where nothing more is forced.
#[tactic(auto, using(crate::proofs::Searching::advances_by_choice))]
fn split(alloc: Global, circuit: &Circuit<'_>, trail: &mut Trail) -> Result<Advanced, AllocError>
    requires { IsGood (nodes_of circuit.now) trail.old }
    ensures { IfOk result (λ advance. IsAdvance (nodes_of circuit.now) trail.old trail.new advance) }
{
    match outcome_at(alloc, circuit, trail)? {
        Outcome::Model(values) => Ok(Advanced::Found(values)),
        Outcome::Split(literal) => {
            trail.decide(literal.node, literal.value)?;
            Ok(Advanced::Further)
        }
        Outcome::Refuted => turned_back(circuit, trail),
    }
}

/// One step of the search.
#[tactic(auto, using(crate::proofs::Searching::advance_after))]
fn advance(alloc: Global, circuit: &Circuit<'_>, trail: &mut Trail) -> Result<Advanced, AllocError>
    requires { IsGood (nodes_of circuit.now) trail.old }
    ensures { IfOk result (λ advance. IsAdvance (nodes_of circuit.now) trail.old trail.new advance) }
{
    if propagate(circuit, trail)? {
        turned_back(circuit, trail)
    } else {
        split(alloc, circuit, trail)
    }
}

/// Values that fit the circuit, `None` exactly where there are none.
#[tactic(auto, using(crate::proofs::Searching::good_at_start))]
pub fn find_values(alloc: Global, circuit: &Circuit<'_>) -> Result<Option<Vec<bool>>, AllocError>
    requires { IsCircuit (nodes_of circuit.now) }
    ensures { IfOk result (λ found. MatchOption found ((w : ℕ → Bool) → IsValuation w (nodes_of circuit.now) → ⊥)
        (λ values. (length values.items ≡ length (nodes_of circuit.now)) × IsValuation (assigned values.items) (nodes_of circuit.now))) }
{
    let mut trail = Trail::new(alloc, circuit.len())?;
    loop {
        match advance(alloc, circuit, &mut trail)? {
            Advanced::Found(values) => {
                return Ok(Some(values));
            }
            Advanced::Further => {}
            Advanced::NoneFits => {
                return Ok(None);
            }
        }
    }
}
