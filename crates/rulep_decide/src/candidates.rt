//! Values for all nodes, by a trail and by guesses.

ghost use Rattle.std.specs.Prelude.{◌≡◌, ◌↔◌, ◌<◌, Bool, IfOk, IsTrue, MatchOption, None, Some, false, length, slice_get};
ghost use Rattle.rulep_decide.specs.Circuits.{Fits, HasPartsBelow, IsCircuit, IsValuation, Node, node_at, node_value, nodes_of, plain_gate};
ghost use Rattle.rulep_decide.specs.Searches.{AreKnown, IsGood, IsKnown, Keeps, assigned};
ghost use Rattle.rulep_decide.specs.Trails.{IsTrail};

use crate::circuits::{Circuit, Gate};
use crate::trails::Trail;
use std::alloc::{AllocError, Global};

/// The value of a node by those of its parts, with each atom false.
fn guess(gate: Gate<'_>, values: &Vec<bool>) -> bool
    requires { HasPartsBelow (length values.now.items) (plain_gate gate) }
    ensures { result ≡ node_value (λ a. false) (assigned values.now.items) (plain_gate gate.entry) }
{
    match gate {
        Gate::Atom(_) => false,
        Gate::Always => true,
        Gate::Not(part) => !values[part as usize],
        Gate::And(first, second) => values[first as usize] && values[second as usize],
        Gate::Demand(_, _) => true,
    }
}

/// The value of a node, and a guess where it has none.
fn value_or_guess(circuit: &Circuit<'_>, trail: &Trail, i: u64, values: &Vec<bool>) -> bool
    requires good { IsGood (nodes_of circuit.now) trail.now }
    requires within { i < length (nodes_of circuit.now) }
    requires count { length values.now.items ≡ i }
    ensures { (b : Bool) → slice_get trail.now.values.items i ≡ Some (Some b) → result ≡ b }
{
    match trail.value(i) {
        Some(value) => value,
        None => guess(circuit.gate(i), values),
    }
}

/// The values of the trail, and guesses at the other nodes.
#[tactic(auto, using(crate::proofs::Searching::keeps_none, crate::proofs::Searching::keeps_one_more))]
pub fn candidate(
    alloc: Global,
    circuit: &Circuit<'_>,
    trail: &Trail,
) -> Result<Vec<bool>, AllocError>
    requires { IsGood (nodes_of circuit.now) trail.now }
    ensures count { IfOk result (λ values. length values.items ≡ length (nodes_of circuit.now)) }
    ensures keeps { IfOk result (λ values. Keeps trail.now.values.items values.items) }
{
    let mut values = Vec::new(alloc);
    for i in 0..circuit.len() {
        let value = value_or_guess(circuit, trail, i, &values);
        values.push(value)?;
    }
    Ok(values)
}

/// Whether the value of node `i` fits those of its parts, and meets a demand.
fn is_fitting(gate: Gate<'_>, i: u64, values: &Vec<bool>) -> bool
    requires within { i < length values.now.items }
    requires parts { HasPartsBelow i (plain_gate gate) }
    ensures { IsTrue result ↔ Fits (assigned values.now.items) i (plain_gate gate.entry) }
{
    match gate {
        Gate::Atom(_) => true,
        Gate::Always => values[i as usize],
        Gate::Not(part) => values[i as usize] != values[part as usize],
        Gate::And(first, second) => {
            values[i as usize] == (values[first as usize] && values[second as usize])
        }
        Gate::Demand(node, value) => values[i as usize] && values[node as usize] == value,
    }
}

/// The first node that the values don't fit.
#[tactic(auto, using(crate::proofs::Forcing::valuation_of))]
pub fn first_unfit(circuit: &Circuit<'_>, values: &Vec<bool>) -> Option<u64>
    requires circuit { IsCircuit (nodes_of circuit.now) }
    requires count { length values.now.items ≡ length (nodes_of circuit.now) }
    ensures fits { MatchOption result (IsValuation (assigned values.now.items) (nodes_of circuit.now))
        (λ i. (n : Node) → node_at (nodes_of circuit.now) i ≡ Some n → Fits (assigned values.now.items) i n → ⊥) }
    ensures within { MatchOption result (Unit {0}) (λ i. i < length (nodes_of circuit.now)) }
{
    for i in 0..circuit.len() {
        if !is_fitting(circuit.gate(i), i, values) {
            return Some(i);
        }
    }
    None
}

/// The node, where it has no value.
fn if_open(trail: &Trail, node: u64) -> Option<u64>
    requires trail { IsTrail trail.now }
    requires within { node < length trail.now.values.items }
    ensures { MatchOption result (IsKnown trail.now.values.items node) (λ i. slice_get trail.now.values.items i ≡ Some None) }
{
    match trail.value(node) {
        Some(_) => None,
        None => Some(node),
    }
}

/// A node without a value on which it depends whether node `i` fits.
pub fn open_part(circuit: &Circuit<'_>, trail: &Trail, i: u64) -> Option<u64>
    requires good { IsGood (nodes_of circuit.now) trail.now }
    requires within { i < length (nodes_of circuit.now) }
    ensures { MatchOption result ((n : Node) → node_at (nodes_of circuit.now) i ≡ Some n → AreKnown trail.now.values.items i n)
        (λ j. slice_get trail.now.values.items j ≡ Some None) }
{
    match circuit.gate(i) {
        Gate::Atom(_) => None,
        Gate::Always => if_open(trail, i),
        Gate::Not(part) => if_open(trail, part).or(if_open(trail, i)),
        Gate::And(first, second) => if_open(trail, first)
            .or(if_open(trail, second))
            .or(if_open(trail, i)),
        Gate::Demand(node, _) => if_open(trail, node).or(if_open(trail, i)),
    }
}
