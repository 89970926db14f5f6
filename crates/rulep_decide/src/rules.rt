//! What the values of nodes force.

ghost use Rattle.std.specs.Prelude.{◌≡◌, ◌<◌, MatchOption, Some, length};
ghost use Rattle.rulep_decide.specs.Circuits.{IsCircuit, both, node_at, nodes_of, opposite};
ghost use Rattle.rulep_decide.specs.Trails.{Equates, Forces, IsTrail, steps_of};

use crate::circuits::{Circuit, Gate};
use crate::trails::Trail;

/// A node with a value.
#[derive(Clone, Copy)]
pub struct Literal {
    pub node: u64,
    pub value: bool,
}

/// What a negation forces, its part by it or it by its part.
#[tactic(auto, using(crate::proofs::Forcing::forced_negation, crate::proofs::Forcing::forced_negated))]
fn forced_at_negation(circuit: &Circuit<'_>, trail: &Trail, i: u64, part: u64) -> Option<Literal>
    requires trail { IsTrail trail.now }
    requires count { length trail.now.values.items ≡ length (nodes_of circuit.now) }
    requires within { i < length (nodes_of circuit.now) }
    requires node { node_at (nodes_of circuit.now) i ≡ Some (opposite part) }
    requires below { part < i }
    ensures forced { MatchOption result (Unit {0}) (λ literal. Forces (nodes_of circuit.now) (steps_of trail.now) literal.node literal.value) }
    ensures within { MatchOption result (Unit {0}) (λ literal. literal.node < length (nodes_of circuit.now)) }
{
    match (trail.value(part), trail.value(i)) {
        (Some(value), _) => Some(Literal {
            node: i,
            value: !value,
        }),
        (None, Some(value)) => Some(Literal {
            node: part,
            value: !value,
        }),
        (None, None) => None,
    }
}

/// What two nodes force whose values are equal: either one has the value of the other.
#[tactic(auto, using(crate::proofs::Forcing::forced_equal, crate::proofs::Forcing::forced_equal_back))]
fn forced_at_equals(circuit: &Circuit<'_>, trail: &Trail, i: u64, j: u64) -> Option<Literal>
    requires trail { IsTrail trail.now }
    requires count { length trail.now.values.items ≡ length (nodes_of circuit.now) }
    requires first { i < length (nodes_of circuit.now) }
    requires second { j < length (nodes_of circuit.now) }
    requires equal { Equates (nodes_of circuit.now) (steps_of trail.now) i j }
    ensures forced { MatchOption result (Unit {0}) (λ literal. Forces (nodes_of circuit.now) (steps_of trail.now) literal.node literal.value) }
    ensures within { MatchOption result (Unit {0}) (λ literal. literal.node < length (nodes_of circuit.now)) }
{
    match trail.value(j) {
        Some(value) => Some(Literal { node: i, value }),
        None => match trail.value(i) {
            Some(value) => Some(Literal { node: j, value }),
            None => None,
        },
    }
}

/// What a conjunction forces by its second part, or at its first part, which has no value.
#[tactic(auto, using(crate::proofs::Forcing::forced_false_by_second, crate::proofs::Forcing::equal_to_first, crate::proofs::Forcing::forced_part))]
fn forced_by_second(
    circuit: &Circuit<'_>,
    trail: &Trail,
    i: u64,
    first: u64,
    second: u64,
) -> Option<Literal>
    requires trail { IsTrail trail.now }
    requires count { length trail.now.values.items ≡ length (nodes_of circuit.now) }
    requires within { i < length (nodes_of circuit.now) }
    requires node { node_at (nodes_of circuit.now) i ≡ Some (both first second) }
    requires first_below { first < i }
    requires second_below { second < i }
    ensures forced { MatchOption result (Unit {0}) (λ literal. Forces (nodes_of circuit.now) (steps_of trail.now) literal.node literal.value) }
    ensures within { MatchOption result (Unit {0}) (λ literal. literal.node < length (nodes_of circuit.now)) }
{
    match trail.value(second) {
        Some(true) => forced_at_equals(circuit, trail, i, first),
        Some(false) => Some(Literal {
            node: i,
            value: false,
        }),
        None => match trail.value(i) {
            Some(true) => Some(Literal {
                node: first,
                value: true,
            }),
            Some(false) => None,
            None => None,
        },
    }
}

/// What a conjunction forces, its parts by it or it by its parts.
#[tactic(auto, using(crate::proofs::Forcing::forced_false_by_first, crate::proofs::Forcing::equal_to_second))]
fn forced_at_conjunction(
    circuit: &Circuit<'_>,
    trail: &Trail,
    i: u64,
    first: u64,
    second: u64,
) -> Option<Literal>
    requires trail { IsTrail trail.now }
    requires count { length trail.now.values.items ≡ length (nodes_of circuit.now) }
    requires within { i < length (nodes_of circuit.now) }
    requires node { node_at (nodes_of circuit.now) i ≡ Some (both first second) }
    requires first_below { first < i }
    requires second_below { second < i }
    ensures forced { MatchOption result (Unit {0}) (λ literal. Forces (nodes_of circuit.now) (steps_of trail.now) literal.node literal.value) }
    ensures within { MatchOption result (Unit {0}) (λ literal. literal.node < length (nodes_of circuit.now)) }
{
    match trail.value(first) {
        Some(true) => forced_at_equals(circuit, trail, i, second),
        Some(false) => Some(Literal {
            node: i,
            value: false,
        }),
        None => forced_by_second(circuit, trail, i, first, second),
    }
}

/// A value that node `i` forces, at itself or at a part.
#[tactic(auto, using(crate::proofs::Forcing::forced_always, crate::proofs::Forcing::forced_demand))]
pub fn forced_at(circuit: &Circuit<'_>, trail: &Trail, i: u64) -> Option<Literal>
    requires circuit { IsCircuit (nodes_of circuit.now) }
    requires trail { IsTrail trail.now }
    requires count { length trail.now.values.items ≡ length (nodes_of circuit.now) }
    requires within { i < length (nodes_of circuit.now) }
    ensures forced { MatchOption result (Unit {0}) (λ literal. Forces (nodes_of circuit.now) (steps_of trail.now) literal.node literal.value) }
    ensures within { MatchOption result (Unit {0}) (λ literal. literal.node < length (nodes_of circuit.now)) }
{
    match circuit.gate(i) {
        Gate::Atom(_) => None,
        Gate::Always => Some(Literal {
            node: i,
            value: true,
        }),
        Gate::Not(part) => forced_at_negation(circuit, trail, i, part),
        Gate::And(first, second) => forced_at_conjunction(circuit, trail, i, first, second),
        Gate::Demand(node, value) => Some(Literal { node, value }),
    }
}
