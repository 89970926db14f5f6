//! Formulas as a list of numbered nodes.

ghost use Rattle.std.specs.Prelude.{◌≡◌, ◌↔◌, ◌∷◌, ◌<◌, ◌-◌, ◌&&◌, ◌||◌, [], Bool, IfOk, IsTrue, MatchOption, OnOk, Some, length, not, slice_get, true, false};
ghost use Rattle.hol_terms.specs.Terms.{Term, plain_term};
ghost use Rattle.hol_terms.specs.Truth.{IsAtom, atoms_of};
ghost use Rattle.rulep_decide.specs.Circuits.{Adds, Brings, HasPartsBelow, IsCircuit, IsNew, IsNumbered, atom, meets, node_at, nodes_of, plain_gate, same_value, value};
ghost use Rattle.rulep_decide.specs.TruthValues.{truth_value};

use crate::fingerprints::fingerprint;
use crate::shapes::{Shape, shape_of};
use hol_terms::terms::{Tm, same};
use std::alloc::{AllocError, Global};
use std::collections::HashMap;

/// A node: an atom, TRUTH, the negation of a node, the conjunction of two, or the demand that a node has a value.
#[derive(Clone, Copy)]
pub enum Gate<'a> {
    Atom(&'a Tm),
    Always,
    Not(u64),
    And(u64, u64),
    Demand(u64, bool),
}

/// Formulas as numbered nodes, each atom being one node.
#[derive(Drop)]
pub struct Circuit<'a> {
    gates: Vec<Gate<'a>>,
    places: HashMap<u64, u64>,
}

impl<'a> Circuit<'a> {
    /// No node.
    #[tactic(auto, using(crate::proofs::Indexing::indexed_none))]
    pub fn new(alloc: Global) -> Circuit<'a>
        ensures nodes { nodes_of result ≡ [] }
        ensures numbered { IsNumbered result }
    {
        Circuit {
            gates: Vec::new(alloc),
            places: HashMap::new(alloc),
        }
    }

    /// The number of nodes.
    pub fn len(&self) -> u64
        ensures { result ≡ length (nodes_of self.now) }
    {
        self.gates.len() as u64
    }

    /// Node `i`.
    #[tactic(auto, using(crate::proofs::Nodes::node_of_gate))]
    pub fn gate(&self, i: u64) -> Gate<'a>
        requires { i < length (nodes_of self.now) }
        ensures node { node_at (nodes_of self.now) i ≡ Some (plain_gate result) }
        ensures parts { IsCircuit (nodes_of self.now) → HasPartsBelow i (plain_gate result) }
    {
        self.gates[i as usize]
    }

    /// A node is added; answers its number.
    fn put(&mut self, gate: Gate<'a>) -> Result<u64, AllocError>
        ensures nodes { OnOk result (nodes_of self.new ≡ plain_gate gate.entry ∷ nodes_of self.old) }
        ensures number { IfOk result (λ i. i ≡ length (nodes_of self.old)) }
        ensures places { OnOk result (self.new.places ≡ self.old.places) }
    {
        let number = self.len();
        self.gates.push(gate)?;
        Ok(number)
    }

    /// The node that is always true.
    #[tactic(auto, using(crate::proofs::Adding::adds_always, crate::proofs::Indexing::numbered_always, crate::proofs::Bringing::brings_always))]
    fn truth(&mut self) -> Result<u64, AllocError>
        requires { IsNumbered self.old }
        ensures numbered { OnOk result (IsNumbered self.new) }
        ensures adds { IfOk result (λ i. Adds (nodes_of self.old) (nodes_of self.new) i (λ is_true. true)) }
        ensures brings { OnOk result (Brings (nodes_of self.old) (nodes_of self.new) []) }
    {
        self.put(Gate::Always)
    }

    /// The negation of node `i`.
    #[tactic(auto, using(crate::proofs::Adding::adds_opposite, crate::proofs::Indexing::numbered_opposite, crate::proofs::Bringing::brings_opposite))]
    fn negation(&mut self, i: u64) -> Result<u64, AllocError>
        requires numbered { IsNumbered self.old }
        requires before { i < length (nodes_of self.old) }
        ensures numbered { OnOk result (IsNumbered self.new) }
        ensures adds { IfOk result (λ k. Adds (nodes_of self.old) (nodes_of self.new) k (λ is_true. not (value is_true (nodes_of self.old) i))) }
        ensures brings { OnOk result (Brings (nodes_of self.old) (nodes_of self.new) []) }
    {
        self.put(Gate::Not(i))
    }

    /// The conjunction of nodes `i` and `j`.
    #[tactic(auto, using(crate::proofs::Adding::adds_both, crate::proofs::Indexing::numbered_both, crate::proofs::Bringing::brings_both))]
    fn conjunction(&mut self, i: u64, j: u64) -> Result<u64, AllocError>
        requires numbered { IsNumbered self.old }
        requires first { i < length (nodes_of self.old) }
        requires second { j < length (nodes_of self.old) }
        ensures numbered { OnOk result (IsNumbered self.new) }
        ensures adds { IfOk result (λ k. Adds (nodes_of self.old) (nodes_of self.new) k
            (λ is_true. value is_true (nodes_of self.old) i && value is_true (nodes_of self.old) j)) }
        ensures brings { OnOk result (Brings (nodes_of self.old) (nodes_of self.new) []) }
    {
        self.put(Gate::And(i, j))
    }

    /// The node that is always false.
    #[tactic(auto, using(crate::proofs::Bringing::brings_none))]
    fn falsehood(&mut self) -> Result<u64, AllocError>
        requires { IsNumbered self.old }
        ensures numbered { OnOk result (IsNumbered self.new) }
        ensures adds { IfOk result (λ i. Adds (nodes_of self.old) (nodes_of self.new) i (λ is_true. false)) }
        ensures brings { OnOk result (Brings (nodes_of self.old) (nodes_of self.new) []) }
    {
        let i = self.truth()?;
        self.negation(i)
    }

    /// The disjunction of nodes `i` and `j`: not both are false.
    #[tactic(auto, using(crate::proofs::Bringing::brings_none))]
    fn disjunction(&mut self, i: u64, j: u64) -> Result<u64, AllocError>
        requires numbered { IsNumbered self.old }
        requires first { i < length (nodes_of self.old) }
        requires second { j < length (nodes_of self.old) }
        ensures numbered { OnOk result (IsNumbered self.new) }
        ensures adds { IfOk result (λ k. Adds (nodes_of self.old) (nodes_of self.new) k
            (λ is_true. value is_true (nodes_of self.old) i || value is_true (nodes_of self.old) j)) }
        ensures brings { OnOk result (Brings (nodes_of self.old) (nodes_of self.new) []) }
    {
        let no_first = self.negation(i)?;
        let no_second = self.negation(j)?;
        let neither = self.conjunction(no_first, no_second)?;
        self.negation(neither)
    }

    /// The implication from node `i` to node `j`: not the first without the second.
    #[tactic(auto, using(crate::proofs::Bringing::brings_none))]
    fn implication(&mut self, i: u64, j: u64) -> Result<u64, AllocError>
        requires numbered { IsNumbered self.old }
        requires first { i < length (nodes_of self.old) }
        requires second { j < length (nodes_of self.old) }
        ensures numbered { OnOk result (IsNumbered self.new) }
        ensures adds { IfOk result (λ k. Adds (nodes_of self.old) (nodes_of self.new) k
            (λ is_true. not (value is_true (nodes_of self.old) i) || value is_true (nodes_of self.old) j)) }
        ensures brings { OnOk result (Brings (nodes_of self.old) (nodes_of self.new) []) }
    {
        let no_second = self.negation(j)?;
        let first_alone = self.conjunction(i, no_second)?;
        self.negation(first_alone)
    }

    /// The number of the node that is this atom, `None` where it is no node yet.
    #[tactic(auto, using(crate::proofs::Adding::atom_there, crate::proofs::Indexing::new_where_none))]
    fn find_atom(&self, t: &Tm) -> Option<u64>
        requires { IsNumbered self.now }
        ensures { MatchOption result (IsNew (plain_term t.now) (nodes_of self.now))
            (λ i. Adds (nodes_of self.now) (nodes_of self.now) i (λ is_true. is_true (plain_term t.now))) }
    {
        match self.places.get(&fingerprint(t)) {
            None => None,
            Some(place) => {
                let place = *place;
                if place < self.len() && self.is_atom(place, t) {
                    Some(place)
                } else {
                    self.find_among_all(t)
                }
            }
        }
    }

    /// The number of the node that is this atom, `None` where it is no node yet, by a look at all nodes.
    #[tactic(auto, using(crate::proofs::Adding::atom_there, crate::proofs::Adding::atom_new))]
    fn find_among_all(&self, t: &Tm) -> Option<u64>
        requires { IsNumbered self.now }
        ensures { MatchOption result (IsNew (plain_term t.now) (nodes_of self.now))
            (λ i. Adds (nodes_of self.now) (nodes_of self.now) i (λ is_true. is_true (plain_term t.now))) }
    {
        for i in 0..self.len() {
            if self.is_atom(i, t) {
                return Some(i);
            }
        }
        None
    }

    /// Whether node `i` is this atom.
    fn is_atom(&self, i: u64, t: &Tm) -> bool
        requires { i < length (nodes_of self.now) }
        ensures { IsTrue result ↔ (node_at (nodes_of self.now) i ≡ Some (atom (plain_term t.now))) }
    {
        match self.gate(i) {
            Gate::Atom(other) => same(other, t),
            Gate::Always | Gate::Not(_) | Gate::And(_, _) | Gate::Demand(_, _) => false,
        }
    }

    /// The node of an atom that is no node yet.
    #[tactic(auto, using(crate::proofs::Adding::adds_atom, crate::proofs::Indexing::numbered_atom, crate::proofs::Bringing::brings_atom))]
    fn put_atom(&mut self, t: &'a Tm) -> Result<u64, AllocError>
        requires numbered { IsNumbered self.old }
        requires is_atom { IsAtom (plain_term t.now) }
        requires is_new { IsNew (plain_term t.now) (nodes_of self.old) }
        ensures numbered { OnOk result (IsNumbered self.new) }
        ensures adds { IfOk result (λ i. Adds (nodes_of self.old) (nodes_of self.new) i (λ is_true. is_true (plain_term t.now))) }
        ensures brings { OnOk result (Brings (nodes_of self.old) (nodes_of self.new) (plain_term t.now ∷ [])) }
    {
        let number = self.put(Gate::Atom(t))?;
        match self.places.insert(fingerprint(t), number) {
            Ok(_) => Ok(number),
            Err(_) => Err(AllocError),
        }
    }

    /// The node of an atom, which is added where it isn't there.
    #[tactic(auto, using(crate::proofs::Bringing::brings_same))]
    fn atom(&mut self, t: &'a Tm) -> Result<u64, AllocError>
        requires numbered { IsNumbered self.old }
        requires is_atom { IsAtom (plain_term t.now) }
        ensures numbered { OnOk result (IsNumbered self.new) }
        ensures adds { IfOk result (λ i. Adds (nodes_of self.old) (nodes_of self.new) i (λ is_true. is_true (plain_term t.now))) }
        ensures brings { OnOk result (Brings (nodes_of self.old) (nodes_of self.new) (plain_term t.now ∷ [])) }
    {
        match self.find_atom(t) {
            Some(i) => Ok(i),
            None => self.put_atom(t),
        }
    }

    /// The node of a formula, which is added with all its parts.
    #[tactic(auto, using(crate::proofs::Bringing::brings_negation, crate::proofs::Bringing::brings_conjunction, crate::proofs::Bringing::brings_disjunction, crate::proofs::Bringing::brings_implication, crate::proofs::Bringing::brings_truth, crate::proofs::Bringing::brings_falsehood, crate::proofs::Bringing::brings_lone_atom))]
    pub fn add(&mut self, t: &'a Tm) -> Result<u64, AllocError>
        requires { IsNumbered self.old }
        ensures numbered { OnOk result (IsNumbered self.new) }
        ensures adds { IfOk result (λ i. Adds (nodes_of self.old) (nodes_of self.new) i (λ is_true. truth_value is_true (plain_term t.now))) }
        ensures brings { OnOk result (Brings (nodes_of self.old) (nodes_of self.new) (atoms_of (plain_term t.now))) }
    {
        match shape_of(t) {
            Shape::Negation(part) => {
                let i = self.add(part)?;
                self.negation(i)
            }
            Shape::Conjunction(first, second) => {
                let i = self.add(first)?;
                let j = self.add(second)?;
                self.conjunction(i, j)
            }
            Shape::Disjunction(first, second) => {
                let i = self.add(first)?;
                let j = self.add(second)?;
                self.disjunction(i, j)
            }
            Shape::Implication(first, second) => {
                let i = self.add(first)?;
                let j = self.add(second)?;
                self.implication(i, j)
            }
            Shape::Truth => self.truth(),
            Shape::Falsehood => self.falsehood(),
            Shape::Atom => self.atom(t),
        }
    }

    /// A formula is added, and the demand that it has the truth value.
    #[tactic(auto, using(crate::proofs::Adding::demanded, crate::proofs::Indexing::numbered_demand, crate::proofs::Bringing::brings_demand))]
    pub fn demand(&mut self, t: &'a Tm, wanted: bool) -> Result<(), AllocError>
        requires { IsNumbered self.old }
        ensures numbered { OnOk result (IsNumbered self.new) }
        ensures demands { OnOk result ((is_true : Term → Bool)
            → meets is_true (nodes_of self.new) ≡ (same_value (truth_value is_true (plain_term t.now)) wanted && meets is_true (nodes_of self.old))) }
        ensures brings { OnOk result (Brings (nodes_of self.old) (nodes_of self.new) (atoms_of (plain_term t.now))) }
    {
        let node = self.add(t)?;
        self.put(Gate::Demand(node, wanted))?;
        Ok(())
    }
}
