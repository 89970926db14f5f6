//! Whether a formula follows from others by truth assignments.

ghost use Rattle.std.specs.Prelude.{◌≡◌, ◌<◌, ◌++◌, ◌&&◌, Bool, IfOk, OnOk, length, not};
ghost use Rattle.hol_terms.specs.Terms.{Term, plain_term};
ghost use Rattle.rulep_decide.specs.Circuits.{HasAtomsAmong, IsNumbered, IsValuation, meets, node_at, nodes_of, true_atom, true_atoms};
ghost use Rattle.rulep_decide.specs.Searches.{assigned};
ghost use Rattle.rulep_decide.specs.TruthValues.{are_true, truth_value};
ghost use Rattle.rulep_decide.specs.Verdicts.{IsVerdict, atoms_among};

use crate::circuits::{Circuit, Gate};
use crate::premises::Premises;
use crate::search::find_values;
use hol_terms::lists::Terms;
use hol_terms::terms::{Tm, copy};
use std::alloc::{AllocError, Global};

/// The formula follows, or the true atoms of an assignment that makes the premises hold and the conclusion fail: atoms of these, each once.
#[derive(Drop)]
pub enum Verdict {
    Follows,
    Falsified(Terms),
}

/// The circuit of the premises, which are to hold, and of the conclusion, which is to fail.
#[tactic(auto, using(crate::proofs::Deciding::demands_none, crate::proofs::Deciding::demands_more, crate::proofs::Deciding::demands_all, crate::proofs::Bringing::premise_among, crate::proofs::Bringing::conclusion_among))]
fn refutation<'a>(
    alloc: Global,
    premises: &'a Premises,
    conclusion: &'a Tm,
) -> Result<Circuit<'a>, AllocError>
    ensures numbered { IfOk result (λ circuit. IsNumbered circuit) }
    ensures demands { IfOk result (λ circuit. (is_true : Term → Bool)
        → meets is_true (nodes_of circuit) ≡ (not (truth_value is_true (plain_term conclusion.now)) && are_true is_true premises.now)) }
    ensures atoms { IfOk result (λ circuit. HasAtomsAmong (atoms_among premises.now (plain_term conclusion.now)) (nodes_of circuit)) }
{
    let mut circuit = Circuit::new(alloc);
    for i in 0..premises.len() {
        circuit.demand(premises.at(i), true)?;
    }
    circuit.demand(conclusion, false)?;
    Ok(circuit)
}

/// The atom is added to the list where node `i` is one and has the value true.
fn add_true_atom(
    alloc: Global,
    circuit: &Circuit<'_>,
    values: &Vec<bool>,
    i: u64,
    atoms: &mut Terms,
) -> Result<(), AllocError>
    requires within { i < length (nodes_of circuit.now) }
    requires count { length values.now.items ≡ length (nodes_of circuit.now) }
    ensures { OnOk result (atoms.new ≡ atoms.old ++ true_atom (assigned values.now.items i) (node_at (nodes_of circuit.now) i)) }
{
    if let Gate::Atom(t) = circuit.gate(i) {
        if values[i as usize] {
            atoms.push(copy(alloc, t)?)?;
        }
    }
    Ok(())
}

/// The atoms with the value true, in the order of first occurrence.
fn true_atoms_of(
    alloc: Global,
    circuit: &Circuit<'_>,
    values: &Vec<bool>,
) -> Result<Terms, AllocError>
    requires { length values.now.items ≡ length (nodes_of circuit.now) }
    ensures { IfOk result (λ atoms. atoms ≡ true_atoms (assigned values.now.items) (nodes_of circuit.now) (length (nodes_of circuit.now))) }
{
    let mut atoms = Terms::new(alloc);
    for i in 0..circuit.len() {
        add_true_atom(alloc, circuit, values, i, &mut atoms)?;
    }
    Ok(atoms)
}

/// Whether the formula follows from the premises: each assignment that makes them hold makes it hold.
pub fn follows(alloc: Global, premises: &Premises, conclusion: &Tm) -> Result<Verdict, AllocError>
    ensures { IfOk result (λ verdict. IsVerdict premises.now (plain_term conclusion.now) verdict) }
{
    let circuit = refutation(alloc, premises, conclusion)?;
    match find_values(alloc, &circuit)? {
        None => Ok(Verdict::Follows),
        Some(values) => {
            let atoms = true_atoms_of(alloc, &circuit, &values)?;
            Ok(Verdict::Falsified(atoms))
        }
    }
}
