//! Values of nodes, one after another.

ghost use Rattle.std.specs.Prelude.{◌≡◌, ◌∷◌, ◌<◌, [], IfOk, IsTrue, MatchOption, None, OnOk, Some, cond, length, not, slice_get};
ghost use Rattle.rulep_decide.specs.Trails.{Has, IsAddedTo, IsTrail, decided_step, forced_step, steps_of, undone};

use std::alloc::{AllocError, Global};

/// A value that was given to a node, by choice or because the steps before it force it.
#[derive(Clone, Copy)]
pub struct Step {
    node: u64,
    value: bool,
    decided: bool,
}

/// The steps, and the value of each node that has one.
#[derive(Drop)]
pub struct Trail {
    values: Vec<Option<bool>>,
    steps: Vec<Step>,
}

impl Trail {
    /// No steps, for that many nodes.
    #[tactic(auto, using(crate::proofs::Tables::table_open, crate::proofs::Tables::count_one_more))]
    pub fn new(alloc: Global, count: u64) -> Result<Trail, AllocError>
        ensures trail { IfOk result (λ trail. IsTrail trail) }
        ensures steps { IfOk result (λ trail. steps_of trail ≡ []) }
        ensures count { IfOk result (λ trail. length trail.values.items ≡ count) }
    {
        let mut values = Vec::new(alloc);
        for _ in 0..count {
            values.push(None)?;
        }
        Ok(Trail {
            values,
            steps: Vec::new(alloc),
        })
    }

    /// The number of steps.
    pub fn len(&self) -> u64
        ensures { result ≡ length (steps_of self.now) }
    {
        self.steps.len() as u64
    }

    /// The value of a node, where it has one.
    pub fn value(&self, node: u64) -> Option<bool>
        requires trail { IsTrail self.now }
        requires within { node < length self.now.values.items }
        ensures table { slice_get self.now.values.items node ≡ Some result }
        ensures step { MatchOption result (Unit {0}) (λ b. Has (steps_of self.now) node b) }
    {
        self.values[node as usize]
    }

    /// A step is added that gives a value to a node without one.
    fn put(&mut self, step: Step) -> Result<(), AllocError>
        requires trail { IsTrail self.old }
        requires is_open { slice_get self.old.values.items step.node ≡ Some None }
        ensures steps { OnOk result (steps_of self.new ≡ step ∷ steps_of self.old) }
        ensures trail { OnOk result (IsTrail self.new) }
        ensures count { OnOk result (length self.new.values.items ≡ length self.old.values.items) }
        ensures room { OnOk result (length (steps_of self.old) < length self.old.values.items) }
    {
        self.values[step.node as usize] = Some(step.value);
        self.steps.push(step)?;
        Ok(())
    }

    /// The newest step is taken back, where there is one.
    #[tactic(auto, using(crate::proofs::Tables::table_popped, crate::proofs::Tables::newest_within, crate::proofs::Tables::opened_here, crate::proofs::Tables::length_set))]
    fn take_last(&mut self) -> Option<Step>
        requires { IsTrail self.old }
        ensures steps { MatchOption result ((steps_of self.old ≡ []) × (steps_of self.new ≡ [])) (λ step. steps_of self.old ≡ step ∷ steps_of self.new) }
        ensures trail { IsTrail self.new }
        ensures count { length self.new.values.items ≡ length self.old.values.items }
        ensures is_open { MatchOption result (steps_of self.new ≡ []) (λ step. slice_get self.new.values.items step.node ≡ Some None) }
    {
        match self.steps.pop() {
            None => None,
            Some(step) => {
                self.values[step.node as usize] = None;
                Some(step)
            }
        }
    }

    /// The steps from the newest decided one on are taken back, and that one is turned; false where none was decided.
    pub fn turn_back(&mut self) -> Result<bool, AllocError>
        requires { IsTrail self.old }
        ensures trail { OnOk result (IsTrail self.new) }
        ensures count { OnOk result (length self.new.values.items ≡ length self.old.values.items) }
        ensures turned { IfOk result (λ b. undone (steps_of self.old) ≡ cond b (Some (steps_of self.new)) None) }
    {
        while let Some(step) = self.take_last() {
            if step.decided {
                self.put(Step {
                    node: step.node,
                    value: !step.value,
                    decided: false,
                })?;
                return Ok(true);
            }
        }
        Ok(false)
    }

    /// The steps force the value of a node, and it is added where the node has none; true where the node has the other value.
    pub fn learn(&mut self, node: u64, value: bool) -> Result<bool, AllocError>
        requires trail { IsTrail self.old }
        requires within { node < length self.old.values.items }
        ensures trail { OnOk result (IsTrail self.new) }
        ensures count { OnOk result (length self.new.values.items ≡ length self.old.values.items) }
        ensures steps { OnOk result (IsAddedTo (steps_of self.old) (length self.old.values.items) (forced_step node value) (steps_of self.new)) }
        ensures conflict { IfOk result (λ b. IsTrue b → Has (steps_of self.new) node (not value)) }
    {
        match self.value(node) {
            Some(known) => Ok(known != value),
            None => {
                self.put(Step {
                    node,
                    value,
                    decided: false,
                })?;
                Ok(false)
            }
        }
    }

    /// A node without a value gets one by choice.
    pub fn decide(&mut self, node: u64, value: bool) -> Result<(), AllocError>
        requires trail { IsTrail self.old }
        requires is_open { slice_get self.old.values.items node ≡ Some None }
        ensures trail { OnOk result (IsTrail self.new) }
        ensures count { OnOk result (length self.new.values.items ≡ length self.old.values.items) }
        ensures steps { OnOk result (steps_of self.new ≡ decided_step node value ∷ steps_of self.old) }
        ensures room { OnOk result (length (steps_of self.old) < length self.old.values.items) }
    {
        self.put(Step {
            node,
            value,
            decided: true,
        })
    }
}
