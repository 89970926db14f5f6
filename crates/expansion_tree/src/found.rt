//! What the walk along a tree finds: its leaves and its selected variables.

ghost use Rattle.std.specs.Prelude.{◌≡◌, ◌++◌, ◌∷◌, [], Contains, IfOk, OnErr, OnOk, map, true, false};
ghost use Rattle.hol_terms.specs.Terms.{plain_term, plain_type};
ghost use Rattle.expansion_tree.specs.Stood.{MayHaveTaken, findings_of, plain_selection, with_more};

use hol_terms::names::Name;
use hol_terms::terms::Tm;
use hol_terms::types::Ty;
use hol_terms::variable_sets::VariableSet;
use std::alloc::{AllocError, Global};

/// A leaf of a fitted tree.
#[derive(Drop)]
pub struct Leaf {
    pub positive: bool,
    pub formula: Tm,
}

/// A variable that a tree selects, with the number of the node that selects it.
#[derive(Drop)]
pub struct Selected {
    pub node: u64,
    pub name: Name,
    pub ty: Ty,
}

/// The leaves and the selected variables that were found, and the variables that are taken: those that are free in the formula,
/// and the selected ones.
#[derive(Drop)]
pub struct Found {
    pub leaves: Vec<Leaf>,
    pub selections: Vec<Selected>,
    pub taken: VariableSet,
}

/// The variable, copied, with the number of the node that selects it.
fn selected_at(alloc: Global, node: u64, name: &Name, ty: &Ty) -> Result<Selected, AllocError>
    ensures { IfOk result (λ selected. plain_selection selected ≡ record { node = node; variable = (name.now, plain_type ty.now) }) }
{
    let name = name.copy(alloc)?;
    let ty = ty.copy(alloc)?;
    Ok(Selected { node, name, ty })
}

impl Found {
    /// Puts a leaf after the others. An `Err` changes nothing.
    #[inline(never)]
    pub fn add_leaf(&mut self, positive: bool, formula: Tm) -> Result<(), AllocError>
        ensures ok { OnOk result (findings_of self.new ≡ with_more (findings_of self.old) ((positive, plain_term formula) ∷ []) [] []) }
        ensures err { OnErr result (findings_of self.new ≡ findings_of self.old) }
    {
        self.leaves.push(Leaf { positive, formula })?;
        Ok(())
    }

    /// Puts the variable that a node selects after the others, and tells whether it wasn't taken; where it was, nothing is changed. After
    /// an `Err` it may be taken, and nothing else is changed.
    #[inline(never)]
    pub fn select(
        &mut self,
        alloc: Global,
        node: u64,
        name: &Name,
        ty: &Ty,
    ) -> Result<bool, AllocError>
        ensures new { IfOk result (λ new. new ≡ true → (Contains self.old.taken (name.now, plain_type ty.now) → ⊥) × (findings_of self.new ≡ with_more (findings_of self.old) [] (record { node = node; variable = (name.now, plain_type ty.now) } ∷ []) ((name.now, plain_type ty.now) ∷ []))) }
        ensures taken { IfOk result (λ new. new ≡ false → Contains self.old.taken (name.now, plain_type ty.now)) }
        ensures kept { IfOk result (λ new. new ≡ false → findings_of self.new ≡ findings_of self.old) }
        ensures err { OnErr result (MayHaveTaken (findings_of self.old) (findings_of self.new) (name.now, plain_type ty.now)) }
    {
        if !self.taken.insert(name, ty)? {
            return Ok(false);
        }
        let selected = selected_at(alloc, node, name, ty)?;
        self.selections.push(selected)?;
        Ok(true)
    }
}
