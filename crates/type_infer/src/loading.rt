//! Conditions become cells, and pairs of numbers that are to be the same.

ghost use Rattle.std.specs.Prelude.{◌≡◌, ◌++◌, ◌∷◌, [], IfOk, OnOk, length, map, ℕ, List};
ghost use Rattle.std.specs.Prelude.{get_or, replicate, ◌<◌};
ghost use Rattle.type_infer.specs.declared.cells.Cell.TheVariants.{Open};
ghost use Rattle.type_infer.specs.Cells.{IsStore};
ghost use Rattle.type_infer.specs.Conditions.{is_named};
ghost use Rattle.type_infer.specs.Equations.{plain_condition, plain_equation};
ghost use Rattle.type_infer.specs.Loading.{AreWithin, IsLoaded};
ghost use Rattle.type_infer.specs.Steps.{AddsEquation, HasLoaded};

use crate::cells::{Cell, add_type, push};
use crate::conditions::{Condition, Equation};
use hol_terms::names::Name;
use hol_terms::types::Ty;
use hol_terms::variable_sets::VariableSet;
use std::alloc::{AllocError, Global};

/// Cells, pairs of numbers that are to be the same, and the names that have occurred free, each as a variable of type O, with the
/// number of the first occurrence of each.
#[derive(Drop)]
pub struct Loading {
    pub cells: Vec<Cell>,
    pub pending: Vec<(u64, u64)>,
    pub names: VariableSet,
    pub firsts: Vec<u64>,
}

/// As many open cells.
fn open_cells(alloc: Global, count: u64) -> Result<Vec<Cell>, AllocError>
    ensures { IfOk result (λ cells. cells.items ≡ replicate count Open) }
{
    let mut cells = Vec::new(alloc);
    for _ in 0..count {
        cells.push(Cell::Open)?;
    }
    Ok(cells)
}

impl Loading {
    /// No condition, with as many numbers.
    #[tactic(auto, using(crate::proofs::Loads::loaded_none))]
    fn new(alloc: Global, count: u64) -> Result<Loading, AllocError>
        ensures { IfOk result (λ state. IsLoaded count [] state.cells.items state.pending.items state.names state.firsts.items) }
    {
        let cells = open_cells(alloc, count)?;
        Ok(Loading {
            cells,
            pending: Vec::new(alloc),
            names: VariableSet::new(alloc),
            firsts: Vec::new(alloc),
        })
    }

    /// The numbers of both types are to be the same.
    fn pair(&mut self, first: u64, second: u64) -> Result<(), AllocError>
        ensures pending { OnOk result (self.new.pending.items ≡ self.old.pending.items ++ (first, second) ∷ []) }
        ensures cells { OnOk result (self.new.cells.items ≡ self.old.cells.items) }
        ensures names { OnOk result (self.new.names ≡ self.old.names) }
        ensures firsts { OnOk result (self.new.firsts.items ≡ self.old.firsts.items) }
    {
        self.pending.push((first, second))?;
        Ok(())
    }

    /// The type of the number is that of the free name.
    #[tactic(auto, using(crate::proofs::Loads::adds_pair_name, crate::proofs::Loads::adds_new_name, crate::proofs::Loads::inserted_new))]
    fn add_name(&mut self, number: u64, name: &Name) -> Result<(), AllocError>
        requires { length self.old.firsts.items ≡ length self.old.names }
        ensures { OnOk result (AddsEquation (is_named number name.now) self.old self.new) }
    {
        match self.names.place(name, &Ty::truth())? {
            Some(place) => {
                let first = first_of(&self.firsts, place);
                self.pair(number, first)
            }
            None => {
                self.names.insert(name, &Ty::truth())?;
                self.firsts.push(number)?;
                Ok(())
            }
        }
    }

    /// One more equation.
    #[tactic(auto, using(crate::proofs::Loads::adds_same, crate::proofs::Loads::adds_given, crate::proofs::Loads::adds_function_type))]
    fn add(&mut self, equation: &Equation<'_>) -> Result<(), AllocError>
        requires store { IsStore self.old.cells.items }
        requires as_many { length self.old.firsts.items ≡ length self.old.names }
        ensures { OnOk result (AddsEquation (plain_equation equation.now) self.old self.new) }
    {
        match equation {
            Equation::Same(first, second) => self.pair(*first, *second),
            Equation::Named(number, name) => self.add_name(*number, name),
            Equation::Given(number, ty) => {
                let given = add_type(&mut self.cells, ty)?;
                self.pair(*number, given)
            }
            Equation::Function(number, result_type, argument) => {
                let function = push(&mut self.cells, Cell::Function(*result_type, *argument))?;
                self.pair(*number, function)
            }
        }
    }
}

/// What is kept at a place.
fn first_of(firsts: &[u64], place: u64) -> u64
    requires { place < length firsts.now }
    ensures { result ≡ get_or firsts.now place 0 }
{
    firsts[place as usize]
}

#[tactic(auto, using(crate::proofs::Loads::loaded_step))]
/// The conditions as cells and pairs, for as many numbers.
pub fn load(alloc: Global, conditions: &[Condition<'_>], count: u64) -> Result<Loading, AllocError>
    requires { AreWithin count (map plain_condition conditions.now) }
    ensures { IfOk result (λ state. HasLoaded count (map plain_condition conditions.now) state) }
{
    let mut state = Loading::new(alloc, count)?;
    for condition in conditions {
        state.add(&condition.equation)?;
    }
    Ok(state)
}
