//! A case of a refutation.

ghost use Rattle.std.specs.Prelude.{◌≡◌, [], length};
ghost use Rattle.refutations.specs.States.{HasMore, IsSame};

use crate::duties::Duty;
use crate::nodes::Front;
use crate::stacks::Stack;
use indexmap::IndexMap;
use std::alloc::Global;

/// What is open in a case, and what it holds: the nodes that give two cases, the one with the least number on the top; the terms that
/// were found at expansion nodes, by the numbers of their occurrences; the lines of its leaves, by their numbers; and its duties.
#[derive(Drop)]
pub struct Case<'a> {
    pub splits: Stack<'a>,
    pub fronts: IndexMap<u64, Front<'a>>,
    pub held: IndexMap<u64, u64>,
    pub duties: Vec<Duty<'a>>,
}

/// How much a case had.
#[derive(Clone, Copy)]
pub struct Mark {
    pub cells: usize,
    pub top: u64,
    pub fronts: usize,
    pub held: usize,
    pub duties: usize,
}

impl<'a> Case<'a> {
    /// Nothing open, and no leaf.
    pub fn new(alloc: Global) -> Case<'a>
        ensures cells { result.splits.cells.items ≡ [] }
        ensures top { result.splits.top ≡ 0 }
        ensures fronts { result.fronts.entries ≡ [] }
        ensures held { result.held.entries ≡ [] }
        ensures duties { result.duties.items ≡ [] }
    {
        Case {
            splits: Stack::new(alloc),
            fronts: IndexMap::new(alloc),
            held: IndexMap::new(alloc),
            duties: Vec::new(alloc),
        }
    }

    /// How much the case has.
    pub fn mark(&self) -> Mark
        ensures cells { result.cells ≡ length self.now.splits.cells.items }
        ensures top { result.top ≡ self.now.splits.top }
        ensures fronts { result.fronts ≡ length self.now.fronts.entries }
        ensures held { result.held ≡ length self.now.held.entries }
        ensures duties { result.duties ≡ length self.now.duties.items }
    {
        Mark {
            cells: self.splits.cells.len(),
            top: self.splits.top,
            fronts: self.fronts.len(),
            held: self.held.len(),
            duties: self.duties.len(),
        }
    }

    /// Takes back what was added since the mark, where the duties are done already.
    pub fn take_back(&mut self, mark: Mark)
        ensures { (old : Case) → HasMore old self.old → self.old.duties.items ≡ old.duties.items → mark.cells ≡ length old.splits.cells.items → mark.top ≡ old.splits.top → mark.fronts ≡ length old.fronts.entries → mark.held ≡ length old.held.entries → IsSame old self.new }
    {
        self.splits.set_back(mark.cells, mark.top);
        self.fronts.truncate(mark.fronts);
        self.held.truncate(mark.held);
    }
}
