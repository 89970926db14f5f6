//! A stack of nodes that can be set back to what it was.

ghost use Rattle.std.specs.Prelude.{◌≡◌, ◌≢◌, ◌∷◌, [], ◌≤◌, IfSome, IfNone, OnOk, length, take};
ghost use Rattle.refutations.specs.Stacks.{HasMoreCells, IsStack, stacked};

use crate::nodes::Node;
use std::alloc::{AllocError, Global};

/// A node on the stack, and the number of the cell below it, from 1, or 0 where there is none.
#[derive(Clone, Copy)]
pub struct Cell<'a> {
    pub node: Node<'a>,
    pub rest: u64,
}

/// The cells that came, and the number of the top one, or 0. Cells are taken off only where the stack is set back.
#[derive(Drop)]
pub struct Stack<'a> {
    pub cells: Vec<Cell<'a>>,
    pub top: u64,
}

impl<'a> Stack<'a> {
    /// No node.
    pub fn new(alloc: Global) -> Stack<'a>
        ensures cells { result.cells.items ≡ [] }
        ensures top { result.top ≡ 0 }
        ensures nodes { stacked result ≡ [] }
        ensures stack { IsStack result }
    {
        Stack {
            cells: Vec::new(alloc),
            top: 0,
        }
    }

    /// Puts a node on the top.
    pub fn push(&mut self, node: Node<'a>) -> Result<(), AllocError>
        requires { IsStack self.old }
        ensures nodes { OnOk result (stacked self.new ≡ node.entry ∷ stacked self.old) }
        ensures more { OnOk result (HasMoreCells self.old self.new) }
        ensures stack { OnOk result (IsStack self.new) }
    {
        let rest = self.top;
        self.cells.push(Cell { node, rest })?;
        self.top = self.cells.len() as u64;
        Ok(())
    }

    /// Takes the top node off, where there is one.
    pub fn pop(&mut self) -> Option<Node<'a>>
        requires { IsStack self.old }
        ensures some { IfSome result (λ node. stacked self.old ≡ node ∷ stacked self.new) }
        ensures none { IfNone result (stacked self.old ≡ []) }
        ensures unchanged { IfNone result (self.new ≡ self.old) }
        ensures more { self.new.cells ≡ self.old.cells }
        ensures stack { IsStack self.new }
    {
        if self.top == 0 {
            return None;
        }
        let cell = self.cells[self.top as usize - 1];
        self.top = cell.rest;
        Some(cell.node)
    }

    /// Sets the stack back to the first so many cells, with this top.
    pub fn set_back(&mut self, count: usize, top: u64)
        ensures cells { self.new.cells.items ≡ take count self.old.cells.items }
        ensures top { self.new.top ≡ top }
    {
        self.cells.truncate(count);
        self.top = top;
    }
}
