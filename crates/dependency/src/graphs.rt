//! Topological orders of finite graphs, or cycles in them.

ghost use Rattle.std.specs.Prelude.{◌≡◌, ◌+◌, ◌-◌, ◌<◌, ◌≤◌, ◌^◌, ◌++◌, ◌∷◌, [], ℕ, List, IfOk, IfSome, IsSome, OnOk, Ok, None, Some, length, reverse, slice_get, slice_set, take, true, false, vec_len};
ghost use Rattle.dependency.specs.Graphs.{IsClosedChain, IsCycle, IsEdge, IsGraph, Leads, predecessors, row_lists};
ghost use Rattle.dependency.specs.Walks.{IsNewest, IsSortingOf, IsWalk, Meets, is_in, is_unseen, mark_of, steps_left, up_to};

use std::alloc::{AllocError, Global};

/// All vertices of a graph in an order in which each stands after its predecessors, or a cycle in which each is a predecessor of the
/// next, and the last of the first.
#[derive(Drop)]
pub enum Sorting {
    Order(Vec<u64>),
    Cycle(Vec<u64>),
}

/// How far the walk is with a vertex: it wasn't seen, it waits, with so many of its predecessors placed, or it is placed.
#[derive(Clone, Copy)]
enum Mark {
    Unseen,
    Waiting(usize),
    Placed,
}

/// A walk against the edges of a graph, with the vertices that wait, the newest last, and those that are placed, in their order.
#[derive(Drop)]
struct Walk {
    marks: Vec<Mark>,
    waiting: Vec<u64>,
    placed: Vec<u64>,
}

/// Predecessor `k` of the vertex, counted from 0.
pub fn predecessor(graph: &[Vec<u64>], vertex: u64, k: usize) -> Option<u64>
    requires { vertex < length graph.now }
    ensures value { result ≡ slice_get (predecessors (row_lists graph.now) vertex) k }
    ensures small { IsSome result → k < 2 ^ 63 }
{
    graph[vertex as usize].get(k).copied()
}

impl Walk {
    /// A walk that has seen none of so many vertices.
    fn new(alloc: Global, vertices: usize) -> Result<Walk, AllocError>
        ensures walk { (graph : List (List ℕ)) → length graph ≡ vertices → IfOk result (IsWalk graph) }
        ensures none { IfOk result (λ walk. walk.waiting.items ≡ []) }
    {
        Ok(Walk {
            marks: vec![in alloc; Mark::Unseen; vertices]?,
            waiting: Vec::new(alloc),
            placed: Vec::new(alloc),
        })
    }

    /// The mark of the vertex.
    fn mark(&self, vertex: u64) -> Mark
        requires { vertex < length self.now.marks.items }
        ensures { result ≡ mark_of self.now.marks.items vertex }
    {
        self.marks[vertex as usize]
    }

    /// The mark of the vertex is changed.
    fn set_mark(&mut self, vertex: u64, mark: Mark)
        requires { vertex < length self.old.marks.items }
        ensures marks { self.new.marks.items ≡ slice_set self.old.marks.items vertex mark }
        ensures waiting { self.new.waiting ≡ self.old.waiting }
        ensures placed { self.new.placed ≡ self.old.placed }
    {
        self.marks[vertex as usize] = mark;
    }

    /// The newest vertex that waits.
    fn newest(&self) -> u64
        requires { 0 < vec_len self.now.waiting }
        ensures { (graph : List (List ℕ)) → IsWalk graph self.now → IsNewest graph self.now.marks.items self.now.waiting.items result }
    {
        self.waiting[self.waiting.len() - 1]
    }

    /// The unseen vertex waits from now on; the newest one that waits, if any, waits for it.
    fn enter(&mut self, vertex: u64) -> Result<(), AllocError>
        requires vertex { vertex < length self.old.marks.items }
        requires unseen { mark_of self.old.marks.items vertex ≡ Mark.Unseen }
        ensures walk { OnOk result ((graph : List (List ℕ)) → IsWalk graph self.old → Leads (IsEdge graph) vertex (reverse self.old.waiting.items) → IsWalk graph self.new) }
        ensures marks { OnOk result (self.new.marks.items ≡ slice_set self.old.marks.items vertex (Mark.Waiting 0)) }
    {
        self.waiting.push(vertex)?;
        self.set_mark(vertex, Mark::Waiting(0));
        Ok(())
    }

    /// The newest vertex that waits is placed, since all its predecessors are.
    fn place(&mut self, vertex: u64) -> Result<(), AllocError>
        requires vertex { vertex < length self.old.marks.items }
        requires newest { self.old.waiting.items ≡ take (length self.old.waiting.items - 1) self.old.waiting.items ++ vertex ∷ [] }
        ensures walk { OnOk result ((graph : List (List ℕ)) (k : ℕ) → IsWalk graph self.old → mark_of self.old.marks.items vertex ≡ Mark.Waiting k → length (predecessors graph vertex) ≤ k → IsWalk graph self.new) }
        ensures marks { OnOk result (self.new.marks.items ≡ slice_set self.old.marks.items vertex Mark.Placed) }
    {
        self.placed.push(vertex)?;
        let _ = self.waiting.pop();
        self.set_mark(vertex, Mark::Placed);
        Ok(())
    }

    /// Looks at the next predecessor of the newest vertex that waits; answers that predecessor where it waits itself.
    fn step(&mut self, graph: &[Vec<u64>]) -> Result<Option<u64>, AllocError>
        requires graph { IsGraph (row_lists graph.now) }
        requires walk { IsWalk (row_lists graph.now) self.old }
        requires some { 0 < vec_len self.old.waiting }
        ensures walk { OnOk result (IsWalk (row_lists graph.now) self.new) }
        ensures seen { OnOk result ((v : ℕ) → is_unseen (mark_of self.old.marks.items v) ≡ false → is_unseen (mark_of self.new.marks.items v) ≡ false) }
        ensures meets { IfOk result (λ met. IfSome met (Meets (row_lists graph.now) self.new)) }
        ensures fewer { result ≡ Ok None → steps_left (row_lists graph.now) self.new.marks.items < steps_left (row_lists graph.now) self.old.marks.items }
    {
        let newest = self.newest();
        let Mark::Waiting(count) = self.mark(newest) else {
            unreachable!();
        };
        let Some(vertex) = predecessor(graph, newest, count) else {
            self.place(newest)?;
            return Ok(None);
        };
        match self.mark(vertex) {
            Mark::Unseen => {
                self.enter(vertex)?;
                Ok(None)
            }
            Mark::Waiting(_) => Ok(Some(vertex)),
            Mark::Placed => {
                self.set_mark(newest, Mark::Waiting(count + 1));
                Ok(None)
            }
        }
    }

    /// The vertices that wait, from the newest to the given one.
    fn cycle(&mut self, alloc: Global, vertex: u64) -> Result<Vec<u64>, AllocError>
        ensures { IfOk result (λ list. list.items ≡ up_to vertex (reverse self.old.waiting.items)) }
    {
        let mut list = Vec::new(alloc);
        while let Some(newest) = self.waiting.pop() {
            list.push(newest)?;
            if newest == vertex {
                return Ok(list);
            }
        }
        Ok(list)
    }

    /// Places the vertex and all that it waits for, where nothing waits yet; answers a vertex that waits for itself, where one does.
    fn settle(&mut self, graph: &[Vec<u64>], vertex: u64) -> Result<Option<u64>, AllocError>
        requires graph { IsGraph (row_lists graph.now) }
        requires walk { IsWalk (row_lists graph.now) self.old }
        requires vertex { vertex < length graph.now }
        requires none { self.old.waiting.items ≡ [] }
        ensures walk { OnOk result (IsWalk (row_lists graph.now) self.new) }
        ensures meets { IfOk result (λ met. IfSome met (Meets (row_lists graph.now) self.new)) }
        ensures none { result ≡ Ok None → self.new.waiting.items ≡ [] }
        ensures more { OnOk result (is_unseen (mark_of self.new.marks.items vertex) ≡ false) }
        ensures seen { OnOk result ((v : ℕ) → is_unseen (mark_of self.old.marks.items v) ≡ false → is_unseen (mark_of self.new.marks.items v) ≡ false) }
    {
        let Mark::Unseen = self.mark(vertex) else {
            return Ok(None);
        };
        self.enter(vertex)?;
        while !self.waiting.is_empty() {
            if let Some(met) = self.step(graph)? {
                return Ok(Some(met));
            }
        }
        Ok(None)
    }
}

/// Sorts the graph whose vertices, counted from 0, have these predecessors (depth first, after Tarjan 1976). The vertices that wait are
/// a worklist, since there can be as many of them as vertices.
pub fn sort(alloc: Global, graph: &[Vec<u64>]) -> Result<Sorting, AllocError>
    requires { IsGraph (row_lists graph.now) }
    ensures { IfOk result (IsSortingOf (row_lists graph.now)) }
{
    let mut walk = Walk::new(alloc, graph.len())?;
    for vertex in 0..graph.len() {
        if let Some(met) = walk.settle(graph, vertex as u64)? {
            return Ok(Sorting::Cycle(walk.cycle(alloc, met)?));
        }
    }
    Ok(Sorting::Order(walk.placed))
}
