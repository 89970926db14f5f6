//! The dependency relation, put into an order.

ghost use Rattle.std.specs.Prelude.{◌≡◌, ◌-◌, ◌<◌, ℕ, All, Err, IfErr, IfOk, List, length, slice_index};
ghost use Rattle.dependency.specs.Dependencies.{IsAcyclic, IsOrder};
ghost use Rattle.dependency.specs.Faults.{IsOrderFault};
ghost use Rattle.expansion_tree.specs.Occurrences.{occurrences_of};
ghost use Rattle.dependency.specs.Graphs.{predecessors, row_lists};
ghost use Rattle.dependency.specs.Nesting.{AreNested, AreSelections, shortened as shortened_by};

use crate::faults::OrderFault;
use crate::graphs::{Sorting, predecessor, sort};
use crate::orders::Order;
use crate::uses::graph;
use expansion_tree::fitted::Fitted;
use hol_terms::lists::Numbers;
use std::alloc::{AllocError, Global};

/// The first predecessor of the vertex, or 0 where it has none.
fn first_predecessor(graph: &[Vec<u64>], vertex: u64) -> u64
    requires { vertex < length graph.now }
    ensures { result ≡ slice_index (predecessors (row_lists graph.now) vertex) 0 }
{
    predecessor(graph, vertex, 0).unwrap_or(0)
}

/// The cycle without those that are reached from the one before by going down to an occurrence right below it.
fn shortened(alloc: Global, graph: &[Vec<u64>], cycle: &[u64]) -> Result<Numbers, AllocError>
    requires some { 0 < length cycle.now }
    requires vertices { All (λ v. v < length graph.now) cycle.now }
    ensures { IfOk result (λ chain. chain ≡ shortened_by (row_lists graph.now) (slice_index cycle.now (length cycle.now - 1)) cycle.now) }
{
    let mut chain = Numbers::new(alloc);
    let mut before = cycle[cycle.len() - 1];
    for vertex in cycle {
        if before != first_predecessor(graph, *vertex) {
            chain.push(*vertex)?;
        }
        before = *vertex;
    }
    Ok(chain)
}

/// Orders the occurrences so that each stands before those that it is directly before, those in whose term a variable is free that is
/// selected below it, and before those that stand below it (Miller 1987). `Cycle` comes exactly where there is no such order, with
/// occurrences that are each directly before the next, the last before the first.
pub fn order(alloc: Global, fitted: &Fitted) -> Result<Order, OrderFault>
    ensures order { IfOk result (λ order. IsOrder (occurrences_of fitted.now.tree) fitted.now.selection_list order) }
    ensures many { IfOk result (λ order. length order ≡ length (occurrences_of fitted.now.tree)) }
    ensures acyclic { IfOk result (λ _. IsAcyclic (occurrences_of fitted.now.tree) fitted.now.selection_list) }
    ensures fault { IfErr result (λ e. IsOrderFault (occurrences_of fitted.now.tree) fitted.now.selection_list e) }
    ensures only { (chain : List ℕ) → result ≡ Err (OrderFault.Cycle chain) → IsAcyclic (occurrences_of fitted.now.tree) fitted.now.selection_list → ⊥ }
{
    // Each variable is selected once, since the tree fits.
    let _ = fitted.tree();
    let graph = graph(alloc, fitted)?;
    match sort(alloc, &graph)? {
        Sorting::Order(mut vertices) => {
            // The whole tree comes first.
            let _ = vertices.remove(0);
            Ok(Order { items: vertices })
        }
        Sorting::Cycle(cycle) => Err(OrderFault::Cycle(shortened(alloc, &graph, &cycle)?)),
    }
}
