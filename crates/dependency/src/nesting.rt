//! In which branches selected variables and other branches stand.

ghost use Rattle.std.specs.Prelude.{◌≡◌, ◌+◌, ◌-◌, ◌<◌, ◌≤◌, ℕ, IfOk, Some, length, slice_index};
ghost use Rattle.dependency.specs.Dependencies.{occurrence_at};
ghost use Rattle.expansion_tree.specs.Occurrences.{Occurrence, occurrences_of};
ghost use Rattle.dependency.specs.Nesting.{AreNested, AreOwners, AreParents, AreSelections, IsInnermost, IsOwner, IsPast, IsScanned};

use expansion_tree::fitted::Fitted;
use std::alloc::{AllocError, Global};

/// The innermost of an occurrence and those above it whose branch doesn't end before the node, or 0 where there is none.
fn climb(fitted: &Fitted, parents: &[u64], from: u64, node: u64) -> u64
    requires nested { AreNested (occurrences_of fitted.now.tree) }
    requires parents { AreParents (occurrences_of fitted.now.tree) parents.now }
    requires from { from < length parents.now }
    requires known { length parents.now ≤ length (occurrences_of fitted.now.tree) + 1 }
    requires starts { (o : Occurrence) → occurrence_at (occurrences_of fitted.now.tree) from ≡ Some o → o.first ≤ node }
    ensures { (bound : ℕ) → from ≤ bound → IsPast (occurrences_of fitted.now.tree) from bound node → IsInnermost (occurrences_of fitted.now.tree) bound node result }
{
    let mut e = from;
    while e > 0 {
        if node <= fitted.occurrence(e).last {
            return e;
        }
        e = parents[e as usize];
    }
    e
}

/// At the number of each occurrence the one right above it, or 0 where there is none.
pub fn parents(alloc: Global, fitted: &Fitted) -> Result<Vec<u64>, AllocError>
    requires { AreNested (occurrences_of fitted.now.tree) }
    ensures many { IfOk result (λ parents. length parents.items ≡ length (occurrences_of fitted.now.tree) + 1) }
    ensures each { IfOk result (λ parents. AreParents (occurrences_of fitted.now.tree) parents.items) }
{
    let mut parents = Vec::new(alloc);
    parents.push(0)?;
    for e in 0..fitted.occurrence_count() {
        let first = fitted.occurrence(e + 1).node;
        let parent = climb(fitted, &parents, e, first);
        parents.push(parent)?;
    }
    Ok(parents)
}

/// A look at nodes in their order: how many occurrences begin up to the last one, and the innermost of them around it.
#[derive(Clone, Copy)]
struct Scan {
    opened: u64,
    innermost: u64,
}

impl Scan {
    /// Goes on over the occurrences that begin up to the node.
    fn open(&mut self, fitted: &Fitted, node: u64)
        requires nested { AreNested (occurrences_of fitted.now.tree) }
        requires scanned { IsScanned (occurrences_of fitted.now.tree) self.old.opened self.old.innermost node }
        ensures scanned { IsScanned (occurrences_of fitted.now.tree) self.new.opened self.new.innermost node }
        ensures all { (f : ℕ) (o : Occurrence) → self.new.opened < f → occurrence_at (occurrences_of fitted.now.tree) f ≡ Some o → node < o.first }
    {
        while self.opened < fitted.occurrence_count() {
            if fitted.occurrence(self.opened + 1).node > node {
                return;
            }
            self.opened += 1;
            self.innermost = self.opened;
        }
    }

    /// The innermost occurrence whose branch has the node, or 0 where there is none.
    fn owner(&mut self, fitted: &Fitted, parents: &[u64], node: u64) -> u64
        requires nested { AreNested (occurrences_of fitted.now.tree) }
        requires parents { AreParents (occurrences_of fitted.now.tree) parents.now }
        requires known { length parents.now ≡ length (occurrences_of fitted.now.tree) + 1 }
        requires scanned { IsScanned (occurrences_of fitted.now.tree) self.old.opened self.old.innermost node }
        ensures scanned { IsScanned (occurrences_of fitted.now.tree) self.new.opened self.new.innermost node }
        ensures owner { IsOwner (occurrences_of fitted.now.tree) node result }
    {
        self.open(fitted, node);
        self.innermost = climb(fitted, parents, self.innermost, node);
        self.innermost
    }
}

/// At the place of each selected variable the innermost occurrence whose branch has its node, or 0 where there is none.
pub fn owners(alloc: Global, fitted: &Fitted, parents: &[u64]) -> Result<Vec<u64>, AllocError>
    requires nested { AreNested (occurrences_of fitted.now.tree) }
    requires selections { AreSelections fitted.now.selection_list }
    requires parents { AreParents (occurrences_of fitted.now.tree) parents.now }
    requires known { length parents.now ≡ length (occurrences_of fitted.now.tree) + 1 }
    ensures many { IfOk result (λ owners. length owners.items ≡ length fitted.now.selection_list) }
    ensures each { IfOk result (λ owners. AreOwners (occurrences_of fitted.now.tree) fitted.now.selection_list owners.items) }
{
    let mut owners = Vec::new(alloc);
    let mut scan = Scan {
        opened: 0,
        innermost: 0,
    };
    for k in 0..fitted.selected_count() {
        let node = fitted.selected(k + 1).node;
        let owner = scan.owner(fitted, parents, node);
        owners.push(owner)?;
    }
    Ok(owners)
}
