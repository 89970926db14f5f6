//! The first open path of a matrix.

ghost use Rattle.std.specs.Prelude.{◌≡◌, ℕ, ◌+◌, ◌-◌, ◌<◌, ◌≤◌, ◌++◌, ◌∷◌, [], List, IfOk, OnOk, length, true, false, Ok, reverse, Vec};
ghost use Rattle.std.specs.Option.{option_map};
ghost use Rattle.std.specs.declared.alloc.Global.{Global};
ghost use Rattle.expansion_tree.specs.Matrices.{joined, matrix_paths, IsNumberedTo};
ghost use Rattle.vertical_paths.specs.Matings.{first_open as first_open_of, is_closed};
ghost use Rattle.vertical_paths.specs.Partners.{ArePartnerRows};
ghost use Rattle.vertical_paths.specs.Walks.{steps, IsWalk, IsOpenFor, paths_via, steps_via, choice_paths, choice_steps, untried_by, untried, steps_ahead, chain};

use crate::partners::partner_rows;
use crate::prefixes::Prefix;
use expansion_tree::matrices::Matrix;
use std::alloc::{AllocError, Global};

/// A matrix through which the path is to go, and the number of the task that comes after it. Tasks are numbered from 1 in the
/// order in which they come, and 0 is the end of the path.
#[derive(Clone, Copy)]
struct Task<'m> {
    matrix: &'m Matrix,
    rest: usize,
}

/// Another way to go on: through the task of this number, after the first leaves, as many as given.
#[derive(Clone, Copy)]
struct Choice {
    at: usize,
    leaves: usize,
}

/// A walk along a path, with the number of the task that comes next and the choices that are left, the newest last.
#[derive(Drop)]
struct Walk<'m> {
    prefix: Prefix,
    tasks: Vec<Task<'m>>,
    at: usize,
    choices: Vec<Choice>,
}

impl<'m> Walk<'m> {
    /// A walk at its beginning, through this matrix alone, whose leaves have numbers below `bound`.
    fn new(alloc: Global, matrix: &'m Matrix, bound: usize) -> Result<Walk<'m>, AllocError>
        requires bound { 0 < bound }
        requires numbers { IsNumberedTo (bound - 1) matrix.now }
        ensures walk { IfOk result (λ walk. IsWalk walk) }
        ensures bound { IfOk result (λ walk. length walk.prefix.counts.items ≡ bound) }
        ensures leaves { IfOk result (λ walk. walk.prefix.leaves.items ≡ []) }
        ensures paths { IfOk result (λ walk. untried walk ≡ matrix_paths matrix.now) }
    {
        let prefix = Prefix::new(alloc, bound)?;
        let mut tasks = Vec::new(alloc);
        tasks.push(Task { matrix, rest: 0 })?;
        Ok(Walk {
            prefix,
            tasks,
            at: 1,
            choices: Vec::new(alloc),
        })
    }

    /// Goes on through a matrix, and then through the task `rest`.
    fn put(&mut self, matrix: &'m Matrix, rest: usize) -> Result<(), AllocError>
        requires walk { IsWalk self.old }
        requires numbers { IsNumberedTo (length self.old.prefix.counts.items - 1) matrix.now }
        requires rest { rest ≤ length self.old.tasks.items }
        ensures walk { OnOk result (IsWalk self.new) }
        ensures last { OnOk result (self.new.at ≡ length self.new.tasks.items) }
        ensures next { OnOk result (chain self.new.tasks.items self.new.at ≡ matrix.now ∷ chain self.old.tasks.items rest) }
        ensures older { OnOk result ((at : ℕ) → at ≤ length self.old.tasks.items → chain self.new.tasks.items at ≡ chain self.old.tasks.items at) }
        ensures many { OnOk result (length self.old.tasks.items ≤ length self.new.tasks.items) }
        ensures choice_paths { OnOk result (choice_paths self.new ≡ choice_paths self.old) }
        ensures choice_steps { OnOk result (choice_steps self.new ≡ choice_steps self.old) }
        ensures prefix { self.new.prefix ≡ self.old.prefix }
    {
        self.tasks.push(Task { matrix, rest })?;
        self.at = self.tasks.len();
        Ok(())
    }

    /// Leaves what comes next as a choice.
    fn leave(&mut self) -> Result<(), AllocError>
        requires walk { IsWalk self.old }
        requires last { self.old.at ≡ length self.old.tasks.items }
        ensures walk { OnOk result (IsWalk self.new) }
        ensures choice_paths { OnOk result (choice_paths self.new ≡ untried self.old) }
        ensures choice_steps { OnOk result (choice_steps self.new ≡ steps_ahead self.old) }
        ensures tasks { self.new.tasks ≡ self.old.tasks }
        ensures prefix { self.new.prefix ≡ self.old.prefix }
    {
        self.choices.push(Choice {
            at: self.at,
            leaves: self.prefix.leaves.len(),
        })?;
        Ok(())
    }

    /// Goes back to the newest choice, where one is left.
    fn back(&mut self) -> bool
        requires { IsWalk self.old }
        ensures walk { result ≡ true → IsWalk self.new }
        ensures bound { length self.new.prefix.counts.items ≡ length self.old.prefix.counts.items }
        ensures paths { result ≡ true → untried self.new ≡ choice_paths self.old }
        ensures steps { result ≡ true → steps_ahead self.new ≡ choice_steps self.old }
        ensures none { result ≡ false → choice_paths self.old ≡ [] }
        ensures open { (pairs : List (ℕ × ℕ)) → is_closed pairs self.old.prefix.leaves.items ≡ false → is_closed pairs self.new.prefix.leaves.items ≡ false }
    {
        let Some(choice) = self.choices.pop() else {
            return false;
        };
        self.tasks.truncate(choice.at);
        self.prefix.cut(choice.leaves);
        self.at = choice.at;
        true
    }

    /// Goes on through one leaf, where the path is open with it; else nothing changes.
    fn enter(&mut self, leaf: u64, rest: usize, rows: &[Vec<u64>]) -> Result<bool, AllocError>
        requires walk { IsWalk self.old }
        requires rows { length rows.now ≡ length self.old.prefix.counts.items }
        requires leaf { leaf < length self.old.prefix.counts.items }
        requires rest { rest ≤ length self.old.tasks.items }
        ensures walk { OnOk result (IsWalk self.new) }
        ensures bound { OnOk result (length self.new.prefix.counts.items ≡ length self.old.prefix.counts.items) }
        ensures steps { result ≡ Ok true → steps_ahead self.new ≡ steps_via self.old rest + choice_steps self.old }
        ensures goes_on { result ≡ Ok true → untried self.new ≡ untried_by self.old (joined ((leaf ∷ []) ∷ []) (paths_via self.old rest)) }
        ensures open { (pairs : List (ℕ × ℕ)) → IsOpenFor pairs rows.now self.old → OnOk result (IsOpenFor pairs rows.now self.new) }
        ensures stops { result ≡ Ok false → (pairs : List (ℕ × ℕ)) → IsOpenFor pairs rows.now self.old → first_open_of pairs (untried_by self.old (joined ((leaf ∷ []) ∷ []) (paths_via self.old rest))) ≡ first_open_of pairs (choice_paths self.old) }
        ensures kept { result ≡ Ok false → self.new ≡ self.old }
    {
        if self.prefix.meets(leaf, &rows[leaf as usize]) {
            return Ok(false);
        }
        self.prefix.push(leaf)?;
        self.at = rest;
        Ok(true)
    }

    /// Goes on through the first of two parts, and leaves the second as a choice.
    fn choose(
        &mut self,
        first: &'m Matrix,
        second: &'m Matrix,
        rest: usize,
    ) -> Result<(), AllocError>
        requires walk { IsWalk self.old }
        requires first { IsNumberedTo (length self.old.prefix.counts.items - 1) first.now }
        requires second { IsNumberedTo (length self.old.prefix.counts.items - 1) second.now }
        requires rest { rest ≤ length self.old.tasks.items }
        ensures walk { OnOk result (IsWalk self.new) }
        ensures prefix { self.new.prefix ≡ self.old.prefix }
        ensures paths { OnOk result (untried self.new ≡ untried_by self.old (joined (matrix_paths first.now ++ matrix_paths second.now) (paths_via self.old rest))) }
        ensures steps { OnOk result (steps_ahead self.new ≡ steps first.now (steps_via self.old rest) + (steps second.now (steps_via self.old rest) + choice_steps self.old)) }
    {
        self.put(second, rest)?;
        self.leave()?;
        self.put(first, rest)
    }

    /// Goes on through both of two parts.
    fn pass(&mut self, first: &'m Matrix, second: &'m Matrix, rest: usize) -> Result<(), AllocError>
        requires walk { IsWalk self.old }
        requires first { IsNumberedTo (length self.old.prefix.counts.items - 1) first.now }
        requires second { IsNumberedTo (length self.old.prefix.counts.items - 1) second.now }
        requires rest { rest ≤ length self.old.tasks.items }
        ensures walk { OnOk result (IsWalk self.new) }
        ensures prefix { self.new.prefix ≡ self.old.prefix }
        ensures paths { OnOk result (untried self.new ≡ untried_by self.old (joined (joined (matrix_paths first.now) (matrix_paths second.now)) (paths_via self.old rest))) }
        ensures steps { OnOk result (steps_ahead self.new ≡ steps first.now (steps second.now (steps_via self.old rest)) + choice_steps self.old) }
    {
        self.put(second, rest)?;
        let rest = self.at;
        self.put(first, rest)
    }

    /// The task that comes next.
    fn next(&self) -> Task<'m>
        requires walk { IsWalk self.now }
        requires more { 0 < self.now.at }
        ensures numbers { IsNumberedTo (length self.now.prefix.counts.items - 1) result.matrix.now }
        ensures rest { result.rest ≤ length self.now.tasks.items }
        ensures paths { untried self.now ≡ untried_by self.now (joined (matrix_paths result.matrix.now) (paths_via self.now result.rest)) }
        ensures steps { steps_ahead self.now ≡ steps result.matrix.now (steps_via self.now result.rest) + choice_steps self.now }
    {
        self.tasks[self.at - 1]
    }

    /// Goes on through the next matrix, where a path through it may be open with what was walked.
    fn step(&mut self, rows: &[Vec<u64>]) -> Result<bool, AllocError>
        requires walk { IsWalk self.old }
        requires rows { length rows.now ≡ length self.old.prefix.counts.items }
        requires more { 0 < self.old.at }
        ensures walk { OnOk result (IsWalk self.new) }
        ensures bound { OnOk result (length self.new.prefix.counts.items ≡ length self.old.prefix.counts.items) }
        ensures open { (pairs : List (ℕ × ℕ)) → IsOpenFor pairs rows.now self.old → OnOk result (IsOpenFor pairs rows.now self.new) }
        ensures goes_on { result ≡ Ok true → untried self.new ≡ untried self.old }
        ensures fewer { result ≡ Ok true → steps_ahead self.new < steps_ahead self.old }
        ensures stops { result ≡ Ok false → (pairs : List (ℕ × ℕ)) → IsOpenFor pairs rows.now self.old → first_open_of pairs (untried self.old) ≡ first_open_of pairs (choice_paths self.new) }
        ensures stops_fewer { result ≡ Ok false → choice_steps self.new < steps_ahead self.old }
    {
        let Task { matrix, rest } = self.next();
        match matrix {
            Matrix::Leaf(leaf) => self.enter(*leaf, rest, rows),
            Matrix::Closed => Ok(false),
            Matrix::Empty => {
                self.at = rest;
                Ok(true)
            }
            Matrix::Beside(first, second) => {
                self.choose(first, second, rest)?;
                Ok(true)
            }
            Matrix::Above(first, second) => {
                self.pass(first, second, rest)?;
                Ok(true)
            }
        }
    }
}

/// The first path of the matrix, whose leaves have numbers from 1 to `leaf_count`, that holds none of the pairs; `None` where each path
/// holds one. The walk is a loop, since one path can have as many leaves as the matrix, and each leaf costs as many steps as it has
/// partners.
pub fn first_open_path(
    alloc: Global,
    matrix: &Matrix,
    leaf_count: u64,
    pairs: &[(u64, u64)],
) -> Result<Option<Vec<u64>>, AllocError>
    requires { IsNumberedTo leaf_count matrix.now }
    ensures { IfOk result (λ path. option_map (λ (leaves : Vec ℕ Global). leaves.items) path ≡ first_open_of pairs.now (matrix_paths matrix.now)) }
{
    let bound = (leaf_count as usize).checked_add(1).ok_or(AllocError)?;
    let rows = partner_rows(alloc, bound, pairs)?;
    let mut walk = Walk::new(alloc, matrix, bound)?;
    while walk.at > 0 {
        if !walk.step(&rows)? && !walk.back() {
            return Ok(None);
        }
    }
    Ok(Some(walk.prefix.leaves))
}
