//! Types that are to be the same are made the same.

ghost use Rattle.std.specs.Prelude.{◌≡◌, ◌+◌, ◌<◌, ◌≤◌, ◌++◌, ◌∷◌, [], IfOk, OnOk, length, set, true, false, ℕ};
ghost use Rattle.hol_terms.specs.Terms.{SimpleType};
ghost use Rattle.type_infer.specs.declared.cells.Cell.TheVariants.{Same};
ghost use Rattle.type_infer.specs.Cells.{IsStore, Models, cell_at};
ghost use Rattle.type_infer.specs.Merging.{AllSame, AreBelow, Halves, IsRoot, LeadsTo, Merges, StandsFor, kept_cell, part_pairs, weight};

use crate::cells::Cell;
use std::alloc::AllocError;

/// Cell `i`.
pub fn cell(cells: &[Cell], i: u64) -> Cell
    requires { i < length cells.now }
    ensures { result ≡ cell_at cells.now i }
{
    cells[i as usize]
}

/// Cell `i` is another one from now on.
fn put(cells: &mut Vec<Cell>, i: u64, cell: Cell)
    requires { i < length cells.old.items }
    ensures { cells.new.items ≡ set cells.old.items i cell }
{
    cells[i as usize] = cell;
}

/// A number that is the same as the next one leads on to the one after it from now on, where there is one; the answer is where it
/// leads to.
#[tactic(auto, using(crate::proofs::Merges::halves_itself, crate::proofs::Merges::halves_step, crate::proofs::Merges::leads_next, crate::proofs::Merges::leads_after, crate::proofs::Merges::next_below))]
fn halve(cells: &mut Vec<Cell>, i: u64, next: u64) -> u64
    requires store { IsStore cells.old.items }
    requires inside { i < length cells.old.items }
    requires same { Same next ≡ cell_at cells.old.items i }
    ensures halves { Halves cells.old.items cells.new.items }
    ensures leads { LeadsTo cells.old.items i result }
{
    let Cell::Same(after) = cell(cells, next) else {
        return next;
    };
    put(cells, i, Cell::Same(after));
    after
}

/// The number that stands for this one. The ways to it get shorter.
#[tactic(auto, using(crate::proofs::Merges::halves_itself, crate::proofs::Merges::halves_twice, crate::proofs::Merges::same_on, crate::proofs::Merges::inside_on, crate::proofs::Merges::stands_for_itself))]
fn root(cells: &mut Vec<Cell>, start: u64) -> u64
    requires store { IsStore cells.old.items }
    requires inside { start < length cells.old.items }
    ensures halves { Halves cells.old.items cells.new.items }
    ensures stands { StandsFor cells.new.items start result }
{
    let mut i = start;
    while let Cell::Same(next) = cell(cells, i) {
        i = halve(cells, i, next);
    }
    i
}

/// What two cells of one type say together; `None` where they can't be of one type.
fn kept(first: Cell, second: Cell) -> Option<Cell>
    requires first { IsRoot first }
    requires second { IsRoot second }
    ensures { result ≡ kept_cell first second }
{
    match (first, second) {
        (Cell::Open, other) => Some(other),
        (other, Cell::Open) => Some(other),
        (Cell::Base(letter), Cell::Base(other)) => {
            if letter.byte() == other.byte() {
                Some(Cell::Base(letter))
            } else {
                None
            }
        }
        (Cell::Function(result_type, argument), Cell::Function(_, _)) => {
            Some(Cell::Function(result_type, argument))
        }
        _ => None,
    }
}

/// The parts of two cells that are then to be the same.
fn push_parts(pending: &mut Vec<(u64, u64)>, first: Cell, second: Cell) -> Result<(), AllocError>
    ensures { OnOk result (pending.new.items ≡ pending.old.items ++ part_pairs first second) }
{
    if let (Cell::Function(result_type, argument), Cell::Function(other_result, other_argument)) = (
        first, second,
    ) {
        pending.push((result_type, other_result))?;
        pending.push((argument, other_argument))?;
    }
    Ok(())
}

/// The higher number gets the cell of the lower one, with what both say; `false` where they can't have one type.
#[tactic(auto, using(crate::proofs::Merges::merges_linked, crate::proofs::Merges::joined_apart, crate::proofs::Merges::lighter_linked))]
fn join(
    cells: &mut Vec<Cell>,
    pending: &mut Vec<(u64, u64)>,
    low: u64,
    high: u64,
) -> Result<bool, AllocError>
    requires store { IsStore cells.old.items }
    requires below { AreBelow (length cells.old.items) pending.old.items }
    requires order { low < high }
    requires inside { high < length cells.old.items }
    requires low { IsRoot (cell_at cells.old.items low) }
    requires high { IsRoot (cell_at cells.old.items high) }
    ensures merged { IfOk result (λ b. b ≡ true → Merges cells.old.items cells.new.items ((low, high) ∷ pending.old.items) pending.new.items) }
    ensures lighter { IfOk result (λ b. b ≡ true → weight cells.new.items pending.new.items ≤ weight cells.old.items pending.old.items) }
    ensures apart { IfOk result (λ b. b ≡ false → (types : ℕ → SimpleType) → Models types cells.old.items → types low ≡ types high → ⊥) }
{
    let first = cell(cells, low);
    let second = cell(cells, high);
    let Some(both) = kept(first, second) else {
        return Ok(false);
    };
    push_parts(pending, first, second)?;
    put(cells, low, both);
    put(cells, high, Cell::Same(low));
    Ok(true)
}

/// Two numbers that stand for others become the same; `false` where they can't have one type.
#[tactic(auto, using(crate::proofs::Merges::merges_itself, crate::proofs::Merges::merges_turned))]
fn join_roots(
    cells: &mut Vec<Cell>,
    pending: &mut Vec<(u64, u64)>,
    first: u64,
    second: u64,
) -> Result<bool, AllocError>
    requires store { IsStore cells.old.items }
    requires below { AreBelow (length cells.old.items) pending.old.items }
    requires first_inside { first < length cells.old.items }
    requires second_inside { second < length cells.old.items }
    requires first_root { IsRoot (cell_at cells.old.items first) }
    requires second_root { IsRoot (cell_at cells.old.items second) }
    ensures merged { IfOk result (λ b. b ≡ true → Merges cells.old.items cells.new.items ((first, second) ∷ pending.old.items) pending.new.items) }
    ensures lighter { IfOk result (λ b. b ≡ true → weight cells.new.items pending.new.items ≤ weight cells.old.items pending.old.items) }
    ensures apart { IfOk result (λ b. b ≡ false → (types : ℕ → SimpleType) → Models types cells.old.items → types first ≡ types second → ⊥) }
{
    if first == second {
        return Ok(true);
    }
    if first < second {
        return join(cells, pending, first, second);
    }
    join(cells, pending, second, first)
}

/// Two numbers become the same; `false` where they can't have one type.
fn join_pair(
    cells: &mut Vec<Cell>,
    pending: &mut Vec<(u64, u64)>,
    first: u64,
    second: u64,
) -> Result<bool, AllocError>
    requires store { IsStore cells.old.items }
    requires below { AreBelow (length cells.old.items) pending.old.items }
    requires first_inside { first < length cells.old.items }
    requires second_inside { second < length cells.old.items }
    ensures merged { IfOk result (λ b. b ≡ true → Merges cells.old.items cells.new.items ((first, second) ∷ pending.old.items) pending.new.items) }
    ensures lighter { IfOk result (λ b. b ≡ true → weight cells.new.items pending.new.items ≤ weight cells.old.items pending.old.items) }
    ensures apart { IfOk result (λ b. b ≡ false → (types : ℕ → SimpleType) → Models types cells.old.items → types first ≡ types second → ⊥) }
{
    let first_root = root(cells, first);
    let second_root = root(cells, second);
    let joined = join_roots(cells, pending, first_root, second_root)?;
    Ok(joined)
}

/// The numbers of each pair become the same; `false` where they can't have one type. Types that contain themselves aren't found.
#[tactic(auto, using(crate::proofs::Merges::merges_nothing, crate::proofs::Merges::apart_on))]
pub fn merge(cells: &mut Vec<Cell>, pending: &mut Vec<(u64, u64)>) -> Result<bool, AllocError>
    requires store { IsStore cells.old.items }
    requires below { AreBelow (length cells.old.items) pending.old.items }
    ensures merged { IfOk result (λ b. b ≡ true → Merges cells.old.items cells.new.items pending.old.items []) }
    ensures apart { IfOk result (λ b. b ≡ false → (types : ℕ → SimpleType) → Models types cells.old.items → AllSame types pending.old.items → ⊥) }
{
    while let Some((first, second)) = pending.pop() {
        if !join_pair(cells, pending, first, second)? {
            return Ok(false);
        }
    }
    Ok(true)
}
