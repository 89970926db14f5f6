//! Types that contain themselves are found, and the others are put into an order in which parts come before wholes.

ghost use Rattle.std.specs.Prelude.{◌≡◌, ◌<◌, [], IfOk, OnOk, MatchOption, length, replicate, set, true, false, ℕ};
ghost use Rattle.hol_terms.specs.Terms.{SimpleType};
ghost use Rattle.type_infer.specs.Cells.{IsStore, Models, cell_at};
ghost use Rattle.type_infer.specs.declared.ordering.Mark.TheVariants.{New};
ghost use Rattle.type_infer.specs.Ordering.{ArePartsDone, Finishes, GoesOn, IsDone, IsOrdered, IsPart, IsPath, IsWaiting, Orders, mark_at, number_of, shape_of, ArePartsInside};

use crate::cells::{Cell, push};
use crate::merging::cell;
use std::alloc::{AllocError, Global};

/// Where a cell stands: not looked at yet, waiting for a part, or done, with the number of its shape.
#[derive(Clone, Copy)]
pub enum Mark {
    New,
    Waiting,
    Done(u64),
}

/// The mark of cell `i`.
pub fn mark_of(marks: &[Mark], i: u64) -> Mark
    requires { i < length marks.now }
    ensures { result ≡ mark_at marks.now i }
{
    marks[i as usize]
}

/// Cell `i` gets another mark.
fn set_mark(marks: &mut Vec<Mark>, i: u64, mark: Mark)
    requires { i < length marks.old.items }
    ensures { marks.new.items ≡ set marks.old.items i mark }
{
    marks[i as usize] = mark;
}

/// Whether cell `i` is done.
fn is_done(marks: &[Mark], i: u64) -> bool
    requires { i < length marks.now }
    ensures done { result ≡ true → IsDone (mark_at marks.now i) }
    ensures other { result ≡ false → IsDone (mark_at marks.now i) → ⊥ }
{
    match mark_of(marks, i) {
        Mark::Done(_) => true,
        _ => false,
    }
}

/// Whether cell `i` waits for a part.
fn is_waiting(marks: &[Mark], i: u64) -> bool
    requires { i < length marks.now }
    ensures waits { result ≡ true → IsWaiting (mark_at marks.now i) }
    ensures other { result ≡ false → IsWaiting (mark_at marks.now i) → ⊥ }
{
    match mark_of(marks, i) {
        Mark::Waiting => true,
        _ => false,
    }
}

/// A part of the cell that isn't done; `None` where all are.
fn unfinished(cells: &[Cell], marks: &[Mark], i: u64) -> Option<u64>
    requires store { IsStore cells.now }
    requires as_long { length marks.now ≡ length cells.now }
    requires inside { i < length cells.now }
    ensures { MatchOption result (ArePartsDone marks.now (cell_at cells.now i)) (λ j. IsPart j (cell_at cells.now i) × (IsDone (mark_at marks.now j) → ⊥) × (j < length cells.now)) }
{
    match cell(cells, i) {
        Cell::Open | Cell::Base(_) => None,
        Cell::Same(j) => { if is_done(marks, j) { None } else { Some(j) } }
        Cell::Function(j, k) => {
            if !is_done(marks, j) {
                Some(j)
            } else if !is_done(marks, k) {
                Some(k)
            } else {
                None
            }
        }
    }
}

/// The number of the shape of a cell that is done, and 0 of another one.
pub fn number(marks: &[Mark], i: u64) -> u64
    requires { i < length marks.now }
    ensures { result ≡ number_of (mark_at marks.now i) }
{
    match mark_of(marks, i) {
        Mark::Done(number) => number,
        _ => 0,
    }
}

/// The shape of a cell whose parts are done, by their numbers.
fn shape(marks: &[Mark], cell: Cell) -> Cell
    requires { ArePartsInside (length marks.now) cell }
    ensures { result ≡ shape_of marks.now cell }
{
    match cell {
        Cell::Function(j, k) => Cell::Function(number(marks, j), number(marks, k)),
        other => other,
    }
}

/// A cell whose parts are done gets its shape.
#[tactic(auto, using(crate::proofs::Orders::ordered_same, crate::proofs::Orders::ordered_new))]
fn finish(
    cells: &[Cell],
    marks: &mut Vec<Mark>,
    shapes: &mut Vec<Cell>,
    i: u64,
) -> Result<(), AllocError>
    requires store { IsStore cells.now }
    requires ordered { IsOrdered cells.now marks.old.items shapes.old.items }
    requires inside { i < length cells.now }
    requires other { IsDone (mark_at marks.old.items i) → ⊥ }
    requires parts { ArePartsDone marks.old.items (cell_at cells.now i) }
    ensures ordered { OnOk result (IsOrdered cells.now marks.new.items shapes.new.items) }
    ensures finished { OnOk result (Finishes marks.old.items marks.new.items i) }
{
    let here = cell(cells, i);
    if let Cell::Same(j) = here {
        let same = number(marks, j);
        set_mark(marks, i, Mark::Done(same));
        return Ok(());
    }
    let shape = shape(marks, here);
    let number = push(shapes, shape)?;
    set_mark(marks, i, Mark::Done(number));
    Ok(())
}

/// The cell and the cells that it contains get their shapes; `false` where one contains itself.
fn order_from(
    alloc: Global,
    cells: &[Cell],
    marks: &mut Vec<Mark>,
    shapes: &mut Vec<Cell>,
    start: u64,
) -> Result<bool, AllocError>
    requires store { IsStore cells.now }
    requires ordered { IsOrdered cells.now marks.old.items shapes.old.items }
    requires path { IsPath cells.now marks.old.items [] }
    requires inside { start < length cells.now }
    requires other { IsDone (mark_at marks.old.items start) → ⊥ }
    ensures ordered { IfOk result (λ b. b ≡ true → IsOrdered cells.now marks.new.items shapes.new.items) }
    ensures path { IfOk result (λ b. b ≡ true → IsPath cells.now marks.new.items []) }
    ensures goes_on { IfOk result (λ b. b ≡ true → GoesOn marks.old.items marks.new.items start) }
    ensures none { IfOk result (λ b. b ≡ false → (types : ℕ → SimpleType) → Models types cells.now → ⊥) }
{
    set_mark(marks, start, Mark::Waiting);
    let mut path = Vec::new(alloc);
    path.push(start)?;
    while let Some(top) = path.pop() {
        let Some(part) = unfinished(cells, marks, top) else {
            finish(cells, marks, shapes, top)?;
            continue;
        };
        if is_waiting(marks, part) {
            return Ok(false);
        }
        set_mark(marks, part, Mark::Waiting);
        path.push(top)?;
        path.push(part)?;
    }
    Ok(true)
}

/// As many marks of cells that aren't looked at yet.
fn new_marks(alloc: Global, count: usize) -> Result<Vec<Mark>, AllocError>
    ensures { IfOk result (λ marks. marks.items ≡ replicate count New) }
{
    let mut marks = Vec::new(alloc);
    for _ in 0..count {
        marks.push(Mark::New)?;
    }
    Ok(marks)
}

/// Cells with their shapes: the mark of each cell, and the shapes, parts before wholes.
#[derive(Drop)]
pub struct Ordered {
    pub marks: Vec<Mark>,
    pub shapes: Vec<Cell>,
}

/// The shapes of all cells; `None` where a type would contain itself.
pub fn order(alloc: Global, cells: &[Cell]) -> Result<Option<Ordered>, AllocError>
    requires { IsStore cells.now }
    ensures { IfOk result (λ o. MatchOption o ((types : ℕ → SimpleType) → Models types cells.now → ⊥) (λ ordered. Orders cells.now ordered.marks.items ordered.shapes.items)) }
{
    let mut marks = new_marks(alloc, cells.len())?;
    let mut shapes = Vec::new(alloc);
    for start in 0..cells.len() as u64 {
        if !is_done(&marks, start) && !order_from(alloc, cells, &mut marks, &mut shapes, start)? {
            return Ok(None);
        }
    }
    Ok(Some(Ordered { marks, shapes }))
}
