//! Types as numbered cells, which share their parts.

ghost use Rattle.std.specs.Prelude.{◌≡◌, ◌++◌, ◌∷◌, [], IfOk, OnOk, length};
ghost use Rattle.hol_terms.specs.Terms.{plain_type};
ghost use Rattle.type_infer.specs.Cells.{AddsType, IsStore};

use hol_terms::letters::Letter;
use hol_terms::types::Ty;
use std::alloc::AllocError;

/// What is known of the type of a number: nothing, that it is the type of another number, a base letter, or the type of the
/// functions to the type of the first number from that of the second.
#[derive(Clone, Copy)]
pub enum Cell {
    Open,
    Same(u64),
    Base(Letter),
    Function(u64, u64),
}

/// The cell is put after the others; the answer is its number.
pub fn push(cells: &mut Vec<Cell>, cell: Cell) -> Result<u64, AllocError>
    ensures number { IfOk result (λ i. i ≡ length cells.old.items) }
    ensures cells { OnOk result (cells.new.items ≡ cells.old.items ++ cell ∷ []) }
{
    let number = cells.len() as u64;
    cells.push(cell)?;
    Ok(number)
}

/// Cells for a type and its parts are put after the others; the answer is the number of the whole.
#[tactic(auto, using(crate::proofs::Stores::adds_base, crate::proofs::Stores::adds_function, crate::proofs::Stores::adds_store))]
pub fn add_type(cells: &mut Vec<Cell>, ty: &Ty) -> Result<u64, AllocError>
    requires { IsStore cells.old.items }
    ensures { IfOk result (λ i. AddsType cells.old.items cells.new.items (plain_type ty.now) i) }
{
    match ty {
        Ty::Base(letter) => push(cells, Cell::Base(*letter)),
        Ty::Fun(result_type, argument) => {
            let result_type = add_type(cells, result_type)?;
            let argument = add_type(cells, argument)?;
            let number = push(cells, Cell::Function(result_type, argument))?;
            Ok(number)
        }
    }
}
