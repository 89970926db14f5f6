//! With which leaves the pairs of a mating join each leaf.

ghost use Rattle.std.specs.Prelude.{◌≡◌, ◌<◌, ◌==◌, ◌++◌, ◌∷◌, ℕ, IfOk, OnOk, length, slice_index_or, [], if◌then◌else◌};
ghost use Rattle.vertical_paths.specs.Partners.{ArePartnerRows, row_lists};

use std::alloc::{AllocError, Global};

/// At each number below `bound` the partners of that leaf.
pub fn partner_rows(
    alloc: Global,
    bound: usize,
    pairs: &[(u64, u64)],
) -> Result<Vec<Vec<u64>>, AllocError>
    ensures { IfOk result (λ rows. ArePartnerRows bound pairs.now rows.items) }
{
    let mut rows = empty_rows(alloc, bound)?;
    for pair in pairs {
        put(&mut rows, pair.0, pair.1)?;
        put(&mut rows, pair.1, pair.0)?;
    }
    Ok(rows)
}

/// This many rows without a partner.
fn empty_rows(alloc: Global, bound: usize) -> Result<Vec<Vec<u64>>, AllocError>
    ensures bound { IfOk result (λ rows. length rows.items ≡ bound) }
    ensures rows { IfOk result (λ rows. (leaf : ℕ) → slice_index_or (row_lists rows.items) leaf [] ≡ []) }
{
    let mut rows = Vec::with_capacity(alloc, bound)?;
    for _ in 0..bound {
        rows.push(Vec::new(alloc))?;
    }
    Ok(rows)
}

/// Puts a partner after the others of the leaf, where it has a row.
fn put(rows: &mut Vec<Vec<u64>>, leaf: u64, partner: u64) -> Result<(), AllocError>
    ensures bound { length rows.new.items ≡ length rows.old.items }
    ensures row { OnOk result ((n : ℕ) → n < length rows.old.items → slice_index_or (row_lists rows.new.items) n [] ≡ slice_index_or (row_lists rows.old.items) n [] ++ (if leaf == n then partner ∷ [] else [])) }
{
    if let Some(row) = rows.get_mut(leaf as usize) {
        row.push(partner)?;
    }
    Ok(())
}
