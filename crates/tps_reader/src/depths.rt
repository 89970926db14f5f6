//! Counts how deep groups stand in each other.

ghost use Rattle.std.specs.Prelude.{◌≡◌, IfOk, OnOk, ◌+◌, ◌∷◌};
ghost use Rattle.tps_reader.specs.Depth.{before_parts, depth_of, part, first_depth, with_opening, with_own};
ghost use Rattle.tps_reader.specs.Views.{plain_counts, plain_sign, plain_tokens};

use crate::lexemes::{Lexeme, Symbol};
use std::alloc::{AllocError, Global};

/// A part of a group: how many tokens it has that stand in no group inside it, and the greatest depth of a group directly inside it.
#[derive(Clone, Copy)]
pub struct Count {
    own: u64,
    inside: u64,
}

/// The sum, which stays below the number of bytes of a text.
fn add(a: u64, b: u64) -> Result<u64, AllocError>
    ensures { IfOk result (λ sum. sum ≡ a + b) }
{
    a.checked_add(b).ok_or(AllocError)
}

/// One token more before the part that begins first.
fn count_own(counts: &mut Vec<Count>) -> Result<(), AllocError>
    ensures { OnOk result (plain_counts counts.new.items ≡ with_own (plain_counts counts.old.items)) }
{
    if let Some(Count { own, inside }) = counts.pop() {
        let own = add(own, 1)?;
        counts.push(Count { own, inside })?;
    }
    Ok(())
}

/// The part that begins first is a whole group, with its opening bracket before it.
fn count_opening(counts: &mut Vec<Count>) -> Result<(), AllocError>
    ensures { OnOk result (plain_counts counts.new.items ≡ with_opening (plain_counts counts.old.items)) }
{
    let Some(group) = counts.pop() else {
        return Ok(());
    };
    let depth = add(group.own, group.inside)?;
    let around = match counts.pop() {
        Some(Count { own, inside }) => Count {
            own: add(own, 1)?,
            inside: inside.max(depth),
        },
        None => Count {
            own: 1,
            inside: depth,
        },
    };
    counts.push(around)?;
    Ok(())
}

/// A closing bracket stands in the part that begins first, and before it a new part ends.
fn count_closing(counts: &mut Vec<Count>) -> Result<(), AllocError>
    ensures { OnOk result (plain_counts counts.new.items ≡ part 0 0 ∷ with_own (plain_counts counts.old.items)) }
{
    count_own(counts)?;
    counts.push(Count { own: 0, inside: 0 })?;
    Ok(())
}

/// One token more before the parts.
fn count_symbol(counts: &mut Vec<Count>, symbol: &Symbol) -> Result<(), AllocError>
    ensures { OnOk result (plain_counts counts.new.items ≡ before_parts (plain_sign symbol.now) (plain_counts counts.old.items)) }
{
    match symbol {
        Symbol::OpenSquare => count_opening(counts),
        Symbol::CloseSquare => count_closing(counts),
        _ => count_own(counts),
    }
}

/// The depth of the part that begins first.
fn first_depth(counts: &mut Vec<Count>) -> Result<u64, AllocError>
    ensures { IfOk result (λ depth. depth ≡ first_depth (plain_counts counts.old.items)) }
{
    match counts.pop() {
        Some(count) => add(count.own, count.inside),
        None => Ok(0),
    }
}

/// The depth of the tokens.
pub fn depth_of(alloc: Global, lexemes: &[Lexeme]) -> Result<u64, AllocError>
    ensures { IfOk result (λ depth. depth ≡ depth_of (plain_tokens lexemes.now)) }
{
    let mut counts = Vec::new(alloc);
    counts.push(Count { own: 0, inside: 0 })?;
    let mut at = lexemes.len();
    while at > 0 {
        at -= 1;
        count_symbol(&mut counts, &lexemes[at].symbol)?;
    }
    first_depth(&mut counts)
}
