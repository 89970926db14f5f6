//! Conditions are solved, and the first one that can't be met is found.

ghost use Rattle.std.specs.Prelude.{◌≡◌, IfOk, MatchOption, map, true, false};
ghost use Rattle.type_infer.specs.Conditions.{CanBeMet, IsFirstUnmet};
ghost use Rattle.type_infer.specs.Equations.{plain_condition};
ghost use Rattle.type_infer.specs.Loading.{AreWithin};
ghost use Rattle.type_infer.specs.Solutions.{Solves};

use crate::conditions::Condition;
use crate::loading::load;
use crate::merging::merge;
use crate::ordering::{Ordered, order};
use std::alloc::{AllocError, Global};

/// The shapes of the types that meet the conditions, which speak of as many numbers; `None` where no types do.
#[tactic(auto, using(crate::proofs::Solved::solved_apart, crate::proofs::Solved::solved_endless, crate::proofs::Solved::solved))]
pub fn solve(
    alloc: Global,
    conditions: &[Condition<'_>],
    count: u64,
) -> Result<Option<Ordered>, AllocError>
    requires { AreWithin count (map plain_condition conditions.now) }
    ensures { IfOk result (λ s. MatchOption s (CanBeMet (map plain_condition conditions.now) → ⊥) (λ o. Solves count (map plain_condition conditions.now) o.marks.items o.shapes.items)) }
{
    let mut state = load(alloc, conditions, count)?;
    if !merge(&mut state.cells, &mut state.pending)? {
        return Ok(None);
    }
    match order(alloc, &state.cells)? {
        None => Ok(None),
        Some(ordered) => Ok(Some(ordered)),
    }
}

/// Whether some types meet the conditions.
#[tactic(auto, using(crate::proofs::Solved::solved_can_be_met))]
fn can_be_met(alloc: Global, conditions: &[Condition<'_>], count: u64) -> Result<bool, AllocError>
    requires { AreWithin count (map plain_condition conditions.now) }
    ensures met { IfOk result (λ b. b ≡ true → CanBeMet (map plain_condition conditions.now)) }
    ensures unmet { IfOk result (λ b. b ≡ false → CanBeMet (map plain_condition conditions.now) → ⊥) }
{
    let Some(_solution) = solve(alloc, conditions, count)? else {
        return Ok(false);
    };
    Ok(true)
}

/// The place of the first condition that can't be met together with those before it, by halving.
pub fn first_unmet(
    alloc: Global,
    conditions: &[Condition<'_>],
    count: u64,
) -> Result<u64, AllocError>
    requires within { AreWithin count (map plain_condition conditions.now) }
    requires unmet { CanBeMet (map plain_condition conditions.now) → ⊥ }
    ensures { IfOk result (λ place. IsFirstUnmet (map plain_condition conditions.now) place) }
{
    let mut met = 0;
    let mut unmet = conditions.len();
    while unmet - met > 1 {
        let middle = met + (unmet - met) / 2;
        if can_be_met(alloc, &conditions[..middle], count)? {
            met = middle;
        } else {
            unmet = middle;
        }
    }
    Ok(conditions[met].place)
}
