//! Lists of hypotheses.

ghost use Rattle.std.specs.Prelude.{◌≡◌, ◌∷◌, ◌++◌, [], IfOk};
ghost use Rattle.hol_terms.specs.Lists.{IsAboveLast};

use hol_terms::lists::Hyps;
use std::alloc::{AllocError, Global};

/// Equal hypotheses.
pub fn copied(alloc: Global, hyps: &Hyps) -> Result<Hyps, AllocError>
    ensures { IfOk result (λ copy. copy ≡ hyps.now) }
{
    let mut copy = Hyps::new(alloc);
    for n in hyps.as_slice() {
        copy.push(*n)?;
    }
    Ok(copy)
}

/// The hypotheses with one more, whose number is above them.
pub fn with_one(alloc: Global, hyps: &Hyps, number: u64) -> Result<Hyps, AllocError>
    requires { IsAboveLast hyps.now number }
    ensures { IfOk result (λ more. more ≡ hyps.now ++ number ∷ []) }
{
    let mut more = copied(alloc, hyps)?;
    more.push(number)?;
    Ok(more)
}
