//! Matings read from forms.

ghost use Rattle.std.specs.Prelude.{◌≡◌, ℕ};
ghost use Rattle.core_text.specs.Placed.{placed, placed_all};
ghost use Rattle.core_text.specs.Reading.{Gives};
ghost use Rattle.proof_text.specs.Reading.{mating_at, pair_at, pairs_at};

use core_text::faults::TextFault;
use core_text::sexps::{Sexp, Sexps};
use core_text::terms::read_number;
use expansion_tree::matings::Mating;
use std::alloc::Global;

/// The pair of numbers of a form.
fn read_pair(form: &Sexp) -> Result<(u64, u64), TextFault>
    ensures { Gives (λ pair. pair) result (pair_at (placed form.now)) }
{
    let Sexp::List(all, place) = form else {
        return Err(TextFault::BadForm(form.place()));
    };
    let Sexps::More(first, rest) = all else {
        return Err(TextFault::BadForm(*place));
    };
    let Sexps::More(second, rest) = &**rest else {
        return Err(TextFault::BadForm(*place));
    };
    let Sexps::End = &**rest else {
        return Err(TextFault::BadForm(*place));
    };
    let i = read_number(first)?;
    let j = read_number(second)?;
    Ok((i, j))
}

/// The pairs of the members of a list.
fn read_pairs(alloc: Global, members: &Sexps) -> Result<Mating, TextFault>
    ensures { Gives (λ mating. mating) result (pairs_at (placed_all members.now)) }
{
    let mut mating = Mating::new(alloc);
    let mut rest = members;
    while let Sexps::More(form, more) = rest {
        let (i, j) = match read_pair(form) {
            Ok(pair) => pair,
            Err(fault) => return Err(fault),
        };
        mating.push(i, j)?;
        rest = &**more;
    }
    Ok(mating)
}

/// Reads a mating. `BadForm` has the place of the first form, a list before its members, that has no place in the table.
pub fn read_mating(alloc: Global, form: &Sexp) -> Result<Mating, TextFault>
    ensures { Gives (λ mating. mating) result (mating_at (placed form.now)) }
{
    match form {
        Sexp::List(members, _) => read_pairs(alloc, members),
        _ => Err(TextFault::BadForm(form.place())),
    }
}
