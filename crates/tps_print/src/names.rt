//! The names of bound variables.

ghost use Rattle.std.specs.Prelude.{◌≡◌, ◌↔◌, ◌+◌, ◌<◌, ◌^◌, ◌∷◌, [], IfOk, IsTrue, OnOk, decimal, encode_utf8_all, length, map};
ghost use Rattle.std.specs.HashSet.{contains_text};
ghost use Rattle.std.specs.Option.{option_map};
ghost use Rattle.std.specs.String.{string_bytes};
ghost use Rattle.hol_terms.specs.Names.{IsName};
ghost use Rattle.hol_terms.specs.Terms.{plain_term};
ghost use Rattle.core_text.specs.CoreForms.{HasNames};
ghost use Rattle.tps_print.specs.BoundNames.{TakesNames, binder_depth as depth_of_binders, free_names, names_outside, numbered_name as name_of_number};
ghost use Rattle.tps_print.specs.Printed.{names_beside as names_of_both};

use hol_terms::names::Name;
use hol_terms::terms::Tm;
use std::alloc::{AllocError, Global};
use std::collections::HashSet;

/// The sum, where it has 64 bits; no memory holds more than that.
fn sum(a: u64, b: u64) -> Result<u64, AllocError>
    ensures sum { IfOk result (λ n. n ≡ a + b) }
    ensures fits { IfOk result (λ n. n < 2 ^ 64) }
{
    match a.checked_add(b) {
        Some(n) => Ok(n),
        None => Err(AllocError),
    }
}

/// The name as a text.
fn text_of(alloc: Global, name: &Name) -> Result<String, AllocError>
    ensures text { IfOk result (λ text. string_bytes text ≡ encode_utf8_all name.now) }
    ensures named { IfOk result (λ _. IsName name.now) }
{
    let text: String = name.characters().iter().copied().collect(alloc)?;
    Ok(text)
}

/// Puts the name into the set.
fn take_name(alloc: Global, taken: &mut HashSet<String>, name: &Name) -> Result<(), AllocError>
    ensures taken { OnOk result (TakesNames taken.old taken.new (name.now ∷ [])) }
    ensures named { IfOk result (λ _. IsName name.now) }
{
    let text = text_of(alloc, name)?;
    taken.insert(text)?;
    Ok(())
}

/// Puts the names of the free variables of the term into the set, and answers how many occurrences they have.
#[tactic(auto, using(crate::proofs::Taken::takes_none, crate::proofs::Taken::takes_application, core_text::proofs::Letters::type_letters, core_text::proofs::Letters::constant_letters))]
fn take_names(alloc: Global, taken: &mut HashSet<String>, t: &Tm) -> Result<u64, AllocError>
    ensures names { OnOk result (TakesNames taken.old taken.new (free_names (plain_term t.now))) }
    ensures named { IfOk result (λ _. HasNames (plain_term t.now)) }
    ensures count { IfOk result (λ count. count ≡ length (free_names (plain_term t.now))) }
{
    match t {
        Tm::Free(name, _) => {
            take_name(alloc, taken, name)?;
            Ok(1)
        }
        Tm::Bound(_) => Ok(0),
        Tm::Con(_) => Ok(0),
        Tm::App(function, argument) => {
            let first = take_names(alloc, taken, function)?;
            let second = take_names(alloc, taken, argument)?;
            sum(first, second)
        }
        Tm::Lam(_, body) => take_names(alloc, taken, body),
    }
}

/// How many binders stand inside each other at most.
fn binder_depth(t: &Tm) -> Result<u64, AllocError>
    ensures { IfOk result (λ depth. depth ≡ depth_of_binders (plain_term t.now)) }
{
    match t {
        Tm::Free(_, _) => Ok(0),
        Tm::Bound(_) => Ok(0),
        Tm::Con(_) => Ok(0),
        Tm::App(function, argument) => {
            let first = binder_depth(function)?;
            let second = binder_depth(argument)?;
            Ok(first.max(second))
        }
        Tm::Lam(_, body) => {
            let inside = binder_depth(body)?;
            sum(inside, 1)
        }
    }
}

/// The letter x and the number in decimal.
fn numbered_name(alloc: Global, number: u64) -> Result<String, AllocError>
    ensures { IfOk result (λ name. string_bytes name ≡ name_of_number number) }
{
    format!(in alloc; "x{number}")
}

/// The names from x1 to the one with the last number, without those of the set.
fn names_outside_of(
    alloc: Global,
    taken: &HashSet<String>,
    last: u64,
) -> Result<Vec<String>, AllocError>
    ensures { IfOk result (λ names. map string_bytes names.items ≡ names_outside taken.now last) }
{
    let mut names = Vec::new(alloc);
    for before in 0..last {
        let name = numbered_name(alloc, before + 1)?;
        if !taken.contains(name.as_str()) {
            names.push(name)?;
        }
    }
    Ok(names)
}

/// The names of the binders of a term, and of another that is printed beside it: that of the outermost one first, and maybe more than
/// there are binders.
pub(crate) fn names_beside(
    alloc: Global,
    t: &Tm,
    other: Option<&Tm>,
) -> Result<Vec<String>, AllocError>
    ensures names { IfOk result (λ names. map string_bytes names.items ≡ names_of_both (plain_term t.now) (option_map (λ u. plain_term u.now) other.entry)) }
    ensures named { IfOk result (λ _. HasNames (plain_term t.now)) }
    ensures few { IfOk result (λ _. depth_of_binders (plain_term t.now) + length (free_names (plain_term t.now)) < 2 ^ 64) }
{
    let mut taken = HashSet::new(alloc);
    let count = take_names(alloc, &mut taken, t)?;
    let depth = binder_depth(t)?;
    match other {
        None => {
            let last = sum(depth, count)?;
            names_outside_of(alloc, &taken, last)
        }
        Some(other) => {
            let count = sum(count, take_names(alloc, &mut taken, other)?)?;
            let depth = depth.max(binder_depth(other)?);
            let last = sum(depth, count)?;
            names_outside_of(alloc, &taken, last)
        }
    }
}
