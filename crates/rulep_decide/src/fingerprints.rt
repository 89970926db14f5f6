//! A number that is computed from a term, by which equal atoms are found.

ghost use Rattle.std.specs.Prelude.{◌≡◌, fold};
ghost use Rattle.hol_terms.specs.Terms.{plain_term};
ghost use Rattle.rulep_decide.specs.Fingerprints.{fingerprint_of, mixed};

use hol_terms::names::Name;
use hol_terms::terms::Tm;

fn mix(first: u64, second: u64) -> u64
    ensures { result ≡ mixed first second }
{
    (first % 4_294_967_296 * 65_599 + second % 4_294_967_296) % 4_294_967_296
}

fn fingerprint_of_name(name: &Name) -> u64
    ensures { result ≡ fold mixed 1 name.now }
{
    name.characters()
        .iter()
        .fold(1, |sum, c| mix(sum, u64::from(*c)))
}

/// Equal terms have equal numbers.
pub fn fingerprint(t: &Tm) -> u64
    ensures { result ≡ fingerprint_of (plain_term t.now) }
{
    match t {
        Tm::Free(name, _) => fingerprint_of_name(name),
        Tm::Bound(index) => mix(2, *index),
        Tm::Con(_) => 3,
        Tm::App(function, argument) => mix(mix(5, fingerprint(function)), fingerprint(argument)),
        Tm::Lam(_, body) => mix(7, fingerprint(body)),
    }
}
