//! The types of a raw formula.

ghost use Rattle.std.specs.Prelude.{◌≡◌, IfErr, IfOk};
ghost use Rattle.std.specs.Option.{option_map};
ghost use Rattle.hol_terms.specs.Terms.{plain_term, plain_type};
ghost use Rattle.tps_reader.specs.Raws.{plain_raw};
ghost use Rattle.type_infer.specs.Faults.{IsInferFault, IsOnlyAnnotation};

use crate::building::term_of;
use crate::conditions::conditions_of;
use crate::solving::{first_unmet, solve};
use hol_terms::letters::Letter;
use hol_terms::lists::Vars;
use hol_terms::terms::{Tm, same};
use hol_terms::types::Ty;
use std::alloc::{AllocError, Global};
use tps_reader::raws::Raw;

/// Why a raw formula has no term: no types fit, which shows first at the node of the place; or more than one term fits, of which the
/// first has I and the second O at each open type.
#[derive(Drop)]
pub enum InferFault {
    Memory,
    NoTyping(u64),
    Ambiguous(Tm, Tm),
}

impl From<AllocError> for InferFault {
    ghost use Rattle.type_infer.specs.declared.inference.InferFault.TheVariants.{Memory};

    ghost from_gives = { λ _ fault. fault ≡ Memory };

    fn from(_error: AllocError) -> InferFault {
        InferFault::Memory
    }
}

/// The base type I.
fn individuals() -> Letter
    ensures { result.byte ≡ 73 }
{
    match Letter::new(b'I') {
        Some(letter) => letter,
        None => Letter::truth(),
    }
}

/// The only term that the raw formula can stand for, with the wanted type, where one is given, and with the types of the known
/// names; a name that is known twice has its first type.
///
/// `NoTyping` comes exactly where there is no such term. Its place is that of the first node, parts before wholes and left before
/// right, whose conditions, with those of the nodes before it, no types meet; the wanted type is a condition of the last node.
/// `Ambiguous` comes exactly where there is more than one, and both of its terms are such.
pub fn infer(alloc: Global, raw: &Raw, wanted: Option<&Ty>, known: &Vars) -> Result<Tm, InferFault>
    ensures only { IfOk result (λ t. IsOnlyAnnotation (plain_raw raw.now) (option_map (λ s. plain_type s.now) wanted.entry) known.now (plain_term t)) }
    ensures fault { IfErr result (λ fault. IsInferFault (plain_raw raw.now) (option_map (λ s. plain_type s.now) wanted.entry) known.now fault) }
{
    let asked = conditions_of(alloc, raw, wanted, known)?;
    let Some(solution) = solve(alloc, &asked.conditions, asked.count)? else {
        let place = first_unmet(alloc, &asked.conditions, asked.count)?;
        return Err(InferFault::NoTyping(place));
    };
    let first = term_of(alloc, &solution, individuals(), raw)?;
    let second = term_of(alloc, &solution, Letter::truth(), raw)?;
    if same(&first, &second) {
        Ok(first)
    } else {
        Err(InferFault::Ambiguous(first, second))
    }
}
