//! Refusals of the rules as text.

use crate::answers::{Answer, NoAnswer, push_terms};
use call_lines::answers::{push_term, string_of};
use hol_terms::lists::Text;
use nd_rules::faults::RuleFault;
use std::alloc::Global;

/// Adds what a refusal shows: the true atoms of an assignment, or two normal forms that differ.
pub fn push_evidence(
    alloc: Global,
    answer: &mut String,
    fault: &RuleFault,
) -> Result<(), NoAnswer> {
    match fault {
        RuleFault::NotFollows(atoms) => push_terms(alloc, answer, atoms),
        RuleFault::NotConvertible(first, second) => {
            push_term(alloc, answer, first)?;
            Ok(push_term(alloc, answer, second)?)
        }
        _ => Ok(()),
    }
}

/// The words of a refusal, and what it shows.
pub fn refusal(alloc: Global, fault: &RuleFault) -> Answer {
    let mut words = Text::new(alloc);
    fault.append_words(alloc, &mut words)?;
    let mut answer = string_of(alloc, &words)?;
    push_evidence(alloc, &mut answer, fault)?;
    Ok(answer)
}
