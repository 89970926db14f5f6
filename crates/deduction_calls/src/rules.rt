//! Calls of `nd_rules` on a line and the outline of the others.

use crate::answers::{Answer, NoAnswer, number_or_none};
use crate::evidence::refusal;
use crate::outlines::{apart, numbered};
use call_lines::answers::{term_text, verdict};
use hol_terms::lists::Numbers;
use nd_rules::faults::RuleFault;
use nd_rules::justifying::justify;
use nd_rules::lines::Line;
use nd_rules::naming::{cited, first_late, first_missing, line_at, with_more};
use nd_rules::resting::has_hypotheses;
use nd_rules::shapes::has_shape;
use nd_rules::variables::variable_fault;
use std::alloc::{AllocError, Global};

/// `n DERIVATION`: whether the other lines justify the line of that number: `yes`, or the first refusal and what it shows.
pub fn justification(alloc: Global, arguments: &str) -> Answer {
    let apart = apart(alloc, arguments)?;
    match justify(alloc, &apart.others, &apart.line) {
        Ok(()) => Ok(String::from_str(alloc, "yes")?),
        Err(RuleFault::Memory) => Err(NoAnswer::Memory),
        Err(fault) => refusal(alloc, &fault),
    }
}

/// The numbers that the line names: those that it cites, and its hypotheses.
fn named(alloc: Global, line: &Line) -> Result<Numbers, AllocError> {
    let numbers = cited(alloc, &line.why)?;
    with_more(numbers, line.hyps.as_slice())
}

/// `n DERIVATION`: the numbers that the line of that number names.
pub fn names(alloc: Global, arguments: &str) -> Answer {
    let apart = apart(alloc, arguments)?;
    let numbers = named(alloc, &apart.line)?;
    let count = numbers.len();
    let mut answer = format!(in alloc; "{count}:")?;
    for number in numbers.as_slice() {
        answer.push_str(format!(in alloc; " {number}")?.as_str())?;
    }
    Ok(answer)
}

/// `m n DERIVATION`: the formula of line m, where line n is put in, or `none`.
pub fn formula_at(alloc: Global, arguments: &str) -> Answer {
    let (number, rest) = numbered(arguments)?;
    let apart = apart(alloc, rest)?;
    match line_at(&apart.others, &apart.line, number) {
        Some(line) => Ok(term_text(alloc, &line.formula)?),
        None => Ok(String::from_str(alloc, "none")?),
    }
}

/// `n DERIVATION`: the first number that the line names and no line has.
pub fn missing(alloc: Global, arguments: &str) -> Answer {
    let apart = apart(alloc, arguments)?;
    let numbers = named(alloc, &apart.line)?;
    number_or_none(
        alloc,
        first_missing(&apart.others, &apart.line, numbers.as_slice()),
    )
}

/// `n DERIVATION`: the first number that the line names and that isn't smaller.
pub fn late(alloc: Global, arguments: &str) -> Answer {
    let apart = apart(alloc, arguments)?;
    let numbers = named(alloc, &apart.line)?;
    number_or_none(alloc, first_late(&apart.line, numbers.as_slice()))
}

/// `n DERIVATION`: whether the formula is as the rule wants it.
pub fn shape(alloc: Global, arguments: &str) -> Answer {
    let apart = apart(alloc, arguments)?;
    Ok(verdict(alloc, has_shape(alloc, &apart.others, &apart.line)?)?)
}

/// `n DERIVATION`: whether the hypotheses are as the rule wants them.
pub fn rest(alloc: Global, arguments: &str) -> Answer {
    let apart = apart(alloc, arguments)?;
    Ok(verdict(alloc, has_hypotheses(&apart.others, &apart.line))?)
}

/// `n DERIVATION`: the first line where the rule's variable is free and may not be.
pub fn variable(alloc: Global, arguments: &str) -> Answer {
    let apart = apart(alloc, arguments)?;
    number_or_none(alloc, variable_fault(alloc, &apart.others, &apart.line)?)
}
