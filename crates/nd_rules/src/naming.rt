//! The lines that a line names: whether they are there, and have smaller numbers.

ghost use Rattle.std.specs.Prelude.{◌≡◌, ◌++◌, IfOk, IfSome, find};
ghost use Rattle.std.specs.Option.{option_map};
ghost use Rattle.hol_terms.specs.Terms.{plain_term};
ghost use Rattle.hol_terms.specs.Typing.{IsFormula};
ghost use Rattle.nd_rules.specs.Lines.{cited as cited_by, line_with, plain_line, plain_why};
ghost use Rattle.nd_rules.specs.Rules.{is_late as is_late_number, is_missing as is_missing_number};

use crate::lines::{Line, Why};
use crate::outlines::Outline;
use hol_terms::lists::Numbers;
use std::alloc::{AllocError, Global};

/// The line of a number, where the given line is put at its own.
pub fn line_at<'a>(outline: &'a Outline, line: &'a Line, number: u64) -> Option<&'a Line>
    ensures line { option_map (λ l. plain_line l.now) result ≡ line_with outline.now (plain_line line.now) number }
    ensures formula { IsFormula (plain_term line.now.formula) → IfSome result (λ l. IsFormula (plain_term l.now.formula)) }
{
    if number == line.number {
        return Some(line);
    }
    outline.find(number)
}

/// The numbers, with these after them.
pub fn with_more(numbers: Numbers, items: &[u64]) -> Result<Numbers, AllocError>
    ensures { IfOk result (λ more. more ≡ numbers ++ items.now) }
{
    let mut numbers = numbers;
    for n in items {
        numbers.push(*n)?;
    }
    Ok(numbers)
}

/// The numbers that a justification cites, in the order in which they are written.
pub fn cited(alloc: Global, why: &Why) -> Result<Numbers, AllocError>
    ensures { IfOk result (λ numbers. numbers ≡ cited_by (plain_why why.now)) }
{
    let mut numbers = Numbers::new(alloc);
    match why {
        Why::Hyp | Why::Planned => {}
        Why::Ui { src, term: _ } | Why::Egen { src, term: _ } => numbers.push(*src)?,
        Why::Ugen { src, var: _ } => numbers.push(*src)?,
        Why::Lambda { src } => numbers.push(*src)?,
        Why::Deduct { src, hyp } => {
            numbers.push(*src)?;
            numbers.push(*hyp)?;
        }
        Why::Rulec {
            some_line,
            hyp,
            src,
            var: _,
        } => {
            numbers.push(*some_line)?;
            numbers.push(*hyp)?;
            numbers.push(*src)?;
        }
        Why::Rulep { src } => return with_more(numbers, src.as_slice()),
    }
    Ok(numbers)
}

/// Whether no line has the number.
fn is_missing(outline: &Outline, line: &Line, number: u64) -> bool
    ensures { result ≡ is_missing_number outline.now (plain_line line.now) number }
{
    line_at(outline, line, number).is_none()
}

/// Whether the number isn't smaller than the line's own. The own number of a hypothesis line is exempt.
fn is_late(line: &Line, number: u64) -> bool
    ensures { result ≡ is_late_number (plain_line line.now) number }
{
    number >= line.number && !(matches!(line.why, Why::Hyp) && number == line.number)
}

/// The first of the numbers that no line has.
pub fn first_missing(outline: &Outline, line: &Line, numbers: &[u64]) -> Option<u64>
    ensures { result ≡ find (is_missing_number outline.now (plain_line line.now)) numbers.now }
{
    numbers
        .iter()
        .copied()
        .find(|number| is_missing(outline, line, *number))
}

/// The first of the numbers that comes too late.
pub fn first_late(line: &Line, numbers: &[u64]) -> Option<u64>
    ensures { result ≡ find (is_late_number (plain_line line.now)) numbers.now }
{
    numbers
        .iter()
        .copied()
        .find(|number| is_late(line, *number))
}
