//! The hypotheses on which a line rests.

ghost use Rattle.std.specs.Prelude.{◌≡◌, ◌↔◌, ◌∷◌, [], IsTrue};
ghost use Rattle.std.specs.List.{list_all};
ghost use Rattle.nd_rules.specs.Lines.{hypothesis, plain_line, plain_why};
ghost use Rattle.nd_rules.specs.Resting.{are_covered, are_covered_but, covers_inherited, is_among, is_hypothesis_number};
ghost use Rattle.nd_rules.specs.Rules.{HasHypotheses, hypotheses_of};

use crate::lines::{Line, Why};
use crate::naming::line_at;
use crate::outlines::Outline;
use hol_terms::lists::Hyps;

/// Whether the number is among the hypotheses.
fn holds(hyps: &Hyps, number: u64) -> bool
    ensures { result ≡ is_among hyps.now number }
{
    hyps.as_slice()
        .binary_search_by_key(&number, |n| *n)
        .is_ok()
}

/// The hypotheses of the line of a number; none where there is no such line.
fn hypotheses<'a>(outline: &'a Outline, line: &'a Line, number: u64) -> &'a [u64]
    ensures { result.now ≡ hypotheses_of outline.now (plain_line line.now) number }
{
    match line_at(outline, line, number) {
        Some(found) => found.hyps.as_slice(),
        None => &[],
    }
}

/// Whether the numbers are all among the hypotheses.
fn covers(hyps: &Hyps, numbers: &[u64]) -> bool
    ensures { result ≡ are_covered hyps.now numbers.now }
{
    numbers.iter().all(|n| holds(hyps, *n))
}

/// Whether the numbers, but for one that is discharged, are all among the hypotheses.
fn covers_but(hyps: &Hyps, numbers: &[u64], discharged: u64) -> bool
    ensures { result ≡ are_covered_but hyps.now numbers.now discharged }
{
    numbers.iter().all(|n| *n == discharged || holds(hyps, *n))
}

/// Whether the line of a number is a hypothesis.
fn is_hypothesis_line(outline: &Outline, line: &Line, number: u64) -> bool
    ensures { result ≡ is_hypothesis_number outline.now (plain_line line.now) number }
{
    match line_at(outline, line, number) {
        Some(found) => matches!(found.why, Why::Hyp),
        None => false,
    }
}

/// Whether the hypotheses of each of these lines are all among the line's own.
fn covers_each(outline: &Outline, line: &Line, sources: &[u64]) -> bool
    ensures { result ≡ list_all (λ d. are_covered line.now.hyps (hypotheses_of outline.now (plain_line line.now) d)) sources.now }
{
    sources
        .iter()
        .all(|d| covers(&line.hyps, hypotheses(outline, line, *d)))
}

/// Whether the hypotheses of the lines that the line rests on are all among its own.
fn covers_sources(outline: &Outline, line: &Line) -> bool
    ensures { result ≡ covers_inherited outline.now (plain_line line.now) (plain_why line.now.why) }
{
    match &line.why {
        Why::Hyp | Why::Planned => true,
        Why::Ui { src, term: _ } => covers(&line.hyps, hypotheses(outline, line, *src)),
        Why::Ugen { src, var: _ } => covers(&line.hyps, hypotheses(outline, line, *src)),
        Why::Egen { src, term: _ } => covers(&line.hyps, hypotheses(outline, line, *src)),
        Why::Lambda { src } => covers(&line.hyps, hypotheses(outline, line, *src)),
        Why::Deduct { src, hyp } => covers_but(&line.hyps, hypotheses(outline, line, *src), *hyp),
        Why::Rulec {
            some_line,
            hyp,
            src,
            var: _,
        } => {
            covers(&line.hyps, hypotheses(outline, line, *some_line))
                && covers_but(&line.hyps, hypotheses(outline, line, *src), *hyp)
        }
        Why::Rulep { src } => covers_each(outline, line, src.as_slice()),
    }
}

/// Whether each hypothesis of the line is a hypothesis line.
fn has_hypothesis_lines(outline: &Outline, line: &Line) -> bool
    ensures { result ≡ list_all (is_hypothesis_number outline.now (plain_line line.now)) line.now.hyps }
{
    line.hyps
        .as_slice()
        .iter()
        .all(|n| is_hypothesis_line(outline, line, *n))
}

/// Whether the line, where it is a hypothesis, rests on itself alone.
fn rests_alone(line: &Line) -> bool
    ensures { IsTrue result ↔ (plain_why line.now.why ≡ hypothesis → line.now.hyps ≡ line.now.number ∷ []) }
{
    match line.why {
        Why::Hyp => line.hyps.as_slice() == [line.number].as_slice(),
        _ => true,
    }
}

/// Whether the line's hypotheses are as its rule wants them.
pub fn has_hypotheses(outline: &Outline, line: &Line) -> bool
    ensures { IsTrue result ↔ HasHypotheses outline.now (plain_line line.now) }
{
    if !rests_alone(line) {
        return false;
    }
    if !covers_sources(outline, line) {
        return false;
    }
    has_hypothesis_lines(outline, line)
}
