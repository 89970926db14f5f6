//! Deductions: outlines to which each step adds a line that the lines justify.

ghost use Rattle.std.specs.Prelude.{◌≡◌, ◌≢◌, ◌+◌, [], IfOk, IfSome, IsSome, None, OnErr, OnOk, Some, length};
ghost use Rattle.std.specs.Option.{option_map};
ghost use Rattle.hol_terms.specs.Terms.{plain_term};
ghost use Rattle.hol_terms.specs.Typing.{IsFormula};
ghost use Rattle.nd_rules.specs.Lines.{line_of, plain_line, plain_why, planned};
ghost use Rattle.nd_rules.specs.Outlines.{HasTypedTerms, IsWellFormed, with_line};
ghost use Rattle.nd_steps.specs.Deductions.{AddsLine, Derives, IsDeduction, IsNextJustified};

use crate::hypotheses::copied;
use hol_terms::indices::raised_index;
use hol_terms::lists::Hyps;
use hol_terms::terms::Tm;
use nd_rules::faults::InsertFault;
use nd_rules::lines::{Line, Why};
use nd_rules::outlines::Outline;
use std::alloc::{AllocError, Global};
use std::marker::Model;

/// Puts in a line whose number no other has. An error comes only where memory runs out, and then nothing is changed.
fn put(outline: &mut Outline, line: Line) -> Result<(), AllocError>
    requires formula { IsFormula (plain_term line.formula) }
    requires term { HasTypedTerms (plain_why line.why) }
    requires absent { line_of outline.old line.number ≡ None }
    ensures ok { OnOk result (outline.new ≡ with_line outline.old (plain_line line)) }
    ensures err { OnErr result (outline.new ≡ outline.old) }
{
    match outline.insert(line) {
        Ok(()) => Ok(()),
        Err(InsertFault::Memory) => Err(AllocError),
        Err(InsertFault::Present(_)) => unreachable!(),
    }
}

/// The number after this many, and equal hypotheses.
fn number_behind(alloc: Global, before: u64, hyps: &Hyps) -> Result<(u64, Hyps), AllocError>
    ensures number { IfOk result (λ r. r.0 ≡ before + 1) }
    ensures hyps { IfOk result (λ r. r.1 ≡ hyps.now) }
{
    let number = raised_index(before, 1)?;
    let hyps = copied(alloc, hyps)?;
    Ok((number, hyps))
}

/// The line after this many.
fn line_behind(
    alloc: Global,
    before: u64,
    hyps: &Hyps,
    formula: Tm,
    why: Why,
) -> Result<Line, AllocError>
    ensures number { IfOk result (λ line. line.number ≡ before + 1) }
    ensures hyps { IfOk result (λ line. line.hyps ≡ hyps.now) }
    ensures formula { IfOk result (λ line. plain_term line.formula ≡ plain_term formula) }
    ensures why { IfOk result (λ line. plain_why line.why ≡ plain_why why) }
{
    match number_behind(alloc, before, hyps) {
        Ok((number, hyps)) => Ok(Line {
            number,
            hyps,
            formula,
            why,
        }),
        Err(error) => {
            drop(formula);
            drop(why);
            Err(error)
        }
    }
}

/// A deduction: lines with the numbers 1, 2, 3, .., each justified by the lines and none planned. Contracts see the list of its lines.
#[derive(Drop)]
pub struct Deduction {
    outline: Outline,
}

impl Model for Deduction {
    ghost use Rattle.std.specs.Prelude.{List};
    ghost use Rattle.nd_rules.specs.Codes.{lines_code};
    ghost use Rattle.nd_rules.specs.Lines.{DeductionLine};
    ghost use Rattle.nd_steps.specs.Deductions.{IsDeduction};

    ghost Value = { List DeductionLine };

    ghost coded = { lines_code };

    ghost view = { λ deduction. deduction.outline };

    ghost invariant = { λ deduction. IsDeduction deduction.outline };
}

impl Deduction {
    /// The deduction without a line.
    pub fn new(alloc: Global) -> Deduction
        ensures { result ≡ [] }
    {
        Deduction {
            outline: Outline::new(alloc),
        }
    }

    /// How many lines there are, which is also the number of the last one.
    pub fn len(&self) -> u64
        ensures count { result ≡ length self.now }
        ensures deduction { IsDeduction self.now }
    {
        self.outline.len()
    }

    /// The line of a number, counted from 1, `None` exactly where none has it.
    pub fn find(&self, number: u64) -> Option<&Line>
        ensures line { option_map (λ line. plain_line line.now) result ≡ line_of self.now number }
        ensures formed { IfSome result (λ line. IsWellFormed (plain_line line.now)) }
    {
        self.outline.find(number)
    }

    /// The formula of the line of a number, counted from 1.
    pub fn formula(&self, number: u64) -> &Tm
        requires { IsSome (line_of self.now number) }
        ensures formula { option_map (λ l. l.formula) (line_of self.now number) ≡ Some (plain_term result.now) }
        ensures formed { IsFormula (plain_term result.now) }
    {
        match self.outline.find(number) {
            Some(line) => &line.formula,
            None => unreachable!(),
        }
    }

    /// The outline with these lines.
    pub fn into_outline(self) -> Outline
        ensures lines { result ≡ self }
        ensures deduction { IsDeduction result }
    {
        self.outline
    }

    /// Adds the next line, which the lines justify, and answers its number. An error comes only where memory runs out, and then
    /// nothing is changed.
    pub(crate) fn add(
        &mut self,
        alloc: Global,
        hyps: &Hyps,
        formula: Tm,
        why: Why,
    ) -> Result<u64, AllocError>
        requires formula { IsDeduction self.old → IsFormula (plain_term formula) }
        requires term { HasTypedTerms (plain_why why) }
        requires finished { plain_why why ≢ planned }
        requires justified { IsDeduction self.old → IsNextJustified self.old hyps.now (plain_term formula) (plain_why why) }
        ensures line { IfOk result (λ n. AddsLine self.old self.new n hyps.now (plain_term formula) (plain_why why)) }
        ensures derives { IfOk result (λ n. Derives 1 self.old self.new n hyps.now (plain_term formula)) }
        ensures deduction { OnOk result (IsDeduction self.new) }
        ensures err { OnErr result (self.new ≡ self.old) }
    {
        let _rising = hyps.as_slice();
        let before = self.outline.len();
        let line = line_behind(alloc, before, hyps, formula, why)?;
        let number = line.number;
        put(&mut self.outline, line)?;
        Ok(number)
    }
}
