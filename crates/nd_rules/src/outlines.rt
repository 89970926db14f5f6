//! Outlines: lists of lines with rising numbers.

ghost use Rattle.std.specs.Prelude.{◌≡◌, ◌≢◌, ◌<◌, ◌≤◌, ℕ, [], Err, IfErr, IfOk, IfSome, IsSome, None, OnErr, OnOk, Some, length, map, slice_get};
ghost use Rattle.std.specs.List.{insert};
ghost use Rattle.std.specs.List.Sorted.{IsStrictlyIncreasing};
ghost use Rattle.std.specs.Option.{option_map};
ghost use Rattle.hol_terms.specs.Terms.{plain_term};
ghost use Rattle.hol_terms.specs.Typing.{IsFormula};
ghost use Rattle.nd_rules.specs.Lines.{line_of, numbers_of, plain_line, plain_why};
ghost use Rattle.nd_rules.specs.Outlines.{HasTypedTerms, IsGapFor, IsOutline, IsWellFormed, with_line, with_why, without_line};

use crate::faults::InsertFault;
use crate::lines::{Line, Why};
use std::alloc::Global;
use std::marker::Model;

/// Where the line of a number is among lines with rising numbers, or where it would go.
fn search(lines: &[Line], number: u64) -> Result<usize, usize>
    requires { IsOutline (map plain_line lines.now) }
    ensures found { IfOk result (λ i. slice_get (numbers_of (map plain_line lines.now)) i ≡ Some number) }
    ensures absent { IfErr result (λ i. IsGapFor (numbers_of (map plain_line lines.now)) number i) }
{
    lines.binary_search_by_key(&number, |line| line.number)
}

/// The number of a line, whose hypotheses rise.
fn number_of(line: &Line) -> u64
    ensures number { result ≡ line.now.number }
    ensures rising { IsStrictlyIncreasing (plain_line line.now).hypotheses }
{
    let _rising = line.hyps.as_slice();
    line.number
}

/// Why a line isn't put in whose number another line has.
fn refused(line: Line) -> InsertFault
    ensures { result ≡ InsertFault.Present line.number }
{
    let number = line.number;
    drop(line);
    InsertFault::Present(number)
}

/// Puts a line at a place.
fn put(lines: &mut Vec<Line>, i: usize, line: Line) -> Result<(), InsertFault>
    requires { i ≤ length lines.old.items }
    ensures items { OnOk result (lines.new.items ≡ insert lines.old.items i line) }
    ensures err { OnErr result (lines.new.items ≡ lines.old.items) }
    ensures memory { IfErr result (λ e. e ≡ InsertFault.Memory) }
{
    Ok(lines.insert(i, line)?)
}

/// The lines of a deduction, finished or not, their numbers strictly rising. Contracts see the list of its lines.
#[derive(Drop)]
pub struct Outline {
    lines: Vec<Line>,
}

impl Model for Outline {
    ghost use Rattle.std.specs.Prelude.{List, map};
    ghost use Rattle.nd_rules.specs.Codes.{lines_code};
    ghost use Rattle.nd_rules.specs.Lines.{DeductionLine, plain_line};
    ghost use Rattle.nd_rules.specs.Outlines.{IsOutline};

    ghost Value = { List DeductionLine };

    ghost coded = { lines_code };

    ghost view = { λ outline. map plain_line outline.lines.items };

    ghost invariant = { λ outline. IsOutline (map plain_line outline.lines.items) };
}

impl Outline {
    /// The outline without a line.
    pub fn new(alloc: Global) -> Outline
        ensures { result ≡ [] }
    {
        Outline {
            lines: Vec::new(alloc),
        }
    }

    /// How many lines there are.
    pub fn len(&self) -> u64
        ensures count { result ≡ length self.now }
        ensures outline { IsOutline self.now }
    {
        self.lines.len() as u64
    }

    /// The line at a place, counted from 0.
    pub fn at(&self, i: u64) -> &Line
        requires { i < length self.now }
        ensures line { slice_get self.now i ≡ Some (plain_line result.now) }
        ensures formed { IsWellFormed (plain_line result.now) }
    {
        &self.lines[i as usize]
    }

    /// The lines as a slice: well-formed, with numbers that rise.
    pub fn as_slice(&self) -> &[Line]
        ensures all { map plain_line result.now ≡ self.now }
        ensures outline { IsOutline self.now }
    {
        self.lines.as_slice()
    }

    /// The line of a number, `None` exactly where none has it.
    pub fn find(&self, number: u64) -> Option<&Line>
        ensures line { option_map (λ line. plain_line line.now) result ≡ line_of self.now number }
        ensures formed { IfSome result (λ line. IsWellFormed (plain_line line.now)) }
    {
        match search(&self.lines, number) {
            Ok(i) => Some(&self.lines[i]),
            Err(_) => None,
        }
    }

    /// Puts a line at the place of its number. `Present` comes exactly where a line has that number; an `Err` drops the line and
    /// changes nothing.
    pub fn insert(&mut self, line: Line) -> Result<(), InsertFault>
        requires formula { IsFormula (plain_term line.formula) }
        requires term { HasTypedTerms (plain_why line.why) }
        ensures ok { OnOk result (self.new ≡ with_line self.old (plain_line line)) }
        ensures absent { OnOk result (line_of self.old line.number ≡ None) }
        ensures err { OnErr result (self.new ≡ self.old) }
        ensures present { IfErr result (λ e. e ≢ InsertFault.Memory → (e ≡ InsertFault.Present line.number) × IsSome (line_of self.old line.number)) }
        ensures free { result ≡ Err InsertFault.Memory → line_of self.old line.number ≡ None }
    {
        let number = number_of(&line);
        match search(&self.lines, number) {
            Ok(_) => return Err(refused(line)),
            Err(i) => Ok(put(&mut self.lines, i, line)?),
        }
    }

    /// Gives the line of a number another justification, and answers the one that it had. All else stays.
    pub fn set_why(&mut self, number: u64, why: Why) -> Why
        requires there { IsSome (line_of self.old number) }
        requires term { HasTypedTerms (plain_why why) }
        ensures new { self.new ≡ with_why self.old number (plain_why why) }
        ensures old { option_map (λ l. l.why) (line_of self.old number) ≡ Some (plain_why result) }
    {
        match search(&self.lines, number) {
            Ok(i) => std::mem::replace(&mut self.lines[i].why, why),
            Err(_) => unreachable!(),
        }
    }

    /// Takes the line of a number out, and answers it. All else stays.
    pub fn take(&mut self, number: u64) -> Line
        requires { IsSome (line_of self.old number) }
        ensures rest { self.new ≡ without_line self.old number }
        ensures line { line_of self.old number ≡ Some (plain_line result) }
    {
        match search(&self.lines, number) {
            Ok(i) => self.lines.remove(i),
            Err(_) => unreachable!(),
        }
    }
}
