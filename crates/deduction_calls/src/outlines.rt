//! Calls of `nd_rules` on outlines.

ghost use Rattle.std.specs.Prelude.{IfOk, IfSome};
ghost use Rattle.nd_rules.specs.Lines.{plain_line};
ghost use Rattle.nd_rules.specs.Outlines.{IsWellFormed};

use crate::answers::{Answer, NoAnswer};
use crate::texts::{derivation, outline_text};
use call_lines::answers::term_text;
use nd_rules::lines::{Line, Why};
use nd_rules::outlines::Outline;
use std::alloc::Global;

/// `n REST`: the number, and what is left of the arguments.
pub fn numbered(arguments: &str) -> Result<(u64, &str), NoAnswer> {
    let Some((number, rest)) = arguments.split_once(' ') else {
        return Err(NoAnswer::Arguments);
    };
    match number.parse::<u64>() {
        Ok(number) => Ok((number, rest)),
        Err(_) => Err(NoAnswer::Arguments),
    }
}

/// `FIRST ; SECOND`: the two texts.
fn two(arguments: &str) -> Result<(&str, &str), NoAnswer> {
    match arguments.split_once(" ; ") {
        Some(texts) => Ok(texts),
        None => Err(NoAnswer::Arguments),
    }
}

/// Takes the line of a number out, where there is one.
fn taken(outline: &mut Outline, number: u64) -> Option<Line>
    ensures { IfSome result (λ line. IsWellFormed (plain_line line)) }
{
    if outline.find(number).is_none() {
        return None;
    }
    Some(outline.take(number))
}

/// A line, and the outline of the others.
#[derive(Drop)]
pub struct LineApart {
    pub line: Line,
    pub others: Outline,
}

/// `n DERIVATION`: the line of that number, and the others.
pub fn apart(alloc: Global, arguments: &str) -> Result<LineApart, NoAnswer>
    ensures { IfOk result (λ apart. IsWellFormed (plain_line apart.line)) }
{
    let (number, text) = numbered(arguments)?;
    let mut others = derivation(alloc, text)?;
    match taken(&mut others, number) {
        Some(line) => Ok(LineApart { line, others }),
        None => Err(NoAnswer::NoLine),
    }
}

/// `DERIVATION`: how many lines there are, and their numbers.
pub fn numbers(alloc: Global, arguments: &str) -> Answer {
    let outline = derivation(alloc, arguments)?;
    let count = outline.len();
    let mut answer = format!(in alloc; "{count}:")?;
    for line in outline.as_slice() {
        let number = line.number;
        answer.push_str(format!(in alloc; " {number}")?.as_str())?;
    }
    Ok(answer)
}

/// `i DERIVATION`: the number of the line at that place, counted from 0.
pub fn number_at(alloc: Global, arguments: &str) -> Answer {
    let (place, text) = numbered(arguments)?;
    let outline = derivation(alloc, text)?;
    if place >= outline.len() {
        return Err(NoAnswer::NoLine);
    }
    let number = outline.at(place).number;
    Ok(format!(in alloc; "{number}")?)
}

/// `n DERIVATION`: the formula of the line of that number, or `none`.
pub fn found(alloc: Global, arguments: &str) -> Answer {
    let (number, text) = numbered(arguments)?;
    let outline = derivation(alloc, text)?;
    match outline.find(number) {
        Some(line) => Ok(term_text(alloc, &line.formula)?),
        None => Ok(String::from_str(alloc, "none")?),
    }
}

/// `n DERIVATION`: the formula of the line that is taken out, and the lines that are left.
pub fn take(alloc: Global, arguments: &str) -> Answer {
    let apart = apart(alloc, arguments)?;
    let mut answer = term_text(alloc, &apart.line.formula)?;
    answer.push(' ')?;
    answer.push_str(outline_text(alloc, &apart.others)?.as_str())?;
    Ok(answer)
}

/// `n DERIVATION ; OUTLINE`: the lines of the outline with that line of the derivation, or why it isn't put in.
pub fn insert(alloc: Global, arguments: &str) -> Answer {
    let (first, second) = two(arguments)?;
    let apart = apart(alloc, first)?;
    let mut outline = derivation(alloc, second)?;
    match outline.insert(apart.line) {
        Ok(()) => outline_text(alloc, &outline),
        Err(fault) => Ok(format!(in alloc; "{fault:?}")?),
    }
}

/// The word of the rule.
fn rule_word(why: &Why) -> &'static str {
    match why {
        Why::Hyp => "P",
        Why::Deduct { .. } => "DEDUCT",
        Why::Ui { .. } => "UI",
        Why::Ugen { .. } => "UGEN",
        Why::Egen { .. } => "EGEN",
        Why::Rulec { .. } => "RULEC",
        Why::Lambda { .. } => "LAMBDA",
        Why::Rulep { .. } => "RULEP",
        Why::Planned => "PLANNED",
    }
}

/// `n DERIVATION ; OUTLINE`: the rule that the outline's line of that number had, and the lines where it has the justification of that
/// line of the derivation.
pub fn set_why(alloc: Global, arguments: &str) -> Answer {
    let (first, second) = two(arguments)?;
    let apart = apart(alloc, first)?;
    let mut outline = derivation(alloc, second)?;
    let LineApart { line, .. } = apart;
    let Line { number, why, .. } = line;
    if outline.find(number).is_none() {
        return Err(NoAnswer::NoLine);
    }
    let old = outline.set_why(number, why);
    let mut answer = String::from_str(alloc, rule_word(&old))?;
    answer.push(' ')?;
    answer.push_str(outline_text(alloc, &outline)?.as_str())?;
    Ok(answer)
}
