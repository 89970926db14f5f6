//! Printed lines.

ghost use Rattle.std.specs.Prelude.{◌≡◌, ◌++◌, ◌∷◌, [], IfOk, OnOk, codes, decimal, encode_utf8_all, map};
ghost use Rattle.std.specs.Option.{option_map};
ghost use Rattle.std.specs.String.{string_bytes};
ghost use Rattle.hol_terms.specs.Terms.{plain_term};
ghost use Rattle.nd_rules.specs.Lines.{plain_line, plain_why};
ghost use Rattle.tps_print.specs.Lines.{further_numbers, line_pieces, listed_numbers, spaced_numbers, term_of as term_of_why, why_pieces};
ghost use Rattle.tps_print.specs.Outputs.{after};
ghost use Rattle.tps_print.specs.Pieces.{fixed, pieces};
ghost use Rattle.tps_print.specs.Printed.{printed_line};
ghost use Rattle.tps_print.specs.declared.levels.Level.TheVariants as level_of;

use crate::levels::Level;
use crate::names::names_beside;
use crate::outputs::Output;
use crate::terms::append_term;
use core_text::writers::{append_name, append_number};
use hol_terms::lists::Text;
use hol_terms::names::Name;
use hol_terms::terms::Tm;
use nd_rules::lines::{Line, Why};
use std::alloc::{AllocError, Global};

/// Adds numbers, each after a space.
fn append_spaced(alloc: Global, text: &mut Text, numbers: &[u64]) -> Result<(), AllocError>
    ensures { OnOk result (text.new ≡ text.old ++ spaced_numbers numbers.now) }
{
    let mut rest = numbers;
    while let [number, more @ ..] = rest {
        text.push(b' ')?;
        append_number(alloc, text, *number)?;
        rest = more;
    }
    Ok(())
}

/// Adds numbers, each after a comma.
fn append_further(alloc: Global, text: &mut Text, numbers: &[u64]) -> Result<(), AllocError>
    ensures { OnOk result (text.new ≡ text.old ++ further_numbers numbers.now) }
{
    let mut rest = numbers;
    while let [number, more @ ..] = rest {
        text.push(b',')?;
        append_number(alloc, text, *number)?;
        rest = more;
    }
    Ok(())
}

/// Adds numbers with commas between them.
fn append_listed(alloc: Global, text: &mut Text, numbers: &[u64]) -> Result<(), AllocError>
    ensures { OnOk result (text.new ≡ text.old ++ listed_numbers numbers.now) }
{
    match numbers {
        [] => Ok(()),
        [first, others @ ..] => {
            append_number(alloc, text, *first)?;
            append_further(alloc, text, others)
        }
    }
}

/// A rule's word and the numbers of lines.
fn rule_text(alloc: Global, word: &[u8], numbers: &[u64]) -> Result<Text, AllocError>
    ensures { IfOk result (λ text. text ≡ word.now ++ spaced_numbers numbers.now) }
{
    let mut text = Text::new(alloc);
    text.append(word)?;
    append_spaced(alloc, &mut text, numbers)?;
    Ok(text)
}

/// Adds a rule's word and the numbers of lines.
fn append_rule(
    alloc: Global,
    out: &mut Output,
    word: &[u8],
    numbers: &[u64],
) -> Result<(), AllocError>
    ensures { OnOk result (out.new ≡ after out.old (fixed (word.now ++ spaced_numbers numbers.now) ∷ [])) }
{
    let text = rule_text(alloc, word, numbers)?;
    out.fixed(text.as_slice())
}

/// Adds a rule's word, the numbers of lines, and a name.
fn append_naming_rule(
    alloc: Global,
    out: &mut Output,
    word: &[u8],
    numbers: &[u64],
    name: &Name,
) -> Result<(), AllocError>
    ensures { OnOk result (out.new ≡ after out.old (fixed (word.now ++ (spaced_numbers numbers.now ++ (codes " " ++ encode_utf8_all name.now))) ∷ [])) }
{
    let mut text = rule_text(alloc, word, numbers)?;
    text.push(b' ')?;
    append_name(alloc, &mut text, name)?;
    out.fixed(text.as_slice())
}

/// Adds a rule's word, the number of a line, and a term as an argument.
fn append_term_rule(
    alloc: Global,
    out: &mut Output,
    word: &[u8],
    src: u64,
    term: &Tm,
    names: &[String],
) -> Result<(), AllocError>
    ensures { OnOk result (out.new ≡ after out.old (fixed (word.now ++ (spaced_numbers (src ∷ []) ++ codes " ")) ∷ pieces (map string_bytes names.now) 0 level_of.Argument (plain_term term.now))) }
{
    let mut text = rule_text(alloc, word, &[src])?;
    text.push(b' ')?;
    out.fixed(text.as_slice())?;
    append_term(out, term, names, 0, Level::Argument)
}

/// Adds a justification.
fn append_why(
    alloc: Global,
    out: &mut Output,
    why: &Why,
    names: &[String],
) -> Result<(), AllocError>
    ensures { OnOk result (out.new ≡ after out.old (why_pieces (map string_bytes names.now) (plain_why why.now))) }
{
    match why {
        Why::Hyp => out.fixed(b"P"),
        Why::Deduct { src, hyp } => append_rule(alloc, out, b"DEDUCT", &[*src, *hyp]),
        Why::Ui { src, term } => append_term_rule(alloc, out, b"UI", *src, term, names),
        Why::Ugen { src, var } => append_naming_rule(alloc, out, b"UGEN", &[*src], var),
        Why::Egen { src, term } => append_term_rule(alloc, out, b"EGEN", *src, term, names),
        Why::Rulec {
            some_line,
            hyp,
            src,
            var,
        } => append_naming_rule(alloc, out, b"RULEC", &[*some_line, *hyp, *src], var),
        Why::Lambda { src } => append_rule(alloc, out, b"LAMBDA", &[*src]),
        Why::Rulep { src } => append_rule(alloc, out, b"RULEP", src.as_slice()),
        Why::Planned => out.fixed(b"PLANNED"),
    }
}

/// Adds a line's number, its hypotheses in braces, and the sign of entailment.
fn append_head(alloc: Global, out: &mut Output, line: &Line) -> Result<(), AllocError>
    ensures { OnOk result (out.new ≡ after out.old (fixed (decimal line.now.number ++ (codes " {" ++ (listed_numbers line.now.hyps ++ codes "} |- "))) ∷ [])) }
{
    let mut text = Text::new(alloc);
    append_number(alloc, &mut text, line.number)?;
    text.append(b" {")?;
    append_listed(alloc, &mut text, line.hyps.as_slice())?;
    text.append(b"} |- ")?;
    out.fixed(text.as_slice())
}

/// Adds a line.
#[tactic(auto, using(crate::proofs::Printing::after_both))]
fn append_line(
    alloc: Global,
    out: &mut Output,
    line: &Line,
    names: &[String],
) -> Result<(), AllocError>
    ensures { OnOk result (out.new ≡ after out.old (line_pieces (map string_bytes names.now) (plain_line line.now))) }
{
    append_head(alloc, out, line)?;
    append_term(out, &line.formula, names, 0, Level::Top)?;
    out.fixed(b" : ")?;
    append_why(alloc, out, &line.why, names)
}

/// The term of a justification, if it has one.
fn term_of(why: &Why) -> Option<&Tm>
    ensures { option_map (λ t. plain_term t.now) result ≡ term_of_why (plain_why why.now) }
{
    match why {
        Why::Ui { src: _, term } => Some(term),
        Why::Egen { src: _, term } => Some(term),
        _ => None,
    }
}

/// The text of a line: its number, its hypotheses in braces, its formula and its justification, as `2 {1} |- p(O) OR q(O) : RULEP 1`.
/// The names of bound variables are free neither in the formula nor in the term of the justification, and a free variable has its type
/// after its first occurrence in the formula and then the term. An error comes only where memory runs out.
pub fn print_line(alloc: Global, line: &Line) -> Result<Text, AllocError>
    ensures { IfOk result (λ text. text ≡ printed_line (plain_line line.now)) }
{
    let names = names_beside(alloc, &line.formula, term_of(&line.why))?;
    let mut out = Output::new(alloc);
    append_line(alloc, &mut out, line, &names)?;
    Ok(out.into_text())
}
