//! Writes derivation texts.

ghost use Rattle.std.specs.Prelude.{◌≡◌, ◌++◌, ◌∷◌, ◌<◌, ◌≤◌, ◌^◌, [], IfOk, decimal, length, map};
ghost use Rattle.hol_terms.specs.Names.{IsName};
ghost use Rattle.hol_terms.specs.Terms.{plain_term};
ghost use Rattle.core_text.specs.CoreForms.{HasNames, term_form, triple_form};
ghost use Rattle.core_text.specs.Forms.{list_form, more_forms, nesting, number_form, word_form};
ghost use Rattle.core_text.specs.Written.{written, written_others};
ghost use Rattle.nd_rules.specs.Lines.{cited, generalization, plain_line, plain_why};
ghost use Rattle.nd_check.specs.Forms.{derivation_form, line_form, line_forms, number_forms, why_form};
ghost use Rattle.nd_check.specs.Texts.{AreNumerals, IsDerivationText, IsWrittenDerivation, LineHasNames, LineHasNumerals, LinesHaveNames, LinesHaveNumerals, WhyHasNames};

use core_text::writers::{append_name, append_number, append_term};
use hol_terms::lists::{Hyps, Text};
use hol_terms::names::Name;
use hol_terms::terms::Tm;
use nd_rules::lines::{Line, Why};
use nd_rules::outlines::Outline;
use std::alloc::{AllocError, Global};

/// Adds numbers at the end of the text, each after a space.
fn append_numbers(alloc: Global, out: &mut Text, numbers: &[u64]) -> Result<(), AllocError>
    ensures numerals { IfOk result (λ _. AreNumerals numbers.now) }
    ensures text { IfOk result (λ _. out.new ≡ out.old ++ written_others (number_forms numbers.now)) }
{
    for number in numbers {
        out.push(b' ')?;
        append_number(alloc, out, *number)?;
    }
    Ok(())
}

/// Adds hypotheses at the end of the text.
fn append_hypotheses(alloc: Global, out: &mut Text, hyps: &Hyps) -> Result<(), AllocError>
    ensures numerals { IfOk result (λ _. AreNumerals hyps.now) }
    ensures text { IfOk result (λ _. out.new ≡ out.old ++ written (list_form (number_forms hyps.now))) }
{
    out.push(b'(')?;
    if let [first, rest @ ..] = hyps.as_slice() {
        append_number(alloc, out, *first)?;
        append_numbers(alloc, out, rest)?;
    }
    out.push(b')')
}

/// Adds a rule of numbers alone at the end of the text.
fn append_cited(
    alloc: Global,
    out: &mut Text,
    word: &[u8],
    numbers: &[u64],
) -> Result<(), AllocError>
    ensures numerals { IfOk result (λ _. AreNumerals numbers.now) }
    ensures text { IfOk result (λ _. out.new ≡ out.old ++ written (list_form (more_forms (word_form word.now) (number_forms numbers.now)))) }
{
    out.push(b'(')?;
    out.append(word)?;
    append_numbers(alloc, out, numbers)?;
    out.push(b')')
}

/// Adds a rule of a number and a term at the end of the text.
fn append_with_term(
    alloc: Global,
    out: &mut Text,
    word: &[u8],
    src: u64,
    term: &Tm,
) -> Result<(), AllocError>
    ensures names { IfOk result (λ _. HasNames (plain_term term.now)) }
    ensures text { IfOk result (λ _. out.new ≡ out.old ++ written (triple_form (word_form word.now) (number_form src) (term_form (plain_term term.now)))) }
{
    out.push(b'(')?;
    out.append(word)?;
    out.push(b' ')?;
    append_number(alloc, out, src)?;
    out.push(b' ')?;
    append_term(alloc, out, term)?;
    out.push(b')')?;
    Ok(())
}

/// Adds a generalization at the end of the text.
fn append_generalization(
    alloc: Global,
    out: &mut Text,
    src: u64,
    var: &Name,
) -> Result<(), AllocError>
    ensures names { IfOk result (λ _. IsName var.now) }
    ensures text { IfOk result (λ _. out.new ≡ out.old ++ written (why_form (generalization src var.now))) }
{
    out.append(b"(UGEN ")?;
    append_number(alloc, out, src)?;
    out.push(b' ')?;
    append_name(alloc, out, var)?;
    out.push(b')')
}

/// Adds a justification at the end of the text.
fn append_why(alloc: Global, out: &mut Text, why: &Why) -> Result<(), AllocError>
    ensures names { IfOk result (λ _. WhyHasNames (plain_why why.now)) }
    ensures numerals { IfOk result (λ _. AreNumerals (cited (plain_why why.now))) }
    ensures text { IfOk result (λ _. out.new ≡ out.old ++ written (why_form (plain_why why.now))) }
{
    match why {
        Why::Hyp => append_cited(alloc, out, b"P", &[]),
        Why::Deduct { src, hyp } => append_cited(alloc, out, b"DEDUCT", &[*src, *hyp]),
        Why::Ui { src, term } => append_with_term(alloc, out, b"UI", *src, term),
        Why::Ugen { src, var } => append_generalization(alloc, out, *src, var),
        Why::Egen { src, term } => append_with_term(alloc, out, b"EGEN", *src, term),
        Why::Rulec {
            some_line,
            hyp,
            src,
            var,
        } => {
            out.append(b"(RULEC")?;
            append_numbers(alloc, out, &[*some_line, *hyp, *src])?;
            out.push(b' ')?;
            append_name(alloc, out, var)?;
            out.push(b')')
        }
        Why::Lambda { src } => append_cited(alloc, out, b"LAMBDA", &[*src]),
        Why::Rulep { src } => append_cited(alloc, out, b"RULEP", src.as_slice()),
        Why::Planned => append_cited(alloc, out, b"PLANNED", &[]),
    }
}

/// Adds a line at the end of the text.
fn append_line(alloc: Global, out: &mut Text, line: &Line) -> Result<(), AllocError>
    ensures names { IfOk result (λ _. LineHasNames (plain_line line.now)) }
    ensures numerals { IfOk result (λ _. LineHasNumerals (plain_line line.now)) }
    ensures text { IfOk result (λ _. out.new ≡ out.old ++ written (line_form (plain_line line.now))) }
{
    out.push(b'(')?;
    append_number(alloc, out, line.number)?;
    out.push(b' ')?;
    append_hypotheses(alloc, out, &line.hyps)?;
    out.push(b' ')?;
    append_term(alloc, out, &line.formula)?;
    out.push(b' ')?;
    append_why(alloc, out, &line.why)?;
    out.push(b')')?;
    Ok(())
}

/// Adds lines at the end of the text, each after a space.
fn append_lines(alloc: Global, out: &mut Text, lines: &[Line]) -> Result<(), AllocError>
    ensures names { IfOk result (λ _. LinesHaveNames (map plain_line lines.now)) }
    ensures numerals { IfOk result (λ _. LinesHaveNumerals (map plain_line lines.now)) }
    ensures text { IfOk result (λ _. out.new ≡ out.old ++ written_others (line_forms (map plain_line lines.now))) }
{
    for line in lines {
        out.push(b' ')?;
        append_line(alloc, out, line)?;
    }
    Ok(())
}

/// Adds a derivation at the end of the text.
fn append_derivation(alloc: Global, out: &mut Text, lines: &[Line]) -> Result<(), AllocError>
    ensures names { IfOk result (λ _. LinesHaveNames (map plain_line lines.now)) }
    ensures numerals { IfOk result (λ _. LinesHaveNumerals (map plain_line lines.now)) }
    ensures text { IfOk result (λ _. out.new ≡ out.old ++ written (derivation_form (map plain_line lines.now))) }
{
    out.append(b"(DERIVATION ")?;
    append_number(alloc, out, 1)?;
    append_lines(alloc, out, lines)?;
    out.push(b')')?;
    Ok(())
}

/// The text of an outline of at least one line, with one space between members, none after `(` and none before `)`, and LF at the end.
/// It is read again as that outline, within the limits of reading. An error comes only where memory runs out.
pub fn write_derivation(alloc: Global, outline: &Outline) -> Result<Text, AllocError>
    requires { 0 < length outline.now }
    ensures written { IfOk result (λ text. IsWrittenDerivation text outline.now) }
    ensures read { nesting (derivation_form outline.now) ≤ 5000 → IfOk result (λ text. IsDerivationText text outline.now) }
    ensures text { IfOk result (λ text. text ≡ written (derivation_form outline.now) ++ 10 ∷ []) }
{
    let mut out = Text::new(alloc);
    append_derivation(alloc, &mut out, outline.as_slice())?;
    out.push(b'\n')?;
    Ok(out)
}
