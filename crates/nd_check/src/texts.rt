//! Derivation texts read from bytes.

ghost use Rattle.std.specs.Prelude.{◌≡◌, ◌≢◌, IfErr, IfOk, List, map};
ghost use Rattle.core_text.specs.Judged.{Answers};
ghost use Rattle.core_text.specs.Placed.{placed};
ghost use Rattle.core_text.specs.Reading.{Gives};
ghost use Rattle.nd_rules.specs.Lines.{DeductionLine, plain_line};
ghost use Rattle.nd_rules.specs.Outlines.{IsOutline};
ghost use Rattle.nd_check.specs.Reading.{IsFirstFault, derivation_at, lines_in, parts_at, version_at};
ghost use Rattle.nd_check.specs.Texts.{IsDerivationText};
ghost use Rattle.nd_check.specs.Views.{plain_parts};

use crate::judgements::judge_lines;
use crate::lines::read_lines;
use core_text::brackets::read_sexp;
use core_text::faults::TextFault;
use core_text::sexps::{Sexp, Sexps};
use core_text::terms::is_keyword;
use nd_rules::faults::InsertFault;
use nd_rules::lines::Line;
use nd_rules::outlines::Outline;
use std::alloc::{AllocError, Global};

/// The members of the form of a derivation after its first word: the version, and at least one line.
#[derive(Clone, Copy)]
pub struct TextParts<'a> {
    pub version: &'a Sexp,
    pub lines: &'a Sexps,
}

/// The parts of a form `(DERIVATION version line ..)`.
fn parts(form: &Sexp) -> Result<TextParts<'_>, TextFault>
    ensures { Gives plain_parts result (parts_at (placed form.now)) }
{
    let Sexp::List(all, place) = form else {
        return Err(TextFault::BadForm(form.place()));
    };
    let Sexps::More(head, rest) = all else {
        return Err(TextFault::BadForm(*place));
    };
    let Sexp::Word(word, _) = &**head else {
        return Err(TextFault::BadForm(*place));
    };
    let Sexps::More(version, lines) = &**rest else {
        return Err(TextFault::BadForm(*place));
    };
    let Sexps::More(_, _) = &**lines else {
        return Err(TextFault::BadForm(*place));
    };
    if !is_keyword(word.as_slice(), b"DERIVATION") {
        return Err(TextFault::BadForm(*place));
    }
    Ok(TextParts {
        version: &**version,
        lines: &**lines,
    })
}

/// Whether the form is the number 1, the only version.
fn read_version(form: &Sexp) -> Result<(), TextFault>
    ensures { Gives (λ one. tt) result (version_at (placed form.now)) }
{
    match form {
        Sexp::Number(number, place) => {
            if *number == 1 {
                Ok(())
            } else {
                Err(TextFault::BadForm(*place))
            }
        }
        _ => Err(TextFault::BadForm(form.place())),
    }
}

/// The lines of the parts, their terms typed or not.
fn read_parts(alloc: Global, parts: TextParts<'_>) -> Result<Vec<Line>, TextFault>
    ensures { Gives (λ lines. map plain_line lines.items) result (lines_in (plain_parts parts.entry)) }
{
    read_version(parts.version)?;
    read_lines(alloc, parts.lines)
}

/// The outline of lines.
fn outline_of(alloc: Global, lines: Vec<Line>) -> Result<Outline, AllocError>
    requires { IsOutline (map plain_line lines.items) }
    ensures { IfOk result (λ outline. outline ≡ map plain_line lines.items) }
{
    let mut outline = Outline::new(alloc);
    for line in lines {
        match outline.insert(line) {
            Ok(()) => (),
            Err(InsertFault::Memory) => return Err(AllocError),
            Err(InsertFault::Present(_)) => unreachable!(),
        }
    }
    Ok(outline)
}

/// The outline of a form.
fn read_form(alloc: Global, form: &Sexp) -> Result<Outline, TextFault>
    ensures { Answers (λ outline. outline) result (derivation_at (placed form.now)) }
{
    let parts = parts(form)?;
    let lines = read_parts(alloc, parts)?;
    match judge_lines(alloc, lines.as_slice(), parts.lines) {
        Ok(_) => Ok(outline_of(alloc, lines)?),
        Err(fault) => Err(fault),
    }
}

/// Reads a derivation text: at least one line, with numbers that rise strictly. The first fault is one of the bytes as a bracketed
/// form; then `BadForm`, with the place of the first form, a list before its members, that has no place in the table, and none has a
/// number that doesn't rise; then `LooseIndex` and `IllTyped` of each formula and each term, in the order of the text; and then
/// `IllTyped` at the first formula of another type than O.
pub fn read_derivation(alloc: Global, bytes: &[u8]) -> Result<Outline, TextFault>
    ensures found { IfOk result (λ outline. IsDerivationText bytes.now outline) }
    ensures only { IfOk result (λ outline. (lines : List DeductionLine) → IsDerivationText bytes.now lines → lines ≡ outline) }
    ensures fault { IfErr result (λ e. IsFirstFault bytes.now e) }
    ensures none { IfErr result (λ e. e ≢ TextFault.Memory → (lines : List DeductionLine) → IsDerivationText bytes.now lines → ⊥) }
{
    match read_sexp(alloc, bytes) {
        Ok(form) => read_form(alloc, &form),
        Err(fault) => Err(fault),
    }
}
