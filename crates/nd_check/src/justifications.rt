//! Justifications read from forms.

ghost use Rattle.std.specs.Prelude.{◌≡◌};
ghost use Rattle.core_text.specs.Placed.{placed, placed_all};
ghost use Rattle.core_text.specs.Reading.{Gives};
ghost use Rattle.nd_rules.specs.Lines.{plain_why};
ghost use Rattle.nd_check.specs.Reading.{bare_in, choice_at, conversion_at, numbers_at, rule_at, two_at, why_at};

use core_text::faults::TextFault;
use core_text::sexps::{Sexp, Sexps};
use core_text::terms::{is_keyword, read_name, read_number, read_preterm};
use hol_terms::lists::Numbers;
use nd_rules::lines::Why;
use std::alloc::Global;

/// The numbers of the members of a list.
fn read_numbers(alloc: Global, members: &Sexps) -> Result<Numbers, TextFault>
    ensures { Gives (λ numbers. numbers) result (numbers_at (placed_all members.now)) }
{
    let mut numbers = Numbers::new(alloc);
    let mut rest = members;
    while let Sexps::More(form, more) = rest {
        let number = match read_number(form) {
            Ok(number) => number,
            Err(fault) => return Err(fault),
        };
        numbers.push(number)?;
        rest = &**more;
    }
    Ok(numbers)
}

/// The justification that a word alone names.
fn bare(word: &[u8], place: u64) -> Result<Why, TextFault>
    ensures { Gives plain_why result (bare_in word.now place) }
{
    if is_keyword(word, b"P") {
        Ok(Why::Hyp)
    } else if is_keyword(word, b"PLANNED") {
        Ok(Why::Planned)
    } else {
        Err(TextFault::BadForm(place))
    }
}

/// The justification by one line, by its word.
fn read_conversion(word: &[u8], source: &Sexp, place: u64) -> Result<Why, TextFault>
    ensures { Gives plain_why result (conversion_at word.now (placed source.now) place) }
{
    if is_keyword(word, b"LAMBDA") {
        let src = read_number(source)?;
        Ok(Why::Lambda { src })
    } else {
        Err(TextFault::BadForm(place))
    }
}

/// The justification of a word and two members.
fn read_two(
    alloc: Global,
    word: &[u8],
    first: &Sexp,
    second: &Sexp,
    place: u64,
) -> Result<Why, TextFault>
    ensures { Gives plain_why result (two_at word.now (placed first.now) (placed second.now) place) }
{
    if is_keyword(word, b"DEDUCT") {
        let src = read_number(first)?;
        let hyp = read_number(second)?;
        Ok(Why::Deduct { src, hyp })
    } else if is_keyword(word, b"UI") {
        let src = read_number(first)?;
        let term = read_preterm(alloc, second)?;
        Ok(Why::Ui { src, term })
    } else if is_keyword(word, b"EGEN") {
        let src = read_number(first)?;
        let term = read_preterm(alloc, second)?;
        Ok(Why::Egen { src, term })
    } else if is_keyword(word, b"UGEN") {
        let src = read_number(first)?;
        let var = read_name(alloc, second)?;
        Ok(Why::Ugen { src, var })
    } else {
        Err(TextFault::BadForm(place))
    }
}

/// The members of a choice: the existential line, the hypothesis, the line that rests on it, and the name.
#[derive(Clone, Copy)]
struct ChoiceForms<'a> {
    some_line: &'a Sexp,
    hyp: &'a Sexp,
    src: &'a Sexp,
    var: &'a Sexp,
}

/// The justification of a word and four members.
fn read_choice(
    alloc: Global,
    word: &[u8],
    forms: ChoiceForms<'_>,
    place: u64,
) -> Result<Why, TextFault>
    ensures { Gives plain_why result (choice_at word.now (placed forms.entry.some_line.now) (placed forms.entry.hyp.now) (placed forms.entry.src.now) (placed forms.entry.var.now) place) }
{
    if is_keyword(word, b"RULEC") {
        let some_line = read_number(forms.some_line)?;
        let hyp = read_number(forms.hyp)?;
        let src = read_number(forms.src)?;
        let var = read_name(alloc, forms.var)?;
        Ok(Why::Rulec {
            some_line,
            hyp,
            src,
            var,
        })
    } else {
        Err(TextFault::BadForm(place))
    }
}

/// The justification of a word, with what follows it; the rule of assignments is none.
fn read_rule(alloc: Global, word: &[u8], members: &Sexps, place: u64) -> Result<Why, TextFault>
    ensures { Gives plain_why result (rule_at word.now (placed_all members.now) place) }
{
    let Sexps::More(first, rest) = members else {
        return bare(word, place);
    };
    let Sexps::More(second, rest) = &**rest else {
        return read_conversion(word, first, place);
    };
    let Sexps::More(third, rest) = &**rest else {
        return read_two(alloc, word, first, second, place);
    };
    let Sexps::More(fourth, rest) = &**rest else {
        return Err(TextFault::BadForm(place));
    };
    let Sexps::End = &**rest else {
        return Err(TextFault::BadForm(place));
    };
    let forms = ChoiceForms {
        some_line: &**first,
        hyp: &**second,
        src: &**third,
        var: &**fourth,
    };
    read_choice(alloc, word, forms, place)
}

/// Reads a justification. `BadForm` has the place of the first form, a list before its members, that has no place in the table.
pub fn read_why(alloc: Global, form: &Sexp) -> Result<Why, TextFault>
    ensures { Gives plain_why result (why_at (placed form.now)) }
{
    let Sexp::List(all, place) = form else {
        return Err(TextFault::BadForm(form.place()));
    };
    let Sexps::More(head, members) = all else {
        return Err(TextFault::BadForm(*place));
    };
    let Sexp::Word(word, _) = &**head else {
        return Err(TextFault::BadForm(*place));
    };
    if is_keyword(word.as_slice(), b"RULEP") {
        let src = read_numbers(alloc, members)?;
        Ok(Why::Rulep { src })
    } else {
        read_rule(alloc, word.as_slice(), members, *place)
    }
}
