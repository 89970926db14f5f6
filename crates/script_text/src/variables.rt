//! Variables with their written types, and names.

ghost use Rattle.std.specs.Prelude.{[], ◌≡◌, IfErr, IfOk, None, Some, List, encode_utf8_all, if◌then◌else◌, true, ◌∷◌};
ghost use Rattle.script_text.specs.Grammar.{IsVariableOf};
ghost use Rattle.script_text.specs.Tails.{HasTail, IsFaultIn, variable, bare_name};
ghost use Rattle.script_text.specs.Variables.{after_bare, after_within, is_whole, name_in, part_closed, read_next, read_on, whole_in};
ghost use Rattle.script_text.specs.Grammar.{Leads};
ghost use Rattle.core_text.specs.Words.{is_name};
ghost use Rattle.hol_terms.specs.Names.{IsName};
ghost use Rattle.std.specs.List.{list_all};
ghost use Rattle.tps_reader.specs.Grammar.{is_letter, is_letters};
ghost use Rattle.tps_reader.specs.Raws.{plain_raw};
ghost use Rattle.tps_reader.specs.Tokens.{word};
ghost use Rattle.tps_reader.specs.Views.{plain_sign, plain_tokens};

use crate::faults::{CommandFault, of_text};
use crate::slices::{place_at, unexpected};
use hol_terms::names::{Name, NameFault};
use std::alloc::{AllocError, Global};
use tps_reader::lexemes::{Lexeme, Symbol};
use tps_reader::phrases::read_phrase;
use tps_reader::raws::Raw;

/// What was read of a variable: nothing; a name; a written type that isn't closed, with the number of parentheses that are open around
/// its innermost part and whether that part has something; or a closed written type.
#[derive(Clone, Copy)]
pub enum Reading {
    NoName,
    Bare,
    Within(u64, bool),
    Closed,
}

impl Reading {
    /// Whether a variable was read.
    fn is_whole(self) -> bool
        ensures { result ≡ is_whole self }
    {
        match self {
            Reading::Bare | Reading::Closed => true,
            Reading::NoName | Reading::Within(_, _) => false,
        }
    }
}

/// The characters as a text.
fn text_of(alloc: Global, characters: &[char]) -> Result<String, AllocError>
    ensures { IfOk result (λ text. text.bytes.items ≡ encode_utf8_all characters.now) }
{
    let mut text = String::new(alloc);
    for c in characters {
        text.push(*c)?;
    }
    Ok(text)
}

/// The name that the characters make, if they make one.
fn name_of(alloc: Global, characters: &[char]) -> Result<Option<Name>, AllocError>
    ensures { IfOk result (λ name. name ≡ (if is_name (encode_utf8_all characters.now) then Some characters.now else None)) }
{
    let text = text_of(alloc, characters)?;
    match Name::new(alloc, text.as_str()) {
        Ok(name) => Ok(Some(name)),
        Err(NameFault::NotAName) => Ok(None),
        Err(NameFault::Memory) => Err(AllocError),
    }
}

/// The name that a token is, if it is one.
fn name_in(alloc: Global, symbol: &Symbol) -> Result<Option<Name>, AllocError>
    ensures { IfOk result (λ name. name ≡ name_in (plain_sign symbol.now)) }
{
    match symbol {
        Symbol::Word(characters) => name_of(alloc, characters.as_slice()),
        _ => Ok(None),
    }
}

/// Whether all of the characters are letters from A to Z.
fn are_letters(characters: &[char]) -> bool
    ensures { result ≡ list_all is_letter characters.now }
{
    for c in characters {
        if *c < 'A' || *c > 'Z' {
            return false;
        }
    }
    true
}

/// Whether the characters are letters from A to Z, at least one.
fn is_letters(characters: &[char]) -> bool
    ensures { result ≡ is_letters characters.now }
{
    match characters {
        [] => false,
        letters => are_letters(letters),
    }
}

/// A part of a written type is closed.
fn part_closed(around: u64, filled: bool) -> Option<Reading>
    ensures { result ≡ part_closed around filled }
{
    if !filled {
        return None;
    }
    if around == 0 {
        Some(Reading::Closed)
    } else {
        Some(Reading::Within(around - 1, true))
    }
}

/// One token more in a written type.
fn after_within(around: u64, filled: bool, symbol: &Symbol) -> Result<Option<Reading>, AllocError>
    ensures { IfOk result (λ next. next ≡ after_within around filled (plain_sign symbol.now)) }
{
    match symbol {
        Symbol::OpenRound => {
            let around = around.checked_add(1).ok_or(AllocError)?;
            Ok(Some(Reading::Within(around, false)))
        }
        Symbol::CloseRound => Ok(part_closed(around, filled)),
        Symbol::Word(word) => {
            if is_letters(word.as_slice()) {
                Ok(Some(Reading::Within(around, true)))
            } else {
                Ok(None)
            }
        }
        _ => Ok(None),
    }
}

/// One token more after a name.
fn after_bare(symbol: &Symbol) -> Option<Reading>
    ensures { result ≡ after_bare (plain_sign symbol.now) }
{
    match symbol {
        Symbol::OpenRound => Some(Reading::Within(0, false)),
        _ => None,
    }
}

/// One token more, `None` where none such may follow.
fn read_next(
    alloc: Global,
    reading: Reading,
    symbol: &Symbol,
) -> Result<Option<Reading>, AllocError>
    ensures { IfOk result (λ next. next ≡ read_next reading (plain_sign symbol.now)) }
{
    match reading {
        Reading::NoName => match name_in(alloc, symbol)? {
            Some(_) => Ok(Some(Reading::Bare)),
            None => Ok(None),
        },
        Reading::Bare => Ok(after_bare(symbol)),
        Reading::Within(around, filled) => after_within(around, filled, symbol),
        Reading::Closed => Ok(None),
    }
}

/// Reads the tokens of a variable one after the other.
fn read_on(alloc: Global, lexemes: &[Lexeme], end: u64) -> Result<(), CommandFault>
    ensures whole { IfOk result (λ _. whole_in (read_on (plain_tokens lexemes.now) (Some Reading.NoName)) ≡ true) }
    ensures fault { IfErr result (λ fault. IsFaultIn (HasTail variable) (plain_tokens lexemes.now) end fault) }
{
    let mut reading = Reading::NoName;
    for lexeme in lexemes {
        reading = match read_next(alloc, reading, &lexeme.symbol)? {
            Some(next) => next,
            None => return Err(unexpected(lexeme.place)),
        };
    }
    if reading.is_whole() {
        Ok(())
    } else {
        Err(unexpected(end))
    }
}

/// A name, with or without a written type, which is all of the tokens.
pub fn read_variable(alloc: Global, lexemes: &[Lexeme], end: u64) -> Result<Raw, CommandFault>
    ensures variable { IfOk result (λ v. IsVariableOf (plain_tokens lexemes.now) (plain_raw v)) }
    ensures fault { IfErr result (λ fault. IsFaultIn (HasTail variable) (plain_tokens lexemes.now) end fault) }
{
    read_on(alloc, lexemes, end)?;
    let origin = place_at(lexemes, 0, 0);
    match read_phrase(alloc, lexemes, origin, end) {
        Ok(raw) => Ok(raw),
        Err(fault) => Err(of_text(fault)),
    }
}

/// A name without a written type, which is all of the tokens.
pub fn read_name(alloc: Global, lexemes: &[Lexeme], end: u64) -> Result<Name, CommandFault>
    ensures leads { IfOk result (λ name. Leads (word name ∷ []) [] (plain_tokens lexemes.now)) }
    ensures name { IfOk result (λ name. IsName name) }
    ensures fault { IfErr result (λ fault. IsFaultIn (HasTail bare_name) (plain_tokens lexemes.now) end fault) }
{
    if lexemes.is_empty() {
        return Err(unexpected(end));
    }
    let name = match name_in(alloc, &lexemes[0].symbol)? {
        Some(name) => name,
        None => return Err(unexpected(lexemes[0].place)),
    };
    if lexemes.len() > 1 {
        return Err(unexpected(lexemes[1].place));
    }
    Ok(name)
}
