//! What stands after the word of a command and its numerals.

ghost use Rattle.std.specs.Prelude.{[], ◌≡◌, ◌↔◌, ◌<◌, ◌≤◌, ◌++◌, ◌∷◌, IsTrue, false, true, IfErr, IfOk, List, drop, length, map, take, ℕ, ◌^◌};
ghost use Rattle.std.specs.List.Sorted.{IsStrictlyIncreasing};
ghost use Rattle.script_text.specs.Grammar.{IsPhraseOf, Leads};
ghost use Rattle.script_text.specs.Tails.{HasTail, IsFaultIn, FitsBehind, NoSemicolon, Rises, SemicolonFirst, moved_fault, no_more, numbered, one_phrase, two_phrases};
ghost use Rattle.tps_reader.specs.Raws.{plain_raw};
ghost use Rattle.tps_reader.specs.Tokens.{Token, number, semicolon, sign_of};
ghost use Rattle.tps_reader.specs.Views.{plain_sign, plain_tokens};

use crate::faults::CommandFault;
use crate::numerals::{all_numerals, rising_numerals};
use crate::slices::{before, behind, place_at, unexpected};
use hol_terms::lists::{Hyps, Numbers};
use std::alloc::Global;
use tps_reader::faults::RawFault;
use tps_reader::lexemes::{Lexeme, Symbol};
use tps_reader::phrases::read_phrase;
use tps_reader::raws::Raw;

/// No tokens.
pub fn read_nothing(lexemes: &[Lexeme]) -> Result<(), CommandFault>
    ensures nothing { IfOk result (λ _. plain_tokens lexemes.now ≡ []) }
    ensures fault { IfErr result (λ fault. (last : ℕ) → IsFaultIn (HasTail no_more) (plain_tokens lexemes.now) last fault) }
{
    if lexemes.is_empty() {
        Ok(())
    } else {
        Err(unexpected(lexemes[0].place))
    }
}

/// The fault of a phrase, its place counted from the start of the line.
fn moved(fault: RawFault, origin: u64) -> CommandFault
    requires { FitsBehind origin fault }
    ensures { result ≡ moved_fault origin fault }
{
    match fault {
        RawFault::NotUtf8 => CommandFault::Raw(RawFault::NotUtf8),
        RawFault::BadCharacter(place) => CommandFault::Raw(RawFault::BadCharacter(place)),
        RawFault::TooDeep(depth) => CommandFault::Raw(RawFault::TooDeep(depth)),
        RawFault::Unexpected(place) => CommandFault::Raw(RawFault::Unexpected(origin + place)),
        RawFault::Memory => CommandFault::Memory,
    }
}

/// A phrase, all of the tokens, which stand before `end`.
pub fn read_one(alloc: Global, lexemes: &[Lexeme], end: u64) -> Result<Raw, CommandFault>
    requires { Rises 0 (plain_tokens lexemes.now) end }
    ensures phrase { IfOk result (λ v. IsPhraseOf (plain_tokens lexemes.now) (plain_raw v)) }
    ensures fault { IfErr result (λ fault. IsFaultIn (HasTail one_phrase) (plain_tokens lexemes.now) end fault) }
{
    let origin = place_at(lexemes, 0, 0);
    match read_phrase(alloc, lexemes, origin, end - origin) {
        Ok(raw) => Ok(raw),
        Err(fault) => Err(moved(fault, origin)),
    }
}

/// Rising numerals, and then a phrase.
pub fn read_rising(alloc: Global, lexemes: &[Lexeme], end: u64) -> Result<(Hyps, Raw), CommandFault>
    requires { Rises 0 (plain_tokens lexemes.now) end }
    ensures parts { IfOk result (λ p. (back : List Token) × Leads (map number p.0) back (plain_tokens lexemes.now) × IsStrictlyIncreasing p.0 × IsPhraseOf back (plain_raw p.1)) }
    ensures fault { IfErr result (λ fault. IsFaultIn (HasTail (numbered true)) (plain_tokens lexemes.now) end fault) }
{
    let numbers = rising_numerals(alloc, lexemes)?;
    let at = numbers.len() as usize;
    let phrase = read_one(alloc, behind(lexemes, at), end)?;
    Ok((numbers, phrase))
}

/// Numerals, and then a phrase.
pub fn read_numbered(
    alloc: Global,
    lexemes: &[Lexeme],
    end: u64,
) -> Result<(Numbers, Raw), CommandFault>
    requires { Rises 0 (plain_tokens lexemes.now) end }
    ensures parts { IfOk result (λ p. (back : List Token) × Leads (map number p.0) back (plain_tokens lexemes.now) × IsPhraseOf back (plain_raw p.1)) }
    ensures fault { IfErr result (λ fault. IsFaultIn (HasTail (numbered false)) (plain_tokens lexemes.now) end fault) }
{
    let numbers = all_numerals(alloc, lexemes)?;
    let at = numbers.len() as usize;
    let phrase = read_one(alloc, behind(lexemes, at), end)?;
    Ok((numbers, phrase))
}

/// Whether the token is a semicolon.
fn is_semicolon(symbol: &Symbol) -> bool
    ensures { IsTrue result ↔ (plain_sign symbol.now ≡ semicolon) }
{
    matches!(symbol, Symbol::Semicolon)
}

/// Which token is the first semicolon, or the number of tokens where there is none.
fn semicolon_at(lexemes: &[Lexeme]) -> usize
    ensures within { result ≤ length lexemes.now }
    ensures before { NoSemicolon (take result (plain_tokens lexemes.now)) }
    ensures found { SemicolonFirst (drop result (plain_tokens lexemes.now)) }
{
    for at in 0..lexemes.len() {
        if is_semicolon(&lexemes[at].symbol) {
            return at;
        }
    }
    lexemes.len()
}

/// Two phrases with a semicolon between them. The first semicolon ends the first phrase, since a phrase has none.
pub fn read_two(alloc: Global, lexemes: &[Lexeme], end: u64) -> Result<(Raw, Raw), CommandFault>
    requires { Rises 0 (plain_tokens lexemes.now) end }
    ensures parts { IfOk result (λ p. (front : List Token) × (t : Token) × (back : List Token) × (plain_tokens lexemes.now ≡ front ++ (t ∷ back)) × (sign_of t ≡ semicolon) × IsPhraseOf front (plain_raw p.0) × IsPhraseOf back (plain_raw p.1)) }
    ensures fault { IfErr result (λ fault. IsFaultIn (HasTail two_phrases) (plain_tokens lexemes.now) end fault) }
{
    let at = semicolon_at(lexemes);
    let first = read_one(alloc, before(lexemes, at), place_at(lexemes, at, end))?;
    if at == lexemes.len() {
        return Err(unexpected(end));
    }
    let second = read_one(alloc, behind(lexemes, at + 1), end)?;
    Ok((first, second))
}
