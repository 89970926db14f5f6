//! Cuts characters into tokens.

ghost use Rattle.std.specs.Prelude.{◌≡◌, ◌≢◌, ◌-◌, ◌<◌, ◌≤◌, ◌^◌, All, IfErr, IfOk, drop, encode_utf8_all, false, length, slice_index, take, true, ℕ};
ghost use Rattle.std.specs.Char.{IsScalar, is_ascii_digit};
ghost use Rattle.std.specs.List.{list_all};
ghost use Rattle.std.specs.Option.{option_map};
ghost use Rattle.unicode_ident.specs.Ident.{is_xid_continue, is_xid_start};
ghost use Rattle.core_text.specs.Tokens.{is_white};
ghost use Rattle.core_text.specs.Words.{numeral_of};
ghost use Rattle.tps_reader.specs.Lexed.{mark_of};
ghost use Rattle.tps_reader.specs.Tokens.{BeginsNone, HasBadCharacter, HasTokens, Spells};
ghost use Rattle.tps_reader.specs.Views.{plain_sign, plain_tokens};

use crate::faults::RawFault;
use crate::lexemes::{Lexeme, Symbol};
use core_text::words::numeral;
use std::alloc::{AllocError, Global};
use unicode_ident::{is_xid_continue, is_xid_start};

/// The number of characters that a word has at most.
pub const LONGEST_WORD: usize = 64;

fn is_white(c: char) -> bool
    ensures { result ≡ is_white c }
{
    c == ' ' || c == '\t' || c == '\n' || c == '\r'
}

/// The end of the white space that begins here.
fn white_end(characters: &[char], from: usize) -> usize
    requires { from ≤ length characters.now }
    ensures range { (from ≤ result) × (result ≤ length characters.now) }
    ensures blank { list_all is_white (take (result - from) (drop from characters.now)) ≡ true }
    ensures stop { result < length characters.now → is_white (slice_index characters.now result) ≡ false }
{
    let mut at = from;
    while at < characters.len() && is_white(characters[at]) {
        at += 1;
    }
    at
}

/// The end of the digits that begin here.
fn digits_end(characters: &[char], from: usize) -> usize
    requires { from ≤ length characters.now }
    ensures range { (from ≤ result) × (result ≤ length characters.now) }
    ensures digits { list_all is_ascii_digit (take (result - from) (drop from characters.now)) ≡ true }
    ensures stop { result < length characters.now → is_ascii_digit (slice_index characters.now result) ≡ false }
{
    let mut at = from;
    while at < characters.len() && characters[at].is_ascii_digit() {
        at += 1;
    }
    at
}

/// The end of the characters that continue an identifier from here on.
fn word_end(characters: &[char], from: usize) -> usize
    requires { from ≤ length characters.now }
    ensures range { (from ≤ result) × (result ≤ length characters.now) }
    ensures continues { list_all is_xid_continue (take (result - from) (drop from characters.now)) ≡ true }
    ensures stop { result < length characters.now → is_xid_continue (slice_index characters.now result) ≡ false }
{
    let mut at = from;
    while at < characters.len() && is_xid_continue(characters[at]) {
        at += 1;
    }
    at
}

/// The bracket or other mark that the character is.
fn mark(c: char) -> Option<Symbol>
    ensures { option_map plain_sign result ≡ mark_of c }
{
    match c {
        '[' => Some(Symbol::OpenSquare),
        ']' => Some(Symbol::CloseSquare),
        '(' => Some(Symbol::OpenRound),
        ')' => Some(Symbol::CloseRound),
        '.' => Some(Symbol::Dot),
        '~' => Some(Symbol::Tilde),
        ';' => Some(Symbol::Semicolon),
        _ => None,
    }
}

/// The digits as bytes.
fn digits_of(alloc: Global, digits: &[char]) -> Result<Vec<u8>, AllocError>
    requires { list_all is_ascii_digit digits.now ≡ true }
    ensures { IfOk result (λ bytes. bytes.items ≡ digits.now) }
{
    let mut bytes = Vec::new(alloc);
    for digit in digits {
        bytes.push(*digit as u8)?;
    }
    Ok(bytes)
}

/// The number that the digits spell, if they are a numeral.
fn number_of(alloc: Global, digits: &[char]) -> Result<Option<u64>, AllocError>
    requires { list_all is_ascii_digit digits.now ≡ true }
    ensures { IfOk result (λ number. number ≡ numeral_of digits.now) }
{
    let bytes = digits_of(alloc, digits)?;
    Ok(numeral(&bytes))
}

/// The numeral that begins here, and the index after it.
fn numeral_at(
    alloc: Global,
    characters: &[char],
    at: usize,
    place: u64,
) -> Result<(Symbol, usize), RawFault>
    requires inside { at < length characters.now }
    requires digit { is_ascii_digit (slice_index characters.now at) ≡ true }
    ensures range { IfOk result (λ r. (at < r.1) × (r.1 ≤ length characters.now)) }
    ensures spelled { IfOk result (λ r. Spells (take (r.1 - at) (drop at characters.now)) (drop r.1 characters.now) (plain_sign r.0)) }
    ensures fault { IfErr result (λ e. e ≢ RawFault.Memory → (e ≡ RawFault.BadCharacter place) × BeginsNone (drop at characters.now)) }
{
    let end = digits_end(characters, at);
    match number_of(alloc, &characters[at..end])? {
        Some(number) => Ok((Symbol::Numeral(number), end)),
        None => Err(RawFault::BadCharacter(place)),
    }
}

/// The word that begins here, and the index after it.
fn word_at(
    alloc: Global,
    characters: &[char],
    at: usize,
    place: u64,
) -> Result<(Symbol, usize), RawFault>
    requires inside { at < length characters.now }
    requires scalars { All IsScalar characters.now }
    requires starts { is_xid_start (slice_index characters.now at) ≡ true }
    ensures range { IfOk result (λ r. (at < r.1) × (r.1 ≤ length characters.now)) }
    ensures spelled { IfOk result (λ r. Spells (take (r.1 - at) (drop at characters.now)) (drop r.1 characters.now) (plain_sign r.0)) }
    ensures fault { IfErr result (λ e. e ≢ RawFault.Memory → (e ≡ RawFault.BadCharacter place) × BeginsNone (drop at characters.now)) }
{
    let end = word_end(characters, at + 1);
    if end - at > LONGEST_WORD {
        return Err(RawFault::BadCharacter(place));
    }
    let word = Vec::from_slice(alloc, &characters[at..end])?;
    Ok((Symbol::Word(word), end))
}

/// The token that begins here, and the index after it.
fn symbol_at(
    alloc: Global,
    characters: &[char],
    at: usize,
    place: u64,
) -> Result<(Symbol, usize), RawFault>
    requires inside { at < length characters.now }
    requires scalars { All IsScalar characters.now }
    ensures range { IfOk result (λ r. (at < r.1) × (r.1 ≤ length characters.now)) }
    ensures spelled { IfOk result (λ r. Spells (take (r.1 - at) (drop at characters.now)) (drop r.1 characters.now) (plain_sign r.0)) }
    ensures fault { IfErr result (λ e. e ≢ RawFault.Memory → (e ≡ RawFault.BadCharacter place) × BeginsNone (drop at characters.now)) }
{
    let first = characters[at];
    if let Some(symbol) = mark(first) {
        return Ok((symbol, at + 1));
    }
    if first.is_ascii_digit() {
        return numeral_at(alloc, characters, at, place);
    }
    if is_xid_start(first) {
        return word_at(alloc, characters, at, place);
    }
    Err(RawFault::BadCharacter(place))
}

/// The number of bytes of the characters in UTF-8.
fn byte_length(characters: &[char]) -> u64
    requires { length (encode_utf8_all characters.now) < 2 ^ 64 }
    ensures { result ≡ length (encode_utf8_all characters.now) }
{
    let mut sum = 0;
    for c in characters {
        sum += c.len_utf8() as u64;
    }
    sum
}

/// The tokens of the characters, which have `total` bytes.
pub fn cut(alloc: Global, characters: &[char], total: u64) -> Result<Vec<Lexeme>, RawFault>
    requires bytes { length (encode_utf8_all characters.now) ≡ total }
    requires scalars { All IsScalar characters.now }
    ensures tokens { IfOk result (λ lexemes. HasTokens characters.now (plain_tokens lexemes.items)) }
    ensures fault { IfErr result (λ e. e ≢ RawFault.Memory → (place : ℕ) × (e ≡ RawFault.BadCharacter place) × HasBadCharacter characters.now place) }
{
    let mut lexemes = Vec::new(alloc);
    let mut at = 0;
    let mut place: u64 = 0;
    loop {
        let start = white_end(characters, at);
        if start == characters.len() {
            return Ok(lexemes);
        }
        let from = place + (start - at) as u64;
        let (symbol, end) = match symbol_at(alloc, characters, start, from) {
            Ok(found) => found,
            Err(fault) => return Err(fault),
        };
        let length = byte_length(&characters[start..end]);
        lexemes.push(Lexeme {
            symbol,
            place: from,
            length,
        })?;
        place = from + length;
        at = end;
    }
}
