//! Numerals after the word of a command.

ghost use Rattle.std.specs.Prelude.{◌≡◌, ◌≤◌, IfErr, IfOk, true, ℕ, drop, length, map, vec_len};
ghost use Rattle.std.specs.List.Sorted.{IsStrictlyIncreasing};
ghost use Rattle.script_text.specs.Grammar.{Leads};
ghost use Rattle.script_text.specs.Tails.{BeginsNoNumber, HasBody, HasTail, IsFaultIn, Tail, first_number, number_in, numbered};
ghost use Rattle.tps_reader.specs.Tokens.{number};
ghost use Rattle.tps_reader.specs.Views.{plain_sign, plain_tokens};

use crate::faults::CommandFault;
use crate::slices::{place_at, unexpected};
use hol_terms::lists::{Hyps, Numbers};
use std::alloc::{AllocError, Global};
use tps_reader::lexemes::{Lexeme, Symbol};

/// The number that the token says, if it is a numeral.
fn number_of(symbol: &Symbol) -> Option<u64>
    ensures { result ≡ number_in (plain_sign symbol.now) }
{
    match symbol {
        Symbol::Numeral(n) => Some(*n),
        _ => None,
    }
}

/// The number that token `at` says, if there is such a token and it is a numeral.
fn number_at(lexemes: &[Lexeme], at: usize) -> Option<u64>
    ensures { result ≡ first_number (drop at (plain_tokens lexemes.now)) }
{
    if at < lexemes.len() {
        number_of(&lexemes[at].symbol)
    } else {
        None
    }
}

/// So many numerals at the start of the tokens, or the fault where there are fewer.
pub fn numerals(
    alloc: Global,
    count: usize,
    lexemes: &[Lexeme],
    end: u64,
) -> Result<Vec<u64>, CommandFault>
    ensures leads { IfOk result (λ ns. Leads (map number ns.items) (drop count (plain_tokens lexemes.now)) (plain_tokens lexemes.now)) }
    ensures count { IfOk result (λ ns. vec_len ns ≡ count) }
    ensures within { IfOk result (λ _. count ≤ length lexemes.now) }
    ensures fault { IfErr result (λ fault. (tail : Tail) → IsFaultIn (HasBody count tail) (plain_tokens lexemes.now) end fault) }
{
    let mut numbers = Vec::new(alloc);
    for at in 0..count {
        match number_at(lexemes, at) {
            Some(n) => numbers.push(n)?,
            None => return Err(unexpected(place_at(lexemes, at, end))),
        }
    }
    Ok(numbers)
}

/// All numerals at the start of the tokens, or the fault where one doesn't rise above the one before it.
pub fn rising_numerals(alloc: Global, lexemes: &[Lexeme]) -> Result<Hyps, CommandFault>
    ensures leads { IfOk result (λ ns. Leads (map number ns) (drop (length ns) (plain_tokens lexemes.now)) (plain_tokens lexemes.now)) }
    ensures rising { IfOk result (λ ns. IsStrictlyIncreasing ns) }
    ensures all { IfOk result (λ ns. BeginsNoNumber (drop (length ns) (plain_tokens lexemes.now))) }
    ensures within { IfOk result (λ ns. length ns ≤ length lexemes.now) }
    ensures fault { IfErr result (λ fault. (last : ℕ) → IsFaultIn (HasTail (numbered true)) (plain_tokens lexemes.now) last fault) }
{
    let mut numbers = Hyps::new(alloc);
    for at in 0..lexemes.len() {
        let Some(n) = number_at(lexemes, at) else {
            return Ok(numbers);
        };
        if !numbers.may_push(n) {
            return Err(unexpected(lexemes[at].place));
        }
        numbers.push(n)?;
    }
    Ok(numbers)
}

/// All numerals at the start of the tokens.
pub fn all_numerals(alloc: Global, lexemes: &[Lexeme]) -> Result<Numbers, AllocError>
    ensures leads { IfOk result (λ ns. Leads (map number ns) (drop (length ns) (plain_tokens lexemes.now)) (plain_tokens lexemes.now)) }
    ensures all { IfOk result (λ ns. BeginsNoNumber (drop (length ns) (plain_tokens lexemes.now))) }
    ensures within { IfOk result (λ ns. length ns ≤ length lexemes.now) }
{
    let mut numbers = Numbers::new(alloc);
    for at in 0..lexemes.len() {
        let Some(n) = number_at(lexemes, at) else {
            return Ok(numbers);
        };
        numbers.push(n)?;
    }
    Ok(numbers)
}
