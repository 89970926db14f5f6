//! What tokens are in a phrase.

ghost use Rattle.std.specs.Prelude.{◌≡◌, IfOk, encode_utf8_all};
ghost use Rattle.tps_reader.specs.Machine.{is_closing, is_parenthesis, name_or_other, role_of, word_role};
ghost use Rattle.tps_reader.specs.Reader.{plain_role};
ghost use Rattle.tps_reader.specs.Views.{plain_sign};

use crate::faults::RawFault;
use crate::lexemes::Symbol;
use crate::raws::{Binder, Infix};
use hol_terms::names::{Name, NameFault};
use std::alloc::{AllocError, Global};

/// What a token is outside written types.
#[derive(Drop)]
pub enum Role {
    Name(Name),
    Truth(bool),
    Binder(Binder),
    Infix(Infix),
    Opening,
    Closing,
    Dot,
    Tilde,
    Parenthesis,
    Other,
}

impl Role {
    /// Whether the token is an opening parenthesis.
    pub fn is_parenthesis(&self) -> bool
        ensures { result ≡ is_parenthesis (plain_role self.now) }
    {
        matches!(self, Role::Parenthesis)
    }

    /// Whether the token is a closing square bracket.
    pub fn is_closing(&self) -> bool
        ensures { result ≡ is_closing (plain_role self.now) }
    {
        matches!(self, Role::Closing)
    }
}

/// The characters as a text.
fn text_of(alloc: Global, characters: &[char]) -> Result<String, AllocError>
    ensures { IfOk result (λ text. text.bytes.items ≡ encode_utf8_all characters.now) }
{
    let mut text = String::new(alloc);
    for c in characters {
        text.push(*c)?;
    }
    Ok(text)
}

/// The name that the characters make, if they make one.
fn name_role(alloc: Global, characters: &[char]) -> Result<Role, AllocError>
    ensures { IfOk result (λ role. plain_role role ≡ name_or_other characters.now) }
{
    let text = text_of(alloc, characters)?;
    match Name::new(alloc, text.as_str()) {
        Ok(name) => Ok(Role::Name(name)),
        Err(NameFault::NotAName) => Ok(Role::Other),
        Err(NameFault::Memory) => Err(AllocError),
    }
}

/// What a word is: a reserved word, a name or neither.
fn word_role(alloc: Global, word: &[char]) -> Result<Role, AllocError>
    ensures { IfOk result (λ role. plain_role role ≡ word_role word.now) }
{
    if word == ['A', 'N', 'D'].as_slice() {
        return Ok(Role::Infix(Infix::And));
    }
    if word == ['O', 'R'].as_slice() {
        return Ok(Role::Infix(Infix::Or));
    }
    if word == ['I', 'M', 'P', 'L', 'I', 'E', 'S'].as_slice() {
        return Ok(Role::Infix(Infix::Implies));
    }
    if word == ['E', 'Q', 'U', 'I', 'V'].as_slice() {
        return Ok(Role::Infix(Infix::Equiv));
    }
    if word == ['T', 'R', 'U', 'T', 'H'].as_slice() {
        return Ok(Role::Truth(true));
    }
    if word == ['F', 'A', 'L', 'S', 'E', 'H', 'O', 'O', 'D'].as_slice() {
        return Ok(Role::Truth(false));
    }
    if word == ['F', 'O', 'R', 'A', 'L', 'L'].as_slice() {
        return Ok(Role::Binder(Binder::Forall));
    }
    if word == ['E', 'X', 'I', 'S', 'T', 'S'].as_slice() {
        return Ok(Role::Binder(Binder::Exists));
    }
    if word == ['L', 'A', 'M', 'B', 'D', 'A'].as_slice() {
        return Ok(Role::Binder(Binder::Lambda));
    }
    name_role(alloc, word)
}

/// What a token is outside written types.
pub fn role_of(alloc: Global, symbol: &Symbol) -> Result<Role, AllocError>
    ensures { IfOk result (λ role. plain_role role ≡ role_of (plain_sign symbol.now)) }
{
    match symbol {
        Symbol::OpenSquare => Ok(Role::Opening),
        Symbol::CloseSquare => Ok(Role::Closing),
        Symbol::OpenRound => Ok(Role::Parenthesis),
        Symbol::Dot => Ok(Role::Dot),
        Symbol::Tilde => Ok(Role::Tilde),
        Symbol::Word(word) => word_role(alloc, word.as_slice()),
        Symbol::CloseRound | Symbol::Semicolon | Symbol::Numeral(_) => Ok(Role::Other),
    }
}
