//! Names of variables.

ghost use Rattle.std.specs.Prelude.{◌≡◌, ◌↔◌, ◌∷◌, ◌<◌, ◌≤◌, All, IfOk, IsTrue, List, MatchResult, Some, decimal, encode_utf8_all, length, slice_get, ℕ};
ghost use Rattle.std.specs.Char.{IsScalar};
ghost use Rattle.hol_terms.specs.Names.{BeginsWithUnderscore, IsIdentifier, IsName, IsReserved, IsWord};
ghost use Rattle.hol_terms.specs.declared.names.NameFault.TheVariants.{NotAName};

use std::alloc::{AllocError, Global};
use std::marker::Model;
use unicode_ident::{is_xid_continue, is_xid_start};

/// The number of characters that a name has at most.
pub const LONGEST_NAME: usize = 64;

/// A name, which contracts see as the list of its characters. Each name is one: a word of 1 to 64 characters that starts and
/// continues as identifiers do, doesn't begin with `_`, and isn't reserved.
#[derive(Drop)]
pub struct Name {
    characters: Vec<char>,
}

impl Model for Name {
    ghost use Rattle.std.specs.Prelude.{List, ℕ};
    ghost use Rattle.hol_terms.specs.Names.{IsName};

    ghost Value = { List ℕ };

    ghost view = { λ name. name.characters.items };

    ghost invariant = { λ name. IsName name.characters.items };
}

/// Why no name was made: the text isn't one, or memory runs out.
#[derive(Clone, Copy, Debug, PartialEq, Eq)]
pub enum NameFault {
    NotAName,
    Memory,
}

impl From<AllocError> for NameFault {
    ghost use Rattle.hol_terms.specs.declared.names.NameFault.TheVariants.{Memory};

    ghost from_gives = { λ _ fault. fault ≡ Memory };

    fn from(_error: AllocError) -> NameFault {
        NameFault::Memory
    }
}

/// The characters of a text.
#[tactic(auto, using(crate::proofs::Naming::scalars_of_text))]
fn characters_of(alloc: Global, text: &str) -> Result<Vec<char>, AllocError>
    ensures bytes { IfOk result (λ characters. encode_utf8_all characters.items ≡ text.now) }
    ensures scalars { IfOk result (λ characters. All IsScalar characters.items) }
{
    text.chars().collect(alloc)
}

/// Whether the characters start and continue as identifiers do.
fn is_identifier(characters: &[char]) -> bool
    ensures { IsTrue result ↔ IsIdentifier characters.now }
{
    match characters {
        [] => false,
        [first, rest @ ..] => is_xid_start(*first) && rest.iter().all(|c| is_xid_continue(*c)),
    }
}

/// Whether the characters make a word.
fn is_word(characters: &[char]) -> bool
    requires { All IsScalar characters.now }
    ensures { IsTrue result ↔ IsWord characters.now }
{
    characters.len() <= LONGEST_NAME && is_identifier(characters)
}

/// Whether the characters begin with `_`.
fn begins_with_underscore(characters: &[char]) -> bool
    ensures { IsTrue result ↔ BeginsWithUnderscore characters.now }
{
    match characters {
        [] => false,
        [first, ..] => *first == '_',
    }
}

/// Whether the word is reserved.
fn is_reserved(word: &str) -> bool
    ensures { IsTrue result ↔ IsReserved word.now }
{
    matches!(
        word,
        "AND" | "OR" | "IMPLIES" | "EQUIV" | "TRUTH" | "FALSEHOOD" | "FORALL" | "EXISTS" | "LAMBDA"
    )
}

/// Whether the characters of the text make no reserved word.
fn is_unreserved(characters: &[char], text: &str) -> bool
    requires { encode_utf8_all characters.now ≡ text.now }
    ensures { IsTrue result ↔ (IsReserved characters.now → ⊥) }
{
    !is_reserved(text)
}

/// Whether the characters of the text make a name.
fn is_name(characters: &[char], text: &str) -> bool
    requires bytes { encode_utf8_all characters.now ≡ text.now }
    requires scalars { All IsScalar characters.now }
    ensures { IsTrue result ↔ IsName characters.now }
{
    is_word(characters) && !begins_with_underscore(characters) && is_unreserved(characters, text)
}

impl Name {
    /// The name that the text spells. `NotAName` comes exactly for a text that isn't one.
    pub fn new(alloc: Global, text: &str) -> Result<Name, NameFault>
        ensures ok { IfOk result (λ name. (encode_utf8_all name ≡ text.now) × IsName name) }
        ensures not_a_name { result ≡ Err NotAName → (name : List ℕ) → encode_utf8_all name ≡ text.now → IsName name → ⊥ }
    {
        let characters = characters_of(alloc, text)?;
        if is_name(&characters, text) {
            Ok(Name { characters })
        } else {
            Err(NameFault::NotAName)
        }
    }

    /// The letter a followed by the number in decimal.
    #[tactic(auto, using(crate::proofs::Naming::numbered_from_bytes, crate::proofs::Naming::numbered_is_name))]
    pub fn numbered(alloc: Global, number: u64) -> Result<Name, AllocError>
        ensures spelled { IfOk result (λ name. name ≡ 97 ∷ decimal number) }
        ensures named { IfOk result IsName }
    {
        let text = format!(in alloc; "a{number}")?;
        let characters = characters_of(alloc, text.as_str())?;
        Ok(Name { characters })
    }

    /// The characters, which make a name.
    pub fn characters(&self) -> &[char]
        ensures all { result.now ≡ self.now }
        ensures name { IsName self.now }
    {
        self.characters.as_slice()
    }

    /// The number of characters.
    pub fn len(&self) -> u64
        ensures { result ≡ length self.now }
    {
        self.characters.len() as u64
    }

    /// Character `i`, counted from 0.
    pub fn at(&self, i: u64) -> char
        requires { i < length self.now }
        ensures { slice_get self.now i ≡ Some result }
    {
        self.characters[i as usize]
    }

    /// Whether the two names are equal.
    pub fn same(&self, other: &Name) -> bool
        ensures { IsTrue result ↔ (self.now ≡ other.now) }
    {
        self.characters.as_slice() == other.characters.as_slice()
    }

    /// An equal name.
    pub fn copy(&self, alloc: Global) -> Result<Name, AllocError>
        ensures { IfOk result (λ name. name ≡ self.now) }
    {
        let characters = Vec::from_slice(alloc, self.characters.as_slice())?;
        Ok(Name { characters })
    }
}
