//! The tokens of a text.

ghost use Rattle.std.specs.Prelude.{◌≡◌, ◌≢◌, ◌<◌, All, IfErr, IfOk, List, Some, encode_utf8_all, length, slice_get, ℕ};
ghost use Rattle.std.specs.Char.{IsScalar};
ghost use Rattle.std.specs.Option.{option_map};
ghost use Rattle.tps_reader.specs.Depth.{depth_of};
ghost use Rattle.tps_reader.specs.Faults.{IsTokenFault};
ghost use Rattle.tps_reader.specs.Groups.{HasDepth};
ghost use Rattle.tps_reader.specs.Tokens.{AreTokensOf, Token as PlainToken, token_length, token_place};
ghost use Rattle.tps_reader.specs.Views.{plain_tokens};

use crate::cuts::cut;
use crate::depths::depth_of;
use crate::faults::RawFault;
use crate::lexemes::Lexeme;
use std::alloc::{AllocError, Global};
use std::marker::Model;

/// Where a token stands: the place of its first byte, counted from 0, and the number of its bytes.
#[derive(Clone, Copy, Debug, PartialEq, Eq)]
pub struct Token {
    pub place: u64,
    pub length: u64,
}

/// The tokens of a text, in their order, which contracts see as the list of them.
#[derive(Drop)]
pub struct Tokens {
    lexemes: Vec<Lexeme>,
    depth: u64,
}

impl Model for Tokens {
    ghost use Rattle.std.specs.Prelude.{◌≡◌, List};
    ghost use Rattle.std.specs.Coded.{coded_list};
    ghost use Rattle.tps_reader.specs.Codes.{token_code};
    ghost use Rattle.tps_reader.specs.Depth.{depth_of};
    ghost use Rattle.tps_reader.specs.Tokens.{Token as PlainToken};
    ghost use Rattle.tps_reader.specs.Views.{plain_tokens};

    ghost Value = { List PlainToken };

    ghost coded = { coded_list token_code };

    ghost view = { λ tokens. plain_tokens tokens.lexemes.items };

    ghost invariant = { λ tokens. tokens.depth ≡ depth_of (plain_tokens tokens.lexemes.items) };
}

impl Tokens {
    /// The number of tokens.
    pub fn len(&self) -> u64
        ensures { result ≡ length self.now }
    {
        self.lexemes.len() as u64
    }

    /// Where token `i`, counted from 0, stands.
    pub fn at(&self, i: u64) -> Token
        requires { i < length self.now }
        ensures place { option_map token_place (slice_get self.now i) ≡ Some result.place }
        ensures length { option_map token_length (slice_get self.now i) ≡ Some result.length }
    {
        let lexeme = &self.lexemes[i as usize];
        Token {
            place: lexeme.place,
            length: lexeme.length,
        }
    }

    /// The tokens as a slice.
    pub fn as_slice(&self) -> &[Lexeme]
        ensures { plain_tokens result.now ≡ self.now }
    {
        self.lexemes.as_slice()
    }

    /// How deep groups in square brackets stand in each other: the depth of a group is the number of its tokens that stand in no group
    /// inside it plus the greatest depth of a group directly inside it.
    #[tactic(auto, using(crate::proofs::Grouping::has_depth))]
    pub fn depth(&self) -> u64
        ensures counted { result ≡ depth_of self.now }
        ensures depth { HasDepth self.now result }
        ensures only { (other : ℕ) → HasDepth self.now other → other ≡ result }
    {
        self.depth
    }

    /// The tokens with their depth.
    fn of(alloc: Global, lexemes: Vec<Lexeme>) -> Result<Tokens, AllocError>
        ensures { IfOk result (λ tokens. tokens ≡ plain_tokens lexemes.items) }
    {
        let depth = depth_of(alloc, &lexemes)?;
        Ok(Tokens { lexemes, depth })
    }
}

/// The characters of a text.
#[tactic(auto, using(hol_terms::proofs::Naming::scalars_of_text))]
fn characters_of(alloc: Global, text: &str) -> Result<Vec<char>, AllocError>
    ensures bytes { IfOk result (λ characters. encode_utf8_all characters.items ≡ text.now) }
    ensures scalars { IfOk result (λ characters. All IsScalar characters.items) }
{
    text.chars().collect(alloc)
}

/// The tokens of a text.
fn tokens_of(alloc: Global, text: &str) -> Result<Tokens, RawFault>
    ensures tokens { IfOk result (λ tokens. AreTokensOf text.now tokens) }
    ensures fault { IfErr result (λ fault. IsTokenFault text.now fault) }
{
    let characters = characters_of(alloc, text)?;
    let lexemes = match cut(alloc, &characters, text.len() as u64) {
        Ok(lexemes) => lexemes,
        Err(fault) => return Err(fault),
    };
    Ok(Tokens::of(alloc, lexemes)?)
}

/// The tokens of a text. `NotUtf8` comes exactly where the bytes aren't UTF-8; else `BadCharacter`, with the first place at which no
/// token begins, exactly where there is such a place.
pub fn read_tokens(alloc: Global, text: &[u8]) -> Result<Tokens, RawFault>
    ensures tokens { IfOk result (λ tokens. AreTokensOf text.now tokens) }
    ensures only { IfOk result (λ tokens. (others : List PlainToken) → AreTokensOf text.now others → others ≡ tokens) }
    ensures fault { IfErr result (λ fault. IsTokenFault text.now fault) }
    ensures none { IfErr result (λ fault. fault ≢ RawFault.Memory → (tokens : List PlainToken) → AreTokensOf text.now tokens → ⊥) }
{
    match std::str::from_utf8(text) {
        Ok(text) => tokens_of(alloc, text),
        Err(_) => Err(RawFault::NotUtf8),
    }
}
