//! Tokens of a line, by their place in a slice.

ghost use Rattle.std.specs.Prelude.{◌≡◌, ◌≤◌, drop, length, take};
ghost use Rattle.script_text.specs.Tails.{first_or};
ghost use Rattle.tps_reader.specs.Views.{plain_tokens};

use crate::faults::CommandFault;
use tps_reader::faults::RawFault;
use tps_reader::lexemes::Lexeme;

/// The fault of a token that may not stand at this place.
pub fn unexpected(place: u64) -> CommandFault
    ensures { result ≡ CommandFault.Raw (RawFault.Unexpected place) }
{
    CommandFault::Raw(RawFault::Unexpected(place))
}

/// Where token `at` stands, or the end where there is no such token.
pub fn place_at(lexemes: &[Lexeme], at: usize, end: u64) -> u64
    ensures { result ≡ first_or (drop at (plain_tokens lexemes.now)) end }
{
    if at < lexemes.len() {
        lexemes[at].place
    } else {
        end
    }
}

/// The tokens from token `at` on.
pub fn behind(lexemes: &[Lexeme], at: usize) -> &[Lexeme]
    requires { at ≤ length lexemes.now }
    ensures { plain_tokens result.now ≡ drop at (plain_tokens lexemes.now) }
{
    &lexemes[at..]
}

/// The tokens before token `at`.
pub fn before(lexemes: &[Lexeme], at: usize) -> &[Lexeme]
    requires { at ≤ length lexemes.now }
    ensures { plain_tokens result.now ≡ take at (plain_tokens lexemes.now) }
{
    &lexemes[..at]
}
