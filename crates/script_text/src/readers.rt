//! Lines of scripts, read.

ghost use Rattle.std.specs.Prelude.{◌≡◌, ◌≢◌, IfErr, IfOk, List};
ghost use Rattle.script_text.specs.Commands.{ScriptRequest, plain_script};
ghost use Rattle.script_text.specs.Grammar.{IsCommand};
ghost use Rattle.script_text.specs.Lines.{IsCommandFault, IsCommandLine, IsTokensFault};
ghost use Rattle.script_text.specs.Tails.{Rises};
ghost use Rattle.tps_reader.specs.Views.{plain_tokens};

use crate::arguments::arguments;
use crate::commands::ScriptCommand;
use crate::faults::{CommandFault, of_text};
use crate::numerals::numerals;
use crate::slices::behind;
use crate::words::command_word;
use std::alloc::Global;
use tps_reader::faults::RawFault;
use tps_reader::lexemes::Lexeme;
use tps_reader::readers::DEEPEST;
use tps_reader::tokens::read_tokens;

/// The command of the tokens of a line, which end before `end`.
fn command_of(alloc: Global, lexemes: &[Lexeme], end: u64) -> Result<ScriptCommand, CommandFault>
    requires { Rises 0 (plain_tokens lexemes.now) end }
    ensures command { IfOk result (λ c. IsCommand (plain_tokens lexemes.now) (plain_script c)) }
    ensures fault { IfErr result (λ fault. IsTokensFault (plain_tokens lexemes.now) end fault) }
{
    if lexemes.is_empty() {
        return Ok(ScriptCommand::Blank);
    }
    let Some(word) = command_word(&lexemes[0].symbol) else {
        return Err(CommandFault::Unknown);
    };
    let rest = behind(lexemes, 1);
    let count = word.numerals();
    let numbers = numerals(alloc, count, rest, end)?;
    arguments(alloc, word, &numbers, behind(rest, count), end)
}

/// The command of a line. White space alone is a blank line. Of the faults the first of these is answered: `NotUtf8`; `BadCharacter`,
/// with the first place at which no token begins; `TooDeep`, with the depth of the tokens, where it is above 1,000; `Unknown`, where
/// the first token isn't the word of a command; and `Unexpected`, with the place of the first token such that no command's line begins
/// with the tokens up to it, or the length of the line where the tokens only begin one.
pub fn read_command(alloc: Global, line: &[u8]) -> Result<ScriptCommand, CommandFault>
    ensures command { IfOk result (λ c. IsCommandLine line.now (plain_script c)) }
    ensures only { IfOk result (λ c. (other : ScriptRequest) → IsCommandLine line.now other → other ≡ plain_script c) }
    ensures fault { IfErr result (λ fault. IsCommandFault line.now fault) }
    ensures no_memory { IfErr result (λ fault. fault ≢ CommandFault.Raw RawFault.Memory) }
    ensures none { IfErr result (λ fault. fault ≢ CommandFault.Memory → (other : ScriptRequest) → IsCommandLine line.now other → ⊥) }
{
    let tokens = match read_tokens(alloc, line) {
        Ok(tokens) => tokens,
        Err(fault) => return Err(of_text(fault)),
    };
    let depth = tokens.depth();
    if depth > DEEPEST {
        return Err(CommandFault::Raw(RawFault::TooDeep(depth)));
    }
    command_of(alloc, tokens.as_slice(), line.len() as u64)
}
