//! The commands, each after its word and its numerals.

ghost use Rattle.std.specs.Prelude.{[], ◌≡◌, IfErr, IfOk, List, length, ℕ};
ghost use Rattle.script_text.specs.Commands.{plain_script};
ghost use Rattle.script_text.specs.Grammar.{Asks};
ghost use Rattle.script_text.specs.Tails.{HasTail, IsFaultIn, Rises, bare_name, no_more, numbered, one_phrase, tail_of, two_phrases, variable};
ghost use Rattle.script_text.specs.Words.{numeral_count};
ghost use Rattle.tps_reader.specs.Views.{plain_tokens};

use crate::commands::ScriptCommand;
use crate::faults::CommandFault;
use crate::tails::{read_nothing, read_numbered, read_one, read_rising, read_two};
use crate::variables::{read_name, read_variable};
use crate::words::CommandWord;
use std::alloc::Global;
use tps_reader::lexemes::Lexeme;

/// PROVE with its goal.
fn prove(
    alloc: Global,
    numbers: &[u64],
    lexemes: &[Lexeme],
    end: u64,
) -> Result<ScriptCommand, CommandFault>
    requires count { length numbers.now ≡ 1 }
    requires rises { Rises 0 (plain_tokens lexemes.now) end }
    ensures command { IfOk result (λ c. Asks CommandWord.Prove numbers.now (plain_tokens lexemes.now) (plain_script c)) }
    ensures fault { IfErr result (λ fault. IsFaultIn (HasTail (tail_of CommandWord.Prove)) (plain_tokens lexemes.now) end fault) }
{
    let goal = read_one(alloc, lexemes, end)?;
    Ok(ScriptCommand::Prove {
        number: numbers[0],
        goal,
    })
}

/// PLAN with its hypotheses and its formula.
fn plan(
    alloc: Global,
    numbers: &[u64],
    lexemes: &[Lexeme],
    end: u64,
) -> Result<ScriptCommand, CommandFault>
    requires count { length numbers.now ≡ 1 }
    requires rises { Rises 0 (plain_tokens lexemes.now) end }
    ensures command { IfOk result (λ c. Asks CommandWord.Plan numbers.now (plain_tokens lexemes.now) (plain_script c)) }
    ensures fault { IfErr result (λ fault. IsFaultIn (HasTail (tail_of CommandWord.Plan)) (plain_tokens lexemes.now) end fault) }
{
    let (hyps, formula) = read_rising(alloc, lexemes, end)?;
    Ok(ScriptCommand::Plan {
        number: numbers[0],
        hyps,
        formula,
    })
}

/// P with its formula.
fn suppose(
    alloc: Global,
    numbers: &[u64],
    lexemes: &[Lexeme],
    end: u64,
) -> Result<ScriptCommand, CommandFault>
    requires count { length numbers.now ≡ 1 }
    requires rises { Rises 0 (plain_tokens lexemes.now) end }
    ensures command { IfOk result (λ c. Asks CommandWord.P numbers.now (plain_tokens lexemes.now) (plain_script c)) }
    ensures fault { IfErr result (λ fault. IsFaultIn (HasTail (tail_of CommandWord.P)) (plain_tokens lexemes.now) end fault) }
{
    let formula = read_one(alloc, lexemes, end)?;
    Ok(ScriptCommand::P {
        number: numbers[0],
        formula,
    })
}

/// DEDUCT, which has numerals alone.
fn deduct(numbers: &[u64], lexemes: &[Lexeme]) -> Result<ScriptCommand, CommandFault>
    requires count { length numbers.now ≡ 3 }
    ensures command { IfOk result (λ c. Asks CommandWord.Deduct numbers.now (plain_tokens lexemes.now) (plain_script c)) }
    ensures fault { IfErr result (λ fault. (last : ℕ) → IsFaultIn (HasTail (tail_of CommandWord.Deduct)) (plain_tokens lexemes.now) last fault) }
{
    read_nothing(lexemes)?;
    Ok(ScriptCommand::Deduct {
        number: numbers[0],
        src: numbers[1],
        hyp: numbers[2],
    })
}

/// UI with its term.
fn instantiate(
    alloc: Global,
    numbers: &[u64],
    lexemes: &[Lexeme],
    end: u64,
) -> Result<ScriptCommand, CommandFault>
    requires count { length numbers.now ≡ 2 }
    requires rises { Rises 0 (plain_tokens lexemes.now) end }
    ensures command { IfOk result (λ c. Asks CommandWord.Ui numbers.now (plain_tokens lexemes.now) (plain_script c)) }
    ensures fault { IfErr result (λ fault. IsFaultIn (HasTail (tail_of CommandWord.Ui)) (plain_tokens lexemes.now) end fault) }
{
    let term = read_one(alloc, lexemes, end)?;
    Ok(ScriptCommand::Ui {
        number: numbers[0],
        src: numbers[1],
        term,
    })
}

/// UGEN with its variable.
fn generalize(
    alloc: Global,
    numbers: &[u64],
    lexemes: &[Lexeme],
    end: u64,
) -> Result<ScriptCommand, CommandFault>
    requires count { length numbers.now ≡ 2 }
    ensures command { IfOk result (λ c. Asks CommandWord.Ugen numbers.now (plain_tokens lexemes.now) (plain_script c)) }
    ensures fault { IfErr result (λ fault. IsFaultIn (HasTail (tail_of CommandWord.Ugen)) (plain_tokens lexemes.now) end fault) }
{
    let var = read_variable(alloc, lexemes, end)?;
    Ok(ScriptCommand::Ugen {
        number: numbers[0],
        src: numbers[1],
        var,
    })
}

/// EGEN with its term and its formula.
fn witness(
    alloc: Global,
    numbers: &[u64],
    lexemes: &[Lexeme],
    end: u64,
) -> Result<ScriptCommand, CommandFault>
    requires count { length numbers.now ≡ 2 }
    requires rises { Rises 0 (plain_tokens lexemes.now) end }
    ensures command { IfOk result (λ c. Asks CommandWord.Egen numbers.now (plain_tokens lexemes.now) (plain_script c)) }
    ensures fault { IfErr result (λ fault. IsFaultIn (HasTail (tail_of CommandWord.Egen)) (plain_tokens lexemes.now) end fault) }
{
    let (term, formula) = read_two(alloc, lexemes, end)?;
    Ok(ScriptCommand::Egen {
        number: numbers[0],
        src: numbers[1],
        term,
        formula,
    })
}

/// RULEC with its name.
fn choose(
    alloc: Global,
    numbers: &[u64],
    lexemes: &[Lexeme],
    end: u64,
) -> Result<ScriptCommand, CommandFault>
    requires count { length numbers.now ≡ 4 }
    ensures command { IfOk result (λ c. Asks CommandWord.Rulec numbers.now (plain_tokens lexemes.now) (plain_script c)) }
    ensures fault { IfErr result (λ fault. IsFaultIn (HasTail (tail_of CommandWord.Rulec)) (plain_tokens lexemes.now) end fault) }
{
    let var = read_name(alloc, lexemes, end)?;
    Ok(ScriptCommand::Rulec {
        number: numbers[0],
        some_line: numbers[1],
        hyp: numbers[2],
        src: numbers[3],
        var,
    })
}

/// LAMBDA with its formula.
fn convert(
    alloc: Global,
    numbers: &[u64],
    lexemes: &[Lexeme],
    end: u64,
) -> Result<ScriptCommand, CommandFault>
    requires count { length numbers.now ≡ 2 }
    requires rises { Rises 0 (plain_tokens lexemes.now) end }
    ensures command { IfOk result (λ c. Asks CommandWord.Lambda numbers.now (plain_tokens lexemes.now) (plain_script c)) }
    ensures fault { IfErr result (λ fault. IsFaultIn (HasTail (tail_of CommandWord.Lambda)) (plain_tokens lexemes.now) end fault) }
{
    let formula = read_one(alloc, lexemes, end)?;
    Ok(ScriptCommand::Lambda {
        number: numbers[0],
        src: numbers[1],
        formula,
    })
}

/// RULEP with its lines and its formula.
fn follow(
    alloc: Global,
    numbers: &[u64],
    lexemes: &[Lexeme],
    end: u64,
) -> Result<ScriptCommand, CommandFault>
    requires count { length numbers.now ≡ 1 }
    requires rises { Rises 0 (plain_tokens lexemes.now) end }
    ensures command { IfOk result (λ c. Asks CommandWord.Rulep numbers.now (plain_tokens lexemes.now) (plain_script c)) }
    ensures fault { IfErr result (λ fault. IsFaultIn (HasTail (tail_of CommandWord.Rulep)) (plain_tokens lexemes.now) end fault) }
{
    let (src, formula) = read_numbered(alloc, lexemes, end)?;
    Ok(ScriptCommand::Rulep {
        number: numbers[0],
        src,
        formula,
    })
}

/// UNDO, which stands alone.
fn undo(lexemes: &[Lexeme]) -> Result<ScriptCommand, CommandFault>
    ensures command { IfOk result (λ c. Asks CommandWord.Undo [] (plain_tokens lexemes.now) (plain_script c)) }
    ensures fault { IfErr result (λ fault. (last : ℕ) → IsFaultIn (HasTail (tail_of CommandWord.Undo)) (plain_tokens lexemes.now) last fault) }
{
    read_nothing(lexemes)?;
    Ok(ScriptCommand::Undo)
}

/// DONE, which stands alone.
fn done(lexemes: &[Lexeme]) -> Result<ScriptCommand, CommandFault>
    ensures command { IfOk result (λ c. Asks CommandWord.Done [] (plain_tokens lexemes.now) (plain_script c)) }
    ensures fault { IfErr result (λ fault. (last : ℕ) → IsFaultIn (HasTail (tail_of CommandWord.Done)) (plain_tokens lexemes.now) last fault) }
{
    read_nothing(lexemes)?;
    Ok(ScriptCommand::Done)
}

/// The command with this word and these numerals after it, of which the tokens are the rest.
pub fn arguments(
    alloc: Global,
    word: CommandWord,
    numbers: &[u64],
    lexemes: &[Lexeme],
    end: u64,
) -> Result<ScriptCommand, CommandFault>
    requires count { length numbers.now ≡ numeral_count word }
    requires rises { Rises 0 (plain_tokens lexemes.now) end }
    ensures command { IfOk result (λ c. Asks word numbers.now (plain_tokens lexemes.now) (plain_script c)) }
    ensures fault { IfErr result (λ fault. IsFaultIn (HasTail (tail_of word)) (plain_tokens lexemes.now) end fault) }
{
    match word {
        CommandWord::Prove => prove(alloc, numbers, lexemes, end),
        CommandWord::Plan => plan(alloc, numbers, lexemes, end),
        CommandWord::P => suppose(alloc, numbers, lexemes, end),
        CommandWord::Deduct => deduct(numbers, lexemes),
        CommandWord::Ui => instantiate(alloc, numbers, lexemes, end),
        CommandWord::Ugen => generalize(alloc, numbers, lexemes, end),
        CommandWord::Egen => witness(alloc, numbers, lexemes, end),
        CommandWord::Rulec => choose(alloc, numbers, lexemes, end),
        CommandWord::Lambda => convert(alloc, numbers, lexemes, end),
        CommandWord::Rulep => follow(alloc, numbers, lexemes, end),
        CommandWord::Undo => undo(lexemes),
        CommandWord::Done => done(lexemes),
    }
}
