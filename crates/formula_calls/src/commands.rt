//! Calls of `script_text`.

use crate::answers::{Answer, NoAnswer};
use crate::forms::{read_bytes, read_repeated};
use crate::raws::push_raw;
use call_lines::answers::{name_text, verdict};
use hol_terms::names::Name;
use script_text::commands::ScriptCommand;
use script_text::readers::read_command;
use std::alloc::Global;
use tps_reader::raws::Raw;

/// Adds the numbers, each after a space.
fn push_numbers(alloc: Global, out: &mut String, numbers: &[u64]) -> Result<(), NoAnswer> {
    for n in numbers {
        out.push_str(format!(in alloc; " {n}")?.as_str())?;
    }
    Ok(())
}

/// Adds a phrase after a space.
fn push_phrase(alloc: Global, out: &mut String, phrase: &Raw) -> Result<(), NoAnswer> {
    out.push(' ')?;
    push_raw(alloc, out, phrase)
}

/// Adds a word with numbers.
fn push_step(alloc: Global, out: &mut String, word: &str, numbers: &[u64]) -> Result<(), NoAnswer> {
    out.push_str(word)?;
    push_numbers(alloc, out, numbers)
}

/// Adds a word with numbers and a phrase.
fn push_phrased(
    alloc: Global,
    out: &mut String,
    word: &str,
    numbers: &[u64],
    phrase: &Raw,
) -> Result<(), NoAnswer> {
    push_step(alloc, out, word, numbers)?;
    push_phrase(alloc, out, phrase)
}

/// Adds a word with a number, a bar, the other numbers, and a phrase.
fn push_barred(
    alloc: Global,
    out: &mut String,
    word: &str,
    number: u64,
    others: &[u64],
    phrase: &Raw,
) -> Result<(), NoAnswer> {
    push_step(alloc, out, word, &[number])?;
    out.push_str(" |")?;
    push_numbers(alloc, out, others)?;
    push_phrase(alloc, out, phrase)
}

/// Adds EGEN with its numbers and phrases.
fn push_witness(
    alloc: Global,
    out: &mut String,
    numbers: &[u64],
    term: &Raw,
    formula: &Raw,
) -> Result<(), NoAnswer> {
    push_phrased(alloc, out, "EGEN", numbers, term)?;
    out.push_str(" ;")?;
    push_phrase(alloc, out, formula)
}

/// Adds RULEC with its numbers and its name.
fn push_choice(
    alloc: Global,
    out: &mut String,
    numbers: &[u64],
    name: &Name,
) -> Result<(), NoAnswer> {
    push_step(alloc, out, "RULEC", numbers)?;
    out.push(' ')?;
    out.push_str(name_text(alloc, name)?.as_str())?;
    Ok(())
}

/// Adds a command that has numbers and at most a phrase or a name.
fn push_simple(alloc: Global, out: &mut String, command: &ScriptCommand) -> Result<(), NoAnswer> {
    match command {
        ScriptCommand::Deduct { number, src, hyp } => {
            push_step(alloc, out, "DEDUCT", &[*number, *src, *hyp])
        }
        ScriptCommand::Ui { number, src, term } => {
            push_phrased(alloc, out, "UI", &[*number, *src], term)
        }
        ScriptCommand::Ugen { number, src, var } => {
            push_phrased(alloc, out, "UGEN", &[*number, *src], var)
        }
        ScriptCommand::Lambda {
            number,
            src,
            formula,
        } => push_phrased(alloc, out, "LAMBDA", &[*number, *src], formula),
        ScriptCommand::Rulec {
            number,
            some_line,
            hyp,
            src,
            var,
        } => push_choice(alloc, out, &[*number, *some_line, *hyp, *src], var),
        ScriptCommand::Undo => push_step(alloc, out, "UNDO", &[]),
        ScriptCommand::Done => push_step(alloc, out, "DONE", &[]),
        _ => push_step(alloc, out, "BLANK", &[]),
    }
}

/// Adds a command, its numbers, and its phrases with their places.
fn push_command(alloc: Global, out: &mut String, command: &ScriptCommand) -> Result<(), NoAnswer> {
    match command {
        ScriptCommand::Prove { number, goal } => {
            push_phrased(alloc, out, "PROVE", &[*number], goal)
        }
        ScriptCommand::Plan {
            number,
            hyps,
            formula,
        } => push_barred(alloc, out, "PLAN", *number, hyps.as_slice(), formula),
        ScriptCommand::P { number, formula } => {
            push_phrased(alloc, out, "P", &[*number], formula)
        }
        ScriptCommand::Egen {
            number,
            src,
            term,
            formula,
        } => push_witness(alloc, out, &[*number, *src], term, formula),
        ScriptCommand::Rulep {
            number,
            src,
            formula,
        } => push_barred(alloc, out, "RULEP", *number, src.as_slice(), formula),
        _ => push_simple(alloc, out, command),
    }
}

/// The command of a line, its numbers, and its phrases with their places.
fn command_text(alloc: Global, line: &[u8]) -> Answer {
    let command = read_command(alloc, line)?;
    let mut out = String::new(alloc);
    let pushed = push_command(alloc, &mut out, &command);
    drop(command);
    pushed?;
    Ok(out)
}

/// `LINE`: its command.
pub fn command(alloc: Global, arguments: &str) -> Answer {
    command_text(alloc, arguments.as_bytes())
}

/// `(BYTE ..)`: the command of the line of these bytes.
pub fn command_of_bytes(alloc: Global, arguments: &str) -> Answer {
    let line = read_bytes(alloc, arguments)?;
    command_text(alloc, line.as_slice())
}

/// `COUNT | FIRST|TEXT|LAST`: whether the text, so many times between the others, is the line of a command.
pub fn command_of_repeated(alloc: Global, arguments: &str) -> Answer {
    let line = read_repeated(alloc, arguments)?;
    read_command(alloc, line.as_bytes())?;
    Ok(verdict(alloc, true)?)
}
