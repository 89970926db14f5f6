//! Answers calls of the crates of deductions, a call on each line of the standard input: its name, and its arguments.
#![tactic(auto)]

mod answers;
mod evidence;
mod outlines;
mod rules;
mod shapes;
mod texts;
mod translations;

use crate::answers::{Answer, NoAnswer};
use call_lines::lines::call_in;
use std::alloc::Global;
use std::io;

/// The answer to a call that translates.
fn answer_of_translation(alloc: Global, call: &str, arguments: &str) -> Answer {
    match call {
        "translate" => translations::translation(alloc, arguments),
        "translated" => translations::verified_translation(alloc, arguments),
        _ => Err(NoAnswer::NoSuchCall),
    }
}

/// The answer to a call on a line and the others.
fn answer_of_line(alloc: Global, call: &str, arguments: &str) -> Answer {
    match call {
        "justify" => rules::justification(alloc, arguments),
        "cited" => rules::names(alloc, arguments),
        "line_at" => rules::formula_at(alloc, arguments),
        "first_missing" => rules::missing(alloc, arguments),
        "first_late" => rules::late(alloc, arguments),
        "has_shape" => rules::shape(alloc, arguments),
        "has_hypotheses" => rules::rest(alloc, arguments),
        "variable_fault" => rules::variable(alloc, arguments),
        _ => answer_of_translation(alloc, call, arguments),
    }
}

/// The answer to a call on outlines.
fn answer_of_outline(alloc: Global, call: &str, arguments: &str) -> Answer {
    match call {
        "numbers" => outlines::numbers(alloc, arguments),
        "at" => outlines::number_at(alloc, arguments),
        "find" => outlines::found(alloc, arguments),
        "take" => outlines::take(alloc, arguments),
        "insert" => outlines::insert(alloc, arguments),
        "set_why" => outlines::set_why(alloc, arguments),
        _ => answer_of_line(alloc, call, arguments),
    }
}

/// The answer to the call of that name on the arguments.
fn answer(alloc: Global, call: &str, arguments: &str) -> Answer {
    match call {
        "derivation" => texts::again(alloc, arguments),
        "verify" => texts::verification(alloc, arguments),
        "conclusion" => texts::last_formula(alloc, arguments),
        "universal_body" => shapes::universal(alloc, arguments),
        "existential_body" => shapes::existential(alloc, arguments),
        "has_type" => shapes::typed(alloc, arguments),
        "different_normals" => shapes::normals(alloc, arguments),
        _ => answer_of_outline(alloc, call, arguments),
    }
}

fn main(rt: HostRuntime) -> io::Result<()> {
    let alloc = rt.alloc();
    for line in rt.lines(alloc) {
        let line = line?;
        println!(rt; "{line}")?;
        let Some((call, arguments)) = call_in(line.as_str()) else {
            continue;
        };
        match answer(alloc, call, arguments) {
            Ok(text) => println!(rt; "= {text}")?,
            Err(fault) => println!(rt; "= {fault:?}")?,
        }
    }
    Ok(())
}
