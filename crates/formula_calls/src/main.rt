//! Answers calls of the crates of formula text, a call on each line of the standard input: its name, and its arguments.
#![tactic(auto)]

mod answers;
mod commands;
mod forms;
mod raws;
mod readings;
mod typings;

use crate::answers::{Answer, NoAnswer};
use call_lines::lines::call_in;
use std::alloc::Global;
use std::io;

/// The answer to the call of that name on the arguments.
fn answer(alloc: Global, call: &str, arguments: &str) -> Answer {
    match call {
        "tokens" => readings::token_places(alloc, arguments),
        "depth" => readings::depth(alloc, arguments),
        "raw" => readings::raw(alloc, arguments),
        "raw_of_bytes" => readings::raw_of_bytes(alloc, arguments),
        "raw_of_repeated" => readings::raw_of_repeated(alloc, arguments),
        "phrase" => readings::phrase(alloc, arguments),
        "formula" => typings::formula(alloc, arguments),
        "known_formula" => typings::known_formula(alloc, arguments),
        "known_phrase" => typings::known_phrase(alloc, arguments),
        "command" => commands::command(alloc, arguments),
        "command_of_repeated" => commands::command_of_repeated(alloc, arguments),
        "command_of_bytes" => commands::command_of_bytes(alloc, arguments),
        _ => Err(NoAnswer::NoSuchCall),
    }
}

fn main(rt: HostRuntime) -> io::Result<()> {
    let alloc = rt.alloc();
    for line in rt.lines(alloc) {
        let line = line?;
        println!(rt; "{line}")?;
        let Some((call, arguments)) = call_in(line.as_str()) else {
            continue;
        };
        match answer(alloc, call, arguments) {
            Ok(text) => println!(rt; "= {text}")?,
            Err(fault) => println!(rt; "= {fault:?}")?,
        }
    }
    Ok(())
}
