//! Answers calls of the crates of printed text and of scripts, a call on each line of the standard input: its name, and its arguments.
#![tactic(auto)]

mod answers;
mod printing;
mod scripts;

use crate::answers::{Answer, NoAnswer};
use call_lines::lines::call_in;
use std::alloc::Global;
use std::io;

/// The answer to the call of that name on the arguments.
fn answer(alloc: Global, call: &str, arguments: &str) -> Answer {
    match call {
        "printed" => printing::printed(alloc, arguments),
        "read_back" => printing::read_back(alloc, arguments),
        "printed_lines" => printing::printed_lines(alloc, arguments),
        "script" => scripts::script(alloc, arguments),
        "executed" => scripts::commands_executed(alloc, arguments),
        _ => Err(NoAnswer::NoSuchCall),
    }
}

fn main(rt: HostRuntime) -> io::Result<()> {
    let alloc = rt.alloc();
    for line in rt.lines(alloc) {
        let line = line?;
        println!(rt; "{line}")?;
        let Some((call, arguments)) = call_in(line.as_str()) else {
            continue;
        };
        match answer(alloc, call, arguments) {
            Ok(text) => println!(rt; "= {text}")?,
            Err(fault) => println!(rt; "= {fault:?}")?,
        }
    }
    Ok(())
}
