//! Answers calls of the crates of the search and of the generator, a call on each line of the standard input: its name, and its
//! arguments as a bracketed form.
#![tactic(auto)]

mod answers;
mod chaining;
mod growing;
mod searching;

use crate::answers::{Answer, NoAnswer};
use call_lines::lines::call_in;
use std::alloc::Global;
use std::io;

/// The answer to the call of that name on the arguments.
fn answer(alloc: Global, call: &str, arguments: &str) -> Answer {
    match call {
        "bare_positive" => growing::bare_tree(alloc, true, arguments),
        "bare_negative" => growing::bare_tree(alloc, false, arguments),
        "extensions" => growing::extended(alloc, arguments),
        "second_extensions" => growing::extended_again(alloc, arguments),
        "search" => searching::found(alloc, arguments),
        "chain" => chaining::written(alloc, arguments),
        "chain_figures" => chaining::figures(alloc, arguments),
        _ => Err(NoAnswer::NoSuchCall),
    }
}

fn main(rt: HostRuntime) -> io::Result<()> {
    let alloc = rt.alloc();
    for line in rt.lines(alloc) {
        let line = line?;
        println!(rt; "{line}")?;
        let Some((call, arguments)) = call_in(line.as_str()) else {
            continue;
        };
        match answer(alloc, call, arguments) {
            Ok(text) => println!(rt; "= {text}")?,
            Err(fault) => println!(rt; "= {fault:?}")?,
        }
    }
    Ok(())
}
