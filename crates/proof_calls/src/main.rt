//! Answers calls of the crates of expansion proofs, a call on each line of the standard input: its name, and its arguments as a
//! bracketed form.
#![tactic(auto)]

mod answers;
mod checking;
mod fitting;
mod mating;
mod ordering;
mod texts;

use crate::answers::{Answer, NoAnswer};
use call_lines::lines::call_in;
use std::alloc::Global;
use std::io;

/// The answer to the call of that name on the arguments.
fn answer(alloc: Global, call: &str, arguments: &str) -> Answer {
    match call {
        "read_proof" => texts::proof_again(alloc, arguments),
        "read_mating" => texts::pairs(alloc, arguments),
        "fit" => fitting::kept(alloc, arguments),
        "leaves" => fitting::leaves(alloc, arguments),
        "matrix" => fitting::matrix(alloc, arguments),
        "weight" => fitting::weight(alloc, arguments),
        "selected" => fitting::selected(alloc, arguments),
        "occurrences" => fitting::occurrences(alloc, arguments),
        "deep_formula" => fitting::deepened(alloc, arguments),
        "bad_pair" => mating::first_bad(alloc, arguments),
        "first_open" => mating::open_path(alloc, arguments),
        "order" => ordering::ordered(alloc, arguments),
        "check" => checking::checked(alloc, arguments),
        "into_text" => checking::accepted_again(alloc, arguments),
        _ => Err(NoAnswer::NoSuchCall),
    }
}

fn main(rt: HostRuntime) -> io::Result<()> {
    let alloc = rt.alloc();
    for line in rt.lines(alloc) {
        let line = line?;
        println!(rt; "{line}")?;
        let Some((call, arguments)) = call_in(line.as_str()) else {
            continue;
        };
        match answer(alloc, call, arguments) {
            Ok(text) => println!(rt; "= {text}")?,
            Err(fault) => println!(rt; "= {fault:?}")?,
        }
    }
    Ok(())
}
