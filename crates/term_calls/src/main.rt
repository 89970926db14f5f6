//! Answers calls of the crates of terms, a call on each line of the standard input: its name, and its arguments as a bracketed form.
#![tactic(auto)]

mod answers;
mod consequences;
mod conversions;
mod forms;
mod lists;
mod names;
mod terms;

use crate::answers::{Answer, NoAnswer};
use call_lines::lines::call_in;
use std::alloc::Global;
use std::io;

/// The answer to the call of that name on the arguments.
fn answer(alloc: Global, call: &str, arguments: &str) -> Answer {
    match call {
        "sexp" => forms::place(alloc, arguments),
        "type" => forms::type_again(alloc, arguments),
        "term" => forms::term_again(alloc, arguments),
        "preterm" => forms::preterm_again(alloc, arguments),
        "name" => forms::name_again(alloc, arguments),
        "number" => forms::number_again(alloc, arguments),
        "letter" => names::letter(alloc, arguments),
        "new_name" => names::name(alloc, arguments),
        "numbered_name" => names::numbered(alloc, arguments),
        "variable_place" => names::place(alloc, arguments),
        "type_of" => terms::type_of_term(alloc, arguments),
        "split_args" => terms::split(alloc, arguments),
        "instantiate" => terms::instance(alloc, arguments),
        "abstract_over" => terms::body_over(alloc, arguments),
        "is_free" => terms::free(alloc, arguments),
        "free_variables" => terms::variables(alloc, arguments),
        "same" => terms::equal(alloc, arguments),
        "normal" => conversions::normal_form(alloc, arguments),
        "is_long_normal" => conversions::long(alloc, arguments),
        "convertible" => conversions::conversion(alloc, arguments),
        "follows" => consequences::consequence(alloc, arguments),
        "signature" => lists::heads(alloc, arguments),
        "long_terms" => lists::terms(alloc, arguments),
        _ => Err(NoAnswer::NoSuchCall),
    }
}

fn main(rt: HostRuntime) -> io::Result<()> {
    let alloc = rt.alloc();
    for line in rt.lines(alloc) {
        let line = line?;
        println!(rt; "{line}")?;
        let Some((call, arguments)) = call_in(line.as_str()) else {
            continue;
        };
        match answer(alloc, call, arguments) {
            Ok(text) => println!(rt; "= {text}")?,
            Err(fault) => println!(rt; "= {fault:?}")?,
        }
    }
    Ok(())
}
