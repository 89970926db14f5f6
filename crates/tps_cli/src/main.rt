//! The program `tps`.
#![tactic(auto)]

mod answer;
mod check;
mod command;
mod derivation;
mod generate;
mod options;
mod proof;
mod prove;
mod run;
mod show;
mod status;
mod translate;
mod tutor;
mod verify;

ghost use Rattle.std.specs.Prelude.{◌≡◌, ◌≢◌};

use crate::run::run;
use std::env;
use std::io::ErrorKind;
use std::process::ExitCode;
use tps_io::sink::StdSink;
use tps_io::source::StdSource;

/// The exit code where memory runs out for the words.
const NO_MEMORY: u8 = 7;

/// The exit code where the system refuses the words.
const NO_WORDS: u8 = 8;

/// The exit code where the words can't be had, for a cause of this kind.
fn code_without_words(kind: ErrorKind) -> u8
    ensures memory { kind ≡ ErrorKind.OutOfMemory → result ≡ 7 }
    ensures refused { kind ≢ ErrorKind.OutOfMemory → result ≡ 8 }
{
    match kind {
        ErrorKind::OutOfMemory => NO_MEMORY,
        _ => NO_WORDS,
    }
}

/// Runs the program on its words, the standard input and the standard output, and ends with the status as its exit code.
fn main(rt: HostRuntime) -> ExitCode {
    let alloc = rt.alloc();
    let mut words = Vec::new(alloc);
    match env::args(&rt) {
        Ok(args) => {
            for word in args.skip(1) {
                if words.push(word).is_err() {
                    return ExitCode::from(NO_MEMORY);
                }
            }
        }
        Err(error) => return ExitCode::from(code_without_words(error.kind())),
    }
    let mut source = StdSource::new(rt.stdin());
    let mut sink = StdSink::new(rt.stdout());
    ExitCode::from(run(alloc, &words, &mut source, &mut sink).code())
}
