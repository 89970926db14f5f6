//! All that the program does.

ghost use Rattle.std.specs.Prelude.{◌≡◌, ◌↔◌, IfOk, map, string_bytes};
ghost use Rattle.tps_io.specs.Causes.{Rose};
ghost use Rattle.tps_io.specs.Stream.{HeldMore};
ghost use Rattle.tps_cli.specs.declared.command.Command.{Command};
ghost use Rattle.tps_cli.specs.Outcomes.{output_of, status_of};
ghost use Rattle.tps_cli.specs.Results.{Answers, ReadsInput};
ghost use Rattle.tps_cli.specs.Runs.{Ran, WasRead};
ghost use Rattle.tps_cli.specs.Words.{AreWords, AreWordsOf, IsCommand};

use crate::answer::Answer;
use crate::check::check;
use crate::command::Command;
use crate::generate::generate;
use crate::prove::prove;
use crate::show::show;
use crate::status::Status;
use crate::translate::translate;
use crate::tutor::tutor;
use crate::verify::verify;
use std::alloc::{AllocError, Global};
use tps_io::sink::{Sink, write_all};
use tps_io::source::{ReadError, Source, read_all};

/// The most bytes that a command reads.
pub const LONGEST_INPUT: u64 = 1_048_576;

/// The bytes that a command reads: all that the source has, and none where the command reads nothing.
fn input<S: Source>(alloc: Global, command: Command, source: &mut S) -> Result<Vec<u8>, ReadError>
    ensures read { IfOk result (λ bytes. WasRead command (S.left source.old) (S.left source.new) (S.faults source.old) (S.faults source.new) bytes.items) }
    ensures too_long { result ≡ Err ReadError.TooLong → ReadsInput command × HeldMore (S.left source.old) 1048576 × (S.faults source.new ≡ S.faults source.old) }
    ensures fault { result ≡ Err ReadError.Fault → ReadsInput command × Rose (S.faults source.old) (S.faults source.new) }
    ensures unread { (ReadsInput command → ⊥) → source.new ≡ source.old }
{
    match command {
        Command::Generate(_) => Ok(Vec::new(alloc)),
        _ => read_all(alloc, source, LONGEST_INPUT),
    }
}

/// What a command answers to the bytes.
fn answer(alloc: Global, command: Command, bytes: &[u8]) -> Result<Answer, AllocError>
    requires { IsCommand command }
    ensures { IfOk result (λ answer. Answers command bytes.now (status_of answer) (output_of answer)) }
{
    match command {
        Command::Prove(budget) => prove(alloc, budget, bytes),
        Command::Check => check(alloc, bytes),
        Command::Translate => translate(alloc, bytes),
        Command::Verify => verify(alloc, bytes),
        Command::Show => show(alloc, bytes),
        Command::Etps => tutor(alloc, bytes),
        Command::Generate(length) => generate(alloc, length),
    }
}

/// Runs the command on the source and the sink. All output is made before the first write.
fn run_command<S: Source, K: Sink>(
    alloc: Global,
    command: Command,
    source: &mut S,
    sink: &mut K,
) -> Status
    requires { IsCommand command }
    ensures unread { (ReadsInput command → ⊥) → source.new ≡ source.old }
    ensures ran { Ran command (record { left = S.left source.old; read_faults = S.faults source.old; written = K.written sink.old; write_faults = K.faults sink.old }) (record { left = S.left source.new; read_faults = S.faults source.new; written = K.written sink.new; write_faults = K.faults sink.new }) result }
{
    let bytes = match input(alloc, command, source) {
        Ok(bytes) => bytes,
        Err(ReadError::Memory) => return Status::Memory,
        Err(ReadError::Fault) => return Status::ReadFault,
        Err(ReadError::TooLong) => return Status::TooLong,
    };
    match answer(alloc, command, &bytes) {
        Err(_) => Status::Memory,
        Ok(Answer::Unreadable) => Status::BadText,
        Ok(Answer::Yes(output)) => match write_all(sink, output.as_slice()) {
            Ok(()) => Status::Done,
            Err(_) => Status::WriteFault,
        },
        Ok(Answer::No(output)) => match write_all(sink, output.as_slice()) {
            Ok(()) => Status::No,
            Err(_) => Status::WriteFault,
        },
    }
}

/// Does what the words ask for, on the input that the source has and the output that the sink takes. Words that ask for nothing are
/// answered by `Words`, and then nothing is read or written. Else the input is read to its end, by `generate` none of it, and all output
/// is made before the first write. After `WriteFault` the sink was given a prefix of the output.
pub fn run<S: Source, K: Sink>(
    alloc: Global,
    words: &[String],
    source: &mut S,
    sink: &mut K,
) -> Status
    ensures words { result ≡ Status.Words ↔ (AreWords words.now → ⊥) }
    ensures idle { result ≡ Status.Words → (source.new ≡ source.old) × (sink.new ≡ sink.old) }
    ensures unread { (c : Command) → AreWordsOf c (map string_bytes words.now) → (ReadsInput c → ⊥) → source.new ≡ source.old }
    ensures ran { (c : Command) → AreWordsOf c (map string_bytes words.now) → Ran c (record { left = S.left source.old; read_faults = S.faults source.old; written = K.written sink.old; write_faults = K.faults sink.old }) (record { left = S.left source.new; read_faults = S.faults source.new; written = K.written sink.new; write_faults = K.faults sink.new }) result }
{
    match Command::from_words(words) {
        Some(command) => run_command(alloc, command, source, sink),
        None => Status::Words,
    }
}
