//! The replies to the commands of a script.

ghost use Rattle.std.specs.Prelude.{◌≡◌, ◌⊎◌, IfOk, IsSome, OnErr};
ghost use Rattle.tps_reader.specs.Raws.{plain_raw};
ghost use Rattle.nd_rules.specs.Lines.{line_of};
ghost use Rattle.etps_session.specs.Replays.{replay};
ghost use Rattle.script_text.specs.Commands.{plain_script};
ghost use Rattle.etps_script.specs.Names.{AreNamesOf};
ghost use Rattle.etps_script.specs.Replies.{IsBegun, IsLeftBy, IsNoStep, IsNotBegun, IsNotTakenBack, IsStep, IsTakenBack, MayHaveBegun, MayHaveTaken, MayHaveUndone, Replied, Shows, done_reply};
ghost use Rattle.etps_script.specs.Requests.{line_number as line_number_of};

use crate::known::{KnownNames, known_names, with_step};
use crate::phrases::formula_beside;
use crate::refusals::{Refusal, numbered, refused, said, undo_refusal};
use crate::steps::{is_started, take};
use etps_session::sessions::Session;
use hol_terms::lists::{Text, Vars};
use script_text::commands::ScriptCommand;
use std::alloc::{AllocError, Global};
use tps_print::lines::print_line;
use tps_reader::raws::Raw;

/// OK and the printed line of the number.
fn shown(alloc: Global, session: &Session, number: u64) -> Result<Text, AllocError>
    requires { IsSome (line_of (replay session.now) number) }
    ensures { IfOk result (λ out. Shows session.now number out) }
{
    match session.outline().find(number) {
        None => unreachable!(),
        Some(line) => {
            let printed = print_line(alloc, line)?;
            let mut out = said(alloc, b"OK ")?;
            out.append(printed.as_slice())?;
            Ok(out)
        }
    }
}

/// PROVE: begins anew with the goal.
fn prove(alloc: Global, session: &mut Session, number: u64, goal: &Raw) -> Result<Text, AllocError>
    ensures reply { IfOk result (λ out. IsBegun number (plain_raw goal.now) session.new out ⊎ IsNotBegun session.old (plain_raw goal.now) session.new out) }
    ensures left { OnErr result (MayHaveBegun session.old number (plain_raw goal.now) session.new) }
{
    let known = Vars::new(alloc);
    match formula_beside(alloc, goal, &known) {
        Ok(formula) => {
            session.start(number, formula)?;
            shown(alloc, session, number)
        }
        Err(refusal) => refused(alloc, &refusal),
    }
}

/// UNDO: takes the last accepted command back.
fn undo(alloc: Global, session: &mut Session) -> Result<Text, AllocError>
    ensures reply { IfOk result (λ out. IsTakenBack session.old session.new out ⊎ IsNotTakenBack session.old session.new out) }
    ensures left { OnErr result (MayHaveUndone session.old session.new) }
{
    match session.undo() {
        Ok(number) => numbered(alloc, b"UNDONE ", number),
        Err(fault) => refused(alloc, &undo_refusal(fault)),
    }
}

/// DONE: whether the goal is derived, or the first planned line.
fn done(alloc: Global, session: &Session) -> Result<Text, AllocError>
    ensures { IfOk result (λ out. out ≡ done_reply session.now) }
{
    if !is_started(session) {
        return refused(alloc, &Refusal::NoGoal);
    }
    match session.first_planned() {
        Some(number) => numbered(alloc, b"OPEN ", number),
        None => said(alloc, b"DONE"),
    }
}

/// A step: its line, or the first refusal; and the names known then.
fn step(
    alloc: Global,
    session: &mut Session,
    names: KnownNames,
    script: &ScriptCommand,
) -> Result<(Text, KnownNames), AllocError>
    requires step { IsSome (line_number_of (plain_script script.now)) }
    requires names { AreNamesOf (replay session.old) names }
    ensures reply { IfOk result (λ r. IsStep session.old (plain_script script.now) session.new r.0 ⊎ IsNoStep session.old (plain_script script.now) session.new r.0) }
    ensures names { IfOk result (λ r. AreNamesOf (replay session.new) r.1) }
    ensures left { OnErr result (MayHaveTaken session.old (plain_script script.now) session.new) }
{
    let count = session.outline().len();
    match take(alloc, session, &names.known, script) {
        Ok(number) => {
            let names = with_step(alloc, session.outline(), names, count, number)?;
            let reply = shown(alloc, session, number)?;
            Ok((reply, names))
        }
        Err(refusal) => {
            let reply = refused(alloc, &refusal)?;
            Ok((reply, names))
        }
    }
}

/// A step, where the names are yet to be collected.
fn lone_step(
    alloc: Global,
    session: &mut Session,
    script: &ScriptCommand,
) -> Result<Text, AllocError>
    requires { IsSome (line_number_of (plain_script script.now)) }
    ensures reply { IfOk result (λ out. IsStep session.old (plain_script script.now) session.new out ⊎ IsNoStep session.old (plain_script script.now) session.new out) }
    ensures left { OnErr result (MayHaveTaken session.old (plain_script script.now) session.new) }
{
    let names = known_names(alloc, session.outline())?;
    let (reply, _) = step(alloc, session, names, script)?;
    Ok(reply)
}

/// Does what the command asks for, and answers the reply, without an end of line. An error comes only where memory runs out; then the
/// session is as it was, or has taken the command: PROVE has begun anew, UNDO has taken one command back, or the step was accepted.
pub fn execute(
    alloc: Global,
    session: &mut Session,
    script: &ScriptCommand,
) -> Result<Text, AllocError>
    ensures replied { IfOk result (λ out. Replied session.old (plain_script script.now) session.new out) }
    ensures left { OnErr result (IsLeftBy session.old (plain_script script.now) session.new) }
{
    match script {
        ScriptCommand::Blank => Ok(Text::new(alloc)),
        ScriptCommand::Prove { number, goal } => prove(alloc, session, *number, goal),
        ScriptCommand::Undo => undo(alloc, session),
        ScriptCommand::Done => done(alloc, session),
        _ => lone_step(alloc, session, script),
    }
}

/// A reply, and the names that the outline of the session knows.
fn with_names(
    alloc: Global,
    session: &Session,
    reply: Text,
) -> Result<(Text, KnownNames), AllocError>
    ensures reply { IfOk result (λ r. r.0 ≡ reply) }
    ensures names { IfOk result (λ r. AreNamesOf (replay session.now) r.1) }
{
    let names = known_names(alloc, session.outline())?;
    Ok((reply, names))
}

/// Does what the command asks for, as `execute`, where these names are known; and answers those that are known then.
pub(crate) fn execute_with(
    alloc: Global,
    session: &mut Session,
    names: KnownNames,
    script: &ScriptCommand,
) -> Result<(Text, KnownNames), AllocError>
    requires { AreNamesOf (replay session.old) names }
    ensures replied { IfOk result (λ r. Replied session.old (plain_script script.now) session.new r.0) }
    ensures names { IfOk result (λ r. AreNamesOf (replay session.new) r.1) }
{
    match script {
        ScriptCommand::Blank => Ok((Text::new(alloc), names)),
        ScriptCommand::Prove { number, goal } => {
            let reply = prove(alloc, session, *number, goal)?;
            with_names(alloc, session, reply)
        }
        ScriptCommand::Undo => {
            let reply = undo(alloc, session)?;
            with_names(alloc, session, reply)
        }
        ScriptCommand::Done => {
            let reply = done(alloc, session)?;
            Ok((reply, names))
        }
        _ => step(alloc, session, names, script),
    }
}
