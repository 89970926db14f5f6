//! Steps of a script: what they ask of the session, and how it is taken.

ghost use Rattle.std.specs.Prelude.{◌≡◌, IfErr, IfOk, IsSome, OnErr, OnOk, is_some};
ghost use Rattle.etps_session.specs.Answers.{IsAccepted, IsFirstAnswer};
ghost use Rattle.etps_session.specs.Commands.{IsTyped, Request, number_of, plain_command};
ghost use Rattle.etps_session.specs.Replays.{SessionState, replay, with_request};
ghost use Rattle.script_text.specs.Commands.{plain_script};
ghost use Rattle.etps_script.specs.Known.{AreKnown};
ghost use Rattle.etps_script.specs.Replies.{IsRefused, IsTaken, IsUnaccepted};
ghost use Rattle.etps_script.specs.Requests.{line_number as line_number_of};

use crate::phrases::Context;
use crate::refusals::Refusal;
use crate::requests::{is_taken, request};
use etps_session::commands::Command;
use etps_session::faults::SessionFault;
use etps_session::sessions::Session;
use hol_terms::lists::Vars;
use script_text::commands::ScriptCommand;
use std::alloc::Global;

/// Whether a goal was started.
pub(crate) fn is_started(session: &Session) -> bool
    ensures { result ≡ is_some session.now.goal }
{
    session.first_planned().is_some() || session.is_done()
}

/// Why a request isn't accepted.
fn unaccepted(fault: SessionFault) -> Refusal
    ensures { (s : SessionState) (r : Request) → IsFirstAnswer s r fault → IsUnaccepted s r result }
{
    match fault {
        SessionFault::NoGoal => Refusal::NoGoal,
        SessionFault::NumberTaken => Refusal::NumberTaken,
        SessionFault::Rule(fault) => Refusal::Rule(fault),
        SessionFault::Memory => Refusal::Memory,
    }
}

/// Asks the session to take the request up, and answers the number of its line.
fn submit(session: &mut Session, command: Command) -> Result<u64, Refusal>
    requires { IsTyped (plain_command command) }
    ensures number { IfOk result (λ n. n ≡ number_of (plain_command command)) }
    ensures accepted { OnOk result (IsAccepted session.old (plain_command command)) }
    ensures taken { OnOk result (session.new ≡ with_request session.old (plain_command command)) }
    ensures refused { IfErr result (λ e. IsUnaccepted session.old (plain_command command) e) }
    ensures kept { OnErr result (session.new ≡ session.old) }
{
    let number = command.number();
    match session.apply(command) {
        Ok(()) => Ok(number),
        Err(fault) => Err(unaccepted(fault)),
    }
}

/// Takes the step, where these names are known, and answers the number of its line. A refusal changes nothing.
pub(crate) fn take(
    alloc: Global,
    session: &mut Session,
    known: &Vars,
    script: &ScriptCommand,
) -> Result<u64, Refusal>
    requires step { IsSome (line_number_of (plain_script script.now)) }
    requires known { AreKnown (replay session.old) known.now }
    ensures taken { IfOk result (λ n. IsTaken session.old (plain_script script.now) session.new n) }
    ensures refused { IfErr result (λ e. IsRefused session.old (plain_script script.now) e) }
    ensures kept { OnErr result (session.new ≡ session.old) }
{
    if !is_started(session) {
        return Err(Refusal::NoGoal);
    }
    if is_taken(session.outline(), script) {
        return Err(Refusal::NumberTaken);
    }
    let context = Context {
        outline: session.outline(),
        known,
    };
    match request(alloc, context, script) {
        Ok(command) => submit(session, command),
        Err(refusal) => Err(refusal),
    }
}
