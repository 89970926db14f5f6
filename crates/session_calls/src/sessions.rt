//! Sessions as lists of commands.

use crate::answers::{Answer, NoAnswer};
use crate::commands::{command, is_typed};
use crate::forms::{number, term, word};
use call_lines::answers::string_of;
use call_lines::arguments::members;
use core_text::brackets::read_sexp;
use core_text::sexps::{Sexp, Sexps};
use etps_session::faults::SessionFault;
use etps_session::sessions::Session;
use hol_terms::lists::Text;
use hol_terms::types::Ty;
use nd_check::writers::write_derivation;
use nd_rules::outlines::Outline;
use nd_rules::shapes::has_type;
use std::alloc::Global;

/// The words of a refusal.
fn refusal(alloc: Global, fault: &SessionFault) -> Answer {
    match fault {
        SessionFault::NoGoal => Ok(String::from_str(alloc, "NOGOAL")?),
        SessionFault::NumberTaken => Ok(String::from_str(alloc, "NUMBER")?),
        SessionFault::Rule(fault) => {
            let mut words = Text::new(alloc);
            fault.append_words(alloc, &mut words)?;
            Ok(string_of(alloc, &words)?)
        }
        SessionFault::Memory => Err(NoAnswer::Memory),
    }
}

/// `(PROVE n FORMULA)`: begins anew with that goal.
fn start(alloc: Global, session: &mut Session, form: &Sexp) -> Answer {
    let number = number(form, 1)?;
    let goal = term(alloc, form, 2)?;
    if !has_type(alloc, &goal, &Ty::truth())? {
        return Err(NoAnswer::NotTyped);
    }
    session.start(number, goal)?;
    Ok(String::from_str(alloc, "STARTED")?)
}

/// A command: `OK`, or the words of its refusal.
fn apply(alloc: Global, session: &mut Session, form: &Sexp) -> Answer {
    let command = command(alloc, form)?;
    if !is_typed(alloc, &command)? {
        return Err(NoAnswer::NotTyped);
    }
    match session.apply(command) {
        Ok(()) => Ok(String::from_str(alloc, "OK")?),
        Err(fault) => refusal(alloc, &fault),
    }
}

/// `UNDO`: the number of the command that was taken back, or why none was.
fn undo(alloc: Global, session: &mut Session) -> Answer {
    match session.undo() {
        Ok(number) => Ok(format!(in alloc; "UNDONE {number}")?),
        Err(fault) => Ok(format!(in alloc; "{fault:?}")?),
    }
}

/// `STATE`: how many lines there are, the first planned one up to the goal's, and whether the goal is derived.
fn state(alloc: Global, session: &Session) -> Answer {
    let count = session.outline().len();
    let mut answer = format!(in alloc; "LINES {count}")?;
    if let Some(number) = session.first_planned() {
        let planned = format!(in alloc; " PLANNED {number}")?;
        answer.push_str(planned.as_str())?;
    }
    if session.is_done() {
        answer.push_str(" DONE")?;
    }
    Ok(answer)
}

/// The reply to what a word alone asks for.
fn reply_to_word(alloc: Global, session: &mut Session, word: &str) -> Answer {
    match word {
        "UNDO" => undo(alloc, session),
        "STATE" => state(alloc, session),
        _ => Err(NoAnswer::NoSuchCall),
    }
}

/// The reply to a member of a session.
fn reply(alloc: Global, session: &mut Session, form: &Sexp) -> Answer {
    if let Sexp::Word(_, _) = form {
        return reply_to_word(alloc, session, word(form)?);
    }
    match word(form.first())? {
        "PROVE" => start(alloc, session, form),
        _ => apply(alloc, session, form),
    }
}

/// The lines of the outline as a derivation text, where there are any.
fn lines(alloc: Global, outline: &Outline) -> Answer {
    if outline.len() == 0 {
        return Ok(String::from_str(alloc, "no line")?);
    }
    Ok(string_of(alloc, &write_derivation(alloc, outline)?)?)
}

/// `(COMMAND ..)`: the reply to each command, and then the lines of the outline.
pub fn session(alloc: Global, arguments: &str) -> Answer {
    let form = read_sexp(alloc, arguments.as_bytes())?;
    let mut session = Session::new(alloc);
    let mut answer = String::new(alloc);
    let mut rest = members(&form)?;
    while let Sexps::More(member, more) = rest {
        let reply = reply(alloc, &mut session, &**member)?;
        answer.push_str(reply.as_str())?;
        answer.push_str("; ")?;
        rest = &**more;
    }
    answer.push_str(lines(alloc, session.outline())?.as_str())?;
    Ok(answer)
}
