//! Calls of `etps_script`. In a script and in the replies ` / ` stands for an end of line.

use crate::answers::Answer;
use call_lines::answers::string_of;
use etps_script::replies::execute;
use etps_script::scripts::run_script;
use etps_session::sessions::Session;
use hol_terms::lists::Text;
use script_text::readers::read_command;
use std::alloc::Global;

/// The replies.
fn replies_text(alloc: Global, replies: &Text) -> Answer {
    let text = string_of(alloc, replies)?;
    Ok(text.as_str().replace(alloc, "\n", " / ")?)
}

/// `SCRIPT`: the replies to its lines.
pub fn script(alloc: Global, arguments: &str) -> Answer {
    let script = arguments.replace(alloc, " / ", "\n")?;
    replies_text(alloc, &run_script(alloc, script.as_bytes())?)
}

/// The reply to the command of a line, or the fault of the line.
fn executed(alloc: Global, session: &mut Session, line: &str) -> Answer {
    match read_command(alloc, line.as_bytes()) {
        Ok(command) => Ok(string_of(alloc, &execute(alloc, session, &command)?)?),
        Err(fault) => Ok(format!(in alloc; "{fault:?}")?),
    }
}

/// `SCRIPT`: the replies to its lines, each command executed alone.
pub fn commands_executed(alloc: Global, arguments: &str) -> Answer {
    let mut session = Session::new(alloc);
    let mut answer = String::new(alloc);
    for line in arguments.split(" / ") {
        let reply = executed(alloc, &mut session, line)?;
        answer.push_str(reply.as_str())?;
        answer.push_str(" / ")?;
    }
    Ok(answer)
}
