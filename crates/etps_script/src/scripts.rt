//! Scripts, line by line.

ghost use Rattle.std.specs.Prelude.{IfOk, OnOk};
ghost use Rattle.etps_session.specs.Replays.{replay};
ghost use Rattle.etps_script.specs.Names.{AreNamesOf};
ghost use Rattle.etps_script.specs.Scripts.{HasReply, IsLineReply, Replies};

use crate::known::{KnownNames, known_names};
use crate::lines::{END_OF_LINE, first_line};
use crate::refusals::refused_line;
use crate::replies::execute_with;
use etps_session::sessions::Session;
use hol_terms::lists::Text;
use script_text::readers::read_command;
use std::alloc::{AllocError, Global};

/// The reply to a line, where these names are known, and the names known then.
fn reply(
    alloc: Global,
    session: &mut Session,
    names: KnownNames,
    line: &[u8],
) -> Result<(Text, KnownNames), AllocError>
    requires { AreNamesOf (replay session.old) names }
    ensures reply { IfOk result (λ r. IsLineReply session.old line.now session.new r.0) }
    ensures names { IfOk result (λ r. AreNamesOf (replay session.new) r.1) }
{
    match read_command(alloc, line) {
        Ok(command) => execute_with(alloc, session, names, &command),
        Err(fault) => {
            let reply = refused_line(alloc, fault)?;
            Ok((reply, names))
        }
    }
}

/// Adds the reply to a line, and an end of line, and answers the names known then.
fn append_reply(
    alloc: Global,
    out: &mut Text,
    session: &mut Session,
    names: KnownNames,
    line: &[u8],
) -> Result<KnownNames, AllocError>
    requires { AreNamesOf (replay session.old) names }
    ensures reply { OnOk result (HasReply session.old line.now session.new out.old out.new) }
    ensures names { IfOk result (λ known. AreNamesOf (replay session.new) known) }
{
    let (reply, names) = reply(alloc, session, names, line)?;
    out.append(reply.as_slice())?;
    out.push(END_OF_LINE)?;
    Ok(names)
}

/// The replies to the lines of a script, each with an end of line, from the session without a goal on. An error comes only where memory
/// runs out. The names that the outline knows are kept from line to line, so that a step costs its own work.
pub fn run_script(alloc: Global, bytes: &[u8]) -> Result<Text, AllocError>
    ensures { IfOk result (λ out. Replies bytes.now out) }
{
    let mut session = Session::new(alloc);
    let mut names = known_names(alloc, session.outline())?;
    let mut out = Text::new(alloc);
    let mut rest = bytes;
    while !rest.is_empty() {
        let (line, more) = first_line(rest);
        names = append_reply(alloc, &mut out, &mut session, names, line)?;
        rest = more;
    }
    Ok(out)
}
