//! The command `etps`.

ghost use Rattle.std.specs.Prelude.{IfOk};
ghost use Rattle.tps_cli.specs.Outcomes.{output_of, status_of};
ghost use Rattle.tps_cli.specs.Tutors.{TutorsTo};

use crate::answer::Answer;
use etps_script::scripts::run_script;
use std::alloc::{AllocError, Global};

/// What `etps` answers to the bytes: the replies to the lines of a script, from the session without a goal on.
pub fn tutor(alloc: Global, bytes: &[u8]) -> Result<Answer, AllocError>
    ensures { IfOk result (λ answer. TutorsTo bytes.now (status_of answer) (output_of answer)) }
{
    Ok(Answer::Yes(run_script(alloc, bytes)?))
}
