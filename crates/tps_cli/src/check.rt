//! The command `check`.

ghost use Rattle.std.specs.Prelude.{IfOk};
ghost use Rattle.tps_cli.specs.Checks.{ChecksTo};
ghost use Rattle.tps_cli.specs.Outcomes.{output_of, status_of};

use crate::answer::{Answer, said};
use crate::proof::{accepted, read};
use std::alloc::{AllocError, Global};

/// What `check` answers to the bytes.
pub fn check(alloc: Global, bytes: &[u8]) -> Result<Answer, AllocError>
    ensures { IfOk result (λ answer. ChecksTo bytes.now (status_of answer) (output_of answer)) }
{
    let Some(text) = read(alloc, bytes)? else {
        return Ok(Answer::Unreadable);
    };
    match accepted(alloc, text)? {
        Some(_) => Ok(Answer::Yes(said(alloc, b"ACCEPTED\n")?)),
        None => Ok(Answer::No(said(alloc, b"REJECTED\n")?)),
    }
}
