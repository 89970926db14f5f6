//! The command `show`.

ghost use Rattle.std.specs.Prelude.{◌≡◌, IfOk};
ghost use Rattle.tps_cli.specs.Outcomes.{output_of, status_of};
ghost use Rattle.tps_cli.specs.Shows.{ShowsTo, printed_lines};

use crate::answer::Answer;
use crate::derivation::{read, refused};
use hol_terms::lists::Text;
use nd_check::verifying::verify;
use nd_rules::outlines::Outline;
use std::alloc::{AllocError, Global};
use tps_print::lines::print_line;

/// The printed lines of an outline, each with LF after it.
fn printed(alloc: Global, outline: &Outline) -> Result<Text, AllocError>
    ensures { IfOk result (λ text. text ≡ printed_lines outline.now) }
{
    let mut out = Text::new(alloc);
    for i in 0..outline.len() {
        let text = print_line(alloc, outline.at(i))?;
        out.append(text.as_slice())?;
        out.push(b'\n')?;
    }
    Ok(out)
}

/// What `show` answers to the bytes.
pub fn show(alloc: Global, bytes: &[u8]) -> Result<Answer, AllocError>
    ensures { IfOk result (λ answer. ShowsTo bytes.now (status_of answer) (output_of answer)) }
{
    let Some(outline) = read(alloc, bytes)? else {
        return Ok(Answer::Unreadable);
    };
    match verify(alloc, &outline) {
        Ok(()) => Ok(Answer::Yes(printed(alloc, &outline)?)),
        Err(fault) => Ok(Answer::No(refused(alloc, &fault)?)),
    }
}
