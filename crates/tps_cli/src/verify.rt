//! The command `verify`.

ghost use Rattle.std.specs.Prelude.{◌≡◌, ◌<◌, IfOk, length};
ghost use Rattle.hol_terms.specs.Terms.{Term};
ghost use Rattle.nd_check.specs.Verifying.{IsConclusion};
ghost use Rattle.tps_cli.specs.Outcomes.{output_of, status_of};
ghost use Rattle.tps_cli.specs.Verifies.{VerifiesTo, verified_line};

use crate::answer::{Answer, said};
use crate::derivation::{read, refused};
use core_text::writers::append_term;
use hol_terms::lists::Text;
use nd_check::verifying::{conclusion, verify as verify_outline};
use nd_rules::outlines::Outline;
use std::alloc::{AllocError, Global};

/// The line that says what was verified: the formula of the last line.
fn verified(alloc: Global, outline: &Outline) -> Result<Text, AllocError>
    requires { 0 < length outline.now }
    ensures { IfOk result (λ text. (formula : Term) × IsConclusion outline.now formula × (text ≡ verified_line formula)) }
{
    let mut out = said(alloc, b"VERIFIED ")?;
    append_term(alloc, &mut out, conclusion(outline))?;
    out.push(b'\n')?;
    Ok(out)
}

/// What `verify` answers to the bytes.
pub fn verify(alloc: Global, bytes: &[u8]) -> Result<Answer, AllocError>
    ensures { IfOk result (λ answer. VerifiesTo bytes.now (status_of answer) (output_of answer)) }
{
    let Some(outline) = read(alloc, bytes)? else {
        return Ok(Answer::Unreadable);
    };
    match verify_outline(alloc, &outline) {
        Ok(()) => Ok(Answer::Yes(verified(alloc, &outline)?)),
        Err(fault) => Ok(Answer::No(refused(alloc, &fault)?)),
    }
}
