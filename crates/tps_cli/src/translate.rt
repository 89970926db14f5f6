//! The command `translate`.

ghost use Rattle.std.specs.Prelude.{IfOk};
ghost use Rattle.tps_cli.specs.Outcomes.{output_of, status_of};
ghost use Rattle.tps_cli.specs.Translates.{IsDerivationOf, TranslatesTo};

use crate::answer::{Answer, said};
use crate::proof::{accepted, read};
use exp_check::accepted::Accepted;
use hol_terms::lists::Text;
use nd_check::writers::write_derivation;
use outline_translate::translate::translate as translate_proof;
use std::alloc::{AllocError, Global};

/// The text of a derivation of the proof's formula.
fn translated(alloc: Global, accepted: &Accepted) -> Result<Text, AllocError>
    ensures { IfOk result (λ text. IsDerivationOf accepted.now.fitted.formula text) }
{
    let outline = translate_proof(alloc, accepted)?;
    write_derivation(alloc, &outline)
}

/// What `translate` answers to the bytes.
pub fn translate(alloc: Global, bytes: &[u8]) -> Result<Answer, AllocError>
    ensures { IfOk result (λ answer. TranslatesTo bytes.now (status_of answer) (output_of answer)) }
{
    let Some(text) = read(alloc, bytes)? else {
        return Ok(Answer::Unreadable);
    };
    match accepted(alloc, text)? {
        Some(accepted) => Ok(Answer::Yes(translated(alloc, &accepted)?)),
        None => Ok(Answer::No(said(alloc, b"REJECTED\n")?)),
    }
}
