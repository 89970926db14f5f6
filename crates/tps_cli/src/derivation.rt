//! Derivation texts that a command takes.

ghost use Rattle.std.specs.Prelude.{◌≡◌, ◌≢◌, ◌++◌, ◌∷◌, [], IfOk, List, MatchOption, OnOk};
ghost use Rattle.nd_rules.specs.Lines.{DeductionLine};
ghost use Rattle.nd_check.specs.Texts.{IsDerivationText};
ghost use Rattle.nd_check.specs.Verifying.{fault_line};

use core_text::faults::TextFault;
use hol_terms::lists::Text;
use nd_check::texts::read_derivation;
use nd_check::verifying::VerifyFault;
use nd_rules::outlines::Outline;
use std::alloc::{AllocError, Global};

/// The outline that the bytes are the text of, `None` exactly where they are of none.
pub fn read(alloc: Global, bytes: &[u8]) -> Result<Option<Outline>, AllocError>
    ensures { IfOk result (λ outline. MatchOption outline ((lines : List DeductionLine) → IsDerivationText bytes.now lines → ⊥) (λ lines. IsDerivationText bytes.now lines)) }
{
    match read_derivation(alloc, bytes) {
        Ok(outline) => Ok(Some(outline)),
        Err(TextFault::Memory) => Err(AllocError),
        Err(_) => Ok(None),
    }
}

/// The line that says why an outline is no derivation. An error comes only where memory runs out, or ran out before.
pub fn refused(alloc: Global, fault: &VerifyFault) -> Result<Text, AllocError>
    ensures named { OnOk result (fault.now ≢ VerifyFault.Memory) }
    ensures text { IfOk result (λ text. text ≡ fault_line fault.now ++ 10 ∷ []) }
{
    if matches!(fault, VerifyFault::Memory) {
        return Err(AllocError);
    }
    let mut out = Text::new(alloc);
    fault.append_line(alloc, &mut out)?;
    out.push(b'\n')?;
    Ok(out)
}
