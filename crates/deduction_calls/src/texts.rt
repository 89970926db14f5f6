//! Calls of `nd_check`.

ghost use Rattle.std.specs.Prelude.{IfOk};
ghost use Rattle.nd_check.specs.Texts.{IsDerivationText};

use crate::answers::{Answer, NoAnswer};
use crate::evidence::push_evidence;
use call_lines::answers::{string_of, term_text};
use hol_terms::lists::Text;
use nd_check::texts::read_derivation;
use nd_check::verifying::{VerifyFault, conclusion, verify};
use nd_check::writers::write_derivation;
use nd_rules::outlines::Outline;
use std::alloc::Global;

/// The outline of a derivation text.
pub fn derivation(alloc: Global, text: &str) -> Result<Outline, NoAnswer>
    ensures { IfOk result (λ outline. IsDerivationText text.now outline) }
{
    Ok(read_derivation(alloc, text.as_bytes())?)
}

/// The outline as a derivation text, with the end of line that it ends with, or `no line`.
pub fn outline_text(alloc: Global, outline: &Outline) -> Answer {
    if outline.len() == 0 {
        return Ok(String::from_str(alloc, "no line")?);
    }
    Ok(string_of(alloc, &write_derivation(alloc, outline)?)?)
}

/// `DERIVATION`: the derivation, written again.
pub fn again(alloc: Global, arguments: &str) -> Answer {
    outline_text(alloc, &derivation(alloc, arguments)?)
}

/// The line by which the fault is told, and what else it shows.
fn fault_text(alloc: Global, fault: &VerifyFault) -> Answer {
    let mut words = Text::new(alloc);
    fault.append_line(alloc, &mut words)?;
    let mut answer = string_of(alloc, &words)?;
    if let VerifyFault::BadLine { fault, .. } = fault {
        push_evidence(alloc, &mut answer, fault)?;
    }
    Ok(answer)
}

/// Whether the outline is a derivation: `yes`, or the first fault.
pub fn verified(alloc: Global, outline: &Outline) -> Answer {
    if outline.len() == 0 {
        return Err(NoAnswer::NoLine);
    }
    match verify(alloc, outline) {
        Ok(()) => Ok(String::from_str(alloc, "yes")?),
        Err(VerifyFault::Memory) => Err(NoAnswer::Memory),
        Err(fault) => fault_text(alloc, &fault),
    }
}

/// `DERIVATION`: whether it is one.
pub fn verification(alloc: Global, arguments: &str) -> Answer {
    verified(alloc, &derivation(alloc, arguments)?)
}

/// `DERIVATION`: the formula of its last line.
pub fn last_formula(alloc: Global, arguments: &str) -> Answer {
    let outline = derivation(alloc, arguments)?;
    if outline.len() == 0 {
        return Err(NoAnswer::NoLine);
    }
    Ok(term_text(alloc, conclusion(&outline))?)
}
