//! Whether an outline is a derivation.

ghost use Rattle.std.specs.Prelude.{◌≡◌, ◌≢◌, ◌<◌, ◌++◌, [], IfErr, OnErr, OnOk, All, codes, decimal, length};
ghost use Rattle.hol_terms.specs.Terms.{Term, plain_term};
ghost use Rattle.hol_terms.specs.Typing.{IsFormula};
ghost use Rattle.nd_rules.specs.Lines.{DeductionLine, plain_line};
ghost use Rattle.nd_rules.specs.Outlines.{IsDerivation};
ghost use Rattle.nd_check.specs.Verifying.{IsConclusion, IsFinished, IsFirstFault, IsLineFault, fault_line};

use hol_terms::lists::Text;
use hol_terms::terms::Tm;
use nd_rules::faults::RuleFault;
use nd_rules::justifying::justify;
use nd_rules::lines::{Line, Why};
use nd_rules::outlines::Outline;
use std::alloc::{AllocError, Global};

/// Why an outline is no derivation: the first line that isn't justified or is planned, and else a last line with hypotheses.
#[derive(Drop)]
pub enum VerifyFault {
    /// Memory ran out.
    Memory,
    /// The line of this number isn't justified.
    BadLine { number: u64, fault: RuleFault },
    /// The line of this number is planned.
    Unfinished { number: u64 },
    /// The last line, of this number, has hypotheses.
    NotClosed { number: u64 },
}

/// Whether the line is justified by the outline, and not planned.
fn is_finished(alloc: Global, outline: &Outline, line: &Line) -> Result<(), VerifyFault>
    requires { IsFormula (plain_term line.now.formula) }
    ensures finished { OnOk result (IsFinished outline.now (plain_line line.now)) }
    ensures fault { IfErr result (λ e. IsLineFault outline.now (plain_line line.now) e) }
{
    if matches!(line.why, Why::Planned) {
        return Err(VerifyFault::Unfinished {
            number: line.number,
        });
    }
    match justify(alloc, outline, line) {
        Ok(()) => Ok(()),
        Err(RuleFault::Memory) => Err(VerifyFault::Memory),
        Err(fault) => Err(VerifyFault::BadLine {
            number: line.number,
            fault,
        }),
    }
}

/// Whether each line is justified by the outline, and none planned.
fn are_finished(alloc: Global, outline: &Outline) -> Result<(), VerifyFault>
    ensures finished { OnOk result (All (IsFinished outline.now) outline.now) }
    ensures fault { IfErr result (λ e. IsFirstFault outline.now e) }
{
    for i in 0..outline.len() {
        if let Err(fault) = is_finished(alloc, outline, outline.at(i)) {
            return Err(fault);
        }
    }
    Ok(())
}

/// Whether the outline is a derivation of its last formula (Andrews 2002): Ok exactly where it is. Else the first line that isn't
/// justified, with its refusal, or is planned, whatever its rule would say; and where there is none, the last line, which has
/// hypotheses.
pub fn verify(alloc: Global, outline: &Outline) -> Result<(), VerifyFault>
    requires { 0 < length outline.now }
    ensures derivation { OnOk result ((formula : Term) → IsConclusion outline.now formula → IsDerivation outline.now formula) }
    ensures fault { IfErr result (λ e. IsFirstFault outline.now e) }
    ensures refused { IfErr result (λ e. e ≢ VerifyFault.Memory → (formula : Term) → IsDerivation outline.now formula → ⊥) }
{
    if let Err(fault) = are_finished(alloc, outline) {
        return Err(fault);
    }
    let last = outline.at(outline.len() - 1);
    if last.hyps.len() > 0 {
        return Err(VerifyFault::NotClosed {
            number: last.number,
        });
    }
    Ok(())
}

/// Appends `LINE` and the number of a line.
fn append_number(alloc: Global, out: &mut Text, number: u64) -> Result<(), AllocError>
    ensures { OnOk result (out.new ≡ out.old ++ codes "LINE " ++ decimal number) }
{
    let words = format!(in alloc; "LINE {number}")?;
    out.append(words.as_bytes())
}

/// The formula of the last line.
pub fn conclusion(outline: &Outline) -> &Tm
    requires { 0 < length outline.now }
    ensures { IsConclusion outline.now (plain_term result.now) }
{
    &outline.at(outline.len() - 1).formula
}

impl VerifyFault {
    /// Appends what `append_line` does; after an error a part of it may be there.
    fn append_parts(&self, alloc: Global, out: &mut Text) -> Result<(), AllocError>
        ensures { OnOk result (out.new ≡ out.old ++ fault_line self.now) }
    {
        match self {
            VerifyFault::Memory => Ok(()),
            VerifyFault::BadLine { number, fault } => {
                append_number(alloc, out, *number)?;
                out.push(b' ')?;
                fault.append_words(alloc, out)
            }
            VerifyFault::Unfinished { number } => {
                append_number(alloc, out, *number)?;
                out.append(b" PLANNED")
            }
            VerifyFault::NotClosed { number } => {
                append_number(alloc, out, *number)?;
                out.append(b" NOTCLOSED")
            }
        }
    }

    /// Appends the line by which the fault is told, without an end of line: `LINE`, the number of the line, and the words of the
    /// refusal, `PLANNED` or `NOTCLOSED`; nothing when memory runs out. An error comes only where memory runs out, and then nothing is
    /// changed.
    pub fn append_line(&self, alloc: Global, out: &mut Text) -> Result<(), AllocError>
        ensures ok { OnOk result (out.new ≡ out.old ++ fault_line self.now) }
        ensures err { OnErr result (out.new ≡ out.old) }
    {
        let mut line = Text::new(alloc);
        self.append_parts(alloc, &mut line)?;
        out.append(line.as_slice())
    }
}
