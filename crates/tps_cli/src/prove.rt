//! The command `prove`.

ghost use Rattle.std.specs.Prelude.{◌≡◌, ◌↔◌, ◌≤◌, ◌++◌, ◌∷◌, IfOk, IfSome, IsTrue, MatchOption, Some, [], codes, decimal};
ghost use Rattle.hol_terms.specs.Terms.{Term, plain_term, truth_type};
ghost use Rattle.hol_terms.specs.Typing.{IsFormula};
ghost use Rattle.tps_reader.specs.Faults.{IsFormulaText};
ghost use Rattle.tps_reader.specs.Raws.{RawFormula, plain_raw};
ghost use Rattle.type_infer.specs.Faults.{IsOnlyAnnotation};
ghost use Rattle.tps_cli.specs.Outcomes.{output_of, status_of};
ghost use Rattle.tps_cli.specs.Proves.{ProvesTo, StandsFor};

use crate::answer::Answer;
use crate::options::Budget;
use core_text::writers::append_number;
use exp_check::accepted::Accepted;
use hol_terms::lists::{Text, Vars};
use hol_terms::terms::Tm;
use hol_terms::types::Ty;
use plain_search::search::search;
use proof_text::writers::write_proof;
use std::alloc::{AllocError, Global};
use tps_reader::faults::RawFault;
use tps_reader::raws::Raw;
use tps_reader::readers::read_raw;
use type_infer::inference::{InferFault, infer};
use type_infer::laws::annotations;

/// Whether the fault of a text is running out of memory.
fn text_wants_memory(fault: RawFault) -> bool
    ensures { IsTrue result ↔ (fault ≡ RawFault.Memory) }
{
    matches!(fault, RawFault::Memory)
}

/// The phrase that the bytes are, `None` exactly where they are none.
fn phrase(alloc: Global, bytes: &[u8]) -> Result<Option<Raw>, AllocError>
    ensures found { IfOk result (λ phrase. MatchOption phrase ((raw : RawFormula) → IsFormulaText bytes.now raw → ⊥) (λ raw. IsFormulaText bytes.now (plain_raw raw))) }
    ensures only { IfOk result (λ phrase. IfSome phrase (λ p. (raw : RawFormula) → IsFormulaText bytes.now raw → raw ≡ plain_raw p)) }
{
    match read_raw(alloc, bytes) {
        Ok(raw) => Ok(Some(raw)),
        Err(fault) => {
            if text_wants_memory(fault) {
                return Err(AllocError);
            }
            Ok(None)
        }
    }
}

/// Whether the fault is running out of memory.
fn wants_memory(fault: &InferFault) -> bool
    ensures { IsTrue result ↔ (fault.now ≡ InferFault.Memory) }
{
    matches!(fault, InferFault::Memory)
}

/// The formula that a phrase stands for, `None` exactly where it stands for none or for more than one.
fn typed(alloc: Global, raw: &Raw) -> Result<Option<Tm>, AllocError>
    ensures found { IfOk result (λ found. MatchOption found ((t : Term) → IsOnlyAnnotation (plain_raw raw.now) (Some truth_type) [] t → ⊥) (λ t. IsOnlyAnnotation (plain_raw raw.now) (Some truth_type) [] (plain_term t))) }
    ensures formula { IfOk result (λ found. IfSome found (λ t. IsFormula (plain_term t))) }
{
    annotations();
    let wanted = Ty::truth();
    match infer(alloc, raw, Some(&wanted), &Vars::new(alloc)) {
        Ok(formula) => Ok(Some(formula)),
        Err(fault) => {
            if wants_memory(&fault) {
                return Err(AllocError);
            }
            Ok(None)
        }
    }
}

/// The formula that the bytes stand for, `None` exactly where they stand for none or for more than one.
fn read(alloc: Global, bytes: &[u8]) -> Result<Option<Tm>, AllocError>
    ensures found { IfOk result (λ found. MatchOption found ((formula : Term) → StandsFor bytes.now formula → ⊥) (λ t. StandsFor bytes.now (plain_term t))) }
    ensures formula { IfOk result (λ found. IfSome found (λ t. IsFormula (plain_term t))) }
{
    let Some(raw) = phrase(alloc, bytes)? else {
        return Ok(None);
    };
    typed(alloc, &raw)
}

/// That no proof is in the budget.
fn unknown(alloc: Global, weight: u64) -> Result<Text, AllocError>
    ensures { IfOk result (λ text. text ≡ codes "UNKNOWN " ++ (decimal weight ++ 10 ∷ [])) }
{
    let mut out = Text::new(alloc);
    out.append(b"UNKNOWN ")?;
    append_number(alloc, &mut out, weight)?;
    out.push(b'\n')?;
    Ok(out)
}

/// What `prove` answers to the bytes.
pub fn prove(alloc: Global, budget: Budget, bytes: &[u8]) -> Result<Answer, AllocError>
    requires weight { budget.weight ≤ 64 }
    requires level { budget.level ≤ 2 }
    ensures { IfOk result (λ answer. ProvesTo budget bytes.now (status_of answer) (output_of answer)) }
{
    let Some(formula) = read(alloc, bytes)? else {
        return Ok(Answer::Unreadable);
    };
    match search(alloc, &formula, budget.weight, budget.level)? {
        Some(accepted) => Ok(Answer::Yes(write_proof(alloc, &accepted.into_text())?)),
        None => Ok(Answer::No(unknown(alloc, budget.weight)?)),
    }
}
