//! Proof texts that a command takes.

ghost use Rattle.std.specs.Prelude.{◌≡◌, IfOk, IfSome, MatchOption};
ghost use Rattle.hol_terms.specs.Terms.{plain_term};
ghost use Rattle.hol_terms.specs.Typing.{IsFormula};
ghost use Rattle.exp_check.specs.Accepted.{IsAccepted, proof_of};
ghost use Rattle.exp_check.specs.Proofs.{IsProof};
ghost use Rattle.proof_text.specs.Texts.{IsProofText, Proof, plain_proof};

use core_text::faults::TextFault;
use exp_check::accepted::Accepted;
use exp_check::checks::check as check_proof;
use exp_check::faults::CheckFault;
use proof_text::texts::{ProofText, read_proof};
use std::alloc::{AllocError, Global};

/// The proof text that the bytes are, `None` exactly where they are none.
pub fn read(alloc: Global, bytes: &[u8]) -> Result<Option<ProofText>, AllocError>
    ensures found { IfOk result (λ text. MatchOption text ((p : Proof) → IsProofText bytes.now p → ⊥) (λ t. IsProofText bytes.now (plain_proof t))) }
    ensures only { IfOk result (λ text. IfSome text (λ t. (p : Proof) → IsProofText bytes.now p → p ≡ plain_proof t)) }
{
    match read_proof(alloc, bytes) {
        Ok(text) => Ok(Some(text)),
        Err(TextFault::Memory) => Err(AllocError),
        Err(_) => Ok(None),
    }
}

/// The proof text as an expansion proof, `None` exactly where it is none.
pub fn accepted(alloc: Global, text: ProofText) -> Result<Option<Accepted>, AllocError>
    requires { IsFormula (plain_term text.formula) }
    ensures { IfOk result (λ accepted. MatchOption accepted (IsProof (plain_proof text) → ⊥) (λ a. IsAccepted a × (proof_of a ≡ plain_proof text))) }
{
    match check_proof(alloc, text) {
        Ok(accepted) => Ok(Some(accepted)),
        Err(CheckFault::Memory) => Err(AllocError),
        Err(_) => Ok(None),
    }
}
