//! Proof texts read from bytes.

ghost use Rattle.std.specs.Prelude.{◌≡◌, ◌≢◌, IfErr, IfOk};
ghost use Rattle.hol_terms.specs.Terms.{plain_type};
ghost use Rattle.core_text.specs.Judged.{Answers};
ghost use Rattle.core_text.specs.Placed.{placed};
ghost use Rattle.core_text.specs.Reading.{Gives};
ghost use Rattle.proof_text.specs.Reading.{IsFirstFault, parts_at, proof_at, proof_in, proof_judged, truth_at, version_at};
ghost use Rattle.proof_text.specs.Texts.{IsProofText, Proof, plain_proof};
ghost use Rattle.proof_text.specs.Views.{plain_parts};

use crate::judgements::judge_tree;
use crate::matings::read_mating;
use crate::trees::read_tree;
use core_text::brackets::read_sexp;
use core_text::faults::TextFault;
use core_text::sexps::{Sexp, Sexps};
use core_text::terms::{is_keyword, read_preterm};
use core_text::typings::judge;
use expansion_tree::matings::Mating;
use expansion_tree::trees::Tree;
use hol_terms::terms::Tm;
use hol_terms::types::Ty;
use std::alloc::Global;

/// What a proof text says: a formula, a tree and a mating.
#[derive(Drop)]
pub struct ProofText {
    pub formula: Tm,
    pub tree: Tree,
    pub mating: Mating,
}

/// The members of the form of a proof text after its first word.
#[derive(Clone, Copy)]
pub struct TextParts<'a> {
    pub version: &'a Sexp,
    pub formula: &'a Sexp,
    pub tree: &'a Sexp,
    pub mating: &'a Sexp,
}

/// The parts of a form `(PROOF version formula tree mating)`.
fn parts(form: &Sexp) -> Result<TextParts<'_>, TextFault>
    ensures { Gives plain_parts result (parts_at (placed form.now)) }
{
    let Sexp::List(all, place) = form else {
        return Err(TextFault::BadForm(form.place()));
    };
    let Sexps::More(head, rest) = all else {
        return Err(TextFault::BadForm(*place));
    };
    let Sexp::Word(word, _) = &**head else {
        return Err(TextFault::BadForm(*place));
    };
    let Sexps::More(version, rest) = &**rest else {
        return Err(TextFault::BadForm(*place));
    };
    let Sexps::More(formula, rest) = &**rest else {
        return Err(TextFault::BadForm(*place));
    };
    let Sexps::More(tree, rest) = &**rest else {
        return Err(TextFault::BadForm(*place));
    };
    let Sexps::More(mating, rest) = &**rest else {
        return Err(TextFault::BadForm(*place));
    };
    let Sexps::End = &**rest else {
        return Err(TextFault::BadForm(*place));
    };
    if !is_keyword(word.as_slice(), b"PROOF") {
        return Err(TextFault::BadForm(*place));
    }
    Ok(TextParts {
        version: &**version,
        formula: &**formula,
        tree: &**tree,
        mating: &**mating,
    })
}

/// Whether the form is the number 1, the only version.
fn read_version(form: &Sexp) -> Result<(), TextFault>
    ensures { Gives (λ one. tt) result (version_at (placed form.now)) }
{
    match form {
        Sexp::Number(number, place) => {
            if *number == 1 {
                Ok(())
            } else {
                Err(TextFault::BadForm(*place))
            }
        }
        _ => Err(TextFault::BadForm(form.place())),
    }
}

/// The proof of the parts, its terms typed or not.
fn read_parts(alloc: Global, parts: TextParts<'_>) -> Result<ProofText, TextFault>
    ensures { Gives plain_proof result (proof_in (plain_parts parts.entry)) }
{
    read_version(parts.version)?;
    let formula = read_preterm(alloc, parts.formula)?;
    let tree = read_tree(alloc, parts.tree)?;
    let mating = read_mating(alloc, parts.mating)?;
    Ok(ProofText {
        formula,
        tree,
        mating,
    })
}

/// Whether the type is O.
#[tactic(auto, using(crate::proofs::Judged::truth_other))]
fn judge_truth(ty: &Ty, place: u64) -> Result<(), TextFault>
    ensures { Answers (λ done. tt) result (truth_at (plain_type ty.now) place) }
{
    if ty.same(&Ty::truth()) {
        Ok(())
    } else {
        Err(TextFault::IllTyped(place))
    }
}

/// Judges the formula and the terms of the tree, in the order of the text.
fn judge_proof(alloc: Global, proof: &ProofText, parts: TextParts<'_>) -> Result<(), TextFault>
    ensures { Answers (λ done. tt) result (proof_judged (plain_proof proof.now) (plain_parts parts.entry)) }
{
    let ty = judge(alloc, &proof.formula, parts.formula)?;
    judge_tree(alloc, &proof.tree, parts.tree)?;
    judge_truth(&ty, parts.formula.place())
}

/// The proof of a form.
fn read_form(alloc: Global, form: &Sexp) -> Result<ProofText, TextFault>
    ensures { Answers plain_proof result (proof_at (placed form.now)) }
{
    let parts = parts(form)?;
    let proof = read_parts(alloc, parts)?;
    match judge_proof(alloc, &proof, parts) {
        Ok(_) => Ok(proof),
        Err(fault) => Err(fault),
    }
}

/// Reads a proof text. The first fault is one of the bytes as a bracketed form; then `BadForm`, with the place of the first form, a
/// list before its members, that has no place in the table; then `LooseIndex` and `IllTyped` of the formula and of each term of the
/// tree, in the order of the text; and then `IllTyped` at a formula of another type than O.
pub fn read_proof(alloc: Global, bytes: &[u8]) -> Result<ProofText, TextFault>
    ensures found { IfOk result (λ text. IsProofText bytes.now (plain_proof text)) }
    ensures only { IfOk result (λ text. (p : Proof) → IsProofText bytes.now p → p ≡ plain_proof text) }
    ensures fault { IfErr result (λ e. IsFirstFault bytes.now e) }
    ensures none { IfErr result (λ e. e ≢ TextFault.Memory → (p : Proof) → IsProofText bytes.now p → ⊥) }
{
    match read_sexp(alloc, bytes) {
        Ok(form) => read_form(alloc, &form),
        Err(fault) => Err(fault),
    }
}
