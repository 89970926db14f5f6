//! Writes proof texts.

ghost use Rattle.std.specs.Prelude.{◌≡◌, ◌++◌, ◌∷◌, ◌<◌, ◌≤◌, ◌^◌, [], IfOk};
ghost use Rattle.core_text.specs.Forms.{AreWellSpelled, IsWellSpelled, nesting, number_form};
ghost use Rattle.core_text.specs.CoreForms.{pair_form};
ghost use Rattle.core_text.specs.Written.{written, written_others};
ghost use Rattle.expansion_tree.specs.Trees.{plain_branches, plain_tree};
ghost use Rattle.proof_text.specs.Forms.{branch_forms, mating_form, op_word, pair_forms, tree_form};
ghost use Rattle.proof_text.specs.Texts.{BranchesHaveNames, HasProofNames, IsProofText, IsTyped, IsWrittenProof, TreeHasNames, plain_proof, proof_form};

use crate::texts::ProofText;
use core_text::writers::{append_name, append_number, append_term};
use expansion_tree::matings::Mating;
use expansion_tree::trees::{Branches, Op, Tree};
use hol_terms::lists::Text;
use std::alloc::{AllocError, Global};

/// Adds the word of a connective at the end of the text.
fn append_op(out: &mut Text, op: Op) -> Result<(), AllocError>
    ensures { IfOk result (λ _. out.new ≡ out.old ++ op_word op) }
{
    match op {
        Op::And => out.append(b"AND"),
        Op::Or => out.append(b"OR"),
        Op::Imp => out.append(b"IMPLIES"),
    }
}

/// Adds a tree at the end of the text.
#[cycle(append_tree)]
fn append_tree(alloc: Global, out: &mut Text, tree: &Tree) -> Result<(), AllocError>
    ensures names { IfOk result (λ _. TreeHasNames (plain_tree tree.now)) }
    ensures text { IfOk result (λ _. out.new ≡ out.old ++ written (tree_form (plain_tree tree.now))) }
{
    match tree {
        Tree::Leaf => out.append(b"LEAF"),
        Tree::Const => out.append(b"CONST"),
        Tree::Not(below) => {
            out.append(b"(NOT ")?;
            append_tree(alloc, out, below)?;
            out.push(b')')
        }
        Tree::Bin(op, left, right) => {
            out.push(b'(')?;
            append_op(out, *op)?;
            out.push(b' ')?;
            append_tree(alloc, out, left)?;
            out.push(b' ')?;
            append_tree(alloc, out, right)?;
            out.push(b')')
        }
        Tree::Sel(name, below) => {
            out.append(b"(SEL ")?;
            append_name(alloc, out, name)?;
            out.push(b' ')?;
            append_tree(alloc, out, below)?;
            out.push(b')')
        }
        Tree::Exp(branches) => {
            out.append(b"(EXP")?;
            append_branches(alloc, out, branches)?;
            out.push(b')')
        }
    }
}

/// Adds branches at the end of the text, each after a space.
#[cycle(append_tree)]
fn append_branches(alloc: Global, out: &mut Text, branches: &Branches) -> Result<(), AllocError>
    ensures names { IfOk result (λ _. BranchesHaveNames (plain_branches branches.now)) }
    ensures text { IfOk result (λ _. out.new ≡ out.old ++ written_others (branch_forms (plain_branches branches.now))) }
{
    let mut rest = branches;
    while let Branches::More(term, tree, more) = rest {
        out.append(b" (")?;
        append_term(alloc, out, term)?;
        out.push(b' ')?;
        append_tree(alloc, out, tree)?;
        out.push(b')')?;
        rest = &**more;
    }
    Ok(())
}

/// Adds a pair at the end of the text.
fn append_pair(alloc: Global, out: &mut Text, pair: (u64, u64)) -> Result<(), AllocError>
    ensures numbers { (pair.0 < 2 ^ 64) × (pair.1 < 2 ^ 64) }
    ensures text { IfOk result (λ _. out.new ≡ out.old ++ written (pair_form (number_form pair.0) (number_form pair.1))) }
{
    out.push(b'(')?;
    append_number(alloc, out, pair.0)?;
    out.push(b' ')?;
    append_number(alloc, out, pair.1)?;
    out.push(b')')
}

/// Adds pairs at the end of the text, each after a space.
fn append_pairs(alloc: Global, out: &mut Text, pairs: &[(u64, u64)]) -> Result<(), AllocError>
    ensures numbers { IfOk result (λ _. AreWellSpelled (pair_forms pairs.now)) }
    ensures text { IfOk result (λ _. out.new ≡ out.old ++ written_others (pair_forms pairs.now)) }
{
    for pair in pairs {
        out.push(b' ')?;
        append_pair(alloc, out, *pair)?;
    }
    Ok(())
}

/// Adds a mating at the end of the text.
fn append_mating(alloc: Global, out: &mut Text, mating: &Mating) -> Result<(), AllocError>
    ensures numbers { IfOk result (λ _. IsWellSpelled (mating_form mating.now)) }
    ensures text { IfOk result (λ _. out.new ≡ out.old ++ written (mating_form mating.now)) }
{
    out.push(b'(')?;
    if let [first, rest @ ..] = mating.pairs() {
        append_pair(alloc, out, *first)?;
        append_pairs(alloc, out, rest)?;
    }
    out.push(b')')
}

/// Adds a proof at the end of the text.
fn append_proof(alloc: Global, out: &mut Text, proof: &ProofText) -> Result<(), AllocError>
    ensures names { IfOk result (λ _. HasProofNames (plain_proof proof.now)) }
    ensures numbers { IfOk result (λ _. IsWellSpelled (mating_form proof.now.mating)) }
    ensures text { IfOk result (λ _. out.new ≡ out.old ++ written (proof_form (plain_proof proof.now))) }
{
    out.append(b"(PROOF ")?;
    append_number(alloc, out, 1)?;
    out.push(b' ')?;
    append_term(alloc, out, &proof.formula)?;
    out.push(b' ')?;
    append_tree(alloc, out, &proof.tree)?;
    out.push(b' ')?;
    append_mating(alloc, out, &proof.mating)?;
    out.push(b')')?;
    Ok(())
}

/// The text of a proof, with one space between members, none after `(` and none before `)`, and LF at the end. Where the formula is
/// a formula and the terms have types, it is read again as that proof, within the limits of reading. An error comes only where memory
/// runs out.
pub fn write_proof(alloc: Global, proof: &ProofText) -> Result<Text, AllocError>
    ensures read { IsTyped (plain_proof proof.now) → nesting (proof_form (plain_proof proof.now)) ≤ 5000 → IfOk result (λ text. IsProofText text (plain_proof proof.now)) }
    ensures text { IfOk result (λ text. text ≡ written (proof_form (plain_proof proof.now)) ++ 10 ∷ []) }
    ensures written { IfOk result (λ text. IsWrittenProof text (plain_proof proof.now)) }
{
    let mut out = Text::new(alloc);
    append_proof(alloc, &mut out, proof)?;
    out.push(b'\n')?;
    Ok(out)
}
