//! The command `generate`.

ghost use Rattle.std.specs.Prelude.{◌≡◌, ◌++◌, ◌≤◌, ◌↔◌, IfOk, IsTrue, OnOk, length};
ghost use Rattle.expansion_tree.specs.Occurrences.{occurrences_of, tree_weight};
ghost use Rattle.exp_check.specs.Accepted.{IsAccepted, proof_of};
ghost use Rattle.tps_gen.specs.Chains.{HasFigures};
ghost use Rattle.tps_cli.specs.Generates.{GeneratesTo, figure, told};
ghost use Rattle.tps_cli.specs.Outcomes.{output_of, status_of};

use crate::answer::Answer;
use crate::proof::accepted;
use core_text::writers::append_number;
use exp_check::accepted::Accepted;
use hol_terms::lists::Text;
use nd_check::verifying::{VerifyFault, verify};
use outline_translate::translate::translate;
use std::alloc::{AllocError, Global};
use tps_gen::chains::chain;

/// How large a proof is: its leaves, its pairs, its occurrences, and the weight of its terms.
#[derive(Clone, Copy)]
struct Figures {
    leaves: u64,
    pairs: u64,
    occurrences: u64,
    weight: u64,
}

/// The figures of a proof.
fn figures_of(accepted: &Accepted) -> Figures
    ensures leaves { result.leaves ≡ length accepted.now.fitted.leaf_list }
    ensures pairs { result.pairs ≡ length accepted.now.mating }
    ensures occurrences { result.occurrences ≡ length (occurrences_of accepted.now.fitted.tree) }
    ensures weight { result.weight ≡ tree_weight accepted.now.fitted.tree }
{
    let fitted = accepted.fitted();
    Figures {
        leaves: fitted.leaf_count(),
        pairs: accepted.mating().len(),
        occurrences: fitted.occurrence_count(),
        weight: fitted.weight(),
    }
}

/// Appends a line of a word and a number.
fn append_figure(alloc: Global, out: &mut Text, word: &[u8], number: u64) -> Result<(), AllocError>
    ensures { OnOk result (out.new ≡ out.old ++ figure word.now number) }
{
    out.append(word)?;
    out.push(b' ')?;
    append_number(alloc, out, number)?;
    out.push(b'\n')
}

/// The lines that tell a chain's figures, and that its proof was accepted and its derivation verified.
fn lines_of(alloc: Global, n: u64, figures: Figures) -> Result<Text, AllocError>
    ensures { IfOk result (λ text. text ≡ told n figures.leaves figures.pairs figures.occurrences figures.weight) }
{
    let mut out = Text::new(alloc);
    append_figure(alloc, &mut out, b"CHAIN", n)?;
    append_figure(alloc, &mut out, b"LEAVES", figures.leaves)?;
    append_figure(alloc, &mut out, b"PAIRS", figures.pairs)?;
    append_figure(alloc, &mut out, b"OCCURRENCES", figures.occurrences)?;
    append_figure(alloc, &mut out, b"WEIGHT", figures.weight)?;
    out.append(b"ACCEPTED\nVERIFIED\n")?;
    Ok(out)
}

/// The chain with n instances, checked: it is an expansion proof.
fn accepted_chain(alloc: Global, n: u64) -> Result<Accepted, AllocError>
    requires low { 1 ≤ n }
    requires high { n ≤ 100 }
    ensures accepted { IfOk result (λ a. IsAccepted a) }
    ensures figures { IfOk result (λ a. HasFigures n (proof_of a)) }
{
    let proof = chain(alloc, n)?;
    match accepted(alloc, proof)? {
        Some(accepted) => Ok(accepted),
        None => unreachable!(),
    }
}

/// Whether memory was wanting.
fn wanted_memory(fault: &VerifyFault) -> bool
    ensures { IsTrue result ↔ (fault.now ≡ VerifyFault.Memory) }
{
    matches!(fault, VerifyFault::Memory)
}

/// Translates the proof and verifies what comes of it. As this is a derivation, it is never refused.
fn verified(alloc: Global, accepted: &Accepted) -> Result<(), AllocError> {
    let outline = translate(alloc, accepted)?;
    match verify(alloc, &outline) {
        Ok(()) => Ok(()),
        Err(fault) => {
            if wanted_memory(&fault) {
                return Err(AllocError);
            }
            unreachable!()
        }
    }
}

/// What `generate` answers: the chain with n instances is made, checked, translated, and its derivation verified.
pub fn generate(alloc: Global, n: u64) -> Result<Answer, AllocError>
    requires low { 1 ≤ n }
    requires high { n ≤ 100 }
    ensures { IfOk result (λ answer. GeneratesTo n (status_of answer) (output_of answer)) }
{
    let accepted = accepted_chain(alloc, n)?;
    verified(alloc, &accepted)?;
    let figures = figures_of(&accepted);
    Ok(Answer::Yes(lines_of(alloc, n, figures)?))
}
