//! The search.

ghost use Rattle.std.specs.Prelude.{◌<◌, ◌≤◌, ◌++◌, ◌∷◌, [], ℕ, All, IfNone, IfOk, IfSome, OnOk, length, map};
ghost use Rattle.hol_terms.specs.Terms.{plain_term};
ghost use Rattle.hol_terms.specs.Typing.{IsFormula};
ghost use Rattle.proof_text.specs.Texts.{Proof};
ghost use Rattle.exp_check.specs.Accepted.{IsAccepted, proof_of};
ghost use Rattle.tree_growth.specs.Growths.{plain_growth};
ghost use Rattle.plain_search.specs.Levels.{AreLevels, HasAllGrown, IsCandidate, plain_levels};
ghost use Rattle.plain_search.specs.Proofs.{IsLeastProof, IsProofInBudget};
ghost use Rattle.plain_search.specs.Searching.{HasNoProof, IsProofAmong};
ghost use Rattle.plain_search.specs.Tasks.{IsTask};

use crate::tasks::Task;
use crate::trials::tried;
use exp_check::accepted::Accepted;
use hol_terms::terms::Tm;
use std::alloc::{AllocError, Global};
use tree_growth::growths::Growth;

/// An expansion proof of the formula that has the first of the trees that some mating makes one.
fn first_proof(
    alloc: Global,
    formula: &Tm,
    growths: &[Growth],
) -> Result<Option<Accepted>, AllocError>
    requires { IsFormula (plain_term formula.now) }
    ensures some { IfOk result (λ found. IfSome found (IsProofAmong (plain_term formula.now) (map plain_growth growths.now))) }
    ensures none { IfOk result (λ found. IfNone found (HasNoProof (plain_term formula.now) (map plain_growth growths.now))) }
{
    for growth in growths {
        if let Some(accepted) = tried(alloc, formula, &growth.tree)? {
            return Ok(Some(accepted));
        }
    }
    Ok(None)
}

/// The trees that come of these by one more branch of the weight are added.
fn add_grown(
    alloc: Global,
    task: &Task,
    growths: &[Growth],
    weight: u64,
    level: &mut Vec<Growth>,
) -> Result<(), AllocError>
    requires task { IsTask task.now }
    requires candidates { (w : ℕ) × All (IsCandidate (plain_term task.now.formula) task.now.level w) (map plain_growth growths.now) }
    ensures { OnOk result (HasAllGrown (plain_term task.now.formula) task.now.level (map plain_growth growths.now) weight (map plain_growth level.old.items) (map plain_growth level.new.items)) }
{
    for growth in growths {
        let mut grown = task.grown(alloc, growth, weight)?;
        level.append(&mut grown)?;
    }
    Ok(())
}

/// The trees of the next weight.
fn next_level(alloc: Global, task: &Task, levels: &[Vec<Growth>]) -> Result<Vec<Growth>, AllocError>
    requires task { IsTask task.now }
    requires some { 0 < length levels.now }
    requires levels { AreLevels (plain_term task.now.formula) task.now.level (plain_levels levels.now) }
    ensures { IfOk result (λ level. AreLevels (plain_term task.now.formula) task.now.level (plain_levels levels.now ++ map plain_growth level.items ∷ [])) }
{
    let mut level = Vec::new(alloc);
    for (weight, growths) in levels.iter().enumerate() {
        let more = (levels.len() - weight) as u64;
        add_grown(alloc, task, growths, more, &mut level)?;
    }
    Ok(level)
}

/// What `search` answers for the formula of a task.
fn lightest(alloc: Global, task: &Task, weight: u64) -> Result<Option<Accepted>, AllocError>
    requires task { IsTask task.now }
    requires formula { IsFormula (plain_term task.now.formula) }
    requires weight { weight ≤ 64 }
    ensures accepted { IfOk result (λ found. IfSome found (λ a. IsAccepted a)) }
    ensures least { IfOk result (λ found. IfSome found (λ a. IsLeastProof (plain_term task.now.formula) weight task.now.level (proof_of a))) }
    ensures none { IfOk result (λ found. IfNone found ((p : Proof) → IsProofInBudget (plain_term task.now.formula) weight task.now.level p → ⊥)) }
{
    let mut levels = Vec::new(alloc);
    levels.push(task.first_level(alloc)?)?;
    for lighter in 0..weight {
        let level = &levels[lighter as usize];
        if let Some(accepted) = first_proof(alloc, &task.formula, level)? {
            return Ok(Some(accepted));
        }
        let next = next_level(alloc, task, &levels)?;
        levels.push(next)?;
    }
    let last = &levels[weight as usize];
    let found = first_proof(alloc, &task.formula, last)?;
    Ok(found)
}

/// An expansion proof of the formula with the least weight that a proof within the budget has: its tree weighs at most `weight`, its
/// terms are over the formula's signature at the level and the variables that it selects, and its leaves have variables as heads. `None`
/// exactly where no expansion proof is within the budget. An error comes only where memory runs out.
pub fn search(
    alloc: Global,
    formula: &Tm,
    weight: u64,
    level: u64,
) -> Result<Option<Accepted>, AllocError>
    requires formula { IsFormula (plain_term formula.now) }
    requires weight { weight ≤ 64 }
    requires level { level ≤ 2 }
    ensures accepted { IfOk result (λ found. IfSome found (λ a. IsAccepted a)) }
    ensures least { IfOk result (λ found. IfSome found (λ a. IsLeastProof (plain_term formula.now) weight level (proof_of a))) }
    ensures none { IfOk result (λ found. IfNone found ((p : Proof) → IsProofInBudget (plain_term formula.now) weight level p → ⊥)) }
{
    let task = Task::new(alloc, formula, level)?;
    let found = lightest(alloc, &task, weight)?;
    Ok(found)
}
