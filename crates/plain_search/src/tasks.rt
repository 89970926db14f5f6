//! What a search is for, and the trees that it makes.

ghost use Rattle.std.specs.Prelude.{◌≡◌, ◌<◌, ◌≤◌, ◌+◌, ◌^◌, ◌++◌, ◌∷◌, [], ℕ, All, IfOk, map, true};
ghost use Rattle.hol_terms.specs.Terms.{plain_term};
ghost use Rattle.hol_terms.specs.Typing.{IsFormula};
ghost use Rattle.expansion_tree.specs.Trees.{plain_tree};
ghost use Rattle.term_lists.specs.Heads.{plain_head};
ghost use Rattle.tree_growth.specs.Extending.{Extend};
ghost use Rattle.tree_growth.specs.Growths.{plain_addition, plain_growth};
ghost use Rattle.plain_search.specs.Levels.{AreLevels, HasGrown, IsCandidate, with_selected as also_selecting};
ghost use Rattle.plain_search.specs.Tasks.{IsTask};

use hol_conv::normal::normal;
use hol_terms::terms::{Tm, copy};
use std::alloc::{AllocError, Global};
use term_lists::heads::{Head, Signature};
use term_lists::signatures::signature;
use tree_growth::additions::Addition;
use tree_growth::bare::bare;
use tree_growth::extensions::extensions;
use tree_growth::growths::Growth;
use tree_growth::names::TakenNames;

/// The formula that is to be proved and the level of its signature, with what all its trees have: the formula's long normal form, its
/// signature, and its variables' names, which aren't selected.
#[derive(Drop)]
pub struct Task {
    pub formula: Tm,
    pub level: u64,
    normal: Tm,
    signature: Signature,
    taken: TakenNames,
}

impl Task {
    /// The task of a formula at a level of signatures.
    pub fn new(alloc: Global, formula: &Tm, level: u64) -> Result<Task, AllocError>
        requires formula { IsFormula (plain_term formula.now) }
        requires level { level ≤ 2 }
        ensures { IfOk result (λ task. IsTask task × (plain_term task.formula ≡ plain_term formula.now) × (task.level ≡ level)) }
    {
        let normal = normal(alloc, formula)?;
        let signature = signature(alloc, formula, level)?;
        let taken = TakenNames::new(alloc, formula)?;
        Ok(Task {
            formula: copy(alloc, formula)?,
            level,
            normal,
            signature,
            taken,
        })
    }

    /// The trees of weight 0: the one without a branch.
    pub fn first_level(&self, alloc: Global) -> Result<Vec<Growth>, AllocError>
        requires { IsTask self.now }
        ensures { IfOk result (λ gs. AreLevels (plain_term self.now.formula) self.now.level (map plain_growth gs.items ∷ [])) }
    {
        let formula = copy(alloc, &self.normal)?;
        let growth = bare(alloc, &self.taken, true, formula, 1)?;
        let level = alone(alloc, growth)?;
        Ok(level)
    }

    /// What may be added to a tree: a branch of this weight.
    fn addition<'a>(&'a self, growth: &'a Growth, weight: u64) -> Addition<'a>
        ensures { plain_addition result ≡ record { taken = self.now.taken; heads = self.now.signature ++ map plain_head growth.now.selected.items; weight = weight; from = growth.now.next } }
    {
        Addition {
            taken: &self.taken,
            signature: self.signature.as_slice(),
            selected: growth.selected.as_slice(),
            weight,
            next: growth.next,
        }
    }

    /// The trees that come of a tree by one more branch of this weight, each with what is new in it.
    fn extended(
        &self,
        alloc: Global,
        growth: &Growth,
        weight: u64,
    ) -> Result<Vec<Growth>, AllocError>
        requires task { IsTask self.now }
        requires candidate { (w : ℕ) × IsCandidate (plain_term self.now.formula) self.now.level w (plain_growth growth.now) }
        ensures { IfOk result (λ gs. Extend (record { taken = self.now.taken; heads = self.now.signature ++ map plain_head growth.now.selected.items; weight = weight; from = growth.now.next }) true (plain_term self.now.normal) (plain_tree growth.now.tree) (map plain_growth gs.items)) }
    {
        let formula = copy(alloc, &self.normal)?;
        let addition = self.addition(growth, weight);
        extensions(alloc, &addition, true, formula, &growth.tree)
    }

    /// The trees that come of a tree by one more branch of this weight, each with all that it selects.
    pub fn grown(
        &self,
        alloc: Global,
        growth: &Growth,
        weight: u64,
    ) -> Result<Vec<Growth>, AllocError>
        requires task { IsTask self.now }
        requires candidate { (w : ℕ) × IsCandidate (plain_term self.now.formula) self.now.level w (plain_growth growth.now) }
        ensures candidates { IfOk result (λ gs. (w : ℕ) → IsCandidate (plain_term self.now.formula) self.now.level w (plain_growth growth.now) → All (IsCandidate (plain_term self.now.formula) self.now.level (w + weight)) (map plain_growth gs.items)) }
        ensures grown { IfOk result (λ gs. HasGrown (plain_term self.now.formula) self.now.level (plain_growth growth.now) weight (map plain_growth gs.items)) }
    {
        let extended = self.extended(alloc, growth, weight)?;
        let all = all_with_selected(alloc, &growth.selected, extended)?;
        Ok(all)
    }
}

/// The list of one growth.
fn alone(alloc: Global, growth: Growth) -> Result<Vec<Growth>, AllocError>
    ensures list { IfOk result (λ gs. map plain_growth gs.items ≡ plain_growth growth ∷ []) }
    ensures number { growth.next < 2 ^ 64 }
{
    let mut growths = Vec::new(alloc);
    growths.push(growth)?;
    Ok(growths)
}

/// The growths, each with these selected variables before its own.
fn all_with_selected(
    alloc: Global,
    selected: &[Head],
    growths: Vec<Growth>,
) -> Result<Vec<Growth>, AllocError>
    ensures trees { IfOk result (λ gs. map plain_growth gs.items ≡ map (also_selecting (map plain_head selected.now)) (map plain_growth growths.items)) }
    ensures numbers { IfOk result (λ _. All (λ e. e.1.next < 2 ^ 64) (map plain_growth growths.items)) }
{
    let mut all = Vec::new(alloc);
    for growth in growths {
        all.push(with_selected(alloc, selected, growth)?)?;
    }
    Ok(all)
}

/// The growth with these selected variables before its own.
fn with_selected(alloc: Global, selected: &[Head], growth: Growth) -> Result<Growth, AllocError>
    ensures tree { IfOk result (λ g. plain_growth g ≡ also_selecting (map plain_head selected.now) (plain_growth growth)) }
    ensures number { growth.next < 2 ^ 64 }
{
    let mut growth = growth;
    let mut all = copies(alloc, selected)?;
    all.append(&mut growth.selected)?;
    Ok(Growth {
        tree: growth.tree,
        selected: all,
        next: growth.next,
    })
}

/// Equal heads.
fn copies(alloc: Global, heads: &[Head]) -> Result<Vec<Head>, AllocError>
    ensures { IfOk result (λ all. map plain_head all.items ≡ map plain_head heads.now) }
{
    let mut all = Vec::new(alloc);
    for head in heads {
        all.push(equal_head(alloc, head)?)?;
    }
    Ok(all)
}

/// An equal head.
fn equal_head(alloc: Global, head: &Head) -> Result<Head, AllocError>
    ensures { IfOk result (λ h. plain_head h ≡ plain_head head.now) }
{
    match head {
        Head::Free(name, ty) => Ok(Head::Free(name.copy(alloc)?, ty.copy(alloc)?)),
        Head::Con(con) => Ok(Head::Con(con.copy(alloc)?)),
    }
}
