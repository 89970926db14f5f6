//! Chains of instances.

ghost use Rattle.std.specs.Prelude.{◌≡◌, ◌+◌, ◌≤◌, IfOk};
ghost use Rattle.hol_terms.specs.Terms.{application, constant, forall, free, plain_constant, plain_term, plain_type};
ghost use Rattle.expansion_tree.specs.Standing.{quantified};
ghost use Rattle.expansion_tree.specs.Trees.{connective_node, plain_branches, plain_tree};
ghost use Rattle.proof_text.specs.Texts.{plain_proof};
ghost use Rattle.exp_check.specs.Proofs.{IsProof};
ghost use Rattle.tps_gen.specs.Chains.{HasFigures, chain_branches, chain_formula, chain_proof, chain_tree, holds_of, individual_type, neighbours, numeral, passed_on, successor_of};
ghost use Rattle.tps_gen.specs.Letters.{IsLetter};

use expansion_tree::matings::Mating;
use expansion_tree::trees::{Branches, Op, Tree};
use hol_terms::letters::Letter;
use hol_terms::names::{Name, NameFault};
use hol_terms::terms::{Con, Tm};
use hol_terms::types::Ty;
use proof_text::texts::ProofText;
use std::alloc::{AllocError, Global};

/// The type of individuals, I.
fn individuals() -> Ty
    ensures { plain_type result ≡ individual_type }
{
    match Letter::new(b'I') {
        Some(letter) => Ty::Base(letter),
        None => unreachable!(),
    }
}

/// The variable whose name is this letter.
#[tactic(auto, using(crate::proofs::Letters::letter_is_name, crate::proofs::Letters::named_by_letter))]
fn variable(alloc: Global, letter: &str, ty: Ty) -> Result<Tm, AllocError>
    requires { IsLetter letter.now }
    ensures { IfOk result (λ t. plain_term t ≡ free letter.now (plain_type ty)) }
{
    match Name::new(alloc, letter) {
        Ok(name) => Ok(Tm::Free(name, ty)),
        Err(NameFault::Memory) => Err(AllocError),
        Err(NameFault::NotAName) => unreachable!(),
    }
}

/// P t.
fn holding_of(alloc: Global, term: Tm) -> Result<Tm, AllocError>
    ensures { IfOk result (λ t. plain_term t ≡ holds_of (plain_term term)) }
{
    let ty = Ty::fun(alloc, Ty::truth(), individuals())?;
    let predicate = variable(alloc, "P", ty)?;
    Tm::app(alloc, predicate, term)
}

/// s t.
fn successor(alloc: Global, term: Tm) -> Result<Tm, AllocError>
    ensures { IfOk result (λ t. plain_term t ≡ successor_of (plain_term term)) }
{
    let ty = Ty::fun(alloc, individuals(), individuals())?;
    let function = variable(alloc, "s", ty)?;
    Tm::app(alloc, function, term)
}

/// s applied so many times to z.
#[tactic(auto, using(crate::proofs::Numerals::numeral_more))]
fn successors(alloc: Global, count: u64) -> Result<Tm, AllocError>
    ensures { IfOk result (λ t. plain_term t ≡ numeral count) }
{
    let mut term = variable(alloc, "z", individuals())?;
    for made in 0..count {
        term = successor(alloc, term)?;
    }
    Ok(term)
}

/// The compound of two formulas with the connective.
fn compound(alloc: Global, connective: Con, left: Tm, right: Tm) -> Result<Tm, AllocError>
    ensures { IfOk result (λ t. plain_term t ≡ application (application (constant (plain_constant connective)) (plain_term left)) (plain_term right)) }
{
    let half = Tm::app(alloc, Tm::Con(connective), left)?;
    Tm::app(alloc, half, right)
}

/// FORALL x(I). P x IMPLIES P [s x].
fn premise(alloc: Global) -> Result<Tm, AllocError>
    ensures { IfOk result (λ t. plain_term t ≡ quantified (forall individual_type) individual_type passed_on) }
{
    let before = holding_of(alloc, Tm::Bound(0))?;
    let next = successor(alloc, Tm::Bound(0))?;
    let after = holding_of(alloc, next)?;
    let body = compound(alloc, Con::Implies, before, after)?;
    let predicate = Tm::lam(alloc, individuals(), body)?;
    Tm::app(alloc, Tm::Con(Con::All(individuals())), predicate)
}

/// The formula of the chain with n instances.
fn formula(alloc: Global, n: u64) -> Result<Tm, AllocError>
    ensures { IfOk result (λ t. plain_term t ≡ chain_formula n) }
{
    let first = successors(alloc, 0)?;
    let first = holding_of(alloc, first)?;
    let premise = premise(alloc)?;
    let premises = compound(alloc, Con::And, first, premise)?;
    let last = successors(alloc, n)?;
    let last = holding_of(alloc, last)?;
    compound(alloc, Con::Implies, premises, last)
}

/// The connective with these two sides.
fn joined(alloc: Global, op: Op, left: Tree, right: Tree) -> Result<Tree, AllocError>
    ensures { IfOk result (λ t. plain_tree t ≡ connective_node op (plain_tree left) (plain_tree right)) }
{
    let left = Box::new(alloc, left)?;
    let right = Box::new(alloc, right)?;
    Ok(Tree::Bin(op, left, right))
}

/// The n branches, made from the last one to the first.
#[tactic(auto, using(crate::proofs::Numerals::branches_more))]
fn instances(alloc: Global, n: u64) -> Result<Branches, AllocError>
    ensures { IfOk result (λ branches. plain_branches branches ≡ chain_branches 0 n) }
{
    let mut branches = Branches::End;
    for made in 0..n {
        let term = successors(alloc, n - 1 - made)?;
        let tree = joined(alloc, Op::Imp, Tree::Leaf, Tree::Leaf)?;
        let tree = Box::new(alloc, tree)?;
        branches = Branches::More(term, tree, Box::new(alloc, branches)?);
    }
    Ok(branches)
}

/// The tree of the chain with n instances.
fn tree(alloc: Global, n: u64) -> Result<Tree, AllocError>
    ensures { IfOk result (λ t. plain_tree t ≡ chain_tree n) }
{
    let instances = Tree::Exp(instances(alloc, n)?);
    let premises = joined(alloc, Op::And, Tree::Leaf, instances)?;
    joined(alloc, Op::Imp, premises, Tree::Leaf)
}

/// The pairs of the chain with n instances.
#[tactic(auto, using(crate::proofs::Numerals::neighbours_more))]
fn pairs(alloc: Global, n: u64) -> Result<Mating, AllocError>
    requires { n ≤ 100 }
    ensures { IfOk result (λ mating. mating ≡ neighbours (n + 1)) }
{
    let mut mating = Mating::new(alloc);
    for k in 0..n + 1 {
        mating.push(2 * k + 1, 2 * k + 2)?;
    }
    Ok(mating)
}

/// The expansion proof with n instances, from 1 to 100, of
/// `P z AND [FORALL x(I). P x IMPLIES P [s x]] IMPLIES P t`, where t is s applied n times to z. It has 2n + 2 leaves, n + 1 pairs and
/// n occurrences, whose terms weigh n (n + 1) / 2. An error comes only where memory runs out.
pub fn chain(alloc: Global, n: u64) -> Result<ProofText, AllocError>
    requires low { 1 ≤ n }
    requires high { n ≤ 100 }
    ensures chain { IfOk result (λ text. plain_proof text ≡ chain_proof n) }
    ensures proof { IfOk result (λ text. IsProof (plain_proof text)) }
    ensures figures { IfOk result (λ text. HasFigures n (plain_proof text)) }
{
    let formula = formula(alloc, n)?;
    let tree = tree(alloc, n)?;
    let mating = pairs(alloc, n)?;
    Ok(ProofText {
        formula,
        tree,
        mating,
    })
}
