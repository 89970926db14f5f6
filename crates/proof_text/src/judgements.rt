//! The terms of a tree judged together with their forms.

ghost use Rattle.core_text.specs.Judged.{Answers};
ghost use Rattle.core_text.specs.Placed.{placed, placed_all};
ghost use Rattle.expansion_tree.specs.Trees.{plain_branches, plain_tree};
ghost use Rattle.proof_text.specs.Reading.{branches_judged, tree_judged};

use core_text::faults::TextFault;
use core_text::sexps::{Sexp, Sexps};
use core_text::typings::judge;
use expansion_tree::trees::{Branches, Tree};
use std::alloc::Global;

/// Judges the terms of a tree that a form gave, in the order of the form.
#[cycle(judge)]
#[tactic(auto, using(core_text::proofs::Results::fault_first))]
pub fn judge_tree(alloc: Global, tree: &Tree, form: &Sexp) -> Result<(), TextFault>
    ensures { Answers (λ done. tt) result (tree_judged (plain_tree tree.now) (placed form.now)) }
{
    match tree {
        Tree::Leaf => Ok(()),
        Tree::Const => Ok(()),
        Tree::Not(below) => judge_tree(alloc, below, form.second()),
        Tree::Bin(_, left, right) => {
            judge_tree(alloc, left, form.second())?;
            judge_tree(alloc, right, form.third())
        }
        Tree::Sel(_, below) => judge_tree(alloc, below, form.third()),
        Tree::Exp(branches) => {
            let Sexp::List(all, _) = form else {
                return Ok(());
            };
            let Sexps::More(_, members) = all else {
                return Ok(());
            };
            judge_branches(alloc, branches, members)
        }
    }
}

/// Judges the terms of branches.
#[cycle(judge)]
fn judge_branches(alloc: Global, branches: &Branches, members: &Sexps) -> Result<(), TextFault>
    ensures { Answers (λ done. tt) result (branches_judged (plain_branches branches.now) (placed_all members.now)) }
{
    let mut rest = branches;
    let mut forms = members;
    while let Branches::More(term, tree, more) = rest {
        let Sexps::More(form, others) = forms else {
            return Ok(());
        };
        if let Err(fault) = judge(alloc, term, form.first()) {
            return Err(fault);
        }
        if let Err(fault) = judge_tree(alloc, tree, form.second()) {
            return Err(fault);
        }
        rest = &**more;
        forms = &**others;
    }
    Ok(())
}
