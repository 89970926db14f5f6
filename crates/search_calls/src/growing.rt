//! Calls of `tree_growth`.

ghost use Rattle.std.specs.Prelude.{[], IfOk, IfSome, true};
ghost use Rattle.hol_conv.specs.Conversion.{Long};
ghost use Rattle.hol_terms.specs.Terms.{plain_term, truth_type};
ghost use Rattle.expansion_tree.specs.Standing.{Standing, Stands};
ghost use Rattle.expansion_tree.specs.Trees.{plain_tree};

use crate::answers::{Answer, NoAnswer};
use call_lines::answers::string_of;
use call_lines::arguments::{formula, members};
use core_text::brackets::read_sexp;
use core_text::sexps::{Sexp, Sexps};
use core_text::terms::{read_number, read_preterm};
use expansion_tree::matings::Mating;
use expansion_tree::trees::Tree;
use hol_conv::normal::normal;
use hol_terms::terms::{Tm, copy};
use proof_text::texts::ProofText;
use proof_text::writers::write_proof;
use std::alloc::{AllocError, Global};
use term_lists::heads::Head;
use tree_growth::additions::Addition;
use tree_growth::bare::bare;
use tree_growth::extensions::extensions;
use tree_growth::growths::Growth;
use tree_growth::names::TakenNames;

/// The long normal form of the formula that the form is.
fn long_formula(alloc: Global, form: &Sexp) -> Result<Tm, NoAnswer>
    ensures { IfOk result (λ n. Long [] (plain_term n) truth_type) }
{
    match formula(alloc, form)? {
        Some(formula) => Ok(normal(alloc, &formula)?),
        None => Err(NoAnswer::NoFormula),
    }
}

/// The head that the term is.
fn head(alloc: Global, t: &Tm) -> Result<Head, NoAnswer> {
    match t {
        Tm::Free(name, ty) => Ok(Head::Free(name.copy(alloc)?, ty.copy(alloc)?)),
        Tm::Con(con) => Ok(Head::Con(con.copy(alloc)?)),
        _ => Err(NoAnswer::Arguments),
    }
}

/// The heads that the members of a list are.
fn heads(alloc: Global, list: &Sexp) -> Result<Vec<Head>, NoAnswer> {
    let mut heads = Vec::new(alloc);
    let mut rest = members(list)?;
    while let Sexps::More(member, more) = rest {
        heads.push(head(alloc, &read_preterm(alloc, &**member)?)?)?;
        rest = &**more;
    }
    Ok(heads)
}

/// The tree with the formula, and with no pair as a proof.
fn tree_text(alloc: Global, formula: &Tm, tree: &Tree) -> Answer {
    let formula = copy(alloc, formula)?;
    let tree = tree.copy(alloc)?;
    let mating = Mating::new(alloc);
    let proof = ProofText {
        formula,
        tree,
        mating,
    };
    Ok(string_of(alloc, &write_proof(alloc, &proof)?)?)
}

/// How many trees there are, and each on a line.
fn trees_text(alloc: Global, formula: &Tm, growths: &[Growth]) -> Answer {
    let mut answer = format!(in alloc; "{}\n", growths.len())?;
    for growth in growths {
        answer.push_str(tree_text(alloc, formula, &growth.tree)?.as_str())?;
    }
    Ok(answer)
}

/// `FORMULA`: the bare tree at its long normal form, of the polarity.
pub fn bare_tree(alloc: Global, positive: bool, arguments: &str) -> Answer {
    let form = read_sexp(alloc, arguments.as_bytes())?;
    let formula = long_formula(alloc, &form)?;
    let taken = TakenNames::new(alloc, &formula)?;
    let growth = bare(alloc, &taken, positive, copy(alloc, &formula)?, 1)?;
    tree_text(alloc, &formula, &growth.tree)
}

/// The extensions of the bare tree at a long formula, by a term of the weight over the heads and the variables that it selects.
fn all_extensions(
    alloc: Global,
    formula: &Tm,
    signature: &[Head],
    weight: u64,
) -> Result<Vec<Growth>, AllocError>
    requires { Long [] (plain_term formula.now) truth_type }
{
    let taken = TakenNames::new(alloc, formula)?;
    let root = bare(alloc, &taken, true, copy(alloc, formula)?, 1)?;
    let addition = Addition {
        taken: &taken,
        signature,
        selected: &root.selected,
        weight,
        next: root.next,
    };
    extensions(alloc, &addition, true, copy(alloc, formula)?, &root.tree)
}

/// `(FORMULA WEIGHT (HEAD ..))`: the extensions of the bare tree by a term of the weight.
pub fn extended(alloc: Global, arguments: &str) -> Answer {
    let form = read_sexp(alloc, arguments.as_bytes())?;
    let formula = long_formula(alloc, form.first())?;
    let weight = read_number(form.second())?;
    let signature = heads(alloc, form.third())?;
    let all = all_extensions(alloc, &formula, &signature, weight)?;
    trees_text(alloc, &formula, &all)
}

/// The last extension of the tree.
fn last_extension(
    alloc: Global,
    addition: &Addition<'_>,
    formula: &Tm,
    tree: &Tree,
) -> Result<Option<Growth>, AllocError>
    requires long { Long [] (plain_term formula.now) truth_type }
    requires stands { (s : Standing) × Stands true (plain_term formula.now) (plain_tree tree.now) s }
    ensures { IfOk result (λ found. IfSome found (λ g. (s : Standing) × Stands true (plain_term formula.now) (plain_tree g.tree) s)) }
{
    let mut all = extensions(alloc, addition, true, copy(alloc, formula)?, tree)?;
    let Some(last) = all.pop() else {
        return Ok(None);
    };
    Ok(Some(last))
}

/// The last extension of weight 1 of the bare tree at a long formula.
fn first_growth(
    alloc: Global,
    taken: &TakenNames,
    formula: &Tm,
    signature: &[Head],
) -> Result<Option<Growth>, AllocError>
    requires long { Long [] (plain_term formula.now) truth_type }
    ensures { IfOk result (λ found. IfSome found (λ g. (s : Standing) × Stands true (plain_term formula.now) (plain_tree g.tree) s)) }
{
    let root = bare(alloc, taken, true, copy(alloc, formula)?, 1)?;
    let addition = Addition {
        taken,
        signature,
        selected: &root.selected,
        weight: 1,
        next: root.next,
    };
    last_extension(alloc, &addition, formula, &root.tree)
}

/// The extensions of weight 1 of the last such extension of the bare tree at a long formula, over the heads and the variables that the
/// branch selects.
fn second_growths(
    alloc: Global,
    formula: &Tm,
    signature: &[Head],
) -> Result<Vec<Growth>, AllocError>
    requires { Long [] (plain_term formula.now) truth_type }
{
    let taken = TakenNames::new(alloc, formula)?;
    let Some(growth) = first_growth(alloc, &taken, formula, signature)? else {
        return Ok(Vec::new(alloc));
    };
    let addition = Addition {
        taken: &taken,
        signature,
        selected: &growth.selected,
        weight: 1,
        next: growth.next,
    };
    extensions(alloc, &addition, true, copy(alloc, formula)?, &growth.tree)
}

/// `(FORMULA (HEAD ..))`: the extensions of weight 1 of the last such extension of the bare tree.
pub fn extended_again(alloc: Global, arguments: &str) -> Answer {
    let form = read_sexp(alloc, arguments.as_bytes())?;
    let formula = long_formula(alloc, form.first())?;
    let signature = heads(alloc, form.second())?;
    let all = second_growths(alloc, &formula, &signature)?;
    trees_text(alloc, &formula, &all)
}
