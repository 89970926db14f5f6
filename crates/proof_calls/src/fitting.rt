//! Calls of `expansion_tree`.

use crate::answers::{Answer, NoAnswer};
use call_lines::answers::{string_of, term_text};
use call_lines::arguments::formula;
use core_text::brackets::read_sexp;
use expansion_tree::deep::deep_formula;
use expansion_tree::fitted::{Fitted, LeafView, fit};
use expansion_tree::matings::Mating;
use expansion_tree::matrices::Matrix;
use hol_terms::terms::Tm;
use proof_text::texts::ProofText;
use proof_text::trees::read_tree;
use proof_text::writers::write_proof;
use std::alloc::Global;

/// `(FORMULA TREE)`: the tree fitted to the formula.
pub fn fitted(alloc: Global, arguments: &str) -> Result<Fitted, NoAnswer> {
    let form = read_sexp(alloc, arguments.as_bytes())?;
    let Some(formula) = formula(alloc, form.first())? else {
        return Err(NoAnswer::NoFormula);
    };
    let tree = read_tree(alloc, form.second())?;
    Ok(Fitted::new(alloc, formula, tree)?)
}

/// `(FORMULA TREE)`: the two as `fit` keeps them, with no pair as a proof.
pub fn kept(alloc: Global, arguments: &str) -> Answer {
    let form = read_sexp(alloc, arguments.as_bytes())?;
    let Some(formula) = formula(alloc, form.first())? else {
        return Err(NoAnswer::NoFormula);
    };
    let tree = read_tree(alloc, form.second())?;
    let (formula, tree) = fit(alloc, &formula, &tree)?.into_parts();
    let mating = Mating::new(alloc);
    let proof = ProofText {
        formula,
        tree,
        mating,
    };
    Ok(string_of(alloc, &write_proof(alloc, &proof)?)?)
}

/// The leaf after its sign.
fn leaf_text(alloc: Global, leaf: LeafView<'_>) -> Answer {
    let sign = if leaf.positive { "+" } else { "-" };
    let formula = term_text(alloc, leaf.formula)?;
    Ok(format!(in alloc; " {sign}{formula}")?)
}

/// `(FORMULA TREE)`: how many leaves there are, and the formula of each after its sign.
pub fn leaves(alloc: Global, arguments: &str) -> Answer {
    let fitted = fitted(alloc, arguments)?;
    let mut answer = format!(in alloc; "{}", fitted.leaf_count())?;
    for k in 0..fitted.leaf_count() {
        let leaf = leaf_text(alloc, fitted.leaf(k + 1))?;
        answer.push_str(leaf.as_str())?;
    }
    Ok(answer)
}

/// The two parts of a matrix with a word between them.
fn parts_text(alloc: Global, first: &str, word: &str, second: &str) -> Answer {
    Ok(format!(in alloc; "({first} {word} {second})")?)
}

/// The matrix as text.
fn matrix_text(alloc: Global, matrix: &Matrix) -> Answer {
    match matrix {
        Matrix::Leaf(n) => Ok(format!(in alloc; "{n}")?),
        Matrix::Closed => Ok(String::from_str(alloc, "closed")?),
        Matrix::Empty => Ok(String::from_str(alloc, "empty")?),
        Matrix::Beside(first, second) => {
            let first = matrix_text(alloc, first)?;
            let second = matrix_text(alloc, second)?;
            parts_text(alloc, first.as_str(), "beside", second.as_str())
        }
        Matrix::Above(first, second) => {
            let first = matrix_text(alloc, first)?;
            let second = matrix_text(alloc, second)?;
            parts_text(alloc, first.as_str(), "above", second.as_str())
        }
    }
}

/// `(FORMULA TREE)`: the matrix.
pub fn matrix(alloc: Global, arguments: &str) -> Answer {
    let fitted = fitted(alloc, arguments)?;
    matrix_text(alloc, fitted.matrix())
}

/// `(FORMULA TREE)`: the weight.
pub fn weight(alloc: Global, arguments: &str) -> Answer {
    let fitted = fitted(alloc, arguments)?;
    Ok(format!(in alloc; "{}", fitted.weight())?)
}

/// `(FORMULA TREE)`: how many variables are selected, and each of them after the number of its node.
pub fn selected(alloc: Global, arguments: &str) -> Answer {
    let fitted = fitted(alloc, arguments)?;
    let mut answer = format!(in alloc; "{}", fitted.selected_count())?;
    for k in 0..fitted.selected_count() {
        let selected = fitted.selected(k + 1);
        let variable = Tm::variable(alloc, selected.name, selected.ty)?;
        let variable = term_text(alloc, &variable)?;
        let node = selected.node;
        answer.push_str(format!(in alloc; " {node}:{variable}")?.as_str())?;
    }
    Ok(answer)
}

/// `(FORMULA TREE)`: how many occurrences there are, and the term of each after the numbers of its first and its last node.
pub fn occurrences(alloc: Global, arguments: &str) -> Answer {
    let fitted = fitted(alloc, arguments)?;
    let mut answer = format!(in alloc; "{}", fitted.occurrence_count())?;
    for e in 0..fitted.occurrence_count() {
        let occurrence = fitted.occurrence(e + 1);
        let term = term_text(alloc, occurrence.term)?;
        let (node, last) = (occurrence.node, occurrence.last);
        answer.push_str(format!(in alloc; " {node}-{last}:{term}")?.as_str())?;
    }
    Ok(answer)
}

/// `(FORMULA TREE)`: the deep formula.
pub fn deepened(alloc: Global, arguments: &str) -> Answer {
    let fitted = fitted(alloc, arguments)?;
    Ok(term_text(alloc, &deep_formula(alloc, &fitted)?)?)
}
