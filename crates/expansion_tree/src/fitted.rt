//! Trees fitted to formulas.

ghost use Rattle.std.specs.Prelude.{◌≡◌, ◌-◌, ◌≤◌, ℕ, [], IfErr, IfOk, Some, length, map, slice_get, true};
ghost use Rattle.hol_terms.specs.FreeVariables.{free_variables_of};
ghost use Rattle.hol_terms.specs.Terms.{Term, plain_term, plain_type};
ghost use Rattle.hol_terms.specs.Typing.{IsFormula};
ghost use Rattle.expansion_tree.specs.Counted.{plain_occurrence};
ghost use Rattle.expansion_tree.specs.Faults.{FirstFault, IsFirstFault, IsTree};
ghost use Rattle.expansion_tree.specs.Fitted.{IsFitted};
ghost use Rattle.expansion_tree.specs.Kept.{fitted_with};
ghost use Rattle.expansion_tree.specs.Matrices.{IsNumberedTo, matrix_paths};
ghost use Rattle.expansion_tree.specs.Occurrences.{occurrences_of, tree_weight};
ghost use Rattle.expansion_tree.specs.Standing.{IsNormalFormula, Standing};
ghost use Rattle.expansion_tree.specs.Stood.{Stood, UnlessMemory, findings_of};
ghost use Rattle.expansion_tree.specs.Trees.{plain_tree};

use crate::faults::FitFault;
use crate::fit::stand;
use crate::found::{Found, Leaf, Selected};
use crate::matrices::Matrix;
use crate::occurrences::{Occurrence, add_occurrences, weight_of_occurrences};
use crate::trees::Tree;
use hol_conv::normal::normal;
use hol_terms::names::Name;
use hol_terms::terms::{Tm, copy};
use hol_terms::types::Ty;
use hol_terms::variable_sets::free_variable_set;
use std::alloc::{AllocError, Global};
use std::marker::Model;

/// A formula with an expansion tree of it. Contracts see the formula, the tree, the leaves from left to right (each with its polarity
/// and its formula), the selected variables (each with the number of its node) and the paths, leaves and nodes being numbered from 1.
#[derive(Drop)]
pub struct Fitted {
    formula: Tm,
    tree: Tree,
    matrix: Matrix,
    leaves: Vec<Leaf>,
    selections: Vec<Selected>,
    occurrences: Vec<Occurrence>,
    weight: u64,
}

impl Model for Fitted {
    ghost use Rattle.std.specs.Prelude.{◌≡◌, map, length};
    ghost use Rattle.hol_terms.specs.Terms.{plain_term};
    ghost use Rattle.expansion_tree.specs.Counted.{plain_occurrence};
    ghost use Rattle.expansion_tree.specs.Fitted.{FittedTree, IsFitted, fitted_code};
    ghost use Rattle.expansion_tree.specs.Matrices.{IsNumberedTo, matrix_paths};
    ghost use Rattle.expansion_tree.specs.Occurrences.{occurrences_of, tree_weight};
    ghost use Rattle.expansion_tree.specs.Stood.{plain_leaf, plain_selection};
    ghost use Rattle.expansion_tree.specs.Trees.{plain_tree};

    ghost Value = { FittedTree };

    ghost coded = { fitted_code };

    ghost view = { λ f. record { formula = plain_term f.formula; tree = plain_tree f.tree; leaf_list = map plain_leaf f.leaves.items; selection_list = map plain_selection f.selections.items; path_list = matrix_paths f.matrix } };

    ghost invariant = { λ f. IsFitted (record { formula = plain_term f.formula; tree = plain_tree f.tree; leaf_list = map plain_leaf f.leaves.items; selection_list = map plain_selection f.selections.items; path_list = matrix_paths f.matrix }) × IsNumberedTo (length f.leaves.items) f.matrix × (map plain_occurrence f.occurrences.items ≡ occurrences_of (plain_tree f.tree)) × (f.weight ≡ tree_weight (plain_tree f.tree)) };
}

/// What a tree has at a formula: its matrix, what was found along it, its occurrences and its weight.
#[derive(Drop)]
struct Parts {
    matrix: Matrix,
    found: Found,
    occurrences: Vec<Occurrence>,
    weight: u64,
}

/// A leaf as it is lent: whether it is positive, and its formula.
#[derive(Clone, Copy)]
pub struct LeafView<'a> {
    pub positive: bool,
    pub formula: &'a Tm,
}

/// An occurrence as it is lent: a branch of an expansion, with the numbers of the first and of the last node of its tree, and its
/// term.
#[derive(Clone, Copy)]
pub struct OccurrenceView<'a> {
    pub node: u64,
    pub last: u64,
    pub term: &'a Tm,
}

/// A selected variable as it is lent, with the number of the node that selects it.
#[derive(Clone, Copy)]
pub struct SelectedView<'a> {
    pub node: u64,
    pub name: &'a Name,
    pub ty: &'a Ty,
}

/// Nothing that was found, where the variables that are free in the formula are taken.
fn nothing_found(alloc: Global, formula: &Tm) -> Result<Found, AllocError>
    ensures { IfOk result (λ found. findings_of found ≡ record { leaf_list = []; selection_list = []; taken = free_variables_of (plain_term formula.now) }) }
{
    let taken = free_variable_set(alloc, formula)?;
    Ok(Found {
        leaves: Vec::new(alloc),
        selections: Vec::new(alloc),
        taken,
    })
}

/// Stands the tree at the long normal form of the formula, positive.
fn stand_at_normal(
    alloc: Global,
    formula: &Tm,
    tree: &Tree,
    found: &mut Found,
) -> Result<Matrix, FitFault>
    requires { IsFormula (plain_term formula.now) }
    ensures ok { IfOk result (λ m. (a : Term) × IsNormalFormula a (plain_term formula.now) × (end : ℕ) × Stood true a (plain_tree tree.now) 1 (findings_of found.old) (findings_of found.new) m end) }
    ensures fault { IfErr result (λ e. UnlessMemory e ((a : Term) × IsNormalFormula a (plain_term formula.now) × FirstFault found.old.taken true a (plain_tree tree.now) 1 e)) }
{
    let formula = normal(alloc, formula)?;
    let (matrix, _) = stand(alloc, tree, 1, true, formula, found)?;
    Ok(matrix)
}

/// Stands the tree at the long normal form of the formula, positive, where no variable is selected that is free in the formula as it
/// is given.
#[inline(never)]
fn stand_at_formula(alloc: Global, formula: &Tm, tree: &Tree) -> Result<(Matrix, Found), FitFault>
    requires { IsFormula (plain_term formula.now) }
    ensures fits { IfOk result (λ r. IsFitted (fitted_with (plain_term formula.now) (plain_tree tree.now) r.1 r.0)) }
    ensures numbered { IfOk result (λ r. IsNumberedTo (length r.1.leaves.items) r.0) }
    ensures fault { IfErr result (λ e. UnlessMemory e (IsFirstFault (plain_term formula.now) (plain_tree tree.now) e)) }
{
    let mut found = nothing_found(alloc, formula)?;
    let matrix = stand_at_normal(alloc, formula, tree, &mut found)?;
    Ok((matrix, found))
}

/// The occurrences of the tree, and its weight.
fn counted(alloc: Global, tree: &Tree) -> Result<(Vec<Occurrence>, u64), AllocError>
    ensures occurrences { IfOk result (λ r. map plain_occurrence r.0.items ≡ occurrences_of (plain_tree tree.now)) }
    ensures weight { IfOk result (λ r. r.1 ≡ tree_weight (plain_tree tree.now)) }
{
    let mut occurrences = Vec::new(alloc);
    add_occurrences(alloc, tree, 1, &mut occurrences)?;
    let weight = weight_of_occurrences(&occurrences)?;
    Ok((occurrences, weight))
}

/// What the tree has at the formula.
fn parts_at(alloc: Global, formula: &Tm, tree: &Tree) -> Result<Parts, FitFault>
    requires { IsFormula (plain_term formula.now) }
    ensures fits { IfOk result (λ parts. IsFitted (fitted_with (plain_term formula.now) (plain_tree tree.now) parts.found parts.matrix)) }
    ensures numbered { IfOk result (λ parts. IsNumberedTo (length parts.found.leaves.items) parts.matrix) }
    ensures occurrences { IfOk result (λ parts. map plain_occurrence parts.occurrences.items ≡ occurrences_of (plain_tree tree.now)) }
    ensures weight { IfOk result (λ parts. parts.weight ≡ tree_weight (plain_tree tree.now)) }
    ensures fault { IfErr result (λ e. UnlessMemory e (IsFirstFault (plain_term formula.now) (plain_tree tree.now) e)) }
{
    let (occurrences, weight) = counted(alloc, tree)?;
    let (matrix, found) = stand_at_formula(alloc, formula, tree)?;
    Ok(Parts {
        matrix,
        found,
        occurrences,
        weight,
    })
}

/// The formula with the tree and what it has there.
fn keep(formula: Tm, tree: Tree, parts: Parts) -> Fitted
    requires fits { IsFitted (fitted_with (plain_term formula) (plain_tree tree) parts.found parts.matrix) }
    requires numbered { IsNumberedTo (length parts.found.leaves.items) parts.matrix }
    requires occurrences { map plain_occurrence parts.occurrences.items ≡ occurrences_of (plain_tree tree) }
    requires weight { parts.weight ≡ tree_weight (plain_tree tree) }
    ensures { result ≡ fitted_with (plain_term formula) (plain_tree tree) parts.found parts.matrix }
{
    let Parts {
        matrix,
        found,
        occurrences,
        weight,
    } = parts;
    let Found {
        leaves,
        selections,
        taken: _,
    } = found;
    Fitted {
        formula,
        tree,
        matrix,
        leaves,
        selections,
        occurrences,
        weight,
    }
}

/// Fits the tree to the formula, keeping equal copies of both: Ok exactly where it is an expansion tree of the formula (Miller 1987),
/// and otherwise its first fault in preorder, nodes being numbered from 1, each branch's term before its tree.
pub fn fit(alloc: Global, formula: &Tm, tree: &Tree) -> Result<Fitted, FitFault>
    requires { IsFormula (plain_term formula.now) }
    ensures fits { IfOk result (λ f. IsFitted f × (f.formula ≡ plain_term formula.now) × (f.tree ≡ plain_tree tree.now)) }
    ensures fault { IfErr result (λ e. UnlessMemory e (IsFirstFault (plain_term formula.now) (plain_tree tree.now) e)) }
    ensures only { IfErr result (λ e. UnlessMemory e ((s : Standing) → IsTree (plain_term formula.now) (plain_tree tree.now) s → ⊥)) }
{
    let formula = copy(alloc, formula)?;
    let tree = tree.copy(alloc)?;
    Fitted::new(alloc, formula, tree)
}

impl Fitted {
    /// As `fit`, keeping the formula and the tree themselves.
    #[tactic(auto, using(crate::proofs::Returning::no_tree))]
    pub fn new(alloc: Global, formula: Tm, tree: Tree) -> Result<Fitted, FitFault>
        requires { IsFormula (plain_term formula) }
        ensures fits { IfOk result (λ f. IsFitted f × (f.formula ≡ plain_term formula) × (f.tree ≡ plain_tree tree)) }
        ensures fault { IfErr result (λ e. UnlessMemory e (IsFirstFault (plain_term formula) (plain_tree tree) e)) }
        ensures only { IfErr result (λ e. UnlessMemory e ((s : Standing) → IsTree (plain_term formula) (plain_tree tree) s → ⊥)) }
    {
        let parts = parts_at(alloc, &formula, &tree)?;
        Ok(keep(formula, tree, parts))
    }

    /// The formula.
    pub fn formula(&self) -> &Tm
        ensures { plain_term result.now ≡ self.now.formula }
    {
        &self.formula
    }

    /// The tree. What is fitted is an expansion tree of its formula, with the leaves, the selected variables and the paths that it
    /// has there.
    pub fn tree(&self) -> &Tree
        ensures tree { plain_tree result.now ≡ self.now.tree }
        ensures stands { IsFitted self.now }
    {
        &self.tree
    }

    /// The formula and the tree themselves.
    pub fn into_parts(self) -> (Tm, Tree)
        ensures formula { plain_term result.0 ≡ self.formula }
        ensures tree { plain_tree result.1 ≡ self.tree }
    {
        let Fitted {
            formula,
            tree,
            matrix: _,
            leaves: _,
            selections: _,
            occurrences: _,
            weight: _,
        } = self;
        (formula, tree)
    }

    /// How many leaves there are.
    pub fn leaf_count(&self) -> u64
        ensures { result ≡ length self.now.leaf_list }
    {
        self.leaves.len() as u64
    }

    /// The leaf of a number, from 1.
    pub fn leaf(&self, k: u64) -> LeafView<'_>
        requires low { 1 ≤ k }
        requires high { k ≤ length self.now.leaf_list }
        ensures { slice_get self.now.leaf_list (k - 1) ≡ Some (result.positive, plain_term result.formula.now) }
    {
        let leaf = &self.leaves[(k - 1) as usize];
        LeafView {
            positive: leaf.positive,
            formula: &leaf.formula,
        }
    }

    /// The matrix, which has the paths of the tree.
    pub fn matrix(&self) -> &Matrix
        ensures paths { matrix_paths result.now ≡ self.now.path_list }
        ensures numbered { IsNumberedTo (length self.now.leaf_list) result.now }
    {
        &self.matrix
    }

    /// How many occurrences there are.
    pub fn occurrence_count(&self) -> u64
        ensures { result ≡ length (occurrences_of self.now.tree) }
    {
        self.occurrences.len() as u64
    }

    /// The occurrence of a number, from 1 in the order of their terms.
    pub fn occurrence(&self, e: u64) -> OccurrenceView<'_>
        requires low { 1 ≤ e }
        requires high { e ≤ length (occurrences_of self.now.tree) }
        ensures { slice_get (occurrences_of self.now.tree) (e - 1) ≡ Some (record { first = result.node; last = result.last; term = plain_term result.term.now }) }
    {
        let occurrence = &self.occurrences[(e - 1) as usize];
        OccurrenceView {
            node: occurrence.node,
            last: occurrence.last,
            term: &occurrence.term,
        }
    }

    /// How many variables are selected.
    pub fn selected_count(&self) -> u64
        ensures { result ≡ length self.now.selection_list }
    {
        self.selections.len() as u64
    }

    /// The selected variable of a number, from 1 in the order of their nodes.
    pub fn selected(&self, k: u64) -> SelectedView<'_>
        requires low { 1 ≤ k }
        requires high { k ≤ length self.now.selection_list }
        ensures { slice_get self.now.selection_list (k - 1) ≡ Some (record { node = result.node; variable = (result.name.now, plain_type result.ty.now) }) }
    {
        let selected = &self.selections[(k - 1) as usize];
        SelectedView {
            node: selected.node,
            name: &selected.name,
            ty: &selected.ty,
        }
    }

    /// The weight of the tree: that of its terms, at each occurrence, where each free variable, bound index and constant weighs 1.
    pub fn weight(&self) -> u64
        ensures { result ≡ tree_weight self.now.tree }
    {
        self.weight
    }
}
