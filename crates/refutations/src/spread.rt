//! A node and what its line gives without cases.

ghost use Rattle.std.specs.Prelude.{◌≡◌, ◌∷◌, ◌++◌, ◌≤◌, ◌<◌, ◌+◌, ◌⊎◌, ℕ, [], true, false, map, All, Contains, IfOk, IfNone, IfSome, IsTrue, List, OnOk};
ghost use Rattle.std.specs.List.{AllByRecursion};
ghost use Rattle.expansion_tree.specs.Trees.{connective_node, constant_node, expansion_node, leaf_node, negation_node, plain_branches, plain_tree, selection_node};
ghost use Rattle.nd_steps.specs.Deductions.{Grows, IsDeduction};
ghost use Rattle.refutations.specs.Cases.{leaves_of};
ghost use Rattle.refutations.specs.declared.nodes.Front.{Front as FrontValue};
ghost use Rattle.refutations.specs.Opens.{branch_occurrence_total, gives_cases as plain_gives_cases, open_node, open_term, terms_below};
ghost use Rattle.refutations.specs.Reading.{IsRead};
ghost use Rattle.refutations.specs.States.{HasMore, IsOpenIn, Spreads};

use crate::cases::Case;
use crate::counts::{place_below, place_in_branch, place_past};
use crate::duties::Duty;
use crate::exact::{conclude_one, conclude_two, falsehood};
use crate::lines::{line_under_negation, side_lines, suppose_variable};
use crate::nodes::{Front, Node, Place};
use crate::parts::{formula_of, is_truth};
use crate::reading::Reading;
use expansion_tree::parts::left_polarity;
use expansion_tree::trees::{Branches, Op, Tree};
use hol_terms::indices::raised_index;
use hol_terms::names::Name;
use indexmap::IndexMap;
use nd_steps::deductions::Deduction;
use std::alloc::{AllocError, Global};

/// Whether a compound gives two cases, and not both of its sides.
pub fn gives_cases(op: Op, positive: bool) -> bool
    ensures { result ≡ plain_gives_cases op positive }
{
    match op {
        Op::And => positive,
        Op::Or | Op::Imp => !positive,
    }
}

/// The line of a held leaf among the partners, the first one.
pub fn mated_line(partners: &[u64], held: &IndexMap<u64, u64>) -> Option<u64>
    ensures some { IfSome result (λ line. (partner : ℕ) × Contains partners.now partner × Contains held.now.entries (partner, line)) }
    ensures none { IfNone result (AllByRecursion (λ partner. Contains (leaves_of held.now.entries) partner → ⊥) partners.now) }
{
    for partner in partners {
        if let Some(line) = held.get(partner) {
            return Some(*line);
        }
    }
    None
}

/// Holds a leaf, unless it closes the case with its partner.
fn hold<'a>(
    alloc: Global,
    reading: &Reading<'a>,
    deduction: &mut Deduction,
    case: &mut Case<'a>,
    node: Node<'a>,
) -> Result<Option<u64>, AllocError>
    requires read { IsRead reading.now.accepted.now reading.now.partners.items }
    requires leaf { plain_tree node.tree.now ≡ leaf_node }
    requires is_open { IsOpenIn reading.now.accepted.now deduction.old case.old (open_node node) }
    ensures spread { IfOk result (λ r. Spreads reading.now.accepted.now deduction.old case.old deduction.new case.new (open_node node.entry) r) }
    ensures grown { OnOk result (Grows deduction.old deduction.new) }
    ensures more { OnOk result (HasMore case.old case.new) }
    ensures deduction { OnOk result (IsDeduction deduction.new) }
{
    let leaf = raised_index(node.place.leaves, 1)?;
    if case.held.get(&leaf).is_some() {
        return Ok(None);
    }
    match mated_line(&reading.partners[leaf as usize], &case.held) {
        Some(line) => {
            let closed = conclude_two(alloc, deduction, node.line, line, falsehood())?;
            Ok(Some(closed))
        }
        None => {
            case.held.insert(leaf, node.line)?;
            Ok(None)
        }
    }
}

/// Closes the case with a constant that is as its polarity wants it; any other gives nothing.
fn judge_constant<'a>(
    alloc: Global,
    reading: &Reading<'a>,
    deduction: &mut Deduction,
    case: &mut Case<'a>,
    node: Node<'a>,
) -> Result<Option<u64>, AllocError>
    requires constant { plain_tree node.tree.now ≡ constant_node }
    requires is_open { IsOpenIn reading.now.accepted.now deduction.old case.old (open_node node) }
    ensures spread { IfOk result (λ r. Spreads reading.now.accepted.now deduction.old case.old deduction.new case.new (open_node node.entry) r) }
    ensures grown { OnOk result (Grows deduction.old deduction.new) }
    ensures more { OnOk result (HasMore case.old case.new) }
    ensures deduction { OnOk result (IsDeduction deduction.new) }
{
    if is_truth(formula_of(deduction, node.line, node.positive)) != node.positive {
        return Ok(None);
    }
    let closed = conclude_one(alloc, deduction, node.line, falsehood())?;
    Ok(Some(closed))
}

/// The terms of an expansion node's branches, the first of which has this place.
fn find_terms<'a>(
    case: &mut Case<'a>,
    node: Node<'a>,
    place: Place,
    branches: &'a Branches,
) -> Result<(), AllocError>
    requires { AllByRecursion (λ entry. entry.0 ≤ place.occurrences ⊎ place.occurrences + branch_occurrence_total (plain_branches branches.now) < entry.0) case.old.fronts.entries }
    ensures found { OnOk result ((more : List (ℕ × FrontValue)) × (case.new.fronts.entries ≡ case.old.fronts.entries ++ more) × (map (λ entry. open_term entry.1) more ≡ terms_below node.entry.positive node.entry.line place (plain_branches branches.now)) × AllByRecursion (λ entry. entry.1.node.place.occurrences ≡ entry.0) more) }
    ensures splits { case.new.splits ≡ case.old.splits }
    ensures held { case.new.held ≡ case.old.held }
    ensures duties { case.new.duties ≡ case.old.duties }
{
    let mut rest = branches;
    let mut place = place;
    while let Branches::More(term, tree, more) = rest {
        let here = place_in_branch(place)?;
        let node = Node {
            tree: &**tree,
            place: here,
            ..node
        };
        case.fronts.insert(here.occurrences, Front { term, node })?;
        place = place_past(tree, here)?;
        rest = &**more;
    }
    Ok(())
}

/// Gives lines to what stands below a node up to the next splits and terms, by RULEP for connectives and by a hypothesis for each
/// selected variable. Answers the line of FALSEHOOD where the case is closed: by a constant, or as soon as it holds both leaves of a
/// mated pair.
#[cycle(spread)]
pub fn spread<'a>(
    alloc: Global,
    reading: &Reading<'a>,
    deduction: &mut Deduction,
    case: &mut Case<'a>,
    node: Node<'a>,
) -> Result<Option<u64>, AllocError>
    requires read { IsRead reading.now.accepted.now reading.now.partners.items }
    requires is_open { IsOpenIn reading.now.accepted.now deduction.old case.old (open_node node) }
    ensures spread { IfOk result (λ r. Spreads reading.now.accepted.now deduction.old case.old deduction.new case.new (open_node node.entry) r) }
    ensures grown { OnOk result (Grows deduction.old deduction.new) }
    ensures more { OnOk result (HasMore case.old case.new) }
    ensures deduction { OnOk result (IsDeduction deduction.new) }
{
    match node.tree {
        Tree::Leaf => hold(alloc, reading, deduction, case, node),
        Tree::Const => judge_constant(alloc, reading, deduction, case, node),
        Tree::Not(t) => spread_negation(alloc, reading, deduction, case, node, t),
        Tree::Bin(op, t, u) => {
            if gives_cases(*op, node.positive) {
                case.splits.push(node)?;
                Ok(None)
            } else {
                spread_sides(alloc, reading, deduction, case, node, *op, t, u)
            }
        }
        Tree::Sel(name, t) => spread_selection(alloc, reading, deduction, case, node, name, t),
        Tree::Exp(branches) => {
            find_terms(case, node, place_below(node.place)?, branches)?;
            Ok(None)
        }
    }
}

/// Spreads the node below a negation.
#[cycle(spread)]
#[inline(never)]
fn spread_negation<'a>(
    alloc: Global,
    reading: &Reading<'a>,
    deduction: &mut Deduction,
    case: &mut Case<'a>,
    node: Node<'a>,
    t: &'a Tree,
) -> Result<Option<u64>, AllocError>
    requires read { IsRead reading.now.accepted.now reading.now.partners.items }
    requires tree { plain_tree node.tree.now ≡ negation_node (plain_tree t.now) }
    requires is_open { IsOpenIn reading.now.accepted.now deduction.old case.old (open_node node) }
    ensures spread { IfOk result (λ r. Spreads reading.now.accepted.now deduction.old case.old deduction.new case.new (open_node node.entry) r) }
    ensures grown { OnOk result (Grows deduction.old deduction.new) }
    ensures more { OnOk result (HasMore case.old case.new) }
    ensures deduction { OnOk result (IsDeduction deduction.new) }
{
    let place = place_below(node.place)?;
    let line = line_under_negation(alloc, &mut *deduction, node)?;
    let positive = !node.positive;
    let below = Node {
        positive,
        tree: t,
        line,
        place,
    };
    spread(alloc, reading, deduction, case, below)
}

/// Spreads both sides of a compound.
#[cycle(spread)]
#[inline(never)]
fn spread_sides<'a>(
    alloc: Global,
    reading: &Reading<'a>,
    deduction: &mut Deduction,
    case: &mut Case<'a>,
    node: Node<'a>,
    op: Op,
    t: &'a Tree,
    u: &'a Tree,
) -> Result<Option<u64>, AllocError>
    requires read { IsRead reading.now.accepted.now reading.now.partners.items }
    requires tree { plain_tree node.tree.now ≡ connective_node op (plain_tree t.now) (plain_tree u.now) }
    requires both { plain_gives_cases op node.positive ≡ false }
    requires is_open { IsOpenIn reading.now.accepted.now deduction.old case.old (open_node node) }
    ensures spread { IfOk result (λ r. Spreads reading.now.accepted.now deduction.old case.old deduction.new case.new (open_node node.entry) r) }
    ensures grown { OnOk result (Grows deduction.old deduction.new) }
    ensures more { OnOk result (HasMore case.old case.new) }
    ensures deduction { OnOk result (IsDeduction deduction.new) }
{
    let lines = side_lines(alloc, &mut *deduction, node, op)?;
    let place = place_below(node.place)?;
    let left = Node {
        positive: left_polarity(op, node.positive),
        tree: t,
        line: lines.left,
        place,
    };
    let right = Node {
        positive: node.positive,
        tree: u,
        line: lines.right,
        place: place_past(t, place)?,
    };
    if let Some(line) = spread(alloc, reading, &mut *deduction, &mut *case, right)? {
        return Ok(Some(line));
    }
    spread(alloc, reading, deduction, case, left)
}

/// Spreads the node below a selection, where its line's hypothesis is one more duty.
#[cycle(spread)]
#[inline(never)]
fn spread_selection<'a>(
    alloc: Global,
    reading: &Reading<'a>,
    deduction: &mut Deduction,
    case: &mut Case<'a>,
    node: Node<'a>,
    name: &'a Name,
    t: &'a Tree,
) -> Result<Option<u64>, AllocError>
    requires read { IsRead reading.now.accepted.now reading.now.partners.items }
    requires tree { plain_tree node.tree.now ≡ selection_node name.now (plain_tree t.now) }
    requires is_open { IsOpenIn reading.now.accepted.now deduction.old case.old (open_node node) }
    ensures spread { IfOk result (λ r. Spreads reading.now.accepted.now deduction.old case.old deduction.new case.new (open_node node.entry) r) }
    ensures grown { OnOk result (Grows deduction.old deduction.new) }
    ensures more { OnOk result (HasMore case.old case.new) }
    ensures deduction { OnOk result (IsDeduction deduction.new) }
{
    let place = place_below(node.place)?;
    let hyp = suppose_variable(alloc, &mut *deduction, node, name)?;
    case.duties.push(Duty::Choice {
        positive: node.positive,
        source: node.line,
        hyp,
        name,
    })?;
    let below = Node {
        positive: node.positive,
        tree: t,
        line: hyp,
        place,
    };
    spread(alloc, reading, deduction, case, below)
}
