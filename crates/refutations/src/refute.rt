//! Cases and how they are closed.

ghost use Rattle.std.specs.Prelude.{◌≡◌, ◌∷◌, ◌++◌, ◌≤◌, ◌+◌, ◌*◌, ◌^◌, ◌<◌, ◌-◌, ℕ, [], None, if◌then◌else◌, IfOk, List, OnOk, length};
ghost use Rattle.hol_terms.specs.Terms.{Term, constant, falsehood as falsehood_constant, plain_term};
ghost use Rattle.expansion_tree.specs.Standing.{IsNormalFormula, compound_of, left_polarity as left_polarity_of, negation_of};
ghost use Rattle.expansion_tree.specs.Trees.{node_count, plain_tree};
ghost use Rattle.nd_steps.specs.Deductions.{AreAssumptions, Assumes, Grows, IsDeduction, Proves};
ghost use Rattle.nd_steps.specs.Premises.{Contradicts};
ghost use Rattle.refutations.specs.Duties.{AreDuties};
ghost use Rattle.refutations.specs.declared.duties.Duty.{Duty as DutyValue};
ghost use Rattle.refutations.specs.Opens.{Says, all_unwritten, open_node, place_below as plain_below, place_past as plain_past, said as plain_said};
ghost use Rattle.refutations.specs.Stacks.{stacked};
ghost use Rattle.refutations.specs.Reaching.{Reaches};
ghost use Rattle.refutations.specs.Reading.{IsRead};
ghost use Rattle.refutations.specs.States.{HasMore, IsClosed, IsSame, IsSplit, IsSpreadBy, IsState, opens_of, room};

use crate::cases::Case;
use crate::counts::{place_below, place_past};
use crate::duties::Duty;
use crate::exact::{discharge, rests_on};
use crate::lines::{expanded_line, suppose_side};
use crate::nodes::{Node, Place};
use crate::parts::said;
use crate::reading::{Reading, read};
use crate::spread::{mated_line, spread};
use exp_check::accepted::Accepted;
use expansion_tree::parts::left_polarity;
use expansion_tree::trees::{Op, Tree};
use hol_terms::indices::raised_index;
use hol_terms::terms::Tm;
use nd_steps::deductions::Deduction;
use nd_steps::derived::Contradiction;
use std::alloc::{AllocError, Global};

/// The duties done from the last one down to the first so many: FALSEHOOD without their hypotheses.
fn discharge_to<'a>(
    alloc: Global,
    deduction: &mut Deduction,
    duties: &mut Vec<Duty<'a>>,
    count: usize,
    line: u64,
) -> Result<u64, AllocError>
    requires { (hyps more : List ℕ) × (kept added : List DutyValue) × IsDeduction deduction.old × (duties.old.items ≡ kept ++ added) × (count ≡ length kept) × AreDuties deduction.old hyps added more × AreAssumptions deduction.old more × Proves deduction.old line more (constant falsehood_constant) }
    ensures reaches { IfOk result (λ n. (hyps more : List ℕ) (kept added : List DutyValue) → duties.old.items ≡ kept ++ added → count ≡ length kept → AreDuties deduction.old hyps added more → AreAssumptions deduction.old more → Proves deduction.old line more (constant falsehood_constant) → Reaches (4 * length added) deduction.old deduction.new n hyps (constant falsehood_constant) × (duties.new.items ≡ kept)) }
    ensures deduction { OnOk result (IsDeduction deduction.new) }
{
    let mut line = line;
    while duties.len() > count {
        if let Some(duty) = duties.pop() {
            line = discharge(alloc, &mut *deduction, duty, line)?;
        }
    }
    Ok(line)
}

/// A node of one side of a split.
fn side_node<'a>(
    alloc: Global,
    deduction: &mut Deduction,
    node: Node<'a>,
    op: Op,
    sides: (&'a Tree, &'a Tree),
    left: bool,
) -> Result<Node<'a>, AllocError>
    requires { (b : Term) × (c : Term) × IsDeduction deduction.old × Says deduction.old node.line (plain_said node.positive (compound_of op b c)) }
    ensures assumes { IfOk result (λ n. (b c : Term) → Says deduction.old node.entry.line (plain_said node.entry.positive (compound_of op b c)) → Assumes deduction.new n.line (if left then plain_said (left_polarity_of op node.entry.positive) b else plain_said node.entry.positive c)) }
    ensures positive { IfOk result (λ n. n.positive ≡ (if left then left_polarity_of op node.entry.positive else node.entry.positive)) }
    ensures tree { IfOk result (λ n. plain_tree n.tree.now ≡ (if left then plain_tree sides.entry.0.now else plain_tree sides.entry.1.now)) }
    ensures place { IfOk result (λ n. n.place ≡ (if left then plain_below node.entry.place else plain_past (plain_tree sides.entry.0.now) (plain_below node.entry.place))) }
    ensures grown { OnOk result (Grows deduction.old deduction.new) }
    ensures one { OnOk result (length deduction.new ≡ length deduction.old + 1) }
    ensures deduction { OnOk result (IsDeduction deduction.new) }
{
    let line = suppose_side(alloc, deduction, node, op, left)?;
    let place = place_below(node.place)?;
    if left {
        Ok(Node {
            positive: left_polarity(op, node.positive),
            tree: sides.0,
            line,
            place,
        })
    } else {
        Ok(Node {
            positive: node.positive,
            tree: sides.1,
            line,
            place: place_past(sides.0, place)?,
        })
    }
}

/// Whether a side is a leaf, before which so many leaves come, and a leaf is held that is mated with it: it then closes its case at once.
fn closes_at_once(reading: &Reading<'_>, case: &Case<'_>, side: &Tree, leaves: u64) -> bool {
    let leaf = leaves.saturating_add(1) as usize;
    match (side, reading.partners.get(leaf)) {
        (Tree::Leaf, Some(partners)) => mated_line(partners, &case.held).is_some(),
        _ => false,
    }
}

/// Closes a case with a node that was just given a line, and takes it back: FALSEHOOD without the hypotheses of its duties.
#[cycle(close)]
#[inline(never)]
fn close<'a>(
    alloc: Global,
    reading: &Reading<'a>,
    deduction: &mut Deduction,
    case: &mut Case<'a>,
    node: Node<'a>,
    done: u64,
) -> Result<u64, AllocError>
    requires read { IsRead reading.now.accepted.now reading.now.partners.items }
    requires state { (hyps : List ℕ) × IsState reading.now.accepted.now deduction.old case.old hyps (open_node node ∷ []) done }
    ensures reaches { IfOk result (λ n. (hyps : List ℕ) → IsState reading.now.accepted.now deduction.old case.old hyps (open_node node.entry ∷ []) done → Reaches (room (open_node node.entry ∷ opens_of reading.now.accepted.now.order done case.old)) deduction.old deduction.new n hyps (constant falsehood_constant)) }
    ensures same { OnOk result (IsSame case.old case.new) }
    ensures deduction { OnOk result (IsDeduction deduction.new) }
{
    let mark = case.mark();
    let line = reach(alloc, reading, &mut *deduction, &mut *case, node, done)?;
    let line = discharge_to(alloc, deduction, &mut case.duties, mark.duties, line)?;
    case.take_back(mark);
    Ok(line)
}

/// Spreads a node, and goes on until the case is closed.
#[cycle(close)]
#[inline(never)]
fn reach<'a>(
    alloc: Global,
    reading: &Reading<'a>,
    deduction: &mut Deduction,
    case: &mut Case<'a>,
    node: Node<'a>,
    done: u64,
) -> Result<u64, AllocError>
    requires read { IsRead reading.now.accepted.now reading.now.partners.items }
    requires state { (hyps : List ℕ) × IsState reading.now.accepted.now deduction.old case.old hyps (open_node node ∷ []) done }
    ensures closed { IfOk result (λ n. (hyps : List ℕ) → IsState reading.now.accepted.now deduction.old case.old hyps (open_node node.entry ∷ []) done → IsClosed deduction.old case.old.duties.items deduction.new case.new.duties.items hyps (room (open_node node.entry ∷ opens_of reading.now.accepted.now.order done case.old)) n) }
    ensures grown { OnOk result (Grows deduction.old deduction.new) }
    ensures more { OnOk result (HasMore case.old case.new) }
    ensures deduction { OnOk result (IsDeduction deduction.new) }
{
    match spread(alloc, reading, &mut *deduction, &mut *case, node)? {
        Some(line) => Ok(line),
        None => go_on(alloc, reading, deduction, case, done),
    }
}

/// Goes on until the case is closed.
#[cycle(close)]
#[inline(never)]
fn go_on<'a>(
    alloc: Global,
    reading: &Reading<'a>,
    deduction: &mut Deduction,
    case: &mut Case<'a>,
    done: u64,
) -> Result<u64, AllocError>
    requires read { IsRead reading.now.accepted.now reading.now.partners.items }
    requires state { (hyps : List ℕ) × IsState reading.now.accepted.now deduction.old case.old hyps [] done }
    ensures closed { IfOk result (λ n. (hyps : List ℕ) → IsState reading.now.accepted.now deduction.old case.old hyps [] done → IsClosed deduction.old case.old.duties.items deduction.new case.new.duties.items hyps (room (opens_of reading.now.accepted.now.order done case.old)) n) }
    ensures grown { OnOk result (Grows deduction.old deduction.new) }
    ensures more { OnOk result (HasMore case.old case.new) }
    ensures deduction { OnOk result (IsDeduction deduction.new) }
{
    let mut done = done;
    loop {
        let stepped = step(alloc, reading, &mut *deduction, &mut *case, done)?;
        done = stepped.done;
        if let Some(line) = stepped.closed {
            return Ok(line);
        }
    }
}

/// The next place of the order, and the line of FALSEHOOD where the case is closed.
#[derive(Clone, Copy)]
struct Stepped {
    done: u64,
    closed: Option<u64>,
}

/// One step: two cases for the split of the least number, and where there is none, the term whose turn comes next.
#[cycle(close)]
#[inline(never)]
fn step<'a>(
    alloc: Global,
    reading: &Reading<'a>,
    deduction: &mut Deduction,
    case: &mut Case<'a>,
    done: u64,
) -> Result<Stepped, AllocError>
    requires read { IsRead reading.now.accepted.now reading.now.partners.items }
    requires state { (hyps : List ℕ) × IsState reading.now.accepted.now deduction.old case.old hyps [] done }
    ensures spread { IfOk result (λ r. (hyps : List ℕ) → IsState reading.now.accepted.now deduction.old case.old hyps [] done → IsSpreadBy reading.now.accepted.now deduction.old case.old deduction.new case.new hyps [] r.done (room (opens_of reading.now.accepted.now.order done case.old)) (all_unwritten (opens_of reading.now.accepted.now.order done case.old)) r.closed) }
    ensures falls { IfOk result (λ r. r.closed ≡ None → all_unwritten (opens_of reading.now.accepted.now.order r.done case.new) + (length reading.now.accepted.now.order - r.done) < all_unwritten (opens_of reading.now.accepted.now.order done case.old) + (length reading.now.accepted.now.order - done)) }
    ensures grown { OnOk result (Grows deduction.old deduction.new) }
    ensures more { OnOk result (HasMore case.old case.new) }
    ensures deduction { OnOk result (IsDeduction deduction.new) }
{
    match case.splits.pop() {
        Some(node) => {
            let closed = split(alloc, reading, deduction, case, node, done)?;
            Ok(Stepped { done, closed })
        }
        None => {
            let next = raised_index(done, 1)?;
            let closed = take_turn(alloc, reading, deduction, case, done)?;
            Ok(Stepped { done: next, closed })
        }
    }
}

/// Expands by the term whose turn it is, where it was found.
fn take_turn<'a>(
    alloc: Global,
    reading: &Reading<'a>,
    deduction: &mut Deduction,
    case: &mut Case<'a>,
    done: u64,
) -> Result<Option<u64>, AllocError>
    requires read { IsRead reading.now.accepted.now reading.now.partners.items }
    requires state { (hyps : List ℕ) × IsState reading.now.accepted.now deduction.old case.old hyps [] done }
    requires none { stacked case.old.splits ≡ [] }
    ensures spread { IfOk result (λ r. (hyps : List ℕ) → IsState reading.now.accepted.now deduction.old case.old hyps [] done → IsSpreadBy reading.now.accepted.now deduction.old case.old deduction.new case.new hyps [] (done + 1) (room (opens_of reading.now.accepted.now.order done case.old)) (all_unwritten (opens_of reading.now.accepted.now.order done case.old)) r) }
    ensures turn { OnOk result (done < length reading.now.accepted.now.order) }
    ensures grown { OnOk result (Grows deduction.old deduction.new) }
    ensures more { OnOk result (HasMore case.old case.new) }
    ensures deduction { OnOk result (IsDeduction deduction.new) }
{
    let occurrence = reading.accepted.order().at(done);
    let Some(front) = case.fronts.get(&occurrence) else {
        return Ok(None);
    };
    let front = *front;
    let line = expanded_line(alloc, &mut *deduction, front)?;
    let node = Node { line, ..front.node };
    spread(alloc, reading, deduction, case, node)
}

/// Two cases: the first one is closed and taken back, and then the case goes on with the second, whose hypothesis is one more duty.
/// Where the first one's line doesn't rest on its hypothesis it closes the case. The right side comes first where it closes at once.
#[cycle(close)]
#[inline(never)]
fn split<'a>(
    alloc: Global,
    reading: &Reading<'a>,
    deduction: &mut Deduction,
    case: &mut Case<'a>,
    node: Node<'a>,
    done: u64,
) -> Result<Option<u64>, AllocError>
    requires read { IsRead reading.now.accepted.now reading.now.partners.items }
    requires split { IsSplit node }
    requires state { (hyps : List ℕ) × IsState reading.now.accepted.now deduction.old case.old hyps (open_node node ∷ []) done }
    ensures spread { IfOk result (λ r. (hyps : List ℕ) (most : ℕ) → IsState reading.now.accepted.now deduction.old case.old hyps (open_node node.entry ∷ []) done → all_unwritten (open_node node.entry ∷ opens_of reading.now.accepted.now.order done case.old) ≡ most + 1 → IsSpreadBy reading.now.accepted.now deduction.old case.old deduction.new case.new hyps [] done (room (open_node node.entry ∷ opens_of reading.now.accepted.now.order done case.old)) most r) }
    ensures grown { OnOk result (Grows deduction.old deduction.new) }
    ensures more { OnOk result (HasMore case.old case.new) }
    ensures deduction { OnOk result (IsDeduction deduction.new) }
{
    let Tree::Bin(op, t, u) = node.tree else {
        unreachable!()
    };
    let sides = (&**t, &**u);
    let behind_left = place_past(sides.0, place_below(node.place)?)?;
    let left = !closes_at_once(reading, case, sides.1, behind_left.leaves);
    let first = side_node(alloc, &mut *deduction, node, *op, sides, left)?;
    let line = close(alloc, reading, &mut *deduction, &mut *case, first, done)?;
    if !rests_on(deduction, line, first.line) {
        return Ok(Some(line));
    }
    let second = side_node(alloc, &mut *deduction, node, *op, sides, !left)?;
    case.duties.push(Duty::Second {
        source: node.line,
        first: Contradiction {
            hyp: first.line,
            source: line,
        },
        hyp: second.line,
    })?;
    spread(alloc, reading, deduction, case, second)
}

/// FALSEHOOD from the hypothesis that the long normal form of the proof's formula is false.
fn refute_denial(
    alloc: Global,
    accepted: &Accepted,
    deduction: &mut Deduction,
    hyp: u64,
) -> Result<u64, AllocError>
    requires { (normal : Term) × IsDeduction deduction.old × IsNormalFormula normal accepted.now.fitted.formula × Assumes deduction.old hyp (negation_of normal) }
    ensures reaches { IfOk result (λ n. Reaches (24 * 2 ^ node_count accepted.now.fitted.tree) deduction.old deduction.new n (hyp ∷ []) (constant falsehood_constant)) }
    ensures deduction { OnOk result (IsDeduction deduction.new) }
{
    let reading = read(alloc, accepted)?;
    let mut case = Case::new(alloc);
    let root = Node {
        positive: true,
        tree: accepted.fitted().tree(),
        line: hyp,
        place: Place {
            node: 1,
            leaves: 0,
            occurrences: 0,
        },
    };
    close(alloc, &reading, deduction, &mut case, root, 0)
}

/// Supposes that the long normal form of an expansion proof's formula is false, and derives FALSEHOOD (Miller 1987): answers the line of
/// the hypothesis and that of FALSEHOOD. The lines from before stay. An error comes only where memory runs out; some of the lines may be
/// there then.
pub fn refute(
    alloc: Global,
    accepted: &Accepted,
    deduction: &mut Deduction,
    normal: &Tm,
) -> Result<Contradiction, AllocError>
    requires { IsNormalFormula (plain_term normal.now) accepted.now.fitted.formula }
    ensures contradicts { IfOk result (λ r. Contradicts deduction.new [] r.hyp r.source (negation_of (plain_term normal.now))) }
    ensures few { OnOk result (length deduction.new ≤ length deduction.old + 1 + 24 * 2 ^ node_count accepted.now.fitted.tree) }
    ensures grown { OnOk result (Grows deduction.old deduction.new) }
    ensures deduction { OnOk result (IsDeduction deduction.new) }
{
    let denied = said(alloc, true, normal)?;
    let hyp = deduction.assume(alloc, denied)?;
    let source = refute_denial(alloc, accepted, deduction, hyp)?;
    Ok(Contradiction { hyp, source })
}
