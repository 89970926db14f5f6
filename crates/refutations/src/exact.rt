//! Steps whose lines rest on no more hypotheses than they need; each answers the number of its last line. After an error, which comes
//! only where memory runs out, some of the lines may be there.

ghost use Rattle.std.specs.Prelude.{◌≡◌, ◌∷◌, ℕ, [], IfOk, IsFalse, IsSome, List, OnOk, Some};
ghost use Rattle.std.specs.Option.{option_map};
ghost use Rattle.hol_conv.specs.Conversion.{Conv};
ghost use Rattle.hol_terms.specs.Indices.{instance_of};
ghost use Rattle.hol_terms.specs.Terms.{SimpleType, Term, constant, falsehood as falsehood_constant, plain_term, truth_type};
ghost use Rattle.hol_terms.specs.Truth.{Follows};
ghost use Rattle.hol_terms.specs.Typing.{IsFormula, Typed};
ghost use Rattle.expansion_tree.specs.Standing.{expanding, quantified};
ghost use Rattle.nd_rules.specs.Lines.{DeductionLine, line_of};
ghost use Rattle.nd_steps.specs.Deductions.{AreAssumptions, Derives, IsDeduction, Proves};
ghost use Rattle.refutations.specs.Duties.{IsChoice, IsDuty, IsSecondCase, hyp_of};
ghost use Rattle.refutations.specs.Opens.{said};
ghost use Rattle.refutations.specs.Reaching.{Reaches};

use crate::duties::Duty;
use crate::hypotheses::{union, without};
use hol_terms::lists::Hyps;
use hol_terms::names::Name;
use hol_terms::terms::{Con, Tm};
use nd_steps::deductions::Deduction;
use nd_steps::derived::Contradiction;
use nd_steps::hypotheses::copied;
use std::alloc::{AllocError, Global};

/// FALSEHOOD.
pub fn falsehood() -> Tm
    ensures { plain_term result ≡ constant falsehood_constant }
{
    Tm::Con(Con::Falsehood)
}

/// The hypotheses of a line.
fn hyps_of(deduction: &Deduction, number: u64) -> &Hyps
    requires { IsSome (line_of deduction.now number) }
    ensures { option_map (λ (l : DeductionLine). l.hypotheses) (line_of deduction.now number) ≡ Some result.now }
{
    match deduction.find(number) {
        Some(line) => &line.hyps,
        None => unreachable!(),
    }
}

/// RULEP from one line.
pub fn conclude_one(
    alloc: Global,
    deduction: &mut Deduction,
    source: u64,
    formula: Tm,
) -> Result<u64, AllocError>
    requires formula { IsFormula (plain_term formula) }
    requires premises { (hyps : List ℕ) × (a : Term) × AreAssumptions deduction.old hyps × Proves deduction.old source hyps a × Follows (a ∷ []) (plain_term formula) }
    ensures derives { (hyps : List ℕ) (a : Term) → AreAssumptions deduction.old hyps → Proves deduction.old source hyps a → IfOk result (λ n. Derives 1 deduction.old deduction.new n hyps (plain_term formula)) }
    ensures deduction { OnOk result (IsDeduction deduction.new) }
{
    let own = copied(alloc, hyps_of(deduction, source))?;
    deduction.follow_one(alloc, &own, source, formula)
}

/// RULEP from two lines.
pub fn conclude_two(
    alloc: Global,
    deduction: &mut Deduction,
    first: u64,
    second: u64,
    formula: Tm,
) -> Result<u64, AllocError>
    requires formula { IsFormula (plain_term formula) }
    requires premises { (hyps : List ℕ) × (a : Term) × (b : Term) × AreAssumptions deduction.old hyps × Proves deduction.old first hyps a × Proves deduction.old second hyps b × Follows (a ∷ b ∷ []) (plain_term formula) }
    ensures derives { (hyps : List ℕ) (a b : Term) → AreAssumptions deduction.old hyps → Proves deduction.old first hyps a → Proves deduction.old second hyps b → IfOk result (λ n. Derives 1 deduction.old deduction.new n hyps (plain_term formula)) }
    ensures deduction { OnOk result (IsDeduction deduction.new) }
{
    let own = union(alloc, hyps_of(deduction, first), hyps_of(deduction, second))?;
    deduction.follow_two(alloc, &own, first, second, formula)
}

/// What the line of an expansion node says, of the formula below the term: by UI and LAMBDA where it says that the quantified formula is
/// true, and else by P, LAMBDA, EGEN, RULEP, DEDUCT and RULEP. `lower` is convertible with the quantified formula's instance.
pub fn expand(
    alloc: Global,
    deduction: &mut Deduction,
    source: u64,
    positive: bool,
    term: Tm,
    lower: Tm,
) -> Result<u64, AllocError>
    requires premises { (hyps : List ℕ) × (ty : SimpleType) × (b : Term) × AreAssumptions deduction.old hyps × Proves deduction.old source hyps (said positive (quantified (expanding positive ty) ty b)) × Typed [] (plain_term term) ty × Conv [] truth_type (instance_of b (plain_term term)) (plain_term lower) }
    ensures reaches { (hyps : List ℕ) (ty : SimpleType) (b : Term) → AreAssumptions deduction.old hyps → Proves deduction.old source hyps (said positive (quantified (expanding positive ty) ty b)) → IfOk result (λ n. Reaches 6 deduction.old deduction.new n hyps (said positive (plain_term lower))) }
    ensures deduction { OnOk result (IsDeduction deduction.new) }
{
    let own = copied(alloc, hyps_of(deduction, source))?;
    if positive {
        deduction.deny_instance(alloc, &own, source, term, lower)
    } else {
        deduction.instance_as(alloc, &own, source, term, lower)
    }
}

/// FALSEHOOD without the hypothesis that holds of the variable, by RULEC where the source says that the quantified formula is true, and
/// else by DEDUCT, RULEP, UGEN and RULEP.
fn discharge_choice(
    alloc: Global,
    deduction: &mut Deduction,
    positive: bool,
    source: u64,
    contradiction: Contradiction,
    name: &Name,
) -> Result<u64, AllocError>
    requires premises { (hyps : List ℕ) × AreAssumptions deduction.old hyps × IsChoice deduction.old hyps positive source contradiction.hyp name.now × Proves deduction.old contradiction.source (contradiction.hyp ∷ hyps) (constant falsehood_constant) }
    ensures reaches { (hyps : List ℕ) → AreAssumptions deduction.old hyps → IsChoice deduction.old hyps positive source contradiction.hyp name.now → Proves deduction.old contradiction.source (contradiction.hyp ∷ hyps) (constant falsehood_constant) → IfOk result (λ n. Reaches 4 deduction.old deduction.new n hyps (constant falsehood_constant)) }
    ensures deduction { OnOk result (IsDeduction deduction.new) }
{
    let Contradiction { hyp, source: line } = contradiction;
    let others = without(alloc, hyps_of(deduction, line), hyp)?;
    let own = union(alloc, hyps_of(deduction, source), &others)?;
    let name = name.copy(alloc)?;
    if positive {
        deduction.deny_universal(alloc, &own, source, contradiction, name)
    } else {
        deduction.choose(alloc, &own, source, hyp, line, name, falsehood())
    }
}

/// FALSEHOOD without the two hypotheses of cases, by DEDUCT, DEDUCT and RULEP.
fn discharge_cases(
    alloc: Global,
    deduction: &mut Deduction,
    source: u64,
    first: Contradiction,
    second: Contradiction,
) -> Result<u64, AllocError>
    requires premises { (hyps : List ℕ) × AreAssumptions deduction.old hyps × IsSecondCase deduction.old hyps source first.hyp first.source second.hyp × Proves deduction.old second.source (second.hyp ∷ hyps) (constant falsehood_constant) }
    ensures reaches { (hyps : List ℕ) → AreAssumptions deduction.old hyps → IsSecondCase deduction.old hyps source first.hyp first.source second.hyp → Proves deduction.old second.source (second.hyp ∷ hyps) (constant falsehood_constant) → IfOk result (λ n. Reaches 4 deduction.old deduction.new n hyps (constant falsehood_constant)) }
    ensures deduction { OnOk result (IsDeduction deduction.new) }
{
    let not_first = without(alloc, hyps_of(deduction, first.source), first.hyp)?;
    let not_second = without(alloc, hyps_of(deduction, second.source), second.hyp)?;
    let others = union(alloc, &not_first, &not_second)?;
    let own = union(alloc, hyps_of(deduction, source), &others)?;
    deduction.split(alloc, &own, source, first, second)
}

/// Whether the line rests on the hypothesis.
pub fn rests_on(deduction: &Deduction, number: u64, hyp: u64) -> bool
    requires { IsSome (line_of deduction.now number) }
    ensures { (hyps : List ℕ) (a : Term) → IsFalse result → Proves deduction.now number (hyp ∷ hyps) a → Proves deduction.now number hyps a }
{
    hyps_of(deduction, number).as_slice().contains(&hyp)
}

/// FALSEHOOD without the duty's hypothesis; no line is added where the given one doesn't rest on it.
pub fn discharge(
    alloc: Global,
    deduction: &mut Deduction,
    duty: Duty<'_>,
    line: u64,
) -> Result<u64, AllocError>
    requires premises { (hyps : List ℕ) × AreAssumptions deduction.old hyps × IsDuty deduction.old hyps duty × Proves deduction.old line (hyp_of duty ∷ hyps) (constant falsehood_constant) }
    ensures reaches { (hyps : List ℕ) → AreAssumptions deduction.old hyps → IsDuty deduction.old hyps duty.entry → Proves deduction.old line (hyp_of duty.entry ∷ hyps) (constant falsehood_constant) → IfOk result (λ n. Reaches 4 deduction.old deduction.new n hyps (constant falsehood_constant)) }
    ensures deduction { IsDeduction deduction.old → OnOk result (IsDeduction deduction.new) }
{
    match duty {
        Duty::Choice {
            positive,
            source,
            hyp,
            name,
        } => {
            if !rests_on(deduction, line, hyp) {
                return Ok(line);
            }
            let contradiction = Contradiction { hyp, source: line };
            discharge_choice(alloc, deduction, positive, source, contradiction, name)
        }
        Duty::Second { source, first, hyp } => {
            if !rests_on(deduction, line, hyp) {
                return Ok(line);
            }
            let second = Contradiction { hyp, source: line };
            discharge_cases(alloc, deduction, source, first, second)
        }
    }
}
