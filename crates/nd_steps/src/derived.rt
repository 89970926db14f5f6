//! Steps of several lines, by the rules; each answers the number of the last line. After an error, which comes only where memory runs
//! out, the lines from before are there, and maybe some of the new ones.

ghost use Rattle.std.specs.Prelude.{◌≡◌, ◌∷◌, ◌++◌, [], IfOk, OnOk};
ghost use Rattle.hol_terms.specs.Terms.{Term, constant, falsehood as falsehood_constant, plain_term};
ghost use Rattle.hol_terms.specs.Typing.{IsFormula};
ghost use Rattle.nd_rules.specs.Rules.{implies};
ghost use Rattle.nd_steps.specs.Deductions.{AreAssumptions, Assumes, Derives, Grows, IsDeduction};
ghost use Rattle.nd_steps.specs.Premises.{Contradicts, DeniesInstance, DeniesUniversal, InstantiatesTo, Splits, not_so};

use crate::deductions::Deduction;
use crate::formulas::{
    existential_instance, falsehood, implication, negated, negation, universal_instance,
};
use crate::hypotheses::with_one;
use hol_terms::lists::Hyps;
use hol_terms::names::Name;
use hol_terms::terms::{Tm, copy};
use std::alloc::{AllocError, Global};

/// A hypothesis that was added, and the hypotheses with it.
#[derive(Drop)]
pub struct Supposed {
    pub number: u64,
    pub hyps: Hyps,
}

/// A hypothesis and a line that proves FALSEHOOD with it.
#[derive(Clone, Copy)]
pub struct Contradiction {
    pub hyp: u64,
    pub source: u64,
}

impl Deduction {
    /// Adds a hypothesis to the given ones, by one line.
    pub fn suppose(
        &mut self,
        alloc: Global,
        hyps: &Hyps,
        formula: Tm,
    ) -> Result<Supposed, AllocError>
        requires assumptions { AreAssumptions self.old hyps.now }
        requires formula { IsFormula (plain_term formula) }
        ensures hyps { IfOk result (λ s. s.hyps ≡ hyps.now ++ s.number ∷ []) }
        ensures assumptions { IfOk result (λ s. AreAssumptions self.new s.hyps) }
        ensures assumes { IfOk result (λ s. Assumes self.new s.number (plain_term formula)) }
        ensures derives { IfOk result (λ s. Derives 1 self.old self.new s.number s.hyps (plain_term formula)) }
        ensures grown { Grows self.old self.new }
        ensures deduction { OnOk result (IsDeduction self.new) }
    {
        let number = self.assume(alloc, formula)?;
        let hyps = with_one(alloc, hyps, number)?;
        Ok(Supposed { number, hyps })
    }

    /// The hypothesis implies FALSEHOOD, by one line.
    fn deduct_falsehood(
        &mut self,
        alloc: Global,
        hyps: &Hyps,
        contradiction: Contradiction,
    ) -> Result<u64, AllocError>
        requires assumptions { AreAssumptions self.old hyps.now }
        requires contradicted { (a : Term) × Contradicts self.old hyps.now contradiction.hyp contradiction.source a }
        ensures derives { (a : Term) → Contradicts self.old hyps.now contradiction.hyp contradiction.source a → IfOk result (λ n. Derives 1 self.old self.new n hyps.now (implies a (constant falsehood_constant))) }
        ensures grown { Grows self.old self.new }
        ensures deduction { OnOk result (IsDeduction self.new) }
    {
        let Contradiction { hyp, source } = contradiction;
        let formula = implication(alloc, self.formula(hyp), falsehood())?;
        self.deduct(alloc, hyps, source, hyp, formula)
    }

    /// The negation of a hypothesis that is contradicted, by two lines: DEDUCT and RULEP.
    pub fn refute(
        &mut self,
        alloc: Global,
        hyps: &Hyps,
        contradiction: Contradiction,
    ) -> Result<u64, AllocError>
        requires assumptions { AreAssumptions self.old hyps.now }
        requires contradicted { (a : Term) × Contradicts self.old hyps.now contradiction.hyp contradiction.source a }
        ensures derives { (a : Term) → Contradicts self.old hyps.now contradiction.hyp contradiction.source a → IfOk result (λ n. Derives 2 self.old self.new n hyps.now (not_so a)) }
        ensures grown { Grows self.old self.new }
        ensures deduction { OnOk result (IsDeduction self.new) }
    {
        let formula = copy(alloc, self.formula(contradiction.hyp))?;
        let formula = negation(alloc, formula)?;
        let implied = self.deduct_falsehood(alloc, hyps, contradiction)?;
        self.follow_one(alloc, hyps, implied, formula)
    }

    /// The formula whose negation is the hypothesis that is contradicted, by two lines: DEDUCT and RULEP.
    pub fn by_contradiction(
        &mut self,
        alloc: Global,
        hyps: &Hyps,
        contradiction: Contradiction,
        formula: Tm,
    ) -> Result<u64, AllocError>
        requires assumptions { AreAssumptions self.old hyps.now }
        requires contradicted { Contradicts self.old hyps.now contradiction.hyp contradiction.source (not_so (plain_term formula)) }
        ensures derives { IfOk result (λ n. Derives 2 self.old self.new n hyps.now (plain_term formula)) }
        ensures grown { Grows self.old self.new }
        ensures deduction { OnOk result (IsDeduction self.new) }
    {
        let implied = self.deduct_falsehood(alloc, hyps, contradiction)?;
        self.follow_one(alloc, hyps, implied, formula)
    }

    /// From a formula and a contradiction for each of two that it leaves, FALSEHOOD, by three lines: DEDUCT, DEDUCT and RULEP.
    pub fn split(
        &mut self,
        alloc: Global,
        hyps: &Hyps,
        source: u64,
        first: Contradiction,
        second: Contradiction,
    ) -> Result<u64, AllocError>
        requires assumptions { AreAssumptions self.old hyps.now }
        requires premises { Splits self.old hyps.now source first.hyp first.source second.hyp second.source }
        ensures derives { IfOk result (λ n. Derives 3 self.old self.new n hyps.now (constant falsehood_constant)) }
        ensures grown { Grows self.old self.new }
        ensures deduction { OnOk result (IsDeduction self.new) }
    {
        let not_first = self.deduct_falsehood(alloc, hyps, first)?;
        let not_second = self.deduct_falsehood(alloc, hyps, second)?;
        self.follow_three(alloc, hyps, source, not_first, not_second, falsehood())
    }

    /// A formula that is convertible with the instance of the source, a universal line, by two lines: UI and LAMBDA.
    pub fn instance_as(
        &mut self,
        alloc: Global,
        hyps: &Hyps,
        source: u64,
        term: Tm,
        formula: Tm,
    ) -> Result<u64, AllocError>
        requires assumptions { AreAssumptions self.old hyps.now }
        requires premises { InstantiatesTo self.old hyps.now source (plain_term term) (plain_term formula) }
        ensures derives { IfOk result (λ n. Derives 2 self.old self.new n hyps.now (plain_term formula)) }
        ensures grown { Grows self.old self.new }
        ensures deduction { OnOk result (IsDeduction self.new) }
    {
        let instance = universal_instance(alloc, self.formula(source), &term)?;
        let instance = self.instance(alloc, hyps, source, term, instance)?;
        self.convert(alloc, hyps, instance, formula)
    }

    /// The negation of a formula that is convertible with an instance of an existential formula, where the source is the negation of the
    /// latter, by six lines: P, LAMBDA, EGEN, RULEP, DEDUCT and RULEP.
    pub fn deny_instance(
        &mut self,
        alloc: Global,
        hyps: &Hyps,
        source: u64,
        term: Tm,
        formula: Tm,
    ) -> Result<u64, AllocError>
        requires assumptions { AreAssumptions self.old hyps.now }
        requires premises { DeniesInstance self.old hyps.now source (plain_term term) (plain_term formula) }
        ensures derives { IfOk result (λ n. Derives 6 self.old self.new n hyps.now (not_so (plain_term formula))) }
        ensures grown { Grows self.old self.new }
        ensures deduction { OnOk result (IsDeduction self.new) }
    {
        let existence = copy(alloc, negated(self.formula(source)))?;
        let instance = existential_instance(alloc, &existence, &term)?;
        let supposed = self.suppose(alloc, hyps, formula)?;
        let line = self.convert(alloc, &supposed.hyps, supposed.number, instance)?;
        let line = self.witness(alloc, &supposed.hyps, line, term, existence)?;
        let line = self.follow_two(alloc, &supposed.hyps, source, line, falsehood())?;
        let contradiction = Contradiction {
            hyp: supposed.number,
            source: line,
        };
        self.refute(alloc, hyps, contradiction)
    }

    /// FALSEHOOD from the source, the negation of a universal line, where it is contradicted that the universal formula doesn't hold of
    /// the variable of that name, by four lines: DEDUCT, RULEP, UGEN and RULEP.
    pub fn deny_universal(
        &mut self,
        alloc: Global,
        hyps: &Hyps,
        source: u64,
        contradiction: Contradiction,
        name: Name,
    ) -> Result<u64, AllocError>
        requires assumptions { AreAssumptions self.old hyps.now }
        requires premises { DeniesUniversal self.old hyps.now source contradiction.hyp contradiction.source name }
        ensures derives { IfOk result (λ n. Derives 4 self.old self.new n hyps.now (constant falsehood_constant)) }
        ensures grown { Grows self.old self.new }
        ensures deduction { OnOk result (IsDeduction self.new) }
    {
        let universal = copy(alloc, negated(self.formula(source)))?;
        let instance = copy(alloc, negated(self.formula(contradiction.hyp)))?;
        let line = self.by_contradiction(alloc, hyps, contradiction, instance)?;
        let line = self.generalize(alloc, hyps, line, name, universal)?;
        self.follow_two(alloc, hyps, source, line, falsehood())
    }
}
