//! The rules, as steps: each adds the next line, which the lines justify by the rule, under the given hypotheses, and answers its
//! number. An error comes only where memory runs out, and then nothing is changed.

ghost use Rattle.std.specs.Prelude.{◌≡◌, ◌+◌, ◌∷◌, [], IfOk, OnErr, OnOk};
ghost use Rattle.hol_terms.specs.Terms.{Term, plain_term};
ghost use Rattle.hol_terms.specs.Truth.{Follows};
ghost use Rattle.hol_terms.specs.Typing.{IsFormula};
ghost use Rattle.nd_rules.specs.Lines.{assignments, choice, conversion, deduction, existential, generalization, hypothesis, universal_instance};
ghost use Rattle.nd_steps.specs.Deductions.{AddsLine, AreAssumptions, Assumes, Derives, IsDeduction, Proves};
ghost use Rattle.nd_steps.specs.Premises.{Chooses, Converts, Discharges, FollowsFrom, Generalizes, Instantiates, Witnesses};

use crate::deductions::Deduction;
use hol_terms::indices::raised_index;
use hol_terms::lists::{Hyps, Numbers};
use hol_terms::names::Name;
use hol_terms::terms::Tm;
use nd_rules::lines::Why;
use std::alloc::{AllocError, Global};

/// The number after this many, alone.
fn number_alone(alloc: Global, before: u64) -> Result<Hyps, AllocError>
    ensures { IfOk result (λ own. own ≡ (before + 1) ∷ []) }
{
    let number = raised_index(before, 1)?;
    let mut own = Hyps::new(alloc);
    own.push(number)?;
    Ok(own)
}

/// One source.
fn one_source(alloc: Global, source: u64) -> Result<Numbers, AllocError>
    ensures { IfOk result (λ sources. sources ≡ source ∷ []) }
{
    let mut sources = Numbers::new(alloc);
    sources.push(source)?;
    Ok(sources)
}

/// Two sources.
fn two_sources(alloc: Global, first: u64, second: u64) -> Result<Numbers, AllocError>
    ensures { IfOk result (λ sources. sources ≡ first ∷ second ∷ []) }
{
    let mut sources = one_source(alloc, first)?;
    sources.push(second)?;
    Ok(sources)
}

/// Three sources.
fn three_sources(alloc: Global, first: u64, second: u64, third: u64) -> Result<Numbers, AllocError>
    ensures { IfOk result (λ sources. sources ≡ first ∷ second ∷ third ∷ []) }
{
    let mut sources = two_sources(alloc, first, second)?;
    sources.push(third)?;
    Ok(sources)
}

impl Deduction {
    /// P: a hypothesis, which rests on itself.
    pub fn assume(&mut self, alloc: Global, formula: Tm) -> Result<u64, AllocError>
        requires { IsFormula (plain_term formula) }
        ensures line { IfOk result (λ n. AddsLine self.old self.new n (n ∷ []) (plain_term formula) hypothesis) }
        ensures assumes { IfOk result (λ n. Assumes self.new n (plain_term formula)) }
        ensures derives { IfOk result (λ n. Derives 1 self.old self.new n (n ∷ []) (plain_term formula)) }
        ensures deduction { OnOk result (IsDeduction self.new) }
        ensures err { OnErr result (self.new ≡ self.old) }
    {
        let own = number_alone(alloc, self.len())?;
        self.add(alloc, &own, formula, Why::Hyp)
    }

    /// RULEP: what follows by truth assignments from the sources.
    pub fn follow(
        &mut self,
        alloc: Global,
        hyps: &Hyps,
        sources: Numbers,
        formula: Tm,
    ) -> Result<u64, AllocError>
        requires assumptions { AreAssumptions self.old hyps.now }
        requires formula { IsFormula (plain_term formula) }
        requires premises { FollowsFrom self.old hyps.now sources (plain_term formula) }
        ensures line { IfOk result (λ n. AddsLine self.old self.new n hyps.now (plain_term formula) (assignments sources)) }
        ensures derives { IfOk result (λ n. Derives 1 self.old self.new n hyps.now (plain_term formula)) }
        ensures deduction { OnOk result (IsDeduction self.new) }
        ensures err { OnErr result (self.new ≡ self.old) }
    {
        self.add(alloc, hyps, formula, Why::Rulep { src: sources })
    }

    /// RULEP from one source.
    pub fn follow_one(
        &mut self,
        alloc: Global,
        hyps: &Hyps,
        source: u64,
        formula: Tm,
    ) -> Result<u64, AllocError>
        requires assumptions { AreAssumptions self.old hyps.now }
        requires formula { IsFormula (plain_term formula) }
        requires premises { (a : Term) × Proves self.old source hyps.now a × Follows (a ∷ []) (plain_term formula) }
        ensures line { IfOk result (λ n. AddsLine self.old self.new n hyps.now (plain_term formula) (assignments (source ∷ []))) }
        ensures derives { IfOk result (λ n. Derives 1 self.old self.new n hyps.now (plain_term formula)) }
        ensures deduction { OnOk result (IsDeduction self.new) }
        ensures err { OnErr result (self.new ≡ self.old) }
    {
        let sources = one_source(alloc, source)?;
        self.follow(alloc, hyps, sources, formula)
    }

    /// RULEP from two sources.
    pub fn follow_two(
        &mut self,
        alloc: Global,
        hyps: &Hyps,
        first: u64,
        second: u64,
        formula: Tm,
    ) -> Result<u64, AllocError>
        requires assumptions { AreAssumptions self.old hyps.now }
        requires formula { IsFormula (plain_term formula) }
        requires premises { (a b : Term) × Proves self.old first hyps.now a × Proves self.old second hyps.now b × Follows (a ∷ b ∷ []) (plain_term formula) }
        ensures line { IfOk result (λ n. AddsLine self.old self.new n hyps.now (plain_term formula) (assignments (first ∷ second ∷ []))) }
        ensures derives { IfOk result (λ n. Derives 1 self.old self.new n hyps.now (plain_term formula)) }
        ensures deduction { OnOk result (IsDeduction self.new) }
        ensures err { OnErr result (self.new ≡ self.old) }
    {
        let sources = two_sources(alloc, first, second)?;
        self.follow(alloc, hyps, sources, formula)
    }

    /// RULEP from three sources.
    pub fn follow_three(
        &mut self,
        alloc: Global,
        hyps: &Hyps,
        first: u64,
        second: u64,
        third: u64,
        formula: Tm,
    ) -> Result<u64, AllocError>
        requires assumptions { AreAssumptions self.old hyps.now }
        requires formula { IsFormula (plain_term formula) }
        requires premises { (a b c : Term) × Proves self.old first hyps.now a × Proves self.old second hyps.now b × Proves self.old third hyps.now c × Follows (a ∷ b ∷ c ∷ []) (plain_term formula) }
        ensures line { IfOk result (λ n. AddsLine self.old self.new n hyps.now (plain_term formula) (assignments (first ∷ second ∷ third ∷ []))) }
        ensures derives { IfOk result (λ n. Derives 1 self.old self.new n hyps.now (plain_term formula)) }
        ensures deduction { OnOk result (IsDeduction self.new) }
        ensures err { OnErr result (self.new ≡ self.old) }
    {
        let sources = three_sources(alloc, first, second, third)?;
        self.follow(alloc, hyps, sources, formula)
    }

    /// DEDUCT: the hypothesis implies the source, which may rest on it.
    pub fn deduct(
        &mut self,
        alloc: Global,
        hyps: &Hyps,
        source: u64,
        hyp: u64,
        formula: Tm,
    ) -> Result<u64, AllocError>
        requires assumptions { AreAssumptions self.old hyps.now }
        requires premises { Discharges self.old hyps.now source hyp (plain_term formula) }
        ensures line { IfOk result (λ n. AddsLine self.old self.new n hyps.now (plain_term formula) (deduction source hyp)) }
        ensures derives { IfOk result (λ n. Derives 1 self.old self.new n hyps.now (plain_term formula)) }
        ensures deduction { OnOk result (IsDeduction self.new) }
        ensures err { OnErr result (self.new ≡ self.old) }
    {
        self.add(alloc, hyps, formula, Why::Deduct { src: source, hyp })
    }

    /// UI: the instance of the source, a universal line, with the term.
    pub fn instance(
        &mut self,
        alloc: Global,
        hyps: &Hyps,
        source: u64,
        term: Tm,
        formula: Tm,
    ) -> Result<u64, AllocError>
        requires assumptions { AreAssumptions self.old hyps.now }
        requires premises { Instantiates self.old hyps.now source (plain_term term) (plain_term formula) }
        ensures line { IfOk result (λ n. AddsLine self.old self.new n hyps.now (plain_term formula) (universal_instance source (plain_term term))) }
        ensures derives { IfOk result (λ n. Derives 1 self.old self.new n hyps.now (plain_term formula)) }
        ensures deduction { OnOk result (IsDeduction self.new) }
        ensures err { OnErr result (self.new ≡ self.old) }
    {
        self.add(alloc, hyps, formula, Why::Ui { src: source, term })
    }

    /// UGEN: the source, generalized over the variable of that name.
    pub fn generalize(
        &mut self,
        alloc: Global,
        hyps: &Hyps,
        source: u64,
        name: Name,
        formula: Tm,
    ) -> Result<u64, AllocError>
        requires assumptions { AreAssumptions self.old hyps.now }
        requires premises { Generalizes self.old hyps.now source name (plain_term formula) }
        ensures line { IfOk result (λ n. AddsLine self.old self.new n hyps.now (plain_term formula) (generalization source name)) }
        ensures derives { IfOk result (λ n. Derives 1 self.old self.new n hyps.now (plain_term formula)) }
        ensures deduction { OnOk result (IsDeduction self.new) }
        ensures err { OnErr result (self.new ≡ self.old) }
    {
        self.add(
            alloc,
            hyps,
            formula,
            Why::Ugen {
                src: source,
                var: name,
            },
        )
    }

    /// EGEN: the existential formula whose instance with the term is the source.
    pub fn witness(
        &mut self,
        alloc: Global,
        hyps: &Hyps,
        source: u64,
        term: Tm,
        formula: Tm,
    ) -> Result<u64, AllocError>
        requires assumptions { AreAssumptions self.old hyps.now }
        requires formula { IsFormula (plain_term formula) }
        requires premises { Witnesses self.old hyps.now source (plain_term term) (plain_term formula) }
        ensures line { IfOk result (λ n. AddsLine self.old self.new n hyps.now (plain_term formula) (existential source (plain_term term))) }
        ensures derives { IfOk result (λ n. Derives 1 self.old self.new n hyps.now (plain_term formula)) }
        ensures deduction { OnOk result (IsDeduction self.new) }
        ensures err { OnErr result (self.new ≡ self.old) }
    {
        self.add(alloc, hyps, formula, Why::Egen { src: source, term })
    }

    /// RULEC: the source, which may rest on the hypothesis that the existential line holds of the variable of that name.
    pub fn choose(
        &mut self,
        alloc: Global,
        hyps: &Hyps,
        some_line: u64,
        hyp: u64,
        source: u64,
        name: Name,
        formula: Tm,
    ) -> Result<u64, AllocError>
        requires assumptions { AreAssumptions self.old hyps.now }
        requires premises { Chooses self.old hyps.now some_line hyp source name (plain_term formula) }
        ensures line { IfOk result (λ n. AddsLine self.old self.new n hyps.now (plain_term formula) (choice some_line hyp source name)) }
        ensures derives { IfOk result (λ n. Derives 1 self.old self.new n hyps.now (plain_term formula)) }
        ensures deduction { OnOk result (IsDeduction self.new) }
        ensures err { OnErr result (self.new ≡ self.old) }
    {
        let why = Why::Rulec {
            some_line,
            hyp,
            src: source,
            var: name,
        };
        self.add(alloc, hyps, formula, why)
    }

    /// LAMBDA: a formula that is convertible with the source.
    pub fn convert(
        &mut self,
        alloc: Global,
        hyps: &Hyps,
        source: u64,
        formula: Tm,
    ) -> Result<u64, AllocError>
        requires assumptions { AreAssumptions self.old hyps.now }
        requires premises { Converts self.old hyps.now source (plain_term formula) }
        ensures line { IfOk result (λ n. AddsLine self.old self.new n hyps.now (plain_term formula) (conversion source)) }
        ensures derives { IfOk result (λ n. Derives 1 self.old self.new n hyps.now (plain_term formula)) }
        ensures deduction { OnOk result (IsDeduction self.new) }
        ensures err { OnErr result (self.new ≡ self.old) }
    {
        self.add(alloc, hyps, formula, Why::Lambda { src: source })
    }
}
