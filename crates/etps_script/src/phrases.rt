//! The terms for which the phrases of a command stand.

ghost use Rattle.std.specs.Prelude.{[], IfErr, IfOk, List, Option, Some};
ghost use Rattle.std.specs.Option.{option_map};
ghost use Rattle.hol_terms.specs.Terms.{SimpleType, Variable, plain_term, plain_type, truth_type};
ghost use Rattle.hol_terms.specs.Typing.{IsFormula, Typed};
ghost use Rattle.tps_reader.specs.Raws.{RawFormula, plain_raw};
ghost use Rattle.type_infer.specs.Faults.{IsInferFault, IsOnlyAnnotation};
ghost use Rattle.etps_script.specs.Known.{AreKnown};
ghost use Rattle.etps_script.specs.Phrases.{IsMeaningless, IsUntyped, Means};

use crate::refusals::Refusal;
use hol_terms::lists::Vars;
use hol_terms::terms::Tm;
use hol_terms::types::Ty;
use nd_rules::outlines::Outline;
use std::alloc::Global;
use tps_reader::raws::Raw;
use type_infer::inference::{InferFault, infer};
use type_infer::laws::annotations;

/// The outline beside which a phrase stands, and the variables that it knows.
#[derive(Clone, Copy)]
pub(crate) struct Context<'a> {
    pub(crate) outline: &'a Outline,
    pub(crate) known: &'a Vars,
}

/// The refusal of a phrase without a term.
#[tactic(auto, using(crate::proofs::Meanings::two_terms))]
fn untyped(fault: &InferFault) -> Refusal
    ensures { (raw : RawFormula) (wanted : Option SimpleType) (known : List Variable) → IsInferFault raw wanted known fault.now → IsUntyped raw wanted known result }
{
    match fault {
        InferFault::Memory => Refusal::Memory,
        InferFault::NoTyping(_) => Refusal::NoTyping,
        InferFault::Ambiguous(_, _) => Refusal::Ambiguous,
    }
}

/// The only term for which the phrase stands, with the wanted type, where one is given, and with the types of the known names.
fn typed(alloc: Global, raw: &Raw, wanted: Option<&Ty>, known: &Vars) -> Result<Tm, Refusal>
    ensures only { IfOk result (λ t. IsOnlyAnnotation (plain_raw raw.now) (option_map (λ s. plain_type s.now) wanted.entry) known.now (plain_term t)) }
    ensures fault { IfErr result (λ e. IsUntyped (plain_raw raw.now) (option_map (λ s. plain_type s.now) wanted.entry) known.now e) }
{
    match infer(alloc, raw, wanted, known) {
        Ok(t) => Ok(t),
        Err(fault) => Err(untyped(&fault)),
    }
}

/// The only formula for which the phrase stands, with the types of the known names.
pub(crate) fn formula_beside(alloc: Global, raw: &Raw, known: &Vars) -> Result<Tm, Refusal>
    ensures only { IfOk result (λ t. IsOnlyAnnotation (plain_raw raw.now) (Some truth_type) known.now (plain_term t)) }
    ensures formula { IfOk result (λ t. IsFormula (plain_term t)) }
    ensures fault { IfErr result (λ e. IsUntyped (plain_raw raw.now) (Some truth_type) known.now e) }
{
    annotations();
    let truth = Ty::truth();
    typed(alloc, raw, Some(&truth), known)
}

/// The only formula for which the phrase stands, where the names of the outline are known.
pub(crate) fn formula(alloc: Global, context: Context<'_>, raw: &Raw) -> Result<Tm, Refusal>
    requires { AreKnown context.outline.now context.known.now }
    ensures means { IfOk result (λ t. Means context.entry.outline.now (plain_raw raw.now) (Some truth_type) (plain_term t)) }
    ensures formula { IfOk result (λ t. IsFormula (plain_term t)) }
    ensures fault { IfErr result (λ e. IsMeaningless context.entry.outline.now (plain_raw raw.now) (Some truth_type) e) }
{
    formula_beside(alloc, raw, context.known)
}

/// The only term for which the phrase stands, with the wanted type, where one is given, and where the names of the outline are known.
pub(crate) fn term(
    alloc: Global,
    context: Context<'_>,
    raw: &Raw,
    wanted: Option<&Ty>,
) -> Result<Tm, Refusal>
    requires { AreKnown context.outline.now context.known.now }
    ensures means { IfOk result (λ t. Means context.entry.outline.now (plain_raw raw.now) (option_map (λ s. plain_type s.now) wanted.entry) (plain_term t)) }
    ensures typed { IfOk result (λ t. (s : SimpleType) × Typed [] (plain_term t) s) }
    ensures fault { IfErr result (λ e. IsMeaningless context.entry.outline.now (plain_raw raw.now) (option_map (λ s. plain_type s.now) wanted.entry) e) }
{
    annotations();
    typed(alloc, raw, wanted, context.known)
}
