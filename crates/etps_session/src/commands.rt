//! What a session is asked for.

ghost use Rattle.std.specs.Prelude.{◌≡◌, IfOk};
ghost use Rattle.nd_rules.specs.Lines.{choice, plain_why};
ghost use Rattle.etps_session.specs.Commands.{number_of, plain_command, why_of};

use hol_terms::lists::{Hyps, Numbers};
use hol_terms::names::Name;
use hol_terms::terms::{Tm, copy};
use hol_terms::types::Ty;
use nd_rules::lines::Why;
use nd_rules::naming::with_more;
use std::alloc::{AllocError, Global};

/// A command to a session, with the number of its line. Each but P and PLAN makes a line by a rule (Andrews 2002), or justifies the line
/// that is planned at its number.
#[derive(Drop)]
pub enum Command {
    /// P: the formula as a hypothesis, which rests on itself.
    P {
        number: u64,
        formula: Tm,
    },
    /// PLAN: the formula, to be proved under the hypotheses.
    Plan {
        number: u64,
        hyps: Hyps,
        formula: Tm,
    },
    /// DEDUCT: line `hyp` implies line `src`, under the hypotheses of `src` without `hyp`.
    Deduct {
        number: u64,
        src: u64,
        hyp: u64,
    },
    /// UI: the instance of the universal line with the term.
    Ui {
        number: u64,
        src: u64,
        term: Tm,
    },
    /// UGEN: the line, universal over the variable.
    Ugen {
        number: u64,
        src: u64,
        var: Name,
        ty: Ty,
    },
    /// EGEN: the existential formula, whose instance with the term is the line.
    Egen {
        number: u64,
        src: u64,
        term: Tm,
        formula: Tm,
    },
    /// RULEC: line `src`, from the existential line and the hypothesis `hyp` that its instance with the variable holds.
    Rulec {
        number: u64,
        some_line: u64,
        hyp: u64,
        src: u64,
        var: Name,
    },
    /// LAMBDA: the formula, which is convertible with the line.
    Lambda {
        number: u64,
        src: u64,
        formula: Tm,
    },
    /// RULEP: the formula, which follows from the lines by truth assignments.
    Rulep {
        number: u64,
        src: Numbers,
        formula: Tm,
    },
}

/// Equal numbers.
fn copied(alloc: Global, numbers: &Numbers) -> Result<Numbers, AllocError>
    ensures { IfOk result (λ copy. copy ≡ numbers.now) }
{
    with_more(Numbers::new(alloc), numbers.as_slice())
}

/// RULEC with an equal name.
fn by_choice(
    alloc: Global,
    some_line: u64,
    hyp: u64,
    src: u64,
    var: &Name,
) -> Result<Why, AllocError>
    ensures { IfOk result (λ why. plain_why why ≡ choice some_line hyp src var.now) }
{
    let var = var.copy(alloc)?;
    Ok(Why::Rulec {
        some_line,
        hyp,
        src,
        var,
    })
}

impl Command {
    /// The number of its line.
    pub fn number(&self) -> u64
        ensures { result ≡ number_of (plain_command self.now) }
    {
        match self {
            Command::P { number, .. } => *number,
            Command::Plan { number, .. } => *number,
            Command::Deduct { number, .. } => *number,
            Command::Ui { number, .. } => *number,
            Command::Ugen { number, .. } => *number,
            Command::Egen { number, .. } => *number,
            Command::Rulec { number, .. } => *number,
            Command::Lambda { number, .. } => *number,
            Command::Rulep { number, .. } => *number,
        }
    }

    /// What its line is inferred by.
    pub(crate) fn why(&self, alloc: Global) -> Result<Why, AllocError>
        ensures { IfOk result (λ why. plain_why why ≡ why_of (plain_command self.now)) }
    {
        match self {
            Command::P { .. } => Ok(Why::Hyp),
            Command::Plan { .. } => Ok(Why::Planned),
            Command::Deduct { src, hyp, .. } => Ok(Why::Deduct {
                src: *src,
                hyp: *hyp,
            }),
            Command::Ui { src, term, .. } => {
                let term = copy(alloc, term)?;
                Ok(Why::Ui { src: *src, term })
            }
            Command::Ugen { src, var, .. } => {
                let var = var.copy(alloc)?;
                Ok(Why::Ugen { src: *src, var })
            }
            Command::Egen { src, term, .. } => {
                let term = copy(alloc, term)?;
                Ok(Why::Egen { src: *src, term })
            }
            Command::Rulec {
                some_line,
                hyp,
                src,
                var,
                ..
            } => by_choice(alloc, *some_line, *hyp, *src, var),
            Command::Lambda { src, .. } => Ok(Why::Lambda { src: *src }),
            Command::Rulep { src, .. } => {
                let src = copied(alloc, src)?;
                Ok(Why::Rulep { src })
            }
        }
    }
}
