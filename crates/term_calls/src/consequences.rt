//! Calls of `rulep_decide`.

use crate::answers::{Answer, NoAnswer};
use crate::forms::form;
use call_lines::answers::push_term;
use call_lines::arguments::members;
use core_text::sexps::{Sexp, Sexps};
use core_text::terms::read_preterm;
use rulep_decide::premises::Premises;
use rulep_decide::verdicts::{Verdict, follows};
use std::alloc::Global;

/// The formulas that the forms of a list are.
fn formulas(alloc: Global, list: &Sexp) -> Result<Premises, NoAnswer> {
    let mut premises = Premises::new(alloc);
    let mut rest = members(list)?;
    while let Sexps::More(member, more) = rest {
        premises.add(&read_preterm(alloc, &**member)?)?;
        rest = &**more;
    }
    Ok(premises)
}

/// `((PREMISE ..) CONCLUSION)`: `yes` where it follows, and else `no` and the true atoms of an assignment that shows it.
pub fn consequence(alloc: Global, arguments: &str) -> Answer {
    let form = form(alloc, arguments)?;
    let premises = formulas(alloc, form.first())?;
    let conclusion = read_preterm(alloc, form.second())?;
    match follows(alloc, &premises, &conclusion)? {
        Verdict::Follows => Ok(String::from_str(alloc, "yes")?),
        Verdict::Falsified(atoms) => {
            let mut answer = String::from_str(alloc, "no")?;
            for atom in atoms.as_slice() {
                push_term(alloc, &mut answer, atom)?;
            }
            Ok(answer)
        }
    }
}
