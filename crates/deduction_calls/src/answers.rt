//! Answers, and why there are none.

use call_lines::answers::push_term;
use core_text::faults::TextFault;
use hol_terms::lists::Terms;
use std::alloc::{AllocError, Global};

/// The answer to a call, as it is printed.
pub type Answer = Result<String, NoAnswer>;

/// Why a call isn't answered.
#[derive(Clone, Copy, Debug)]
pub enum NoAnswer {
    /// No call has that name.
    NoSuchCall,
    /// The arguments aren't as many as the call takes.
    Arguments,
    /// No line has the number.
    NoLine,
    /// A term has no type, or another one than the call takes.
    NotTyped,
    /// A proof text has no expansion proof.
    Rejected,
    /// The arguments are no derivation, form, term or type.
    Text(TextFault),
    /// Memory ran out.
    Memory,
}

impl From<AllocError> for NoAnswer {
    fn from(_error: AllocError) -> NoAnswer {
        NoAnswer::Memory
    }
}

impl From<TextFault> for NoAnswer {
    fn from(fault: TextFault) -> NoAnswer {
        NoAnswer::Text(fault)
    }
}

/// The number, or `none`.
pub fn number_or_none(alloc: Global, number: Option<u64>) -> Answer {
    match number {
        Some(number) => Ok(format!(in alloc; "{number}")?),
        None => Ok(String::from_str(alloc, "none")?),
    }
}

/// Adds the terms, each after a space.
pub fn push_terms(alloc: Global, answer: &mut String, terms: &Terms) -> Result<(), NoAnswer> {
    for t in terms.as_slice() {
        push_term(alloc, answer, t)?;
    }
    Ok(())
}
