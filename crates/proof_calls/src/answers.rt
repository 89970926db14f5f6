//! Answers, and why there are none.

use core_text::faults::TextFault;
use expansion_tree::faults::FitFault;
use std::alloc::{AllocError, Global};

/// The answer to a call, as it is printed.
pub type Answer = Result<String, NoAnswer>;

/// Why a call isn't answered.
#[derive(Clone, Copy, Debug)]
pub enum NoAnswer {
    /// No call has that name.
    NoSuchCall,
    /// The formula has no type, or another one than O.
    NoFormula,
    /// The arguments are no form, term, tree, mating or proof.
    Text(TextFault),
    /// The tree doesn't fit.
    Fit(FitFault),
    /// The pair of this number isn't good.
    BadPair(u64),
    /// Memory ran out.
    Memory,
}

impl From<AllocError> for NoAnswer {
    fn from(_error: AllocError) -> NoAnswer {
        NoAnswer::Memory
    }
}

impl From<TextFault> for NoAnswer {
    fn from(fault: TextFault) -> NoAnswer {
        NoAnswer::Text(fault)
    }
}

impl From<FitFault> for NoAnswer {
    fn from(fault: FitFault) -> NoAnswer {
        NoAnswer::Fit(fault)
    }
}

/// The word with the numbers after it.
pub fn with_numbers(alloc: Global, word: &str, numbers: &[u64]) -> Answer {
    let mut answer = String::from_str(alloc, word)?;
    for number in numbers {
        answer.push_str(format!(in alloc; " {number}")?.as_str())?;
    }
    Ok(answer)
}
