//! Lines and what they are inferred by.

use hol_terms::lists::{Hyps, Numbers};
use hol_terms::names::Name;
use hol_terms::terms::Tm;

/// What a line is inferred by, with the numbers of the lines that it cites (Andrews 2002).
#[derive(Drop)]
pub enum Why {
    /// P: a hypothesis, which rests on itself.
    Hyp,
    /// DEDUCT: `hyp IMPLIES src`, with the hypothesis discharged.
    Deduct {
        src: u64,
        hyp: u64,
    },
    /// UI: the instance of a universal line with the term.
    Ui {
        src: u64,
        term: Tm,
    },
    /// UGEN: a universal line, over the variable of that name.
    Ugen {
        src: u64,
        var: Name,
    },
    /// EGEN: an existential line, whose instance with the term is cited.
    Egen {
        src: u64,
        term: Tm,
    },
    /// RULEC: what follows from an existential line, by the hypothesis that its instance with the variable of that name holds.
    Rulec {
        some_line: u64,
        hyp: u64,
        src: u64,
        var: Name,
    },
    /// LAMBDA: a convertible line.
    Lambda {
        src: u64,
    },
    /// RULEP: a line that follows from others by truth assignments.
    Rulep {
        src: Numbers,
    },
    /// Nothing yet.
    Planned,
}

/// A line: its number, the numbers of its hypotheses, its formula, and what it is inferred by.
#[derive(Drop)]
pub struct Line {
    pub number: u64,
    pub hyps: Hyps,
    pub formula: Tm,
    pub why: Why,
}
