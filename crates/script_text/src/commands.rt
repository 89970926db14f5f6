//! What a line of a script asks for.

use hol_terms::lists::{Hyps, Numbers};
use hol_terms::names::Name;
use tps_reader::raws::Raw;

/// What a line of a script asks for. The places in a phrase are counted from the start of the phrase.
#[derive(Drop)]
pub enum ScriptCommand {
    /// White space alone.
    Blank,
    /// Begins anew with the goal.
    Prove {
        number: u64,
        goal: Raw,
    },
    /// Plans a line under the hypotheses.
    Plan {
        number: u64,
        hyps: Hyps,
        formula: Raw,
    },
    P {
        number: u64,
        formula: Raw,
    },
    Deduct {
        number: u64,
        src: u64,
        hyp: u64,
    },
    Ui {
        number: u64,
        src: u64,
        term: Raw,
    },
    /// The variable is a `Raw::Var`.
    Ugen {
        number: u64,
        src: u64,
        var: Raw,
    },
    Egen {
        number: u64,
        src: u64,
        term: Raw,
        formula: Raw,
    },
    Rulec {
        number: u64,
        some_line: u64,
        hyp: u64,
        src: u64,
        var: Name,
    },
    Lambda {
        number: u64,
        src: u64,
        formula: Raw,
    },
    Rulep {
        number: u64,
        src: Numbers,
        formula: Raw,
    },
    /// Takes the last accepted command back.
    Undo,
    /// Whether the goal is derived.
    Done,
}
