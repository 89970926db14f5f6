//! Raw formulas: phrases of formula text with the types that were written, before the others are found.

ghost use Rattle.std.specs.Prelude.{◌≡◌};
ghost use Rattle.tps_reader.specs.Grammar.{moved};
ghost use Rattle.tps_reader.specs.Raws.{place_of, plain_raw};

use hol_terms::names::Name;
use hol_terms::terms::Con;
use hol_terms::types::Ty;

/// What binds a variable.
#[derive(Clone, Copy, Debug, PartialEq, Eq)]
pub enum Binder {
    Forall,
    Exists,
    Lambda,
}

/// A connective between two sides. `Equiv` stands for the conjunction of both implications.
#[derive(Clone, Copy, Debug, PartialEq, Eq)]
pub enum Infix {
    And,
    Or,
    Implies,
    Equiv,
}

/// A phrase of formula text. Each ends with its place, the byte, from 0, at which its first token begins; the brackets or the dot
/// around a phrase count as its own tokens.
#[derive(Drop)]
pub enum Raw {
    Var(Name, Option<Ty>, u64),
    Con(Con, u64),
    App(Box<Raw>, Box<Raw>, u64),
    Bind(Binder, Name, Option<Ty>, Box<Raw>, u64),
    Bin(Infix, Box<Raw>, Box<Raw>, u64),
    Not(Box<Raw>, u64),
}

impl Raw {
    /// Where the phrase begins.
    pub fn place(&self) -> u64
        ensures { result ≡ place_of (plain_raw self.now) }
    {
        match self {
            Raw::Var(_, _, place) => *place,
            Raw::Con(_, place) => *place,
            Raw::App(_, _, place) => *place,
            Raw::Bind(_, _, _, _, place) => *place,
            Raw::Bin(_, _, _, place) => *place,
            Raw::Not(_, place) => *place,
        }
    }
    /// The same phrase with another place.
    pub fn moved(self, place: u64) -> Raw
        ensures { plain_raw result ≡ moved place (plain_raw self) }
    {
        match self {
            Raw::Var(name, ty, _) => Raw::Var(name, ty, place),
            Raw::Con(con, _) => Raw::Con(con, place),
            Raw::App(function, argument, _) => Raw::App(function, argument, place),
            Raw::Bind(binder, name, ty, body, _) => Raw::Bind(binder, name, ty, body, place),
            Raw::Bin(op, left, right, _) => Raw::Bin(op, left, right, place),
            Raw::Not(below, _) => Raw::Not(below, place),
        }
    }
}
