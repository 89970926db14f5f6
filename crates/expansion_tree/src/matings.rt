//! Matings.

ghost use Rattle.std.specs.Prelude.{◌≡◌, ◌<◌, ◌++◌, ◌∷◌, [], length, slice_get, OnErr, OnOk, Some};

use hol_terms::lists::Pairs;
use std::alloc::{AllocError, Global};
use std::marker::Model;

/// A list of pairs of leaf numbers (Andrews 1981).
#[derive(Drop)]
pub struct Mating {
    pairs: Pairs,
}

impl Model for Mating {
    ghost use Rattle.std.specs.Prelude.{List, ℕ};

    ghost Value = { List (ℕ × ℕ) };

    ghost view = { λ mating. mating.pairs };
}

impl Mating {
    /// The mating without a pair.
    pub fn new(alloc: Global) -> Mating
        ensures { result ≡ [] }
    {
        Mating {
            pairs: Pairs::new(alloc),
        }
    }

    /// Puts a pair after the others. An `Err` changes nothing.
    pub fn push(&mut self, i: u64, j: u64) -> Result<(), AllocError>
        ensures ok { OnOk result (self.new ≡ self.old ++ (i, j) ∷ []) }
        ensures err { OnErr result (self.new ≡ self.old) }
    {
        self.pairs.push(i, j)
    }

    /// How many pairs there are.
    pub fn len(&self) -> u64
        ensures { result ≡ length self.now }
    {
        self.pairs.len()
    }

    /// The pair at a place, from 0.
    pub fn at(&self, k: u64) -> (u64, u64)
        requires { k < length self.now }
        ensures { slice_get self.now k ≡ Some result }
    {
        self.pairs.at(k)
    }

    /// The pairs in their order.
    pub fn pairs(&self) -> &[(u64, u64)]
        ensures { result.now ≡ self.now }
    {
        self.pairs.as_slice()
    }
}
