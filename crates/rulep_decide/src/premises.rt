//! The premises of a consequence.

ghost use Rattle.std.specs.Prelude.{◌≡◌, ◌∷◌, ◌++◌, ◌<◌, [], OnErr, OnOk, Some, length, slice_get};
ghost use Rattle.hol_terms.specs.Terms.{plain_term};

use hol_terms::lists::Terms;
use hol_terms::terms::{Tm, copy};
use std::alloc::{AllocError, Global};
use std::marker::Model;

/// The premises, which contracts see as the list of their formulas.
#[derive(Drop)]
pub struct Premises {
    alloc: Global,
    formulas: Terms,
}

impl Model for Premises {
    ghost use Rattle.std.specs.Prelude.{List};
    ghost use Rattle.std.specs.Coded.{coded_list};
    ghost use Rattle.hol_terms.specs.Codes.{term_code};
    ghost use Rattle.hol_terms.specs.Terms.{Term};

    ghost Value = { List Term };

    ghost coded = { coded_list term_code };

    ghost view = { λ premises. premises.formulas };
}

impl Premises {
    /// No premises.
    pub fn new(alloc: Global) -> Premises
        ensures { result ≡ [] }
    {
        Premises {
            alloc,
            formulas: Terms::new(alloc),
        }
    }

    /// A copy of the formula is added at the end; after an error nothing is changed.
    pub fn add(&mut self, formula: &Tm) -> Result<(), AllocError>
        ensures ok { OnOk result (self.new ≡ self.old ++ plain_term formula.now ∷ []) }
        ensures err { OnErr result (self.new ≡ self.old) }
    {
        let formula = copy(self.alloc, formula)?;
        self.formulas.push(formula)
    }

    /// The number of formulas.
    pub fn len(&self) -> u64
        ensures { result ≡ length self.now }
    {
        self.formulas.len()
    }

    /// Formula `i`, counted from 0.
    pub fn at(&self, i: u64) -> &Tm
        requires { i < length self.now }
        ensures { slice_get self.now i ≡ Some (plain_term result.now) }
    {
        self.formulas.at(i)
    }
}
