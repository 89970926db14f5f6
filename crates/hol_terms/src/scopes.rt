//! The types of the abstractions around a term.

ghost use Rattle.std.specs.Prelude.{◌≡◌, ◌∷◌, [], MatchOption, None, OnErr, OnOk, Some, slice_get};
ghost use Rattle.hol_terms.specs.Scopes.{inner_types};
ghost use Rattle.hol_terms.specs.Terms.{plain_type};

use crate::types::Ty;
use std::alloc::{AllocError, Global};
use std::marker::Model;

/// The types of the abstractions around a place of a term, which contracts see as their list, the innermost first.
#[derive(Drop)]
pub struct Scope<'a> {
    outermost_first: Vec<&'a Ty>,
}

impl<'a> Model for Scope<'a> {
    ghost use Rattle.std.specs.Prelude.{List, map, reverse};
    ghost use Rattle.std.specs.Coded.{coded_list};
    ghost use Rattle.hol_terms.specs.Codes.{type_code};
    ghost use Rattle.hol_terms.specs.Terms.{SimpleType, plain_type};

    ghost Value = { List SimpleType };

    ghost coded = { coded_list type_code };

    ghost view = { λ scope. reverse (map (λ ty. plain_type ty.now) scope.outermost_first.items) };
}

impl<'a> Scope<'a> {
    /// No abstraction.
    pub fn new(alloc: Global) -> Scope<'a>
        ensures { result ≡ [] }
    {
        Scope {
            outermost_first: Vec::new(alloc),
        }
    }

    /// One more abstraction, inside the others; after an error nothing is changed.
    pub fn enter(&mut self, ty: &'a Ty) -> Result<(), AllocError>
        ensures ok { OnOk result (self.new ≡ plain_type ty.now ∷ self.old) }
        ensures err { OnErr result (self.new ≡ self.old) }
    {
        self.outermost_first.push(ty)?;
        Ok(())
    }

    /// The innermost abstraction is left, where there is one.
    pub fn leave(&mut self)
        ensures { self.new ≡ inner_types self.old }
    {
        self.outermost_first.pop();
    }

    /// The type of a bound index, `None` exactly where there are not that many abstractions.
    pub fn at(&self, index: u64) -> Option<&'a Ty>
        ensures { MatchOption result (slice_get self.now index ≡ None) (λ ty. slice_get self.now index ≡ Some (plain_type ty.now)) }
    {
        let count = self.outermost_first.len() as u64;
        if index < count {
            Some(self.outermost_first[(count - 1 - index) as usize])
        } else {
            None
        }
    }
}
