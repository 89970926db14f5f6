//! The types of the abstractions around a shared term.

ghost use Rattle.std.specs.Prelude.{◌≡◌, ◌∷◌, [], MatchOption, None, OnOk, Some, slice_get};
ghost use Rattle.hol_terms.specs.Scopes.{inner_types};
ghost use Rattle.hol_terms.specs.Terms.{plain_type};

use hol_terms::types::Ty;
use std::alloc::{AllocError, Global};
use std::marker::Model;

/// The types of the abstractions around a term of a store, which contracts see as their list, the innermost first. They are copies,
/// since a store that grows lends none.
#[derive(Drop)]
pub struct TypesAround {
    outermost_first: Vec<Ty>,
}

impl Model for TypesAround {
    ghost use Rattle.std.specs.Prelude.{List, map, reverse};
    ghost use Rattle.std.specs.Coded.{coded_list};
    ghost use Rattle.hol_terms.specs.Codes.{type_code};
    ghost use Rattle.hol_terms.specs.Terms.{SimpleType, plain_type};

    ghost Value = { List SimpleType };

    ghost coded = { coded_list type_code };

    ghost view = { λ types. reverse (map plain_type types.outermost_first.items) };
}

impl TypesAround {
    /// No abstraction.
    pub fn new(alloc: Global) -> TypesAround
        ensures { result ≡ [] }
    {
        TypesAround {
            outermost_first: Vec::new(alloc),
        }
    }

    /// One more abstraction, inside the others.
    pub fn enter(&mut self, ty: Ty) -> Result<(), AllocError>
        ensures { OnOk result (self.new ≡ plain_type ty ∷ self.old) }
    {
        self.outermost_first.push(ty)?;
        Ok(())
    }

    /// The innermost abstraction is left, where there is one.
    pub fn leave(&mut self)
        ensures { self.new ≡ inner_types self.old }
    {
        self.outermost_first.pop();
    }

    /// The type of a bound index, `None` exactly where there are not that many abstractions.
    pub fn at(&self, index: u64) -> Option<&Ty>
        ensures { MatchOption result (slice_get self.now index ≡ None) (λ ty. slice_get self.now index ≡ Some (plain_type ty.now)) }
    {
        let count = self.outermost_first.len() as u64;
        if index < count {
            Some(&self.outermost_first[(count - 1 - index) as usize])
        } else {
            None
        }
    }
}
