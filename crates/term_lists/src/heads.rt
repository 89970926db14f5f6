//! The heads of terms that aren't bound.

ghost use Rattle.std.specs.Prelude.{◌≡◌, ◌<◌, IfOk, Some, length, map, slice_get};
ghost use Rattle.hol_terms.specs.Terms.{plain_term};
ghost use Rattle.term_lists.specs.Heads.{head_term, plain_head};

use hol_terms::names::Name;
use hol_terms::terms::{Con, Tm};
use hol_terms::types::Ty;
use std::alloc::{AllocError, Global};
use std::marker::Model;

/// A head that isn't bound: a free variable, by its name and type, or a constant.
#[derive(Drop)]
pub enum Head {
    Free(Name, Ty),
    Con(Con),
}

impl Head {
    /// The head as a term.
    pub fn term(&self, alloc: Global) -> Result<Tm, AllocError>
        ensures { IfOk result (λ t. plain_term t ≡ head_term (plain_head self.now)) }
    {
        match self {
            Head::Free(name, ty) => Tm::variable(alloc, name, ty),
            Head::Con(con) => Tm::constant(alloc, con),
        }
    }
}

/// The signature of a formula, which contracts see as the list of its heads.
#[derive(Drop)]
pub struct Signature {
    heads: Vec<Head>,
}

impl Model for Signature {
    ghost use Rattle.std.specs.Prelude.{List, map};
    ghost use Rattle.std.specs.Coded.{coded_list};
    ghost use Rattle.expansion_tree.specs.Budgets.{Head as PlainHead};
    ghost use Rattle.term_lists.specs.Heads.{head_code, plain_head};

    ghost Value = { List PlainHead };

    ghost coded = { coded_list head_code };

    ghost view = { λ signature. map plain_head signature.heads.items };
}

impl Signature {
    /// The signature with these heads.
    pub(crate) fn of(heads: Vec<Head>) -> Signature
        ensures { result ≡ map plain_head heads.items }
    {
        Signature { heads }
    }

    /// The number of heads.
    pub fn len(&self) -> u64
        ensures { result ≡ length self.now }
    {
        self.heads.len() as u64
    }

    /// Head `i`, counted from 0.
    pub fn at(&self, i: u64) -> &Head
        requires { i < length self.now }
        ensures { slice_get self.now i ≡ Some (plain_head result.now) }
    {
        &self.heads[i as usize]
    }

    /// The heads as a slice.
    pub fn as_slice(&self) -> &[Head]
        ensures { map plain_head result.now ≡ self.now }
    {
        self.heads.as_slice()
    }
}
