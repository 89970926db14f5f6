//! Sets of variables.

ghost use Rattle.std.specs.Prelude.{◌≡◌, ◌↔◌, ◌++◌, ◌∷◌, [], Contains, IfOk, IfSome, IsNone, IsTrue, OnErr, OnOk, Some, length, slice_get, true, false};
ghost use Rattle.hol_terms.specs.Places.{place_of};
ghost use Rattle.hol_terms.specs.Collected.{with_variables};
ghost use Rattle.hol_terms.specs.FreeVariables.{free_variables_of, occurrences};
ghost use Rattle.hol_terms.specs.Terms.{plain_term, plain_type};

use crate::names::Name;
use crate::terms::Tm;
use crate::types::Ty;
use crate::variables::key_of_variable;
use std::alloc::{AllocError, Global};
use std::collections::HashMap;
use std::marker::Model;

/// Variables, each once, in the order in which they came. The place of one is found by the text of its type and its name.
#[derive(Drop)]
pub struct VariableSet {
    alloc: Global,
    variables: Vec<(Name, Ty)>,
    places: HashMap<String, u64>,
}

impl Model for VariableSet {
    ghost use Rattle.std.specs.Prelude.{List, map, ℕ};
    ghost use Rattle.std.specs.Coded.{coded_list, coded×, coded_ℕ};
    ghost use Rattle.hol_terms.specs.Terms.{SimpleType, plain_variable};
    ghost use Rattle.hol_terms.specs.Codes.{type_code};
    ghost use Rattle.hol_terms.specs.Places.{ArePlacesIn};

    ghost Value = { List (List ℕ × SimpleType) };

    ghost coded = { coded_list (coded× (coded_list coded_ℕ) type_code) };

    ghost view = { λ set. map plain_variable set.variables.items };

    ghost invariant = { λ set. ArePlacesIn set.places (map plain_variable set.variables.items) };
}

impl VariableSet {
    /// The set without a variable.
    #[tactic(auto, using(crate::proofs::Placing::are_places_in_none))]
    pub fn new(alloc: Global) -> VariableSet
        ensures { result ≡ [] }
    {
        VariableSet {
            alloc,
            variables: Vec::new(alloc),
            places: HashMap::new(alloc),
        }
    }

    /// How many variables there are.
    pub fn len(&self) -> u64
        ensures { result ≡ length self.now }
    {
        self.variables.len() as u64
    }

    /// The first place of the variable.
    fn found(&self, name: &Name, ty: &Ty) -> Result<Option<u64>, AllocError>
        ensures { IfOk result (λ place. place ≡ place_of (name.now, plain_type ty.now) self.now) }
    {
        let key = key_of_variable(self.alloc, name, ty)?;
        match self.places.get(&key) {
            Some(place) => Ok(Some(*place)),
            None => Ok(None),
        }
    }

    /// The place of the variable, from 0; `None` exactly where it isn't there.
    #[tactic(auto, using(crate::proofs::Placing::place_there, crate::proofs::Placing::place_none))]
    pub fn place(&self, name: &Name, ty: &Ty) -> Result<Option<u64>, AllocError>
        ensures first { IfOk result (λ place. place ≡ place_of (name.now, plain_type ty.now) self.now) }
        ensures there { IfOk result (λ place. IfSome place (λ k. slice_get self.now k ≡ Some (name.now, plain_type ty.now))) }
        ensures none { IfOk result (λ place. IsNone place ↔ (Contains self.now (name.now, plain_type ty.now) → ⊥)) }
    {
        self.found(name, ty)
    }

    /// Puts the variable after the others where it is new, and tells whether it is. An `Err` changes nothing.
    #[tactic(auto, using(crate::proofs::Placing::place_held))]
    pub fn insert(&mut self, name: &Name, ty: &Ty) -> Result<bool, AllocError>
        ensures put { IfOk result
            (λ new. new ≡ true → (Contains self.old (name.now, plain_type ty.now) → ⊥) × (self.new ≡ self.old ++ (name.now, plain_type ty.now) ∷ [])) }
        ensures known { IfOk result (λ new. new ≡ false → Contains self.old (name.now, plain_type ty.now) × (self.new ≡ self.old)) }
        ensures err { OnErr result (self.new ≡ self.old) }
    {
        if self.place(name, ty)?.is_some() {
            return Ok(false);
        }
        self.put(name, ty)?;
        Ok(true)
    }

    /// Puts a new variable after the others. An `Err` changes nothing.
    fn put(&mut self, name: &Name, ty: &Ty) -> Result<(), AllocError>
        requires { Contains self.old (name.now, plain_type ty.now) → ⊥ }
        ensures ok { OnOk result (self.new ≡ self.old ++ (name.now, plain_type ty.now) ∷ []) }
        ensures err { OnErr result (self.new ≡ self.old) }
    {
        let key = key_of_variable(self.alloc, name, ty)?;
        let place = self.variables.len() as u64;
        let name = name.copy(self.alloc)?;
        let ty = ty.copy(self.alloc)?;
        self.variables.push((name, ty))?;
        if self.places.insert(key, place).is_err() {
            self.variables.pop();
            return Err(AllocError);
        }
        Ok(())
    }
}

/// The variables of a term are put into the set where they are new.
#[tactic(auto, using(crate::proofs::Collecting::with_variables_append, crate::proofs::Placing::with_variable_either))]
fn collect_free(set: &mut VariableSet, t: &Tm) -> Result<(), AllocError>
    ensures { OnOk result (set.new ≡ with_variables set.old (occurrences (plain_term t.now))) }
{
    match t {
        Tm::Free(name, ty) => {
            set.insert(name, ty)?;
            Ok(())
        }
        Tm::Bound(_) => Ok(()),
        Tm::Con(_) => Ok(()),
        Tm::App(function, argument) => {
            collect_free(set, function)?;
            collect_free(set, argument)
        }
        Tm::Lam(_, body) => collect_free(set, body),
    }
}

/// The free variables of the term, in the order of first occurrence.
#[tactic(auto, using(crate::proofs::Collecting::with_variables_from_none))]
pub fn free_variable_set(alloc: Global, t: &Tm) -> Result<VariableSet, AllocError>
    ensures { IfOk result (λ set. set ≡ free_variables_of (plain_term t.now)) }
{
    let mut set = VariableSet::new(alloc);
    collect_free(&mut set, t)?;
    Ok(set)
}
