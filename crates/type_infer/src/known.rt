//! The types of known names.

ghost use Rattle.std.specs.Prelude.{◌≡◌, ◌<◌, ◌++◌, ◌∷◌, [], IfOk, OnOk, cond, get_or, length};
ghost use Rattle.std.specs.Option.{option_map};
ghost use Rattle.hol_terms.specs.Terms.{plain_type};
ghost use Rattle.type_infer.specs.Annotations.{known_type};

use hol_terms::lists::Vars;
use hol_terms::names::Name;
use hol_terms::types::Ty;
use hol_terms::variable_sets::VariableSet;
use std::alloc::{AllocError, Global};
use std::marker::Model;

/// Known variables, of which the first of a name is found by a map: the names, each as a variable of type O, and the place of the
/// first variable of each.
#[derive(Drop)]
pub struct Known<'a> {
    variables: &'a Vars,
    names: VariableSet,
    places: Vec<u64>,
}

impl<'a> Model for Known<'a> {
    ghost use Rattle.std.specs.Prelude.{List, ℕ};
    ghost use Rattle.std.specs.Coded.{coded_list, coded×, coded_ℕ};
    ghost use Rattle.hol_terms.specs.Codes.{type_code};
    ghost use Rattle.hol_terms.specs.Terms.{SimpleType};
    ghost use Rattle.type_infer.specs.Known.{TellsKnown};

    ghost Value = { List (List ℕ × SimpleType) };

    ghost coded = { coded_list (coded× (coded_list coded_ℕ) type_code) };

    ghost view = { λ known. known.variables.now };

    ghost invariant = { λ known. TellsKnown known.variables.now known.names known.places.items };
}

impl<'a> Known<'a> {
    /// The variables, in which the first of a name counts.
    #[tactic(auto, using(crate::proofs::Knowing::tells_none))]
    pub fn new(alloc: Global, variables: &'a Vars) -> Result<Known<'a>, AllocError>
        ensures { IfOk result (λ known. known ≡ variables.now) }
    {
        let mut names = VariableSet::new(alloc);
        let mut places = Vec::new(alloc);
        for i in 0..variables.len() {
            let (name, _) = variables.at(i);
            let new = names.insert(name, &Ty::truth())?;
            push_if(&mut places, new, i)?;
        }
        Ok(Known {
            variables,
            names,
            places,
        })
    }

    /// The type of a known name; `None` where it isn't known.
    #[tactic(auto, using(crate::proofs::Knowing::told, crate::proofs::Knowing::told_none))]
    pub fn type_of(&self, name: &Name) -> Result<Option<&Ty>, AllocError>
        ensures { IfOk result (λ ty. option_map (λ t. plain_type t.now) ty ≡ known_type self.now name.now) }
    {
        match self.names.place(name, &Ty::truth())? {
            None => Ok(None),
            Some(place) => {
                let (_, ty) = self.variables.at(place_at(&self.places, place));
                Ok(Some(ty))
            }
        }
    }
}

/// The number is put after the others, where that is asked.
fn push_if(places: &mut Vec<u64>, asked: bool, i: u64) -> Result<(), AllocError>
    ensures { OnOk result (places.new.items ≡ cond asked (places.old.items ++ i ∷ []) places.old.items) }
{
    if asked {
        places.push(i)?;
    }
    Ok(())
}

/// What is kept at place `i`.
fn place_at(places: &[u64], i: u64) -> u64
    requires { i < length places.now }
    ensures { result ≡ get_or places.now i 0 }
{
    places[i as usize]
}
