//! Names for selected variables.

ghost use Rattle.std.specs.Prelude.{◌≡◌, ◌≤◌, ◌<◌, ◌+◌, ◌↔◌, ℕ, Contains, IfOk, IsTrue, map};
ghost use Rattle.hol_terms.specs.FreeVariables.{free_variables_of};
ghost use Rattle.hol_terms.specs.Terms.{Variable, plain_term};
ghost use Rattle.tree_growth.specs.Growths.{numbered_name};

use hol_terms::indices::raised_index;
use hol_terms::names::Name;
use hol_terms::terms::Tm;
use hol_terms::variables::free_variables;
use std::alloc::{AllocError, Global};
use std::marker::Model;

/// Names that aren't to be selected.
#[derive(Drop)]
pub struct TakenNames {
    names: Vec<Name>,
}

impl Model for TakenNames {
    ghost use Rattle.std.specs.Prelude.{List, ℕ};

    ghost Value = { List (List ℕ) };

    ghost view = { λ taken. taken.names.items };
}

impl TakenNames {
    /// The names of a formula's free variables.
    pub fn new(alloc: Global, formula: &Tm) -> Result<TakenNames, AllocError>
        ensures { IfOk result (λ taken. taken ≡ map (λ (v : Variable). v.0) (free_variables_of (plain_term formula.now))) }
    {
        let variables = free_variables(alloc, formula)?;
        let mut names = Vec::new(alloc);
        for (name, _) in variables.as_slice() {
            names.push(name.copy(alloc)?)?;
        }
        Ok(TakenNames { names })
    }

    /// Whether the name is one of them.
    fn has(&self, name: &Name) -> bool
        ensures { IsTrue result ↔ Contains self.now name.now }
    {
        self.names.iter().any(|taken| taken.same(name))
    }

    /// The first of the names a1, a2 and so on, from that of the number on, that isn't one of them; and the number after its own.
    pub fn fresh(&self, alloc: Global, from: u64) -> Result<(Name, u64), AllocError>
        ensures name { IfOk result (λ r. (n : ℕ) × (from ≤ n) × (r.0 ≡ numbered_name n) × (r.1 ≡ n + 1)) }
        ensures free { IfOk result (λ r. Contains self.now r.0 → ⊥) }
        ensures first { IfOk result (λ r. (m : ℕ) → from ≤ m → m + 1 < r.1 → Contains self.now (numbered_name m)) }
    {
        let mut number = from;
        loop {
            let name = Name::numbered(alloc, number)?;
            number = raised_index(number, 1)?;
            if !self.has(&name) {
                return Ok((name, number));
            }
        }
    }
}
