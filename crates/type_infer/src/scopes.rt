//! The binders around a phrase.

ghost use Rattle.std.specs.Prelude.{◌≡◌, IfOk};
ghost use Rattle.type_infer.specs.Annotations.{innermost};
ghost use Rattle.type_infer.specs.Scopes.{binders};

use hol_terms::indices::raised_index;
use hol_terms::names::Name;
use std::alloc::{AllocError, Global};

/// The binders around a phrase, from the innermost on: the name of each, and the number of its variable's type.
#[derive(Clone, Copy)]
pub enum Scope<'a> {
    Outside,
    Under(&'a Name, u64, &'a Scope<'a>),
}

impl<'a> Scope<'a> {
    /// The innermost binder of the name: how many others stand inside it, and the number of its variable's type; `None` where the
    /// name is free.
    #[tactic(auto, using(crate::proofs::Names::innermost_here, crate::proofs::Names::innermost_other))]
    pub fn innermost(&self, name: &Name) -> Result<Option<(u64, u64)>, AllocError>
        ensures { IfOk result (λ binder. binder ≡ innermost name.now (binders self.now)) }
    {
        match self {
            Scope::Outside => Ok(None),
            Scope::Under(binder, number, outer) => {
                if name.same(binder) {
                    return Ok(Some((0, *number)));
                }
                match outer.innermost(name)? {
                    None => Ok(None),
                    Some((inside, number)) => Ok(Some((raised_index(inside, 1)?, number))),
                }
            }
        }
    }
}
