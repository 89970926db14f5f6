//! Heads together with their types.

ghost use Rattle.std.specs.Prelude.{◌≡◌, ◌++◌, IfOk, OnOk, map};
ghost use Rattle.hol_terms.specs.Terms.{plain_term, plain_type};
ghost use Rattle.term_lists.specs.Heads.{head_term, head_type, plain_head};

use crate::heads::Head;
use hol_terms::terms::Tm;
use hol_terms::types::Ty;
use hol_terms::typing::Found;
use std::alloc::{AllocError, Global};
use std::marker::Model;

/// A head with its type. Contracts see the head alone.
#[derive(Drop)]
pub(crate) struct TypedHead<'a> {
    head: &'a Head,
    ty: Found<'a>,
}

impl<'a> Model for TypedHead<'a> {
    ghost use Rattle.std.specs.Prelude.{◌≡◌};
    ghost use Rattle.hol_terms.specs.Found.{found_type};
    ghost use Rattle.expansion_tree.specs.Budgets.{Head as PlainHead};
    ghost use Rattle.term_lists.specs.Heads.{head_code, head_type, plain_head};

    ghost Value = { PlainHead };

    ghost coded = { head_code };

    ghost view = { λ typed. plain_head typed.head.now };

    ghost invariant = { λ typed. found_type typed.ty ≡ head_type (plain_head typed.head.now) };
}

impl<'a> TypedHead<'a> {
    /// The head with its type, which is made where the head is a constant.
    pub(crate) fn new(alloc: Global, head: &'a Head) -> Result<TypedHead<'a>, AllocError>
        ensures { IfOk result (λ typed. typed ≡ plain_head head.now) }
    {
        match head {
            Head::Free(_, ty) => Ok(TypedHead {
                head,
                ty: Found::Lent(ty),
            }),
            Head::Con(con) => Ok(TypedHead {
                head,
                ty: Found::Made(con.type_of(alloc)?),
            }),
        }
    }

    /// The type.
    pub(crate) fn ty(&self) -> &Ty
        ensures { plain_type result.now ≡ head_type self.now }
    {
        self.ty.ty()
    }

    /// The head as a term.
    pub(crate) fn term(&self, alloc: Global) -> Result<Tm, AllocError>
        ensures { IfOk result (λ t. plain_term t ≡ head_term self.now) }
    {
        self.head.term(alloc)
    }
}

/// The heads are added to the list, each with its type.
pub(crate) fn add_typed<'a>(
    alloc: Global,
    heads: &'a [Head],
    typed: &mut Vec<TypedHead<'a>>,
) -> Result<(), AllocError>
    ensures { OnOk result (typed.new.items ≡ typed.old.items ++ map plain_head heads.now) }
{
    for head in heads {
        typed.push(TypedHead::new(alloc, head)?)?;
    }
    Ok(())
}
