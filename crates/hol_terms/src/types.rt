//! Simple types.

ghost use Rattle.std.specs.Prelude.{◌≡◌, ◌↔◌, ◌++◌, IfOk, IsTrue, OnOk};
ghost use Rattle.hol_terms.specs.Splits.{arguments_of, letter_of};
ghost use Rattle.hol_terms.specs.Terms.{base_type, function_type, plain_type};

use crate::letters::Letter;
use crate::lists::TyList;
use std::alloc::{AllocError, Global};

/// A simple type: a base letter, or the type of the functions to a result from an argument, the result first.
#[derive(Drop)]
pub enum Ty {
    Base(Letter),
    Fun(Box<Ty>, Box<Ty>),
}

impl Ty {
    /// The type of truth values, O.
    pub fn truth() -> Ty
        ensures { plain_type result ≡ base_type 79 }
    {
        Ty::Base(Letter::truth())
    }

    /// The type of the functions to a result from an argument.
    pub fn fun(alloc: Global, result_type: Ty, argument: Ty) -> Result<Ty, AllocError>
        ensures { IfOk result (λ ty. plain_type ty ≡ function_type (plain_type result_type) (plain_type argument)) }
    {
        let result_type = Box::new(alloc, result_type)?;
        let argument = Box::new(alloc, argument)?;
        Ok(Ty::Fun(result_type, argument))
    }

    /// An equal type.
    pub fn copy(&self, alloc: Global) -> Result<Ty, AllocError>
        ensures { IfOk result (λ ty. plain_type ty ≡ plain_type self.now) }
    {
        match self {
            Ty::Base(letter) => Ok(Ty::Base(*letter)),
            Ty::Fun(result_type, argument) => {
                let result_type = result_type.copy(alloc)?;
                let argument = argument.copy(alloc)?;
                Ty::fun(alloc, result_type, argument)
            }
        }
    }

    /// Whether the two types are equal.
    pub fn same(&self, other: &Ty) -> bool
        ensures { IsTrue result ↔ (plain_type self.now ≡ plain_type other.now) }
    {
        match (self, other) {
            (Ty::Base(a), Ty::Base(b)) => a.byte() == b.byte(),
            (Ty::Fun(r, a), Ty::Fun(s, b)) => r.same(s) && a.same(b),
            _ => false,
        }
    }
    /// The types of the arguments that the type asks for, in the order of application, and the letter of the type that is left.
    pub fn split_args(&self, alloc: Global) -> Result<Split, AllocError>
        ensures arguments { IfOk result (λ split. split.args ≡ arguments_of (plain_type self.now)) }
        ensures letter { IfOk result (λ split. split.result.byte ≡ letter_of (plain_type self.now)) }
    {
        let mut args = TyList::new(alloc);
        let letter = self.split_into(alloc, &mut args)?;
        Ok(Split {
            args,
            result: letter,
        })
    }

    /// The types of the arguments are added to the list; answers the letter that is left.
    fn split_into(&self, alloc: Global, args: &mut TyList) -> Result<Letter, AllocError>
        ensures arguments { OnOk result (args.new ≡ args.old ++ arguments_of (plain_type self.now)) }
        ensures letter { IfOk result (λ letter. letter.byte ≡ letter_of (plain_type self.now)) }
    {
        match self {
            Ty::Base(letter) => Ok(*letter),
            Ty::Fun(result_type, argument) => {
                args.push(argument.copy(alloc)?)?;
                result_type.split_into(alloc, args)
            }
        }
    }
}

/// The arguments that a type asks for, in the order of application, and the letter of the type that is left.
#[derive(Drop)]
pub struct Split {
    pub args: TyList,
    pub result: Letter,
}
