//! The arguments of a term.

ghost use Rattle.std.specs.Prelude.{◌≡◌, ◌∷◌, [], IfOk, MatchOption, OnErr, OnOk};
ghost use Rattle.hol_conv.specs.NormalForms.{apply_all};
ghost use Rattle.hol_terms.specs.Terms.{plain_term};

use hol_terms::terms::Tm;
use std::alloc::{AllocError, Global};
use std::marker::Model;

/// The arguments of a term, which contracts see as their list, the first one first.
#[derive(Drop)]
pub struct Arguments {
    last_first: Vec<Tm>,
}

impl Model for Arguments {
    ghost use Rattle.std.specs.Prelude.{List, map, reverse};
    ghost use Rattle.std.specs.Coded.{coded_list};
    ghost use Rattle.hol_terms.specs.Codes.{term_code};
    ghost use Rattle.hol_terms.specs.Terms.{Term, plain_term};

    ghost Value = { List Term };

    ghost coded = { coded_list term_code };

    ghost view = { λ arguments. reverse (map plain_term arguments.last_first.items) };
}

impl Arguments {
    /// No arguments.
    pub fn none(alloc: Global) -> Arguments
        ensures { result ≡ [] }
    {
        Arguments {
            last_first: Vec::new(alloc),
        }
    }

    /// One more argument, before the others; after an error nothing is changed.
    pub fn put_first(&mut self, argument: Tm) -> Result<(), AllocError>
        ensures ok { OnOk result (self.new ≡ plain_term argument ∷ self.old) }
        ensures err { OnErr result (self.new ≡ self.old) }
    {
        self.last_first.push(argument)?;
        Ok(())
    }

    /// The first argument is taken out, where there is one.
    pub fn take_first(&mut self) -> Option<Tm>
        ensures { MatchOption result ((self.old ≡ []) × (self.new ≡ [])) (λ argument. self.old ≡ plain_term argument ∷ self.new) }
    {
        self.last_first.pop()
    }
}

/// The term applied to all the arguments.
#[inline(never)]
pub fn applied(alloc: Global, function: Tm, arguments: Arguments) -> Result<Tm, AllocError>
    ensures { IfOk result (λ t. plain_term t ≡ apply_all (plain_term function) arguments) }
{
    let mut function = function;
    let mut arguments = arguments;
    while let Some(argument) = arguments.take_first() {
        function = Tm::app(alloc, function, argument)?;
    }
    Ok(function)
}
