//! Terms.

ghost use Rattle.std.specs.Prelude.{◌≡◌, ◌↔◌, IfOk, IsTrue};
ghost use Rattle.hol_terms.specs.Terms.{abstraction, application, constant, free, plain_constant, plain_term, plain_type};

use crate::names::Name;
use crate::types::Ty;
use std::alloc::{AllocError, Global};

/// A logical constant. `All` and `Ex` are the quantifiers over the given type.
#[derive(Drop)]
pub enum Con {
    Not,
    And,
    Or,
    Implies,
    Truth,
    Falsehood,
    All(Ty),
    Ex(Ty),
}

impl Con {
    /// An equal constant.
    pub fn copy(&self, alloc: Global) -> Result<Con, AllocError>
        ensures { IfOk result (λ con. plain_constant con ≡ plain_constant self.now) }
    {
        match self {
            Con::Not => Ok(Con::Not),
            Con::And => Ok(Con::And),
            Con::Or => Ok(Con::Or),
            Con::Implies => Ok(Con::Implies),
            Con::Truth => Ok(Con::Truth),
            Con::Falsehood => Ok(Con::Falsehood),
            Con::All(ty) => Ok(Con::All(ty.copy(alloc)?)),
            Con::Ex(ty) => Ok(Con::Ex(ty.copy(alloc)?)),
        }
    }

    /// Whether the two constants are equal.
    pub fn same(&self, other: &Con) -> bool
        ensures { IsTrue result ↔ (plain_constant self.now ≡ plain_constant other.now) }
    {
        match (self, other) {
            (Con::Not, Con::Not) => true,
            (Con::And, Con::And) => true,
            (Con::Or, Con::Or) => true,
            (Con::Implies, Con::Implies) => true,
            (Con::Truth, Con::Truth) => true,
            (Con::Falsehood, Con::Falsehood) => true,
            (Con::All(a), Con::All(b)) => a.same(b),
            (Con::Ex(a), Con::Ex(b)) => a.same(b),
            _ => false,
        }
    }
}

/// A term: a free variable (a name with a type), a bound index (counted from 0 at the innermost abstraction around it), a
/// constant, an application, or an abstraction over a variable of the given type.
#[derive(Drop)]
pub enum Tm {
    Free(Name, Ty),
    Bound(u64),
    Con(Con),
    App(Box<Tm>, Box<Tm>),
    Lam(Ty, Box<Tm>),
}

impl Tm {
    /// The function applied to the argument.
    #[inline(never)]
    pub fn app(alloc: Global, function: Tm, argument: Tm) -> Result<Tm, AllocError>
        ensures { IfOk result (λ t. plain_term t ≡ application (plain_term function) (plain_term argument)) }
    {
        let function = Box::new(alloc, function)?;
        let argument = Box::new(alloc, argument)?;
        Ok(Tm::App(function, argument))
    }

    /// The abstraction with this body, over a variable of this type.
    #[inline(never)]
    pub fn lam(alloc: Global, ty: Ty, body: Tm) -> Result<Tm, AllocError>
        ensures { IfOk result (λ t. plain_term t ≡ abstraction (plain_type ty) (plain_term body)) }
    {
        let body = Box::new(alloc, body)?;
        Ok(Tm::Lam(ty, body))
    }

    /// The abstraction with this body, over a variable of an equal type.
    // Called by walks of terms, whose frames stay small.
    #[inline(never)]
    pub fn lam_over(alloc: Global, ty: &Ty, body: Tm) -> Result<Tm, AllocError>
        ensures { IfOk result (λ t. plain_term t ≡ abstraction (plain_type ty.now) (plain_term body)) }
    {
        let ty = ty.copy(alloc)?;
        Tm::lam(alloc, ty, body)
    }

    /// The free variable of an equal name and an equal type.
    #[inline(never)]
    pub fn variable(alloc: Global, name: &Name, ty: &Ty) -> Result<Tm, AllocError>
        ensures { IfOk result (λ t. plain_term t ≡ free name.now (plain_type ty.now)) }
    {
        let name = name.copy(alloc)?;
        let ty = ty.copy(alloc)?;
        Ok(Tm::Free(name, ty))
    }

    /// An equal constant as a term.
    #[inline(never)]
    pub fn constant(alloc: Global, con: &Con) -> Result<Tm, AllocError>
        ensures { IfOk result (λ t. plain_term t ≡ constant (plain_constant con.now)) }
    {
        Ok(Tm::Con(con.copy(alloc)?))
    }
}

/// Whether the two terms are equal.
pub fn same(s: &Tm, t: &Tm) -> bool
    ensures { IsTrue result ↔ (plain_term s.now ≡ plain_term t.now) }
{
    match (s, t) {
        (Tm::Free(name, a), Tm::Free(other, b)) => name.same(other) && a.same(b),
        (Tm::Bound(i), Tm::Bound(j)) => *i == *j,
        (Tm::Con(c), Tm::Con(d)) => c.same(d),
        (Tm::App(f, a), Tm::App(g, b)) => same(f, g) && same(a, b),
        (Tm::Lam(a, s), Tm::Lam(b, t)) => a.same(b) && same(s, t),
        _ => false,
    }
}

/// An equal term.
pub fn copy(alloc: Global, t: &Tm) -> Result<Tm, AllocError>
    ensures { IfOk result (λ c. plain_term c ≡ plain_term t.now) }
{
    match t {
        Tm::Free(name, ty) => Tm::variable(alloc, name, ty),
        Tm::Bound(index) => Ok(Tm::Bound(*index)),
        Tm::Con(con) => Tm::constant(alloc, con),
        Tm::App(function, argument) => {
            let function = copy(alloc, function)?;
            let argument = copy(alloc, argument)?;
            Tm::app(alloc, function, argument)
        }
        Tm::Lam(ty, body) => {
            let body = copy(alloc, body)?;
            Tm::lam_over(alloc, ty, body)
        }
    }
}
