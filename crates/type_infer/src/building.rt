//! The term of a phrase, by the types of its numbers.

ghost use Rattle.std.specs.Prelude.{◌≡◌, ◌+◌, [], IfOk};
ghost use Rattle.hol_terms.specs.Terms.{abstraction, application, conjunction, constant, implication, negation, plain_constant, plain_term, plain_type};
ghost use Rattle.tps_reader.specs.Raws.{plain_raw};
ghost use Rattle.type_infer.specs.Annotations.{compound as compound_term, connected as connected_terms, innermost};
ghost use Rattle.type_infer.specs.Assignments.{annotated, bound_over, occurrence as occurrence_of};
ghost use Rattle.type_infer.specs.Cells.{cell_at};
ghost use Rattle.type_infer.specs.Conditions.{own_type};
ghost use Rattle.type_infer.specs.Ordering.{AreShapes, mark_at, number_of};
ghost use Rattle.type_infer.specs.Scopes.{binders};
ghost use Rattle.type_infer.specs.Solutions.{filled, filled_types};

use crate::cells::Cell;
use crate::ordering::{Mark, Ordered};
use crate::scopes::Scope;
use hol_terms::indices::raised_index;
use hol_terms::letters::Letter;
use hol_terms::names::Name;
use hol_terms::terms::{Con, Tm, copy};
use hol_terms::types::Ty;
use std::alloc::{AllocError, Global};
use tps_reader::raws::{Binder, Infix, Raw};

/// Shape `k`; past the end there are open ones.
fn shape_at(shapes: &[Cell], k: u64) -> Cell
    ensures { result ≡ cell_at shapes.now k }
{
    match shapes.get(k as usize) {
        Some(shape) => *shape,
        None => Cell::Open,
    }
}

/// The number of the shape of the type of number `i`.
fn shape_number(marks: &[Mark], i: u64) -> u64
    ensures { result ≡ number_of (mark_at marks.now i) }
{
    match marks.get(i as usize) {
        Some(Mark::Done(number)) => *number,
        _ => 0,
    }
}

/// The type of shape `k`, with the letter where it is open.
#[tactic(auto, using(crate::proofs::Fillings::filled_open, crate::proofs::Fillings::filled_base, crate::proofs::Fillings::filled_same, crate::proofs::Fillings::parts_before))]
fn filled_type(alloc: Global, shapes: &[Cell], k: u64, letter: Letter) -> Result<Ty, AllocError>
    requires { AreShapes shapes.now }
    ensures { IfOk result (λ ty. plain_type ty ≡ filled letter.byte shapes.now k) }
{
    match shape_at(shapes, k) {
        Cell::Open | Cell::Same(_) => Ok(Ty::Base(letter)),
        Cell::Base(other) => Ok(Ty::Base(other)),
        Cell::Function(result_type, argument) => {
            let result_type = filled_type(alloc, shapes, result_type, letter)?;
            let argument = filled_type(alloc, shapes, argument, letter)?;
            let ty = Ty::fun(alloc, result_type, argument)?;
            Ok(ty)
        }
    }
}

/// The type of number `i`, with the letter where it is open.
fn type_of_number(
    alloc: Global,
    solution: &Ordered,
    letter: Letter,
    i: u64,
) -> Result<Ty, AllocError>
    requires { AreShapes solution.now.shapes.items }
    ensures { IfOk result (λ ty. plain_type ty ≡ filled_types letter.byte solution.now.marks.items solution.now.shapes.items i) }
{
    filled_type(
        alloc,
        &solution.shapes,
        shape_number(&solution.marks, i),
        letter,
    )
}

/// A constant applied to two terms.
fn compound(alloc: Global, con: Con, left: Tm, right: Tm) -> Result<Tm, AllocError>
    ensures { IfOk result (λ t. plain_term t ≡ compound_term (plain_constant con) (plain_term left) (plain_term right)) }
{
    let applied = Tm::app(alloc, Tm::Con(con), left)?;
    Tm::app(alloc, applied, right)
}

/// The implication between copies of two sides.
fn forth(alloc: Global, left: &Tm, right: &Tm) -> Result<Tm, AllocError>
    ensures { IfOk result (λ t. plain_term t ≡ compound_term implication (plain_term left.now) (plain_term right.now)) }
{
    let left = copy(alloc, left)?;
    match copy(alloc, right) {
        Ok(right) => compound(alloc, Con::Implies, left, right),
        Err(error) => {
            drop(left);
            Err(error)
        }
    }
}

/// The conjunction of a formula and the implication back between two sides.
fn with_back(alloc: Global, forth: Tm, left: Tm, right: Tm) -> Result<Tm, AllocError>
    ensures { IfOk result (λ t. plain_term t ≡ compound_term conjunction (plain_term forth) (compound_term implication (plain_term right) (plain_term left))) }
{
    match compound(alloc, Con::Implies, right, left) {
        Ok(back) => compound(alloc, Con::And, forth, back),
        Err(error) => {
            drop(forth);
            Err(error)
        }
    }
}

/// Both implications between two sides.
fn equivalence(alloc: Global, left: Tm, right: Tm) -> Result<Tm, AllocError>
    ensures { IfOk result (λ t. plain_term t ≡ connected_terms Infix.Equiv (plain_term left) (plain_term right)) }
{
    match forth(alloc, &left, &right) {
        Ok(forth) => with_back(alloc, forth, left, right),
        Err(error) => {
            drop(left);
            drop(right);
            Err(error)
        }
    }
}

/// A connective between two sides.
fn connected(alloc: Global, op: Infix, left: Tm, right: Tm) -> Result<Tm, AllocError>
    ensures { IfOk result (λ t. plain_term t ≡ connected_terms op (plain_term left) (plain_term right)) }
{
    match op {
        Infix::And => compound(alloc, Con::And, left, right),
        Infix::Or => compound(alloc, Con::Or, left, right),
        Infix::Implies => compound(alloc, Con::Implies, left, right),
        Infix::Equiv => { equivalence(alloc, left, right) }
    }
}

/// A quantifier over a variable of the type.
fn quantified(alloc: Global, quantifier: Con, ty: Ty, body: Tm) -> Result<Tm, AllocError>
    ensures { IfOk result (λ t. plain_term t ≡ application (constant (plain_constant quantifier)) (abstraction (plain_type ty) (plain_term body))) }
{
    match Tm::lam(alloc, ty, body) {
        Ok(predicate) => Tm::app(alloc, Tm::Con(quantifier), predicate),
        Err(error) => {
            drop(quantifier);
            Err(error)
        }
    }
}

/// A binder over a variable of the type.
fn bound(alloc: Global, binder: Binder, ty: Ty, body: Tm) -> Result<Tm, AllocError>
    ensures { IfOk result (λ t. plain_term t ≡ bound_over binder (plain_type ty) (plain_term body)) }
{
    match binder {
        Binder::Lambda => Tm::lam(alloc, ty, body),
        Binder::Forall => match ty.copy(alloc) {
            Ok(own) => quantified(alloc, Con::All(own), ty, body),
            Err(error) => {
                drop(ty);
                drop(body);
                Err(error)
            }
        },
        Binder::Exists => match ty.copy(alloc) {
            Ok(own) => quantified(alloc, Con::Ex(own), ty, body),
            Err(error) => {
                drop(ty);
                drop(body);
                Err(error)
            }
        },
    }
}

/// An occurrence of a name: an index where a binder of the name is around it, and a free variable of the number's type elsewhere.
fn occurrence(
    alloc: Global,
    solution: &Ordered,
    letter: Letter,
    scope: &Scope<'_>,
    name: &Name,
    number: u64,
) -> Result<Tm, AllocError>
    requires { AreShapes solution.now.shapes.items }
    ensures { IfOk result (λ t. plain_term t ≡ occurrence_of (innermost name.now (binders scope.now)) name.now (filled_types letter.byte solution.now.marks.items solution.now.shapes.items number)) }
{
    match scope.innermost(name)? {
        Some((inside, _)) => Ok(Tm::Bound(inside)),
        None => Ok(Tm::Free(
            name.copy(alloc)?,
            type_of_number(alloc, solution, letter, number)?,
        )),
    }
}

/// A term, with the number of the type of its phrase.
#[derive(Drop)]
struct Built {
    term: Tm,
    own: u64,
}

/// A term with the number after the given one.
fn with_next(term: Tm, before: u64) -> Result<Built, AllocError>
    ensures term { IfOk result (λ b. plain_term b.term ≡ plain_term term) }
    ensures own { IfOk result (λ b. b.own ≡ before + 1) }
{
    match raised_index(before, 1) {
        Ok(own) => Ok(Built { term, own }),
        Err(error) => {
            drop(term);
            Err(error)
        }
    }
}

/// A phrase that is applied to another one.
fn applied(alloc: Global, function: Built, argument: Built) -> Result<Built, AllocError>
    ensures term { IfOk result (λ b. plain_term b.term ≡ application (plain_term function.term) (plain_term argument.term)) }
    ensures own { IfOk result (λ b. b.own ≡ argument.own + 1) }
{
    let Built {
        term: function,
        own: _,
    } = function;
    let Built {
        term: argument,
        own,
    } = argument;
    let term = Tm::app(alloc, function, argument)?;
    with_next(term, own)
}

/// A phrase after a binder over a variable of the type.
fn binding(alloc: Global, binder: Binder, ty: Ty, body: Built) -> Result<Built, AllocError>
    ensures term { IfOk result (λ b. plain_term b.term ≡ bound_over binder (plain_type ty) (plain_term body.term)) }
    ensures own { IfOk result (λ b. b.own ≡ body.own + 1) }
{
    let Built { term: body, own } = body;
    let term = bound(alloc, binder, ty, body)?;
    with_next(term, own)
}

/// A connective between two phrases.
fn between(alloc: Global, op: Infix, left: Built, right: Built) -> Result<Built, AllocError>
    ensures term { IfOk result (λ b. plain_term b.term ≡ connected_terms op (plain_term left.term) (plain_term right.term)) }
    ensures own { IfOk result (λ b. b.own ≡ right.own + 1) }
{
    let Built { term: left, own: _ } = left;
    let Built { term: right, own } = right;
    let term = connected(alloc, op, left, right)?;
    with_next(term, own)
}

/// The negation of a phrase.
fn negated(alloc: Global, below: Built) -> Result<Built, AllocError>
    ensures term { IfOk result (λ b. plain_term b.term ≡ application (constant negation) (plain_term below.term)) }
    ensures own { IfOk result (λ b. b.own ≡ below.own + 1) }
{
    let Built { term: below, own } = below;
    let term = Tm::app(alloc, Tm::Con(Con::Not), below)?;
    with_next(term, own)
}

/// The term of a phrase whose numbers begin with `first`, with the letter at each open type.
fn build(
    alloc: Global,
    solution: &Ordered,
    letter: Letter,
    scope: &Scope<'_>,
    first: u64,
    raw: &Raw,
) -> Result<Built, AllocError>
    requires { AreShapes solution.now.shapes.items }
    ensures term { IfOk result (λ b. plain_term b.term ≡ annotated (filled_types letter.byte solution.now.marks.items solution.now.shapes.items) (binders scope.now) first (plain_raw raw.now)) }
    ensures own { IfOk result (λ b. b.own ≡ own_type first (plain_raw raw.now)) }
{
    match raw {
        Raw::Var(name, _, _) => {
            let term = occurrence(alloc, solution, letter, scope, name, first)?;
            Ok(Built { term, own: first })
        }
        Raw::Con(con, _) => {
            let term = Tm::constant(alloc, con)?;
            Ok(Built { term, own: first })
        }
        Raw::App(function, argument, _) => {
            let function = build(alloc, solution, letter, scope, first, function)?;
            let next = raised_index(function.own, 1)?;
            let argument = build(alloc, solution, letter, scope, next, argument)?;
            applied(alloc, function, argument)
        }
        Raw::Bind(binder, name, _, body, _) => {
            let inner = Scope::Under(name, first, scope);
            let body = build(
                alloc,
                solution,
                letter,
                &inner,
                raised_index(first, 1)?,
                body,
            )?;
            let ty = type_of_number(alloc, solution, letter, first)?;
            binding(alloc, *binder, ty, body)
        }
        Raw::Bin(op, left, right, _) => {
            let left = build(alloc, solution, letter, scope, first, left)?;
            let next = raised_index(left.own, 1)?;
            let right = build(alloc, solution, letter, scope, next, right)?;
            between(alloc, *op, left, right)
        }
        Raw::Not(below, _) => {
            let below = build(alloc, solution, letter, scope, first, below)?;
            negated(alloc, below)
        }
    }
}

/// The term of a phrase by a solution of its conditions, with the letter at each open type.
pub fn term_of(
    alloc: Global,
    solution: &Ordered,
    letter: Letter,
    raw: &Raw,
) -> Result<Tm, AllocError>
    requires { AreShapes solution.now.shapes.items }
    ensures { IfOk result (λ t. plain_term t ≡ annotated (filled_types letter.byte solution.now.marks.items solution.now.shapes.items) [] 0 (plain_raw raw.now)) }
{
    let built = build(alloc, solution, letter, &Scope::Outside, 0, raw)?;
    Ok(built.term)
}
