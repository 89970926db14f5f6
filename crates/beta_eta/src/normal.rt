//! The long normal form of a shared term, and conversion.

ghost use Rattle.std.specs.Prelude.{◌≡◌, ◌<◌, ◌↔◌, [], IfOk, IfSome, IsTrue, List, OnOk};
ghost use Rattle.hol_conv.specs.Conversion.{Conv, IsNormalOf};
ghost use Rattle.hol_conv.specs.NormalForms.{apply_abstraction, apply_abstractions, long_head, normal_form, normal_with, type_of_index};
ghost use Rattle.hol_terms.specs.Terms.{SimpleType, abstraction, plain_type};
ghost use Rattle.hol_terms.specs.Typing.{Typed};
ghost use Rattle.terms_db.specs.Stores.{Grows, IsLive, term_at};
ghost use Rattle.beta_eta.specs.Listed.{AreLive, terms_at};
ghost use Rattle.beta_eta.specs.Normals.{AreNormals, IsNormalAt, head_type, variable_type};

use crate::arguments::Arguments;
use crate::hereditary::instance_of_long;
use crate::long_forms::head_applied;
use crate::shapes::shape_of;
use crate::tables::Table;
use crate::types_around::TypesAround;
use hol_terms::types::Ty;
use std::alloc::{AllocError, Global};
use terms_db::ids::TermId;
use terms_db::nodes::{Node, Shape};
use terms_db::stores::{Db, same_term};

/// A long abstraction applied to a long argument.
fn abstraction_applied(
    alloc: Global,
    db: &mut Db,
    function: TermId,
    argument: TermId,
) -> Result<TermId, AllocError>
    requires function { IsLive db.old function.place }
    requires argument { IsLive db.old argument.place }
    ensures kept { Grows db.old db.new }
    ensures live { IfOk result (λ r. IsLive db.new r.place) }
    ensures term { IfOk result (λ r. term_at db.new r.place ≡ apply_abstraction (term_at db.old function.place) (term_at db.old argument.place)) }
{
    match db.node(function) {
        Node::Lam(ty, body) => {
            let ty = ty.copy(alloc)?;
            let body = *body;
            instance_of_long(alloc, db, &ty, argument, body)
        }
        Node::Free(_, _) => db.application(function, argument),
        Node::Bound(_) => db.application(function, argument),
        Node::Con(_) => db.application(function, argument),
        Node::App(_, _) => db.application(function, argument),
    }
}

/// A long abstraction applied to long arguments, one after another.
fn abstractions_applied(
    alloc: Global,
    db: &mut Db,
    function: TermId,
    arguments: Arguments,
) -> Result<TermId, AllocError>
    requires function { IsLive db.old function.place }
    requires arguments { AreLive db.old arguments }
    ensures kept { Grows db.old db.new }
    ensures live { IfOk result (λ r. IsLive db.new r.place) }
    ensures term { IfOk result (λ r. term_at db.new r.place ≡ apply_abstractions (term_at db.old function.place) (terms_at db.old arguments)) }
{
    let mut function = function;
    let mut arguments = arguments;
    while let Some(argument) = arguments.take_first() {
        function = abstraction_applied(alloc, db, function, argument)?;
    }
    Ok(function)
}

/// The type of an index; O where it has none.
#[tactic(auto, using(hol_conv::proofs::Lookups::lookup_some, hol_conv::proofs::Lookups::lookup_none))]
fn type_of_bound(alloc: Global, types: &TypesAround, index: u64) -> Result<Ty, AllocError>
    ensures { IfOk result (λ ty. plain_type ty ≡ type_of_index types.now index) }
{
    match types.at(index) {
        Some(ty) => ty.copy(alloc),
        None => Ok(Ty::truth()),
    }
}

/// The type of a head: a free variable's, an index's among those around it, or a constant's; O where the term is no head.
fn type_of_head(alloc: Global, db: &Db, types: &TypesAround, head: TermId) -> Result<Ty, AllocError>
    requires { IsLive db.now head.place }
    ensures { IfOk result (λ ty. plain_type ty ≡ head_type types.now (term_at db.now head.place)) }
{
    match db.node(head) {
        Node::Free(_, ty) => ty.copy(alloc),
        Node::Bound(index) => type_of_bound(alloc, types, *index),
        Node::Con(con) => con.type_of(alloc),
        Node::App(_, _) => Ok(Ty::truth()),
        Node::Lam(_, _) => Ok(Ty::truth()),
    }
}

/// The long form of a head with long arguments.
fn head_with(
    alloc: Global,
    db: &mut Db,
    types: &TypesAround,
    head: TermId,
    arguments: Arguments,
) -> Result<TermId, AllocError>
    requires head { IsLive db.old head.place }
    requires arguments { AreLive db.old arguments }
    ensures kept { Grows db.old db.new }
    ensures live { IfOk result (λ r. IsLive db.new r.place) }
    ensures term { IfOk result (λ r. term_at db.new r.place ≡ long_head (head_type types.now (term_at db.old head.place)) (term_at db.old head.place) (terms_at db.old arguments)) }
{
    let ty = type_of_head(alloc, db, types, head)?;
    head_applied(alloc, db, &ty, head, arguments)
}

/// The long normal form of a term, where it was found already: by one table for terms without loose indices, and by one for the others,
/// which is of the innermost abstraction around them.
fn found_normal(db: &Db, closed: &Table, loose: &Table, t: TermId) -> Option<TermId>
    requires { IsLive db.now t.place }
    ensures { IfSome result (λ n. (types : List SimpleType) → AreNormals [] db.now closed.now → AreNormals types db.now loose.now → IsNormalAt types db.now t.place n.place) }
{
    if db.loose_bound(t) == 0 {
        closed.find(t, 0)
    } else {
        loose.find(t, 0)
    }
}

/// The long normal form of a term is kept in the table that has it.
fn keep_normal(
    db: &Db,
    closed: &mut Table,
    loose: &mut Table,
    t: TermId,
    normal: TermId,
) -> Result<(), AllocError>
    requires { IsLive db.now t.place }
    ensures closed { OnOk result ((types : List SimpleType) → AreNormals [] db.now closed.old → IsNormalAt types db.now t.place normal.place → AreNormals [] db.now closed.new) }
    ensures loose { OnOk result ((types : List SimpleType) → AreNormals types db.now loose.old → IsNormalAt types db.now t.place normal.place → AreNormals types db.now loose.new) }
{
    if db.loose_bound(t) == 0 {
        closed.keep(t, 0, normal)
    } else {
        loose.keep(t, 0, normal)
    }
}

/// The long normal form of a term: from the tables where it was found already.
#[cycle(normal)]
fn normal_in(
    alloc: Global,
    db: &mut Db,
    types: &mut TypesAround,
    closed: &mut Table,
    loose: &mut Table,
    t: TermId,
) -> Result<TermId, AllocError>
    requires live { IsLive db.old t.place }
    requires closed { AreNormals [] db.old closed.old }
    requires loose { AreNormals types.old db.old loose.old }
    ensures kept { Grows db.old db.new }
    ensures types { OnOk result (types.new ≡ types.old) }
    ensures closed { OnOk result (AreNormals [] db.new closed.new) }
    ensures loose { OnOk result (AreNormals types.old db.new loose.new) }
    ensures live { IfOk result (λ n. IsLive db.new n.place) }
    ensures term { IfOk result (λ n. term_at db.new n.place ≡ normal_form types.old (term_at db.old t.place)) }
{
    if let Some(found) = found_normal(db, closed, loose, t) {
        return Ok(found);
    }
    let normal = normal_applied(alloc, db, types, closed, loose, t, Arguments::none(alloc))?;
    keep_normal(db, closed, loose, t, normal)?;
    Ok(normal)
}

/// The long normal form of a term that is applied to long arguments.
#[cycle(normal)]
fn normal_applied(
    alloc: Global,
    db: &mut Db,
    types: &mut TypesAround,
    closed: &mut Table,
    loose: &mut Table,
    t: TermId,
    mut arguments: Arguments,
) -> Result<TermId, AllocError>
    requires live { IsLive db.old t.place }
    requires arguments { AreLive db.old arguments }
    requires closed { AreNormals [] db.old closed.old }
    requires loose { AreNormals types.old db.old loose.old }
    ensures kept { Grows db.old db.new }
    ensures types { OnOk result (types.new ≡ types.old) }
    ensures closed { OnOk result (AreNormals [] db.new closed.new) }
    ensures loose { OnOk result (AreNormals types.old db.new loose.new) }
    ensures live { IfOk result (λ n. IsLive db.new n.place) }
    ensures term { IfOk result (λ n. term_at db.new n.place ≡ normal_with types.old (term_at db.old t.place) (terms_at db.old arguments)) }
{
    match shape_of(db, t) {
        Shape::Free => head_with(alloc, db, types, t, arguments),
        Shape::Bound(_) => head_with(alloc, db, types, t, arguments),
        Shape::Con => head_with(alloc, db, types, t, arguments),
        Shape::App(function, argument) => {
            let argument = normal_in(alloc, db, types, closed, loose, argument)?;
            arguments.put_first(argument)?;
            normal_applied(alloc, db, types, closed, loose, function, arguments)
        }
        Shape::Lam(body) => {
            let function = normal_abstraction(alloc, db, types, closed, t, body)?;
            abstractions_applied(alloc, db, function, arguments)
        }
    }
}

/// The abstraction over a variable of the type of the abstraction `t`, with the long normal form of its body. A table for terms with
/// loose indices lasts as long as this.
#[cycle(normal)]
fn normal_abstraction(
    alloc: Global,
    db: &mut Db,
    types: &mut TypesAround,
    closed: &mut Table,
    t: TermId,
    body: TermId,
) -> Result<TermId, AllocError>
    requires live { IsLive db.old t.place }
    requires part { body.place < t.place }
    requires is { (s : SimpleType) × (term_at db.old t.place ≡ abstraction s (term_at db.old body.place)) }
    requires closed { AreNormals [] db.old closed.old }
    ensures kept { Grows db.old db.new }
    ensures types { OnOk result (types.new ≡ types.old) }
    ensures closed { OnOk result (AreNormals [] db.new closed.new) }
    ensures live { IfOk result (λ n. IsLive db.new n.place) }
    ensures term { IfOk result (λ n. term_at db.new n.place ≡ normal_form types.old (term_at db.old t.place)) }
{
    let ty = type_of_variable(alloc, db, t)?;
    types.enter(ty)?;
    let mut loose = Table::new(alloc);
    let body = normal_in(alloc, db, types, closed, &mut loose, body)?;
    types.leave();
    db.abstraction_like(t, body)
}

/// The type of an abstraction's variable; O where the term is no abstraction.
fn type_of_variable(alloc: Global, db: &Db, t: TermId) -> Result<Ty, AllocError>
    requires { IsLive db.now t.place }
    ensures { IfOk result (λ ty. plain_type ty ≡ variable_type (term_at db.now t.place)) }
{
    match db.node(t) {
        Node::Lam(ty, _) => ty.copy(alloc),
        Node::Free(_, _) => Ok(Ty::truth()),
        Node::Bound(_) => Ok(Ty::truth()),
        Node::Con(_) => Ok(Ty::truth()),
        Node::App(_, _) => Ok(Ty::truth()),
    }
}

/// The long normal form of a typed term. The old nodes stay, also after memory ran out.
#[tactic(auto, using(hol_conv::proofs::Uniqueness::normal_form_is))]
pub fn normal_id(alloc: Global, db: &mut Db, id: TermId) -> Result<TermId, AllocError>
    requires live { IsLive db.old id.place }
    requires typed { (s : SimpleType) × Typed [] (term_at db.old id.place) s }
    ensures kept { Grows db.old db.new }
    ensures live { IfOk result (λ n. IsLive db.new n.place) }
    ensures normal { IfOk result (λ n. (s : SimpleType) → Typed [] (term_at db.old id.place) s → IsNormalOf [] s (term_at db.new n.place) (term_at db.old id.place)) }
    ensures computed { IfOk result (λ n. term_at db.new n.place ≡ normal_form [] (term_at db.old id.place)) }
{
    let mut types = TypesAround::new(alloc);
    let mut closed = Table::new(alloc);
    let mut loose = Table::new(alloc);
    normal_in(alloc, db, &mut types, &mut closed, &mut loose, id)
}

/// Whether two typed terms of one type are convertible. The old nodes stay, also after memory ran out.
pub fn convertible_ids(alloc: Global, db: &mut Db, s: TermId, t: TermId) -> Result<bool, AllocError>
    requires first { IsLive db.old s.place }
    requires second { IsLive db.old t.place }
    requires typed { (q : SimpleType) × Typed [] (term_at db.old s.place) q × Typed [] (term_at db.old t.place) q }
    ensures kept { Grows db.old db.new }
    ensures convertible { IfOk result (λ b. (q : SimpleType) → Typed [] (term_at db.old s.place) q → Typed [] (term_at db.old t.place) q → (IsTrue b ↔ Conv [] q (term_at db.old s.place) (term_at db.old t.place))) }
{
    let n = normal_id(alloc, db, s)?;
    let m = normal_id(alloc, db, t)?;
    Ok(same_term(db, n, m))
}
